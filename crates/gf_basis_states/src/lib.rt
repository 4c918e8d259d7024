//! The bases of an ideal as the states of sessions: across each facet that a flip may cross, and back.
//!
//! Start at `BasisStates`, a `Moves` of `gf_session`. A state is a marked reduced Gröbner basis. Its moves are numbered from 0 by the
//! normals that a flip may cross, in ascending order; a step is the normal that was crossed.
#![tactic(auto)]

mod crossable;
mod laws;
mod moves;
mod prompt;
mod state;

pub use crossable::crossable_normals;
pub use laws::trails_are_determined;
pub use moves::BasisStates;
pub use prompt::push_prompt;
pub use state::BasisState;
