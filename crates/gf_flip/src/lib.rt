//! Crossing a facet: the marked reduced Gröbner basis on the other side.
//!
//! Start at `flip`. What neighbours are, and why there is one at most, stands in `gf_facets_theory` and `gf_initial_theory`.
#![tactic(auto)]

mod chosen;
mod error;
mod flips;
mod limits;
mod queued;

pub use error::TreeError;
pub use flips::{FlipError, flip, flip_near};
pub use gf_strands::SpareLists;
