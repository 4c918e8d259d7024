//! At which vectors of the closed cone of a Gröbner basis the initial ideal has a polynomial with a single term: one vector for each face
//! of the intersection of that cone with another one.
//!
//! Start at `at_cone`; `specs/Outcomes.antt` has the meaning of its result.
#![tactic(auto)]

mod cones;
mod cutting;
mod error;
mod faces;
mod forms;
mod passed;
mod seen;
mod sums;
mod vectors;

pub use cones::at_cone;
pub use error::InitialError;
pub use passed::Passed;
pub use seen::Seen;
