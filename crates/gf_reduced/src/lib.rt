//! Checks of marked sets: whether a marking has a positive weight, whether the set is a Gröbner basis for it, whether it is the
//! reduced one, and membership in the ideal of a basis.
#![tactic(auto)]

mod bases;
mod criteria;
mod error;
mod forms;
mod membership;
mod pairs;
mod terms;
mod weights;

pub use bases::{is_marked_basis, require_basis, require_reduced};
pub use error::CheckError;
pub use membership::contains;
pub use weights::positive;
