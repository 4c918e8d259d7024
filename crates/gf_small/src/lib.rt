//! Small tools on sets of polynomials: leading terms, marks by a weight, initial forms, homogenization, unions, statistics. `specs/` has
//! the meaning of the result of each, a file for each topic.
#![tactic(auto)]

mod counts;
mod degrees;
mod homogenization;
mod initial;
mod leading;
mod marks;
mod space;
mod statistics;
mod unions;

pub use counts::{Stats, degree_of_set};
pub use homogenization::{SmallError, homogenize};
pub use initial::initial_forms;
pub use leading::leading_terms;
pub use marks::mark_set;
pub use space::homogeneity;
pub use statistics::stats;
pub use unions::union;
