//! Strict feasibility of whole inequalities and equations, with a certificate either way (Gordan's alternative).
//!
//! Given rows and equations with `n` columns, `strict` finds a vector on which every row is positive and every equation
//! zero, or multipliers which show that there is none: those of the rows not negative and not all zero, with the zero
//! vector as the sum. With more than three columns a pivoting engine (`small.rt`, and where numbers leave 31 bits `pivoting.rt`)
//! makes a candidate, and exact checks (`check.rt`) judge it. Else, and where there is none that is right, one column is eliminated at a time (Fourier's and
//! Motzkin's elimination, one row at a time), and what is found is carried back. Read `specs/Alternative.antt` first, then
//! `specs/Elimination.antt` and `specs/Recursion.antt`.
#![tactic(auto)]

mod answer;
mod carry;
mod check;
mod eliminate;
mod entries;
mod error;
mod feasibility;
mod found;
mod lift;
mod operations;
mod pivoting;
mod recursion;
mod small;
mod system;
mod table;
mod workspace;

pub use answer::Answer;
pub use check::is_solution;
pub use entries::pivot;
pub use error::{ConeOverflow, GordanError};
pub use feasibility::{gordans_alternative, strict, strict_guessed, strict_plain};
pub use found::Found;
pub use operations::signed;
pub use pivoting::has_least;
