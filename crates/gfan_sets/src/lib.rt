//! The commands on sets of polynomials and on single bases, each a module with a function from the bytes of the input to the bytes of the
//! output.
//!
//! `specs/` has a file for each command: its output, and why it is refused.
#![tactic(auto)]

pub mod buchberger;
pub mod containment;
pub mod homogenize;
pub mod initial_forms;
pub mod leading_terms;
pub mod mark_polynomial_set;
pub mod marked;
pub mod polynomial_set_union;
pub mod saturation;
pub mod stats;
pub mod weight_vector;
