//! Polynomials and marked sets written as rows, for the tests of other crates.
#![tactic(auto)]

mod sets;
mod terms;

pub use sets::{lists_members, marked, marked_set, polys};
pub use terms::{lists, poly};
