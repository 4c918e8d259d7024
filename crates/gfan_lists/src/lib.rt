//! The command `_bases`, which enumerates the bases of an ideal, and writes them as they are found.
//!
//! `specs/` has its output, and why it is refused.
#![tactic(auto)]

mod after;
mod ahead;
pub mod bases;
mod certificates;
mod given_basis;
pub mod list;
mod within;

pub use gf_groebner_walk::basis_by_several_ways;
