//! The commands on cones and fans, each a module with a function from the bytes of the input, or of two files, to the bytes of the output.
//!
//! `specs/` has a file for each command: its output, and why it is refused.
#![tactic(auto)]

pub mod basis_test;
pub mod common_refinement;
mod fan_text;
pub mod groebner_cone;
pub mod homogeneity_space;
pub mod migrate_fan;
pub mod to_polyhedral_fan;
pub mod told_cone;
pub mod tropical;
pub mod tropical_intersection;
