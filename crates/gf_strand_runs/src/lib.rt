//! Buchberger's algorithm on polynomials on strands.
//!
//! Start at `strands_in_turn`, a run that takes the pairs in turn, and at `settled`, which reduces what it leaves.
#![tactic(auto)]

mod reduction;
mod turns;

pub use reduction::settled;
pub use turns::strands_in_turn;
