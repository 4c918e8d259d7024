//! Polynomials on strands: the terms of polynomials along a vector, and their remainders.
//!
//! Start at `split_parts`, which takes out the parts of the members of a set, and at `take_part`, which reduces one.
#![tactic(auto)]

mod along;
mod forms;
mod room;
mod spare;
mod strands;

pub use along::{Split, are_single, is_apart, parts, pivot_of, split_parts};
pub use forms::{are_left, is_covered, is_left, remainder, strand_below, take_in, take_part};
pub use room::with_room;
pub use spare::SpareLists;
pub use strands::{Ground, Part, Point, Strand, one, spot, subtract};
