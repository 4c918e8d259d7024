//! What the recursion finds, and what a candidate for an answer is.

use gf_vec::IntVec;

/// A point, or multipliers of the rows and then of the equations.
#[derive(Drop)]
pub enum Found {
    Point(IntVec),
    Farkas(IntVec),
}
