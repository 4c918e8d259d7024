//! Answers about a normal.

use gf_vec::IntVec;

/// A vector that is zero on a normal and positive on all others; or the normal, so many times, as a combination of the
/// others.
///
/// There is a multiplier of each other normal, in their order; none is negative, and `times` is at least 1.
#[derive(Drop)]
pub enum FacetAnswer {
    Facet { witness: IntVec },
    Redundant { times: i128, multipliers: IntVec },
}

/// A vector of a region that is zero on a normal and positive on all others; or the normal, so many times, as a combination of
/// the others, the rows of the region and the unit vectors.
///
/// There is a multiplier of each other normal, then of each row of the region, then of each unit vector, in their order; none is
/// negative, and `times` is at least 1.
#[derive(Drop)]
pub enum FlipAnswer {
    Yes { witness: IntVec },
    No { times: i128, multipliers: IntVec },
}
