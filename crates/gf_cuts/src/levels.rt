//! One level: each cone cut by all points of a polynomial.
ghost use Rattle.std.specs.Prelude.{◌≡◌, IfOk, All, map};
ghost use Rattle.gf_gordan.specs.Alternative.{AreRows};
ghost use Rattle.gf_rays.specs.Cones.{RowsAndRays, rows_of};
ghost use Rattle.gf_levels_theory.specs.Levels.{IsLevel};
ghost use Rattle.gf_cuts.specs.Drawn.{AreDrawnFrom};

use crate::error::CutError;
use crate::inside::{joined, outer};
use crate::parts::parts_of;
use gf_levels_theory::Members;
use gf_rays::Rays;
use gf_vec::IntVec;
use std::alloc::Global;

/// The parts of all cones in one list.
///
/// # Errors
/// An operation that leaves the range; want of memory.
#[tactic(auto, using(crate::proofs::DrawnLaws::drawn_none))]
fn parts_of_all(
    members: Members,
    alloc: Global,
    n: u32,
    points: &[IntVec],
    cones: Vec<Rays>,
) -> Result<Vec<Rays>, CutError>
    requires wide { AreRows n points.now }
    requires ambient { All (λ (c : RowsAndRays). c.ambient ≡ n) cones.items }
    ensures ambient { IfOk result (λ out. All (λ (c : RowsAndRays). c.ambient ≡ n) out.items) }
    ensures level { IfOk result (λ out. IsLevel members n points.now (map rows_of cones.items) (map rows_of out.items)) }
    ensures rows { IfOk result (λ out. AreDrawnFrom points.now (map rows_of cones.items) (map rows_of out.items)) }
{
    let mut out = Vec::new(alloc);
    for cone in cones {
        let parts = parts_of(members, alloc, points, cone)?;
        out = joined(out, parts)?;
    }
    Ok(out)
}

/// The parts of the cones on which one of the points, or two of them, are highest: for each cone and each point, or pair of points, one of the parts
/// holds the vectors of the cone at which these points are highest, and each of the parts is of this kind. Parts whose rays are some of those
/// of another part are left out.
///
/// On each cone the points that are nowhere above another one, as the products with the rays and the lineality vectors show, take no double
/// description of their own.
///
/// # Errors
/// `Wide`: an operation whose outcome leaves the range from `-(2^127 - 1)` to `2^127 - 1`. `Memory`: want of memory.
pub fn level(
    members: Members,
    alloc: Global,
    n: u32,
    points: &[IntVec],
    cones: Vec<Rays>,
) -> Result<Vec<Rays>, CutError>
    requires wide { AreRows n points.now }
    requires ambient { All (λ (c : RowsAndRays). c.ambient ≡ n) cones.items }
    ensures ambient { IfOk result (λ out. All (λ (c : RowsAndRays). c.ambient ≡ n) out.items) }
    ensures level { IfOk result (λ out. IsLevel members n points.now (map rows_of cones.items) (map rows_of out.items)) }
    ensures rows { IfOk result (λ out. AreDrawnFrom points.now (map rows_of cones.items) (map rows_of out.items)) }
{
    let parts = parts_of_all(members, alloc, n, points, cones)?;
    Ok(outer(alloc, n, parts)?)
}
