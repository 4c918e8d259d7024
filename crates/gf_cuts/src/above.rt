//! The part of a cone on which one point is above others.
ghost use Rattle.std.specs.Prelude.{◌≡◌, ◌<◌, ℕ, All, IfOk, length};
ghost use Rattle.gf_gordan.specs.Alternative.{AreRows};
ghost use Rattle.gf_rays.specs.Cones.{rows_of};
ghost use Rattle.gf_patterns_theory.specs.PatternRows.{vector_difference};
ghost use Rattle.gf_levels_theory.specs.Parts.{IsPartOver};
ghost use Rattle.gf_cuts.specs.Drawn.{IsDrawnFrom};
ghost use Rattle.gf_cuts.specs.Heights.{AreRowsOver};

use crate::error::CutError;
use gf_rays::Rays;
use gf_vec::{IntVec, VecError};
use std::alloc::Global;

/// One point less another.
///
/// # Errors
/// A difference that leaves the range; want of memory.
pub(crate) fn difference(x: &IntVec, y: &IntVec) -> Result<IntVec, VecError>
    requires { length x.now ≡ length y.now }
    ensures { IfOk result (λ h. h ≡ vector_difference x.now y.now) }
{
    let turned = y.opposite()?;
    Ok(x.add(&turned)?)
}

/// The point at `top` less each of those at these indices but itself.
///
/// # Errors
/// A difference that leaves the range; want of memory.
fn rows_over(
    alloc: Global,
    points: &[IntVec],
    top: usize,
    indices: &[usize],
) -> Result<Vec<IntVec>, VecError>
    requires wide { (n : ℕ) × AreRows n points.now }
    requires top { top < length points.now }
    requires indices { All (λ x. x < length points.now) indices.now }
    ensures { IfOk result (λ out. AreRowsOver points.now top indices.now out.items) }
{
    let mut out = Vec::new(alloc);
    for x in indices {
        if *x != top {
            out.push(difference(&points[top], &points[*x])?)?;
        }
    }
    Ok(out)
}

/// The part of a cone on which none of the points at these indices is above the one at `top`.
///
/// # Errors
/// An operation that leaves the range; want of memory.
pub(crate) fn part_over(
    alloc: Global,
    points: &[IntVec],
    cone: &Rays,
    top: usize,
    indices: &[usize],
) -> Result<Rays, CutError>
    requires wide { AreRows cone.now.ambient points.now }
    requires top { top < length points.now }
    requires indices { All (λ x. x < length points.now) indices.now }
    ensures ambient { IfOk result (λ p. p.ambient ≡ cone.now.ambient) }
    ensures part { IfOk result (λ p. IsPartOver cone.now.ambient points.now top indices.now (rows_of cone.now) (rows_of p)) }
    ensures rows { IfOk result (λ p. IsDrawnFrom points.now (rows_of cone.now) (rows_of p)) }
{
    let rows = rows_over(alloc, points, top, indices)?;
    Ok(cone.with_more(&rows)?)
}
