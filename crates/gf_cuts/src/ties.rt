//! The part of a cone on which two points are equally high.
ghost use Rattle.std.specs.Prelude.{◌≡◌, ◌<◌, ◌≤◌, ◌↔◌, [], ◌∷◌, ℕ, pos, IfOk, IsTrue, length, slice_index_or};
ghost use Rattle.gf_gordan.specs.Alternative.{AreRows};
ghost use Rattle.gf_patterns_theory.specs.PatternRows.{point_at, vector_difference};
ghost use Rattle.gf_rays.specs.Cones.{rows_of};
ghost use Rattle.gf_levels_theory.specs.Parts.{IsTopOn, IsTiePart};
ghost use Rattle.gf_cuts.specs.Drawn.{IsDrawnFrom};
ghost use Rattle.gf_cuts.specs.Heights.{table, AreTiedIndices};

use crate::above::difference;
use crate::error::CutError;
use gf_rays::Rays;
use gf_vec::{IntVec, VecError};
use std::alloc::Global;

/// Whether two lists have the same entry at an index.
fn is_same_at(left: &[i128], right: &[i128], k: usize) -> bool
    requires first { k < length left.now }
    requires second { k < length right.now }
    ensures { IsTrue result ↔ (slice_index_or left.now k (pos 0) ≡ slice_index_or right.now k (pos 0)) }
{
    left[k] == right[k]
}

/// The indices below a number, ascending, at which two vectors have the same entry.
///
/// # Errors
/// Want of memory, as where there are `2^32` indices or more.
fn tied_indices(alloc: Global, x: &IntVec, y: &IntVec, count: usize) -> Result<Vec<u32>, CutError>
    requires first { count ≤ length x.now }
    requires second { count ≤ length y.now }
    ensures { IfOk result (λ out. AreTiedIndices x.now y.now count out.items) }
{
    let left = x.as_slice();
    let right = y.as_slice();
    let Ok(end) = u32::try_from(count) else {
        return Err(CutError::Memory);
    };
    let mut out = Vec::new(alloc);
    for k in 0..end {
        if is_same_at(left, right, k as usize) {
            out.push(k)?;
        }
    }
    Ok(out)
}

/// One point less another one, as the only row.
///
/// # Errors
/// A difference that leaves the range; want of memory.
fn tie_row(alloc: Global, points: &[IntVec], top: usize, x: usize) -> Result<Vec<IntVec>, VecError>
    requires wide { (n : ℕ) × AreRows n points.now }
    requires top { top < length points.now }
    requires index { x < length points.now }
    ensures { IfOk result (λ out. out.items ≡ vector_difference (point_at points.now top) (point_at points.now x) ∷ []) }
{
    let mut out = Vec::with_capacity(alloc, 1)?;
    out.push(difference(&points[top], &points[x])?)?;
    Ok(out)
}

/// The part of a cone, on which the point at `top` is highest, on which that at `x` is as high: it has the rays on which both have the same product, so
/// no double description is needed.
///
/// # Errors
/// An operation that leaves the range; want of memory.
pub(crate) fn tie_part(
    alloc: Global,
    points: &[IntVec],
    cone: &Rays,
    rows: &[IntVec],
    top: usize,
    x: usize,
) -> Result<Rays, CutError>
    requires wide { AreRows cone.now.ambient points.now }
    requires rows { rows.now ≡ table cone.now points.now }
    requires top { top < length points.now }
    requires index { x < length points.now }
    requires highest { IsTopOn cone.now.ambient points.now top (rows_of cone.now) }
    ensures ambient { IfOk result (λ p. p.ambient ≡ cone.now.ambient) }
    ensures part { IfOk result (λ p. IsTiePart cone.now.ambient points.now top x (rows_of cone.now) (rows_of p)) }
    ensures rows { IfOk result (λ p. IsDrawnFrom points.now (rows_of cone.now) (rows_of p)) }
{
    let rays = cone.rays();
    let numbers = tied_indices(alloc, &rows[top], &rows[x], rays.len())?;
    let zero = tie_row(alloc, points, top, x)?;
    Ok(cone.part(&zero, &numbers)?)
}
