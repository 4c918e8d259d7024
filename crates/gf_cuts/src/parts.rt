//! The parts of one cone.
ghost use Rattle.std.specs.Prelude.{◌≡◌, ◌<◌, [], ◌∷◌, ℕ, All, IfOk, length, map};
ghost use Rattle.std.specs.List.{AllZip};
ghost use Rattle.gf_gordan.specs.Alternative.{AreRows};
ghost use Rattle.gf_rays.specs.Cones.{RowsAndRays, rows_of};
ghost use Rattle.gf_cuts.specs.Drawn.{AreDrawnFrom};
ghost use Rattle.gf_cuts.specs.Heights.{table, HasItsRays};
ghost use Rattle.gf_levels_theory.specs.Levels.{IsLevel};
ghost use Rattle.gf_levels_theory.specs.Parts.{IsTopOn, AreTops, IsTiePart, AreTieParts, AreTopParts, AreOfTop, AreOfTops};

use crate::above::part_over;
use crate::error::CutError;
use crate::heights::table;
use crate::highest::tops;
use crate::inside::{joined, outer};
use crate::marks::{is_some_zero, mark_rows};
use crate::thinning::{indices_but, thinned};
use crate::ties::tie_part;
use gf_levels_theory::Members;
use gf_rays::Rays;
use gf_vec::IntVec;
use std::alloc::{AllocError, Global};

/// The one cone.
///
/// # Errors
/// Want of memory alone.
fn alone(alloc: Global, cone: Rays) -> Result<Vec<Rays>, AllocError>
    ensures { IfOk result (λ out. out.items ≡ cone ∷ []) }
{
    let mut out = Vec::with_capacity(alloc, 1)?;
    out.push(cone)?;
    Ok(out)
}

/// The parts of a cone on which the points at these indices are as high as the one at `top`.
///
/// # Errors
/// An operation that leaves the range; want of memory.
#[tactic(auto, using(crate::proofs::DrawnLaws::drawn_none))]
fn tie_parts(
    alloc: Global,
    points: &[IntVec],
    cone: &Rays,
    rows: &[IntVec],
    top: usize,
    indices: &[usize],
) -> Result<Vec<Rays>, CutError>
    requires wide { AreRows cone.now.ambient points.now }
    requires rows { rows.now ≡ table cone.now points.now }
    requires top { top < length points.now }
    requires indices { All (λ x. x < length points.now) indices.now }
    requires highest { IsTopOn cone.now.ambient points.now top (rows_of cone.now) }
    ensures ambient { IfOk result (λ out. All (λ (p : RowsAndRays). p.ambient ≡ cone.now.ambient) out.items) }
    ensures parts { IfOk result (λ out. AllZip (λ (x : ℕ) (p : RowsAndRays). IsTiePart cone.now.ambient points.now top x (rows_of cone.now) (rows_of p))
        indices.now out.items) }
    ensures rows { IfOk result (λ out. AreDrawnFrom points.now (rows_of cone.now ∷ []) (map rows_of out.items)) }
{
    let mut out = Vec::with_capacity(alloc, indices.len())?;
    for x in indices {
        out.push(tie_part(alloc, points, cone, rows, top, *x)?)?;
    }
    Ok(out)
}

/// The parts of a cone, on which the point at `top` is highest, on which another one is as high: the cone itself, where another one is so on all
/// of it; else for each other one its part, but for some that lie inside another one.
///
/// # Errors
/// An operation that leaves the range; want of memory.
fn all_tie_parts(
    alloc: Global,
    points: &[IntVec],
    cone: Rays,
    rows: &[IntVec],
    top: usize,
) -> Result<Vec<Rays>, CutError>
    requires wide { AreRows cone.ambient points.now }
    requires rays { HasItsRays cone }
    requires rows { rows.now ≡ table cone points.now }
    requires top { top < length points.now }
    requires highest { IsTopOn cone.ambient points.now top (rows_of cone) }
    ensures ambient { IfOk result (λ out. All (λ (p : RowsAndRays). p.ambient ≡ cone.ambient) out.items) }
    ensures parts { IfOk result (λ out. AreTieParts cone.ambient points.now top (rows_of cone) (map rows_of out.items)) }
    ensures rows { IfOk result (λ out. AreDrawnFrom points.now (rows_of cone ∷ []) (map rows_of out.items)) }
{
    let marks = mark_rows(alloc, rows, top)?;
    let others = indices_but(alloc, points.len(), top)?;
    let kept = thinned(alloc, &marks, &others)?;
    if is_some_zero(&marks, &kept) {
        return Ok(alone(alloc, cone)?);
    }
    tie_parts(alloc, points, &cone, rows, top, &kept)
}

/// The parts of a cone on which the point at `top` is highest.
///
/// # Errors
/// An operation that leaves the range; want of memory.
fn top_parts(
    members: Members,
    alloc: Global,
    points: &[IntVec],
    cone: Rays,
    rows: &[IntVec],
    top: usize,
) -> Result<Vec<Rays>, CutError>
    requires wide { AreRows cone.ambient points.now }
    requires rays { HasItsRays cone }
    requires rows { rows.now ≡ table cone points.now }
    requires top { top < length points.now }
    requires highest { IsTopOn cone.ambient points.now top (rows_of cone) }
    ensures ambient { IfOk result (λ out. All (λ (p : RowsAndRays). p.ambient ≡ cone.ambient) out.items) }
    ensures parts { IfOk result (λ out. AreTopParts members cone.ambient points.now top (rows_of cone) (map rows_of out.items)) }
    ensures rows { IfOk result (λ out. AreDrawnFrom points.now (rows_of cone ∷ []) (map rows_of out.items)) }
{
    match members {
        Members::One => Ok(alone(alloc, cone)?),
        Members::Two => all_tie_parts(alloc, points, cone, rows, top),
    }
}

/// The parts of a cone on which the point at `top` is highest, where each point is nowhere above one of those at `tops`.
///
/// # Errors
/// An operation that leaves the range; want of memory.
fn parts_over(
    members: Members,
    alloc: Global,
    points: &[IntVec],
    cone: &Rays,
    top: usize,
    tops: &[usize],
) -> Result<Vec<Rays>, CutError>
    requires wide { AreRows cone.now.ambient points.now }
    requires top { top < length points.now }
    requires inside { All (λ x. x < length points.now) tops.now }
    requires tops { AreTops cone.now.ambient points.now (rows_of cone.now) tops.now }
    ensures ambient { IfOk result (λ out. All (λ (p : RowsAndRays). p.ambient ≡ cone.now.ambient) out.items) }
    ensures parts { IfOk result (λ out. AreOfTop members cone.now.ambient points.now (rows_of cone.now) tops.now top (map rows_of out.items)) }
    ensures rows { IfOk result (λ out. AreDrawnFrom points.now (rows_of cone.now ∷ []) (map rows_of out.items)) }
{
    let part = part_over(alloc, points, cone, top, tops)?;
    let rows = table(alloc, points, &part)?;
    top_parts(members, alloc, points, part, &rows, top)
}

/// The parts of a cone on which one of the points at `tops` is highest, where each point is nowhere above one of them.
///
/// # Errors
/// An operation that leaves the range; want of memory.
#[tactic(auto, using(crate::proofs::DrawnLaws::drawn_none))]
fn all_parts_over(
    members: Members,
    alloc: Global,
    points: &[IntVec],
    cone: &Rays,
    tops: &[usize],
) -> Result<Vec<Rays>, CutError>
    requires wide { AreRows cone.now.ambient points.now }
    requires inside { All (λ x. x < length points.now) tops.now }
    requires tops { AreTops cone.now.ambient points.now (rows_of cone.now) tops.now }
    ensures ambient { IfOk result (λ out. All (λ (p : RowsAndRays). p.ambient ≡ cone.now.ambient) out.items) }
    ensures parts { IfOk result (λ out. AreOfTops members cone.now.ambient points.now (rows_of cone.now) tops.now tops.now (map rows_of out.items)) }
    ensures rows { IfOk result (λ out. AreDrawnFrom points.now (rows_of cone.now ∷ []) (map rows_of out.items)) }
{
    let mut out = Vec::new(alloc);
    for top in tops {
        let parts = parts_over(members, alloc, points, cone, *top, tops)?;
        out = joined(out, parts)?;
    }
    Ok(out)
}

/// The parts of a cone on which one of the points, or two of them, are highest, but for those that lie inside another one, as their rays show.
///
/// # Errors
/// An operation that leaves the range; want of memory.
pub(crate) fn parts_of(
    members: Members,
    alloc: Global,
    points: &[IntVec],
    cone: Rays,
) -> Result<Vec<Rays>, CutError>
    requires { AreRows cone.ambient points.now }
    ensures ambient { IfOk result (λ out. All (λ (p : RowsAndRays). p.ambient ≡ cone.ambient) out.items) }
    ensures level { IfOk result (λ out. IsLevel members cone.ambient points.now (rows_of cone ∷ []) (map rows_of out.items)) }
    ensures rows { IfOk result (λ out. AreDrawnFrom points.now (rows_of cone ∷ []) (map rows_of out.items)) }
{
    let rows = table(alloc, points, &cone)?;
    let kept = tops(alloc, points, &cone, &rows)?;
    if kept.len() == 1 {
        return top_parts(members, alloc, points, cone, &rows, kept[0]);
    }
    let parts = all_parts_over(members, alloc, points, &cone, &kept)?;
    Ok(outer(alloc, cone.ambient(), parts)?)
}
