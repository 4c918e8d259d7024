//! Rays brought along the lineality space by means of the rows that are zero on them.
ghost use Rattle.std.specs.Prelude.{◌≡◌, ◌<◌, ◌++◌, IfOk, IfSome, IsTrue, length};
ghost use Rattle.std.specs.List.{AllZip};
ghost use Rattle.gf_int_theory.specs.Content.{IsPrimitive};
ghost use Rattle.gf_vec.specs.Vector.{values};
ghost use Rattle.gf_vec.specs.Primitive.{IsPrimitivePart};
ghost use Rattle.gf_gordan.specs.Alternative.{AreRows};
ghost use Rattle.gf_rays.specs.MarkedRays.{AreFlagged, AreRays};
ghost use Rattle.gf_rays.specs.Projections.{IsProjection, IsProjectedRay};

use crate::combine::dot_at;
use crate::ray::Ray;
use crate::step::find_line;
use crate::straight::{orthogonalize, straighten};
use gf_gordan::GordanError;
use gf_vec::{IntVec, copied, is_same, joined};
use std::alloc::Global;

/// What each row gives on the vector, divided by the content.
fn shares(alloc: Global, rows: &[IntVec], x: &IntVec) -> Result<IntVec, GordanError>
    requires { AreRows (length x.now) rows.now }
    ensures { IfOk result (IsPrimitivePart (values rows.now x.now)) }
{
    let mut given = Vec::with_capacity(alloc, rows.len())?;
    for h in rows {
        let v = dot_at(0, h, x)?;
        given.push(v)?;
    }
    let mut out = IntVec::from_vec(given);
    out.primitive();
    Ok(out)
}

/// Whether the rows give the same on both but for a positive factor, and `y` is orthogonal to the lineality vectors.
fn is_projection(
    alloc: Global,
    rows: &[IntVec],
    lineality: &[IntVec],
    x: &IntVec,
    y: &IntVec,
) -> Result<bool, GordanError>
    requires rows { AreRows (length x.now) rows.now }
    requires lineality { AreRows (length x.now) lineality.now }
    requires same { length y.now ≡ length x.now }
    ensures { IfOk result (λ yes. IsTrue yes → IsProjection rows.now lineality.now x.now y.now) }
{
    match find_line(0, y, lineality)? {
        Some(_) => Ok(false),
        None => {
            let of_x = shares(alloc, rows, x)?;
            let of_y = shares(alloc, rows, y)?;
            Ok(is_same(&of_x, &of_y))
        }
    }
}

/// The rows that are zero on the ray: inequalities by its flags, and the equations.
fn zero_rows(
    alloc: Global,
    n: usize,
    inequalities: &[IntVec],
    equations: &[IntVec],
    ray: &Ray,
) -> Result<Vec<IntVec>, GordanError>
    requires inequalities { AreRows n inequalities.now }
    requires equations { AreRows n equations.now }
    requires flags { length ray.now.zero ≡ length inequalities.now }
    ensures { IfOk result (λ out. AreRows n out.items) }
{
    let mut out = copied(alloc, equations)?;
    for (k, h) in inequalities.iter().enumerate() {
        if ray.zero.has(k) {
            out.push(h.copy()?)?;
        }
    }
    Ok(out)
}

/// The index of the first inequality that isn't zero on the ray.
fn first_positive(inequalities: &[IntVec], ray: &Ray) -> Option<usize>
    requires { length ray.now.zero ≡ length inequalities.now }
    ensures { IfSome result (λ k. k < length inequalities.now) }
{
    for (k, _) in inequalities.iter().enumerate() {
        if !ray.zero.has(k) {
            return Some(k);
        }
    }
    None
}

/// A guess at the vector: the inequality, brought along those rows that are zero on the ray to be orthogonal to them.
fn candidate(
    alloc: Global,
    n: usize,
    inequalities: &[IntVec],
    equations: &[IntVec],
    ray: &Ray,
) -> Result<Option<IntVec>, GordanError>
    requires inequalities { AreRows n inequalities.now }
    requires equations { AreRows n equations.now }
    requires flags { length ray.now.zero ≡ length inequalities.now }
    ensures long { IfOk result (λ o. IfSome o (λ y. length y ≡ n)) }
    ensures primitive { IfOk result (λ o. IfSome o IsPrimitive) }
{
    let Some(k) = first_positive(inequalities, ray) else {
        return Ok(None);
    };
    let zero = zero_rows(alloc, n, inequalities, equations, ray)?;
    let ys = orthogonalize(alloc, 0, n, zero.as_slice())?;
    let mut y = straighten(alloc, 0, ys.as_slice(), &inequalities[k])?;
    y.primitive();
    Ok(Some(y))
}

/// The ray brought along the lineality space, where a guess is right.
fn projected(
    alloc: Global,
    n: usize,
    inequalities: &[IntVec],
    equations: &[IntVec],
    rows: &[IntVec],
    lineality: &[IntVec],
    ray: &Ray,
) -> Result<Option<Ray>, GordanError>
    requires inequalities { AreRows n inequalities.now }
    requires equations { AreRows n equations.now }
    requires rows { AreRows n rows.now }
    requires lineality { AreRows n lineality.now }
    requires vector { length ray.now.vector ≡ n }
    requires flags { length ray.now.zero ≡ length inequalities.now }
    ensures { IfOk result (λ o. IfSome o (IsProjectedRay rows.now lineality.now ray.now)) }
{
    let Some(vector) = candidate(alloc, n, inequalities, equations, ray)? else {
        return Ok(None);
    };
    if !is_projection(alloc, rows, lineality, &ray.vector, &vector)? {
        return Ok(None);
    }
    let zero = ray.zero.copy()?;
    Ok(Some(Ray { vector, zero }))
}

/// Each ray brought along the lineality space, where all guesses are right. No refusal says anything.
pub(crate) fn project_all(
    alloc: Global,
    n: usize,
    inequalities: &[IntVec],
    equations: &[IntVec],
    lineality: &[IntVec],
    rays: &[Ray],
) -> Result<Option<Vec<Ray>>, GordanError>
    requires inequalities { AreRows n inequalities.now }
    requires equations { AreRows n equations.now }
    requires lineality { AreRows n lineality.now }
    requires rays { AreRays n rays.now }
    requires flags { AreFlagged (length inequalities.now) rays.now }
    ensures { IfOk result (λ o. IfSome o (λ out. AllZip (IsProjectedRay (inequalities.now ++ equations.now) lineality.now) rays.now out.items)) }
{
    let rows = joined(copied(alloc, inequalities)?, equations)?;
    let mut out = Vec::with_capacity(alloc, rays.len())?;
    for ray in rays {
        let Some(next) = projected(
            alloc,
            n,
            inequalities,
            equations,
            rows.as_slice(),
            lineality,
            ray,
        )?
        else {
            return Ok(None);
        };
        out.push(next)?;
    }
    Ok(Some(out))
}
