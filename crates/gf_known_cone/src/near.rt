//! A vector of a cone's inside, from a vector inside a facet that it shares with a neighbour.
ghost use Rattle.std.specs.Prelude.{◌≡◌, ◌<◌, ◌<ℤ◌, ◌⊎◌, ℕ, [], pos, length, Some, All, IfOk, IfSome, IsTrue};
ghost use Rattle.gf_vec.specs.Vector.{dot};
ghost use Rattle.gf_gordan.specs.Alternative.{AreRows, IsSolution};
ghost use Rattle.gf_cone.specs.Cones.{all_rows};
ghost use Rattle.gf_cone.specs.Crossing.{IsShownAt, IsShownBy};
ghost use Rattle.gf_cone.specs.Small.{IsSmall, IsShort};

use crate::shots::{Narrow, point_of, values_on, vector_of};
use gf_cone::Cone;
use gf_cone::checks::{is_inside, is_positive_beside};
use gf_cone::narrow::{dot_of, dot_of_small, is_short, narrowed, narrower, small_product};
use gf_gordan::{Answer, strict};
use gf_vec::{IntVec, VecError, product, quotient, total};
use std::alloc::{AllocError, Global};

/// Vectors of the inside are kept with entries up to this one where that can be done.
const LARGEST: i128 = 32768;

/// What is seen of a vector `near` and of a second one by the normals: the least number, so many times `near` less the second is positive on them; and the
/// index of the one that is zero on `near` where all others are positive, or behind the last where all are positive; none where more of them aren't.
#[derive(Clone, Copy)]
struct Sight {
    factor: i128,
    zero: Option<usize>,
}

/// The least number from one before on, so many times `near` less the second vector is positive on a row, which gives so much on `near` and so much on the
/// second; none where there is no such number, or a sum leaves the range.
fn factor_with(factor: i128, value: i128, slope: i128) -> Option<i128> {
    if value <= 0 {
        return if slope < 0 { Some(factor) } else { None };
    }
    if slope <= 0 {
        return Some(factor);
    }
    let least = match (narrowed(value), narrowed(slope)) {
        (Some(narrow), Some(other)) => i128::from(other.checked_div(narrow)?.checked_add(1)?),
        _ => quotient(total(slope, value).ok()?, value),
    };
    Some(factor.max(least))
}

/// What a normal gives on `near` and on a second vector, of each of which it is told whether it is short. None where a product or partial sum leaves the range.
fn values_by(
    normal: &IntVec,
    near: &[i128],
    near_short: bool,
    second: &[i128],
    second_short: bool,
) -> Option<(i128, i128)>
    requires near { length normal.now ≡ length near.now }
    requires second { length normal.now ≡ length second.now }
    requires small { IsSmall normal.now }
    requires near_short { IsTrue near_short → IsShort near.now }
    requires second_short { IsTrue second_short → IsShort second.now }
    ensures { IfSome result (λ p. p.0 ≡ dot normal.now near.now) }
{
    let entries = normal.as_slice();
    let value = dot_of_small(entries, near, near_short)?;
    let slope = dot_of_small(entries, second, second_short)?;
    Some((value, slope))
}

/// The index of the normal that is zero, after that at `k` which gives so much; `none` stands for no normal.
fn zero_with(zero: Option<usize>, none: usize, k: usize, value: i128) -> Option<usize>
    ensures { IfSome result (λ z. (zero ≡ Some z × pos 0 <ℤ value) ⊎ (zero ≡ Some none × z ≡ k × value ≡ pos 0)) }
{
    if value > 0 {
        return zero;
    }
    match zero {
        Some(index) if index == none && value == 0 => Some(k),
        _ => None,
    }
}

/// What is seen of two vectors by the normals.
fn seen_by(normals: &[IntVec], near: &[i128], second: &[i128]) -> Option<Sight>
    requires widths { AreRows (length near.now) normals.now }
    requires second { length second.now ≡ length near.now }
    requires small { All IsSmall normals.now }
    ensures { IfSome result (λ s. IfSome s.zero (λ z. (k : ℕ) → k < length normals.now → IsShownBy normals.now z near.now k)) }
{
    let near_short = is_short(near);
    let second_short = is_short(second);
    let none = normals.len();
    let mut factor = 1;
    let mut zero = Some(none);
    for k in 0..normals.len() {
        let (value, slope) = values_by(&normals[k], near, near_short, second, second_short)?;
        factor = factor_with(factor, value, slope)?;
        zero = zero_with(zero, none, k, value);
    }
    Some(Sight { factor, zero })
}

/// The factor with the rows of a region.
fn factor_of_rows(factor: i128, rows: &[IntVec], near: &[i128], second: &[i128]) -> Option<i128>
    requires near { AreRows (length near.now) rows.now }
    requires second { AreRows (length second.now) rows.now }
{
    let mut factor = factor;
    for k in 0..rows.len() {
        let value = dot_of(rows[k].as_slice(), near)?;
        let slope = dot_of(rows[k].as_slice(), second)?;
        factor = factor_with(factor, value, slope)?;
    }
    Some(factor)
}

/// The factor with the unit vectors, which give the entries.
fn factor_of_entries(factor: i128, near: &[i128], second: &[i128]) -> Option<i128> {
    let mut factor = factor;
    for (value, slope) in near.iter().zip(second.iter()) {
        factor = factor_with(factor, *value, *slope)?;
    }
    Some(factor)
}

/// The index of the normal that is zero on a vector, where all other rows are seen to be positive on it: all other normals are.
fn index_shown(cone: &Cone, near: &[i128], zero: usize) -> Option<usize>
    requires width { length near.now ≡ cone.now.variables }
    requires seen { (k : ℕ) → k < length cone.now.normals → IsShownBy cone.now.normals zero near.now k }
    ensures { IfSome result (IsShownAt cone.now near.now) }
{
    if zero < cone.normals().len() && is_positive_beside(cone, near) {
        return Some(zero);
    }
    None
}

/// A point near a vector, and the index of the normal that the vector shows, if it shows one.
#[derive(Drop)]
struct Near {
    point: IntVec,
    shown: Option<usize>,
}

/// The least multiple of `near` that, less `normal`, is positive on the rows; divided by its content.
///
/// # Errors
/// An operation that leaves the range; want of memory.
fn moved(
    alloc: Global,
    cone: &Cone,
    near: &[i128],
    normal: &[i128],
) -> Result<Option<Near>, VecError>
    ensures { IfOk result (λ o. IfSome o (λ m. IfSome m.shown (IsShownAt cone.now near.now))) }
{
    let n = cone.variables() as usize;
    if near.len() != n || normal.len() != n {
        return Ok(None);
    }
    if let Some(seen) = seen_by(cone.normals(), near, normal)
        && let Some(factor) = factor_of_rows(seen.factor, cone.rows(), near, normal)
        && let Some(factor) = factor_of_entries(factor, near, normal)
        && let Some(point) = point_of(alloc, factor, near, 1, normal)?
    {
        let shown = match seen.zero {
            Some(zero) => index_shown(cone, near, zero),
            None => None,
        };
        return Ok(Some(Near { point, shown }));
    }
    Ok(None)
}

/// The greatest entry, at least 1.
fn greatest(xs: &[i128]) -> i128 {
    let mut most = 1;
    for x in xs {
        if *x > most {
            most = *x;
        }
    }
    most
}

/// A number times `scale` and more by `half`, by `whole`; none where one has more than 32 bits.
fn narrow_rounded(x: i128, scale: i32, half: i64, whole: i64) -> Option<i64> {
    let scaled = small_product(narrower(x)?, scale);
    scaled.wrapping_add(half).checked_div(whole)
}

/// Each entry times a scale, divided by the greatest entry and rounded to the nearest; none where one has more than 32 bits.
///
/// # Errors
/// Want of memory.
fn rounded_narrow(alloc: Global, xs: &[i128], scale: i32) -> Result<Option<IntVec>, AllocError> {
    let Some(most) = narrower(greatest(xs)) else {
        return Ok(None);
    };
    let half = i64::from(most);
    let whole = small_product(most, 2);
    let doubled = scale.wrapping_mul(2);
    let mut found = Narrow::with_capacity(alloc, xs.len())?;
    for x in xs {
        match narrow_rounded(*x, doubled, half, whole) {
            Some(entry) => found.push(entry)?,
            None => return Ok(None),
        }
    }
    Ok(found.vector())
}

/// Each entry times a scale, divided by the greatest entry and rounded to the nearest.
///
/// # Errors
/// An operation that leaves the range; want of memory.
fn rounded(alloc: Global, xs: &[i128], scale: i32) -> Result<Option<IntVec>, VecError> {
    if let Some(vector) = rounded_narrow(alloc, xs, scale)? {
        return Ok(Some(vector));
    }
    let most = greatest(xs);
    let mut entries = Vec::with_capacity(alloc, xs.len())?;
    for x in xs {
        let doubled = product(product(*x, i128::from(scale))?, 2)?;
        if most > 0 {
            let by = product(most, 2)?;
            if by > 0 {
                entries.push(quotient(total(doubled, most)?, by))?;
            }
        }
    }
    Ok(vector_of(entries))
}

/// A vector of the inside with small entries, near another vector: the first rounding of it that is in the inside.
fn small_near(alloc: Global, cone: &Cone, v: &[i128]) -> Option<IntVec>
    ensures { IfSome result (IsSolution cone.now.variables (all_rows cone.now) []) }
{
    let mut scale = 32i32;
    for _ in 0..6 {
        if let Ok(Some(small)) = rounded(alloc, v, scale)
            && is_inside(cone, &small)
        {
            return Some(small);
        }
        scale = scale.wrapping_mul(4);
    }
    None
}

/// A vector of the inside that is worked out anew, if that goes.
fn fresh(alloc: Global, cone: &Cone) -> Option<IntVec>
    ensures { IfSome result (IsSolution cone.now.variables (all_rows cone.now) []) }
{
    let Ok(vectors) = cone.vectors() else {
        return None;
    };
    match strict(alloc, cone.variables(), vectors.as_slice(), &[]) {
        Ok(Answer::Point(point)) => Some(point),
        _ => None,
    }
}

/// A vector of the inside of a cone, on which all its normals and the unit vectors are positive.
///
/// It is looked for near a vector inside a facet that the cone shares with a neighbour, whose normal there is `normal`; its
/// entries are kept small. There may be none.
pub fn interior_near(
    alloc: Global,
    cone: &Cone,
    witness: &IntVec,
    normal: &IntVec,
) -> Option<IntVec>
    ensures { IfSome result (IsSolution cone.now.variables (all_rows cone.now) []) }
{
    match moved(alloc, cone, witness.as_slice(), normal.as_slice()) {
        Ok(Some(near)) => kept_small(alloc, cone, near.point),
        _ => fresh(alloc, cone),
    }
}

/// A point, if it is in the inside and small; else a small one near it, or one that is worked out anew, or itself.
fn kept_small(alloc: Global, cone: &Cone, point: IntVec) -> Option<IntVec>
    ensures { IfSome result (IsSolution cone.now.variables (all_rows cone.now) []) }
{
    if let Some(small) = small_near(alloc, cone, point.as_slice()) {
        return Some(small);
    }
    if greatest(point.as_slice()) > LARGEST
        && let Some(point) = fresh(alloc, cone)
    {
        return Some(point);
    }
    if is_inside(cone, &point) {
        Some(point)
    } else {
        None
    }
}

/// A vector of the inside, what each vector of the cone gives on it, and the index of the normal that a witness shows, if it shows one.
#[derive(Drop)]
pub(crate) struct Inside {
    pub(crate) inner: Option<IntVec>,
    pub(crate) values: Vec<i64>,
    pub(crate) shown: Option<usize>,
}

/// What each vector of the cone gives on a vector; nothing where one of them isn't positive or has more than 64 bits.
///
/// # Errors
/// Want of memory.
pub(crate) fn values_of(
    alloc: Global,
    cone: &Cone,
    v: &IntVec,
) -> Result<Option<Vec<i64>>, AllocError> {
    let entries = v.as_slice();
    if entries.len() != cone.variables() as usize {
        return Ok(None);
    }
    let values = values_on(alloc, cone, entries)?;
    Ok(values)
}

/// The first rounding of a vector that is seen to be in the inside.
///
/// # Errors
/// Want of memory.
fn valued_near(
    alloc: Global,
    cone: &Cone,
    v: &[i128],
) -> Result<Option<(IntVec, Vec<i64>)>, AllocError> {
    let mut scale = 32i32;
    for _ in 0..6 {
        if let Ok(Some(small)) = rounded(alloc, v, scale)
            && let Some(values) = values_of(alloc, cone, &small)?
        {
            return Ok(Some((small, values)));
        }
        scale = scale.wrapping_mul(4);
    }
    Ok(None)
}

/// What `interior_near` finds, and what is seen by the way.
///
/// # Errors
/// Want of memory.
pub(crate) fn inside_near(
    alloc: Global,
    cone: &Cone,
    witness: &IntVec,
    normal: &IntVec,
) -> Result<Inside, AllocError>
    ensures { IfOk result (λ i. IfSome i.shown (IsShownAt cone.now witness.now)) }
{
    let (found, shown) = match moved(alloc, cone, witness.as_slice(), normal.as_slice()) {
        Ok(Some(near)) => {
            let shown = near.shown;
            if let Some((inner, values)) = valued_near(alloc, cone, near.point.as_slice())? {
                return Ok(Inside {
                    inner: Some(inner),
                    values,
                    shown,
                });
            }
            (kept_small(alloc, cone, near.point), shown)
        }
        _ => (fresh(alloc, cone), None),
    };
    let values = match &found {
        Some(inner) => match values_of(alloc, cone, inner)? {
            Some(values) => values,
            None => Vec::new(alloc),
        },
        None => Vec::new(alloc),
    };
    Ok(Inside {
        inner: found,
        values,
        shown,
    })
}
