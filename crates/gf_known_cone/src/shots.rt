//! Shots from a vector of the inside: the first hyperplane on the way against a vector, and the point where it is hit.
//!
//! What is found here is a guess; `checks` of `gf_cone` judges it.

ghost use Rattle.std.specs.Prelude.{◌≡◌, length, All, IsTrue};
ghost use Rattle.gf_gordan.specs.Alternative.{AreRows};
ghost use Rattle.gf_cone.specs.Small.{IsSmall, IsShort};

use gf_cone::Cone;
use gf_cone::narrow::{dot_of, is_short, narrow_value, narrowed, narrower, small_product};
use gf_gordan::has_least;
use gf_vec::{IntVec, VecError, difference, product, quotient};
use std::alloc::{AllocError, Global};

/// The vector with these entries, where they are in range.
pub(crate) fn in_range(entries: Vec<i128>) -> Option<IntVec> {
    if has_least(entries.as_slice()) {
        return None;
    }
    Some(IntVec::from_vec(entries))
}

/// The vector with these entries, divided by their content, where they are in range.
pub(crate) fn vector_of(entries: Vec<i128>) -> Option<IntVec> {
    let mut vector = in_range(entries)?;
    vector.primitive();
    Some(vector)
}

/// The greatest common divisor of two numbers.
fn common(a: u64, b: u64) -> u64 {
    let mut x = a;
    let mut y = b;
    'steps: while y != 0 {
        let rest = x % y;
        x = y;
        y = rest;
    }
    x
}

/// Entries that are collected, each of at most 64 bits, and their greatest common divisor; of zeros alone it is 0.
#[derive(Drop)]
pub(crate) struct Narrow {
    entries: Vec<i128>,
    divisor: u64,
}

impl Narrow {
    /// No entries, with room for so many.
    ///
    /// # Errors
    /// Want of memory.
    pub(crate) fn with_capacity(alloc: Global, count: usize) -> Result<Narrow, AllocError> {
        let entries = Vec::with_capacity(alloc, count)?;
        Ok(Narrow {
            entries,
            divisor: 0,
        })
    }

    /// Puts an entry behind the others.
    ///
    /// # Errors
    /// Want of memory.
    pub(crate) fn push(&mut self, entry: i64) -> Result<(), AllocError> {
        if self.divisor != 1 && entry != 0 {
            self.divisor = common(entry.unsigned_abs(), self.divisor);
        }
        self.entries.push(i128::from(entry))?;
        Ok(())
    }

    /// The vector with these entries, divided by their greatest common divisor.
    pub(crate) fn vector(self) -> Option<IntVec> {
        let Narrow {
            mut entries,
            divisor,
        } = self;
        if divisor > 1 {
            let by = i128::from(divisor);
            for x in entries.iter_mut() {
                *x = quotient(*x, by);
            }
        }
        in_range(entries)
    }
}

/// So many times `x`, less so many times `y`, where none of the four has more than 32 bits.
fn narrow_entry(k: i32, x: i128, m: i32, y: i128) -> Option<i64> {
    let left = small_product(k, narrower(x)?);
    let right = small_product(m, narrower(y)?);
    Some(left.wrapping_sub(right))
}

/// So many times `xs`, less so many times `ys`, divided by the content, where no number has more than 32 bits.
///
/// # Errors
/// Want of memory.
fn narrow_point(
    alloc: Global,
    k: i128,
    xs: &[i128],
    m: i128,
    ys: &[i128],
) -> Result<Option<IntVec>, AllocError> {
    let (Some(k), Some(m)) = (narrower(k), narrower(m)) else {
        return Ok(None);
    };
    let mut found = Narrow::with_capacity(alloc, xs.len())?;
    for (x, y) in xs.iter().zip(ys.iter()) {
        match narrow_entry(k, *x, m, *y) {
            Some(entry) => found.push(entry)?,
            None => return Ok(None),
        }
    }
    Ok(found.vector())
}

/// So many times `xs`, less so many times `ys`.
///
/// # Errors
/// An operation that leaves the range; want of memory.
fn combination(
    alloc: Global,
    k: i128,
    xs: &[i128],
    m: i128,
    ys: &[i128],
) -> Result<Vec<i128>, VecError> {
    let mut entries = Vec::with_capacity(alloc, xs.len())?;
    for (x, y) in xs.iter().zip(ys.iter()) {
        entries.push(difference(product(k, *x)?, product(m, *y)?)?)?;
    }
    Ok(entries)
}

/// So many times `xs`, less so many times `ys`, divided by the content.
///
/// # Errors
/// An operation that leaves the range; want of memory.
pub(crate) fn point_of(
    alloc: Global,
    k: i128,
    xs: &[i128],
    m: i128,
    ys: &[i128],
) -> Result<Option<IntVec>, VecError> {
    if let Some(point) = narrow_point(alloc, k, xs, m, ys)? {
        return Ok(Some(point));
    }
    Ok(vector_of(combination(alloc, k, xs, m, ys)?))
}

/// Puts the dot products of the normals with a list of entries behind other values, as long as each is positive and has at most 64 bits; whether all
/// are so. `short` tells whether the list is short.
///
/// # Errors
/// Want of memory.
fn push_normals(
    values: &mut Vec<i64>,
    normals: &[IntVec],
    w: &[i128],
    short: bool,
) -> Result<bool, AllocError>
    requires widths { AreRows (length w.now) normals.now }
    requires small { All IsSmall normals.now }
    requires short { IsTrue short → IsShort w.now }
{
    for k in 0..normals.len() {
        match narrow_on(&normals[k], w, short) {
            Some(value) if value > 0 => values.push(value)?,
            _ => return Ok(false),
        }
    }
    Ok(true)
}

/// The dot product of a normal with a list of entries, of which `short` tells whether it is short. None where it has more than 64 bits, or a product
/// or a partial sum leaves the 128-bit range.
fn narrow_on(normal: &IntVec, w: &[i128], short: bool) -> Option<i64>
    requires width { length normal.now ≡ length w.now }
    requires small { IsSmall normal.now }
    requires short { IsTrue short → IsShort w.now }
{
    narrow_value(normal.as_slice(), w, short)
}

/// The dot product of a row of a region with a list of entries. None where it has more than 64 bits, or a product or a partial sum leaves the 128-bit
/// range.
fn row_on(row: &IntVec, w: &[i128]) -> Option<i64>
    requires { length row.now ≡ length w.now }
{
    narrowed(dot_of(row.as_slice(), w)?)
}

/// Puts the dot products of the rows of a region with a list of entries behind other values, as long as each is positive and has at most 64 bits;
/// whether all are so.
///
/// # Errors
/// Want of memory.
fn push_rows(values: &mut Vec<i64>, rows: &[IntVec], w: &[i128]) -> Result<bool, AllocError>
    requires { AreRows (length w.now) rows.now }
{
    for k in 0..rows.len() {
        match row_on(&rows[k], w) {
            Some(value) if value > 0 => values.push(value)?,
            _ => return Ok(false),
        }
    }
    Ok(true)
}

/// Puts the entries of a list, which are its dot products with the unit vectors, behind other values, as long as each is positive and has at most 64
/// bits; whether all are so.
///
/// # Errors
/// Want of memory.
fn push_entries(values: &mut Vec<i64>, w: &[i128]) -> Result<bool, AllocError> {
    for x in w {
        match narrowed(*x) {
            Some(value) if value > 0 => values.push(value)?,
            _ => return Ok(false),
        }
    }
    Ok(true)
}

/// The dot products with a list of entries, of the normals, then of the rows of the region, then of the unit vectors. None where one isn't positive,
/// or isn't found in 64 bits.
///
/// # Errors
/// Want of memory.
pub(crate) fn values_on(
    alloc: Global,
    cone: &Cone,
    w: &[i128],
) -> Result<Option<Vec<i64>>, AllocError>
    requires { length w.now ≡ cone.now.variables }
{
    let mut values = Vec::with_capacity(alloc, cone.len())?;
    if !push_normals(&mut values, cone.normals(), w, is_short(w))?
        || !push_rows(&mut values, cone.rows(), w)?
        || !push_entries(&mut values, w)?
    {
        return Ok(None);
    }
    Ok(Some(values))
}

/// Where a shot hits: the index of the vector that becomes zero first, that of another one that does so there, and the point's two weights. Until there is one
/// the inner weight is 0.
#[derive(Clone, Copy)]
pub(crate) struct Hit {
    pub(crate) index: usize,
    pub(crate) tied: Option<usize>,
    pub(crate) inner: i64,
    pub(crate) against: i64,
}

/// The earlier of a hit and of that of the vector at `index`, whose dot product is `value` with the inner vector and `slope` with the vector shot
/// against; where both come at once, the hit, tied with `index`. A vector whose slope isn't positive isn't hit.
fn nearer(hit: Hit, index: usize, value: i64, slope: i64) -> Hit {
    if slope <= 0 {
        return hit;
    }
    let left = i128::from(value).wrapping_mul(i128::from(hit.inner));
    let right = i128::from(hit.against).wrapping_mul(i128::from(slope));
    if left < right {
        return Hit {
            index,
            tied: None,
            inner: slope,
            against: value,
        };
    }
    if left == right {
        return Hit {
            tied: Some(index),
            ..hit
        };
    }
    hit
}

/// The first of a hit and of the hits of the normals, where the normal at index `k` has the dot product `values[k]` with the inner vector. None where
/// its dot product with `against` isn't found in 64 bits, or a value is missing.
fn hit_normals(
    hit: Hit,
    normals: &[IntVec],
    values: &[i64],
    against: &[i128],
    short: bool,
) -> Option<Hit>
    requires widths { AreRows (length against.now) normals.now }
    requires small { All IsSmall normals.now }
    requires short { IsTrue short → IsShort against.now }
{
    let mut hit = hit;
    for k in 0..normals.len() {
        let slope = narrow_on(&normals[k], against, short)?;
        hit = nearer(hit, k, *values.get(k)?, slope);
    }
    Some(hit)
}

/// The first of a hit and of the hits of the rows of a region, where the row at `k` has the index `first + k` among all vectors, and the dot product
/// at that index of `values` with the inner vector. None where its dot product with `against` isn't found in 64 bits, or a value is missing.
fn hit_rows(
    hit: Hit,
    rows: &[IntVec],
    first: usize,
    values: &[i64],
    against: &[i128],
) -> Option<Hit>
    requires { AreRows (length against.now) rows.now }
{
    let mut hit = hit;
    for k in 0..rows.len() {
        let slope = row_on(&rows[k], against)?;
        let index = first.saturating_add(k);
        hit = nearer(hit, index, *values.get(index)?, slope);
    }
    Some(hit)
}

/// The first of a hit and of the hits of the unit vectors, where that of the entry at `k` has the index `first + k` among all vectors, and the dot
/// product at that index of `values` with the inner vector. None where an entry of `against` has more than 64 bits, or a value is missing.
fn hit_entries(hit: Hit, first: usize, values: &[i64], against: &[i128]) -> Option<Hit> {
    let mut hit = hit;
    for (k, x) in against.iter().enumerate() {
        let index = first.saturating_add(k);
        hit = nearer(hit, index, *values.get(index)?, narrowed(*x)?);
    }
    Some(hit)
}

/// Where the shot from the inner vector against another one hits first; `values` has the dot products of the normals, the rows of the region and the
/// unit vectors with the inner vector. None where it hits nothing, or a dot product isn't found in 64 bits.
pub(crate) fn first_hit(cone: &Cone, values: &[i64], against: &[i128]) -> Option<Hit>
    requires { length against.now ≡ cone.now.variables }
{
    let normals = cone.normals();
    let rows = cone.rows();
    let none = Hit {
        index: 0,
        tied: None,
        inner: 0,
        against: 1,
    };
    let hit = hit_normals(none, normals, values, against, is_short(against))?;
    let hit = hit_rows(hit, rows, normals.len(), values, against)?;
    let units = normals.len().saturating_add(rows.len());
    let hit = hit_entries(hit, units, values, against)?;
    if hit.inner == 0 { None } else { Some(hit) }
}

/// The point that a shot from the inner vector against another one hits.
///
/// # Errors
/// An operation that leaves the range; want of memory.
pub(crate) fn point_hit(
    alloc: Global,
    hit: &Hit,
    inner: &[i128],
    against: &[i128],
) -> Result<Option<IntVec>, VecError> {
    point_of(
        alloc,
        i128::from(hit.inner),
        inner,
        i128::from(hit.against),
        against,
    )
}
