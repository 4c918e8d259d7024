//! Rows that are nowhere above another one.
ghost use Rattle.std.specs.Prelude.{◌<◌, ℕ, All, Contains, IfOk, IsTrue, length};
ghost use Rattle.gf_cuts.specs.Heights.{row_at, AreIndicesBut, IsBelow, IsThinned};

use gf_vec::IntVec;
use std::alloc::{AllocError, Global};

/// Whether no number of `x` is above that of `y` at its index.
fn is_below(x: &IntVec, y: &IntVec) -> bool
    ensures { IsTrue result → IsBelow x.now y.now }
{
    let left = x.as_slice();
    let right = y.as_slice();
    if left.len() != right.len() {
        return false;
    }
    for k in 0..left.len() {
        if left[k] > right[k] {
            return false;
        }
    }
    true
}

/// Whether the row at `x` is below one of those at these indices.
fn is_below_some(rows: &[IntVec], x: usize, kept: &[usize]) -> bool
    requires index { x < length rows.now }
    requires kept { All (λ y. y < length rows.now) kept.now }
    ensures { IsTrue result → (y : ℕ) × (Contains kept.now y × IsBelow (row_at rows.now x) (row_at rows.now y)) }
{
    for y in kept {
        if is_below(&rows[x], &rows[*y]) {
            return true;
        }
    }
    false
}

/// The indices whose rows aren't below one at an index before them that is kept.
fn thinned_once(alloc: Global, rows: &[IntVec], indices: &[usize]) -> Result<Vec<usize>, AllocError>
    requires { All (λ x. x < length rows.now) indices.now }
    ensures { IfOk result (λ out. IsThinned rows.now indices.now out.items) }
{
    let mut kept = Vec::new(alloc);
    for x in indices {
        if !is_below_some(rows, *x, &kept) {
            kept.push(*x)?;
        }
    }
    Ok(kept)
}

/// Some of the indices, so that the row at each of them is below that at one of these, and as few as will do.
///
/// # Errors
/// Want of memory alone.
pub(crate) fn thinned(
    alloc: Global,
    rows: &[IntVec],
    indices: &[usize],
) -> Result<Vec<usize>, AllocError>
    requires { All (λ x. x < length rows.now) indices.now }
    ensures { IfOk result (λ out. IsThinned rows.now indices.now out.items) }
{
    let mut kept = thinned_once(alloc, rows, indices)?;
    kept.reverse();
    thinned_once(alloc, rows, &kept)
}

/// The numbers below this one.
///
/// # Errors
/// Want of memory alone.
pub(crate) fn indices_below(alloc: Global, count: usize) -> Result<Vec<usize>, AllocError>
    ensures below { IfOk result (λ out. All (λ x. x < count) out.items) }
    ensures every { IfOk result (λ out. (k : ℕ) → k < count → Contains out.items k) }
{
    let mut out = Vec::with_capacity(alloc, count)?;
    for k in 0..count {
        out.push(k)?;
    }
    Ok(out)
}

/// The numbers below `count` but one.
///
/// # Errors
/// Want of memory alone.
pub(crate) fn indices_but(alloc: Global, count: usize, but: usize) -> Result<Vec<usize>, AllocError>
    ensures { IfOk result (λ out. AreIndicesBut count but out.items) }
{
    let mut out = Vec::with_capacity(alloc, count)?;
    for k in 0..count {
        if k != but {
            out.push(k)?;
        }
    }
    Ok(out)
}
