//! Where points are as high as one of them.
ghost use Rattle.std.specs.Prelude.{◌≡◌, ◌<◌, ℕ, All, Contains, IfOk, IsTrue, length};
ghost use Rattle.gf_cuts.specs.Heights.{row_at, IsMark, AreMarks, AreMarkRows, AreZero};

use gf_vec::IntVec;
use std::alloc::{AllocError, Global};

/// 0 where both numbers are the same, else -1.
fn mark(x: i128, y: i128) -> i128
    ensures { IsMark x y result }
{
    if x == y { 0 } else { -1 }
}

/// For each index 0 where both vectors have the same number there, else -1.
///
/// # Errors
/// Want of memory alone.
fn marks(alloc: Global, top: &IntVec, other: &IntVec) -> Result<IntVec, AllocError>
    requires { length other.now ≡ length top.now }
    ensures { IfOk result (AreMarks top.now other.now) }
{
    let left = top.as_slice();
    let right = other.as_slice();
    let mut out = Vec::with_capacity(alloc, left.len())?;
    for k in 0..left.len() {
        out.push(mark(left[k], right[k]))?;
    }
    Ok(IntVec::from_vec(out))
}

/// That for each row against the one at `top`.
///
/// # Errors
/// Want of memory alone.
pub(crate) fn mark_rows(
    alloc: Global,
    rows: &[IntVec],
    top: usize,
) -> Result<Vec<IntVec>, AllocError>
    requires index { top < length rows.now }
    requires long { (k : ℕ) → k < length rows.now → length (row_at rows.now k) ≡ length (row_at rows.now top) }
    ensures { IfOk result (λ out. AreMarkRows rows.now top out.items) }
{
    let mut out = Vec::with_capacity(alloc, rows.len())?;
    for k in 0..rows.len() {
        out.push(marks(alloc, &rows[top], &rows[k])?)?;
    }
    Ok(out)
}

/// Whether all numbers are zero.
fn is_zero(x: &IntVec) -> bool
    ensures { IsTrue result → AreZero x.now }
{
    let entries = x.as_slice();
    for k in 0..entries.len() {
        if entries[k] != 0 {
            return false;
        }
    }
    true
}

/// Whether all marks of one of these indices are zero.
pub(crate) fn is_some_zero(marks: &[IntVec], indices: &[usize]) -> bool
    requires { All (λ x. x < length marks.now) indices.now }
    ensures { IsTrue result → (y : ℕ) × (Contains indices.now y × AreZero (row_at marks.now y)) }
{
    for y in indices {
        if is_zero(&marks[*y]) {
            return true;
        }
    }
    false
}
