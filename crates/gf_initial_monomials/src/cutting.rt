//! The rows that may cut something off a cone.
ghost use Rattle.std.specs.Prelude.{◌≡◌, ◌≤ℤ◌, List, ℤ, pos, Contains, IfOk, IsTrue, length};
ghost use Rattle.gf_gordan.specs.Alternative.{AreRows};
ghost use Rattle.gf_vec.specs.Vector.{dot};
ghost use Rattle.gf_rays.specs.Cones.{rows_of};
ghost use Rattle.gf_initial_monomials.specs.Cuts.{IsNowhereNegative, AreCutting};

use gf_rays::Rays;
use gf_vec::IntVec;
use std::alloc::{AllocError, Global};

/// Whether the row isn't negative on the vector; no, too, where their dot product can't be worked out.
fn is_not_negative(row: &IntVec, v: &IntVec) -> bool
    requires { length row.now ≡ length v.now }
    ensures { IsTrue result → pos 0 ≤ℤ dot row.now v.now }
{
    match row.dot(v) {
        Ok(value) => value >= 0,
        Err(_) => false,
    }
}

/// Whether the row is zero on the vector; no, too, where their dot product can't be worked out.
fn is_zero(row: &IntVec, v: &IntVec) -> bool
    requires { length row.now ≡ length v.now }
    ensures { IsTrue result → dot row.now v.now ≡ pos 0 }
{
    match row.dot(v) {
        Ok(value) => value == 0,
        Err(_) => false,
    }
}

/// Whether the row is known to be negative on none of the vectors.
fn is_negative_on_none(row: &IntVec, vectors: &[IntVec]) -> bool
    requires { AreRows (length row.now) vectors.now }
    ensures { IsTrue result → (x : List ℤ) → Contains vectors.now x → pos 0 ≤ℤ dot row.now x }
{
    for v in vectors {
        if !is_not_negative(row, v) {
            return false;
        }
    }
    true
}

/// Whether the row is known to be zero on all of the vectors.
fn is_zero_on_all(row: &IntVec, vectors: &[IntVec]) -> bool
    requires { AreRows (length row.now) vectors.now }
    ensures { IsTrue result → (x : List ℤ) → Contains vectors.now x → dot row.now x ≡ pos 0 }
{
    for v in vectors {
        if !is_zero(row, v) {
            return false;
        }
    }
    true
}

/// Whether the row is known to be negative nowhere on the cone: it is zero on the lineality vectors, and negative on no ray.
fn is_nowhere_negative(row: &IntVec, cone: &Rays) -> bool
    requires { length row.now ≡ cone.now.ambient }
    ensures { IsTrue result → IsNowhereNegative cone.now.ambient (rows_of cone.now) row.now }
{
    if !is_zero_on_all(row, cone.lineality()) {
        return false;
    }
    is_negative_on_none(row, cone.rays())
}

/// Copies of the rows but for those that are known to be negative nowhere on the cone.
///
/// # Errors
/// Only when memory runs out.
pub(crate) fn cutting(
    alloc: Global,
    cone: &Rays,
    rows: &[IntVec],
) -> Result<Vec<IntVec>, AllocError>
    requires { AreRows cone.now.ambient rows.now }
    ensures { IfOk result (λ out. AreCutting cone.now.ambient (rows_of cone.now) rows.now out.items) }
{
    let mut out = Vec::new(alloc);
    'rows: for i in 0..rows.len() {
        let row = &rows[i];
        if is_nowhere_negative(row, cone) {
            continue;
        }
        out.push(row.copy()?)?;
    }
    Ok(out)
}
