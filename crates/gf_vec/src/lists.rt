//! Lists of vectors: copied, joined, compared, searched.
ghost use Rattle.std.specs.Prelude.{◌≡◌, ◌↔◌, ◌++◌, IfOk, IsTrue, Contains};

use crate::vector::IntVec;
use std::alloc::{AllocError, Global};

/// Equal vectors.
///
/// # Errors
/// Want of memory alone.
pub fn copied(alloc: Global, xs: &[IntVec]) -> Result<Vec<IntVec>, AllocError>
    ensures { IfOk result (λ out. out.items ≡ xs.now) }
{
    let mut out = Vec::with_capacity(alloc, xs.len())?;
    for x in xs {
        out.push(x.copy()?)?;
    }
    Ok(out)
}

/// These vectors, and then copies of others.
///
/// # Errors
/// Want of memory alone.
pub fn joined(xs: Vec<IntVec>, ys: &[IntVec]) -> Result<Vec<IntVec>, AllocError>
    ensures { IfOk result (λ out. out.items ≡ xs.items ++ ys.now) }
{
    let mut out = xs;
    for y in ys {
        out.push(y.copy()?)?;
    }
    Ok(out)
}

/// Whether two vectors are the same.
pub fn is_same(x: &IntVec, y: &IntVec) -> bool
    ensures { IsTrue result ↔ (x.now ≡ y.now) }
{
    x == y
}

/// Whether two lists have the same vectors, in one order.
pub fn same_vectors(xs: &[IntVec], ys: &[IntVec]) -> bool
    ensures { IsTrue result ↔ (xs.now ≡ ys.now) }
{
    xs == ys
}

/// Whether a vector is one of these.
pub fn is_one_of(x: &IntVec, vectors: &[IntVec]) -> bool
    ensures { IsTrue result ↔ Contains vectors.now x.now }
{
    for y in vectors {
        if is_same(y, x) {
            return true;
        }
    }
    false
}
