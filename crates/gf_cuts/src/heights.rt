//! The products of points with what generates a cone.
ghost use Rattle.std.specs.Prelude.{◌≡◌, IfOk, length, map};
ghost use Rattle.gf_gordan.specs.Alternative.{AreRows};
ghost use Rattle.gf_cuts.specs.Heights.{heights, table, HasItsRays};

use crate::generators::generators;
use gf_rays::Rays;
use gf_vec::{IntVec, VecError};
use std::alloc::Global;

/// The products of a point with vectors.
///
/// # Errors
/// A product or a partial sum that leaves the range; want of memory.
fn heights(alloc: Global, vectors: &[IntVec], point: &IntVec) -> Result<IntVec, VecError>
    requires { AreRows (length point.now) vectors.now }
    ensures { IfOk result (λ v. v ≡ heights vectors.now point.now) }
{
    let mut out = Vec::with_capacity(alloc, vectors.len())?;
    for x in vectors {
        out.push(point.dot(x)?)?;
    }
    Ok(IntVec::from_vec(out))
}

/// The products of points with what generates a cone.
///
/// # Errors
/// A product or a partial sum that leaves the range; want of memory.
pub(crate) fn table(alloc: Global, points: &[IntVec], cone: &Rays) -> Result<Vec<IntVec>, VecError>
    requires { AreRows cone.now.ambient points.now }
    ensures rays { IfOk result (λ _. HasItsRays cone.now) }
    ensures value { IfOk result (λ out. out.items ≡ table cone.now points.now) }
{
    let vectors = generators(alloc, cone)?;
    let mut out = Vec::with_capacity(alloc, points.len())?;
    for point in points {
        out.push(heights(alloc, &vectors, point)?)?;
    }
    Ok(out)
}
