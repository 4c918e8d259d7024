//! What generates a cone without lines.
ghost use Rattle.std.specs.Prelude.{◌≡◌, ◌++◌, IfOk, map};
ghost use Rattle.gf_vec.specs.Vector.{opposite};
ghost use Rattle.gf_gordan.specs.Alternative.{AreRows};
ghost use Rattle.gf_cuts.specs.Heights.{generators_of, HasItsRays};

use gf_rays::Rays;
use gf_vec::{IntVec, copied, joined};
use std::alloc::{AllocError, Global};

/// These vectors, and each of some others turned.
///
/// # Errors
/// Want of memory alone.
fn with_opposites(vectors: Vec<IntVec>, lines: &[IntVec]) -> Result<Vec<IntVec>, AllocError>
    ensures { IfOk result (λ out. out.items ≡ vectors.items ++ map opposite lines.now) }
{
    let mut out = vectors;
    for line in lines {
        out.push(line.opposite()?)?;
    }
    Ok(out)
}

/// The rays of a cone, its lineality vectors, and these turned.
///
/// # Errors
/// Want of memory alone.
pub(crate) fn generators(alloc: Global, cone: &Rays) -> Result<Vec<IntVec>, AllocError>
    ensures value { IfOk result (λ out. out.items ≡ generators_of cone.now) }
    ensures rays { IfOk result (λ _. HasItsRays cone.now) }
    ensures wide { IfOk result (λ out. AreRows cone.now.ambient out.items) }
{
    let rays = copied(alloc, cone.rays())?;
    let lines = copied(alloc, cone.lineality())?;
    let turned = with_opposites(lines, cone.lineality())?;
    Ok(joined(rays, &turned)?)
}
