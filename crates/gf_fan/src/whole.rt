//! Cones of a fan as cones of their own.
ghost use Rattle.std.specs.Prelude.{◌<◌, All, IfOk, IfErr, length};
ghost use Rattle.gf_gordan.specs.Steps.{Failed};
ghost use Rattle.gf_fan.specs.WholeCones.{AreWholeCones, IsStepOfSome};

use crate::cones::FanCone;
use crate::shared_cone::SharedCone;
use gf_gordan::GordanError;
use std::alloc::Global;

/// The cones at these indices.
///
/// # Errors
/// An operation of the system of one of the cones that leaves the range; want of memory.
pub(crate) fn whole_cones(
    alloc: Global,
    cones: &[FanCone],
    indices: &[u32],
) -> Result<Vec<SharedCone>, GordanError>
    requires { All (λ i. i < length cones.now) indices.now }
    ensures ok { IfOk result (λ out. AreWholeCones cones.now indices.now out.items) }
    ensures err { IfErr result (Failed (IsStepOfSome cones.now)) }
{
    let mut out = Vec::with_capacity(alloc, indices.len())?;
    for i in indices {
        out.push(cones[*i as usize].cone.whole(alloc)?)?;
    }
    Ok(out)
}
