//! The faces of cones as cones, by the numbers of their rays: nothing of the cone that a face is of is copied.
ghost use Rattle.std.specs.Prelude.{◌≡◌, IfOk, IfErr};
ghost use Rattle.gf_gordan.specs.Steps.{Failed};
ghost use Rattle.gf_rays.specs.Reached.{IsRaysStep};
ghost use Rattle.gf_fan.specs.ConeParts.{part_by, ArePartNumbers, HasRowsAndRaysOf};
ghost use Rattle.gf_fan.specs.Parts.{HasItsRays};

use crate::cones::{has_its_rays, zero_rows};
use crate::shared_cone::SharedCone;
use gf_gordan::GordanError;
use gf_rays::RayNumbers;
use std::alloc::{AllocError, Global};
use std::marker::Model;

/// A face of a cone, seen as its rows and rays: those of the cone, its inequalities that are zero on the face once more as equations, and the rays of
/// the cone that are on the face.
#[derive(Drop)]
pub struct ConePart {
    cone: SharedCone,
    numbers: RayNumbers,
}

impl Model for ConePart {
    ghost use Rattle.gf_rays.specs.Cones.{RowsAndRays};
    ghost use Rattle.gf_fan.specs.ConeParts.{part_by, ArePartNumbers};

    ghost Value = { RowsAndRays };

    ghost view = { λ s. part_by s.cone s.numbers };

    ghost invariant = { λ s. ArePartNumbers s.cone s.numbers };
}

impl ConePart {
    /// The face of a cone whose rays have these numbers.
    ///
    /// # Errors
    /// Where the cone can't be shared once more.
    pub(crate) fn of(cone: &SharedCone, numbers: RayNumbers) -> Result<ConePart, AllocError>
        requires { ArePartNumbers cone.now numbers }
        ensures part { IfOk result (λ p. p ≡ part_by cone.now numbers) }
        ensures own { HasItsRays cone.now }
    {
        has_its_rays(cone.as_rays());
        Ok(ConePart {
            cone: cone.again()?,
            numbers,
        })
    }

    /// The face as a cone of its own: the cone that it is a face of, where no inequality is zero on all of the face, since it is the whole cone then.
    ///
    /// # Errors
    /// An operation of the face's system that leaves the range; want of memory.
    pub(crate) fn whole(&self, alloc: Global) -> Result<SharedCone, GordanError>
        ensures ok { IfOk result (λ w. HasRowsAndRaysOf w self.now) }
        ensures err { IfErr result (Failed (IsRaysStep self.now.ambient self.now.inequalities self.now.equations)) }
    {
        let cone = self.cone.as_rays();
        has_its_rays(cone);
        let zero = zero_rows(alloc, cone, self.numbers.as_slice())?;
        if zero.len() == 0 {
            return Ok(self.cone.again()?);
        }
        let part = cone.part(&zero, self.numbers.as_slice())?;
        Ok(SharedCone::of(alloc, part)?)
    }
}
