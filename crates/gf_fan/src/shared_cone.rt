//! Cones that several faces have in one index.
ghost use Rattle.std.specs.Prelude.{◌≡◌, ◌++◌, IfOk};

use gf_rays::Rays;
use std::alloc::{AllocError, Global};
use std::marker::Model;
use std::sync::Arc;

/// A cone, seen as its rows and rays, that isn't copied where it is shared.
#[derive(Drop)]
pub(crate) struct SharedCone {
    rays: Arc<Rays>,
}

impl Model for SharedCone {
    ghost use Rattle.gf_rays.specs.Cones.{RowsAndRays};
    ghost use Rattle.std.specs.Arc.{arc_value};

    ghost Value = { RowsAndRays };

    ghost view = { λ s. arc_value s.rays };
}

impl SharedCone {
    /// This cone.
    ///
    /// # Errors
    /// Want of memory alone.
    pub(crate) fn of(alloc: Global, cone: Rays) -> Result<SharedCone, AllocError>
        ensures { IfOk result (λ s. s ≡ cone) }
    {
        Ok(SharedCone {
            rays: Arc::new(alloc, cone)?,
        })
    }

    /// This cone once more, shared and not copied.
    ///
    /// # Errors
    /// Where it can't be shared once more.
    pub(crate) fn again(&self) -> Result<SharedCone, AllocError>
        ensures { IfOk result (λ s. s ≡ self.now) }
    {
        Ok(SharedCone {
            rays: Arc::try_clone(&self.rays)?,
        })
    }

    /// The cone.
    pub(crate) fn as_rays(&self) -> &Rays
        ensures { result.now ≡ self.now }
    {
        &self.rays
    }
}

/// These cones, each of which can be shared.
///
/// # Errors
/// Want of memory alone.
pub(crate) fn all_shared(alloc: Global, cones: Vec<Rays>) -> Result<Vec<SharedCone>, AllocError>
    ensures { IfOk result (λ out. out.items ≡ cones.items) }
{
    let mut out = Vec::with_capacity(alloc, cones.len())?;
    for cone in cones {
        out.push(SharedCone::of(alloc, cone)?)?;
    }
    Ok(out)
}
