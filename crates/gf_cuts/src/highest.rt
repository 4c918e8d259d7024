//! The points that may be highest on a cone.
ghost use Rattle.std.specs.Prelude.{◌≡◌, ◌<◌, All, IfOk, length};
ghost use Rattle.gf_gordan.specs.Alternative.{AreRows};
ghost use Rattle.gf_rays.specs.Cones.{rows_of};
ghost use Rattle.gf_cuts.specs.Heights.{table, HasItsRays};
ghost use Rattle.gf_levels_theory.specs.Parts.{AreTops};

use crate::thinning::{indices_below, thinned};
use gf_rays::Rays;
use gf_vec::IntVec;
use std::alloc::{AllocError, Global};

/// The indices, counted from 0, of some of the points, so that on the cone each point is nowhere above one of these: the products with its rays and
/// lineality vectors, which are in `rows`, show it. Of points whose products are the same one is kept.
///
/// # Errors
/// Want of memory alone.
pub(crate) fn tops(
    alloc: Global,
    points: &[IntVec],
    cone: &Rays,
    rows: &[IntVec],
) -> Result<Vec<usize>, AllocError>
    requires wide { AreRows cone.now.ambient points.now }
    requires rays { HasItsRays cone.now }
    requires rows { rows.now ≡ table cone.now points.now }
    ensures inside { IfOk result (λ out. All (λ x. x < length points.now) out.items) }
    ensures tops { IfOk result (λ out. AreTops cone.now.ambient points.now (rows_of cone.now) out.items) }
{
    let all = indices_below(alloc, rows.len())?;
    thinned(alloc, rows, &all)
}
