//! The intersection of the cone of a marked set with a region, by its rays.
ghost use Rattle.std.specs.Prelude.{◌≡◌, ◌<◌, ◌↔◌, ℕ, length, IsTrue, IfOk, IfErr};
ghost use Rattle.gf_cone.specs.Crossing.{IsCrossable};
ghost use Rattle.gf_weights.specs.Cuts.{HasRaysOf, IsCutOf, IsZeroAt, HasRayOff};
ghost use Rattle.gf_weights.specs.Refusals.{IsWeightCauseIn};

use crate::error::WeightError;
use gf_cone::{Cone, Region};
use gf_poly::MarkedSet;
use gf_rays::Rays;
use std::alloc::Global;

/// The normals of a marked set, the rows of a region and the unit vectors, and the rays of their cone.
#[derive(Drop)]
pub(crate) struct Cut {
    pub(crate) cone: Cone,
    pub(crate) rays: Rays,
}

/// The intersection of the cone of a marked set with the closure of a region.
///
/// # Errors
/// `Cone`: an operation of finding its rays leaves its range. `Memory`: memory runs out.
pub(crate) fn cut_cone(alloc: Global, set: &MarkedSet, region: &Region) -> Result<Cut, WeightError>
    requires { length region.now.root ≡ set.now.variables }
    ensures ok { IfOk result (λ c. IsCutOf set.now.variables region.now set.now.items c.cone c.rays) }
    ensures err { IfErr result (IsWeightCauseIn set.now.variables region.now set.now.items) }
{
    let cone = Cone::within(alloc, set, region)?;
    let vectors = cone.vectors()?;
    let none = Vec::new(alloc);
    let rays = Rays::of(alloc, cone.variables(), vectors.as_slice(), none.as_slice())?;
    Ok(Cut { cone, rays })
}

/// Whether on some ray the inequality at `index` is zero and the one at `other` isn't.
fn has_ray_off(rays: &Rays, index: usize, other: usize) -> bool
    requires index { index < length rays.now.inequalities }
    requires other { other < length rays.now.inequalities }
    ensures yes { IsTrue result → HasRayOff rays.now index other }
    ensures no { (IsTrue result → ⊥) → (j : ℕ) → j < length rays.now.rays → IsZeroAt rays.now index j → IsZeroAt rays.now other j }
{
    for ray in 0..rays.rays().len() {
        if rays.is_zero(index, ray) && !rays.is_zero(other, ray) {
            return true;
        }
    }
    false
}

/// Whether a flip may cross the facet of the normal at this index: no other row is zero on all the rays on which this one is.
pub(crate) fn is_flippable(cut: &Cut, index: usize) -> bool
    requires cut { HasRaysOf cut.now.cone cut.now.rays }
    requires index { index < length cut.now.cone.normals }
    ensures { IsTrue result ↔ IsCrossable cut.now.cone index }
{
    for other in 0..cut.rays.inequalities().len() {
        if other != index && !has_ray_off(&cut.rays, index, other) {
            return false;
        }
    }
    true
}
