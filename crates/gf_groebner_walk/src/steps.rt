//! One step of a walk: the facet that is crossed, and the basis on the other side.

ghost use Rattle.std.specs.Prelude.{◌≡◌, ◌<◌, length, IfSome};
ghost use Rattle.gf_facets_theory.specs.Regions.{all_positive};
ghost use Rattle.gf_cone.specs.Cones.{IsConeOf};
ghost use Rattle.gf_groebner_walk.specs.Steps.{IsSomeBasis, IsLeadTold, IsFacetTold, IsConversionStep};

use crate::signs::is_negative;
use gf_cone::Cone;
use gf_known_cone::KnownCone;
use gf_poly::MarkedSet;
use gf_tree::flip;
use gf_vec::IntVec;
use std::alloc::Global;

/// The index of the normal of a facet that leads towards a weight, or that there is none.
#[derive(Clone, Copy)]
pub(crate) enum Towards {
    Nowhere,
    Facet(usize),
}

/// The basis across a facet that leads towards a weight, or that there is none.
#[derive(Drop)]
pub(crate) enum Step {
    Arrived,
    Across(MarkedSet),
}

/// The cone of a basis.
fn cone_of(alloc: Global, set: &MarkedSet) -> Option<KnownCone>
    ensures { IfSome result (IsConeOf set.now.variables (all_positive set.now.variables) set.now.items) }
{
    let Ok(cone) = Cone::of(alloc, set) else {
        return None;
    };
    match KnownCone::new(alloc, cone, None) {
        Ok(known) => Some(known),
        Err(_) => None,
    }
}

/// Whether the facet of the normal at an index leads towards a weight; none if numbers don't fit.
fn leads(cone: &KnownCone, weight: &IntVec, index: usize) -> Option<bool>
    requires index { index < length cone.now.normals }
    requires width { length weight.now ≡ cone.now.variables }
    ensures { IfSome result (IsLeadTold weight.now cone.now index) }
{
    match is_negative(weight, &cone.normals()[index]) {
        Ok(true) => {}
        Ok(false) => return Some(false),
        Err(_) => return None,
    }
    match cone.crossing(index) {
        Ok(Some(_)) => Some(true),
        Ok(None) => Some(false),
        Err(_) => None,
    }
}

/// The first normal whose facet leads towards a weight; none if numbers don't fit.
fn facet_towards(cone: &KnownCone, weight: &IntVec) -> Option<Towards>
    requires { length weight.now ≡ cone.now.variables }
    ensures { IfSome result (IsFacetTold weight.now cone.now) }
{
    'indices: for index in 0..cone.normals().len() {
        if leads(cone, weight, index)? {
            return Some(Towards::Facet(index));
        }
    }
    Some(Towards::Nowhere)
}

/// The basis across the first facet that leads towards a weight, or that there is no such facet; none if numbers don't fit, or if the flip
/// would have to settle more than `pairs` pairs.
pub(crate) fn next_step(
    alloc: Global,
    here: &MarkedSet,
    weight: &IntVec,
    pairs: u64,
) -> Option<Step>
    requires basis { IsSomeBasis here.now }
    requires width { length weight.now ≡ here.now.variables }
    ensures { IfSome result (IsConversionStep weight.now here.now) }
{
    let cone = cone_of(alloc, here)?;
    let told = facet_towards(&cone, weight)?;
    let index = match told {
        Towards::Nowhere => return Some(Step::Arrived),
        Towards::Facet(index) => index,
    };
    let normal = &cone.normals()[index];
    match flip(alloc, here, normal, pairs) {
        Ok(across) => Some(Step::Across(across)),
        Err(_) => None,
    }
}
