//! Cones of marked sets.
ghost use Rattle.std.specs.Prelude.{◌≡◌, ◌<◌, length, IfOk, IfSome};
ghost use Rattle.gf_cone.specs.Answers.{AnswersFacet, IsFacetAnswered};
ghost use Rattle.gf_cone.specs.Cones.{HasInterior};
ghost use Rattle.gf_facets_theory.specs.Systems.{units};

use crate::answers::add;
use crate::sets::positive;
use gf_cone::{Cone, FacetAnswer, FlipAnswer, Region, is_inside};
use gf_gordan::GordanError;
use gf_known_cone::{KnownCone, interior_near};
use gf_poly::MarkedSet;
use gf_rows::{fields, texts};
use gf_vec::IntVec;
use std::alloc::Global;

/// `Cone::facet`. No proof above it cites what its answers show, so that a weaker clause would be seen nowhere but here.
fn facet_of(cone: &Cone, index: usize) -> Result<FacetAnswer, GordanError>
    requires index { index < length cone.now.normals }
    requires interior { HasInterior cone.now }
    ensures ok { IfOk result (AnswersFacet cone.now index) }
    ensures told { IfOk result (IsFacetAnswered cone.now index) }
{
    cone.facet(index)
}

/// `Cone::flippable` among all positive vectors.
fn flip_of(alloc: Global, cone: &Cone, index: usize) -> Result<FlipAnswer, GordanError>
    requires index { index < length cone.now.normals }
    requires beside { cone.now.beside ≡ units cone.now.variables cone.now.variables }
    requires interior { HasInterior cone.now }
{
    let region = Region::positive(alloc, cone.variables())?;
    cone.flippable(index, &region)
}

/// So many times a normal, by these multipliers of others.
fn combination(alloc: Global, times: i128, multipliers: &IntVec) -> Option<String> {
    let multipliers = texts::vector(alloc, multipliers)?;
    format!(in alloc; "{times} by {multipliers}").ok()
}

/// Whether the normal at an index is one of a facet, or one that a flip may cross.
fn at_index(alloc: Global, call: &str, cone: &Cone, index: usize) -> Option<String>
    requires index { index < length cone.now.normals }
    requires beside { cone.now.beside ≡ units cone.now.variables cone.now.variables }
    requires interior { HasInterior cone.now }
{
    match call {
        "facet" => match facet_of(cone, index).ok()? {
            FacetAnswer::Facet { witness: _ } => texts::text(alloc, "yes"),
            FacetAnswer::Redundant { times, multipliers } => {
                combination(alloc, times, &multipliers)
            }
        },
        "flip" => match flip_of(alloc, cone, index).ok()? {
            FlipAnswer::Yes { witness: _ } => texts::text(alloc, "yes"),
            FlipAnswer::No { times, multipliers } => combination(alloc, times, &multipliers),
        },
        _ => None,
    }
}

/// Whether a cone that remembers has a way up among all positive vectors. By `way` nothing is learned.
fn has_way(alloc: Global, known: &mut KnownCone, call: &str) -> Option<bool> {
    let region = positive(alloc, known.cone().variables())?;
    match call {
        "way" => Some(known.way(&region).ok()?.is_some()),
        "way_up" => Some(known.way_up(&region).ok()?.is_some()),
        _ => None,
    }
}

/// Whether a flip may cross the facet of the normal at an index, or whether a vector is known that shows so. By `crossing` nothing is learned.
fn is_crossed(known: &mut KnownCone, call: &str, index: usize) -> Option<bool> {
    if index >= known.normals().len() {
        return None;
    }
    match call {
        "crossing" => Some(known.crossing(index).ok()?.is_some()),
        "flippable" => known.is_flippable(index).ok(),
        "witness" => Some(known.witness(index).is_some()),
        _ => None,
    }
}

/// What a cone that remembers answers in turn; of its inside a vector is known.
fn remembered(alloc: Global, cone: Cone, inner: IntVec, asked: &str) -> Option<String> {
    let mut known = KnownCone::new(alloc, cone, Some(inner)).ok()?;
    let mut text = String::new(alloc);
    for words in asked.split("; ") {
        let holds = match words.split_once(' ') {
            Some((call, index)) => is_crossed(&mut known, call, index.parse().ok()?)?,
            None => has_way(alloc, &mut known, words)?,
        };
        add(&mut text, if holds { "yes" } else { "no" })?;
    }
    Some(text)
}

/// Whether a vector that is found near another one, past a normal, is inside the cone.
fn is_found_near(alloc: Global, cone: &Cone, witness: &str, normal: &str) -> Option<bool> {
    let witness = fields::vector(alloc, witness)?;
    let normal = fields::vector(alloc, normal)?;
    let point = interior_near(alloc, cone, &witness, &normal)?;
    Some(is_inside(cone, &point))
}

/// What a call gives on a cone of which a vector of the inside is known.
fn with_inner(
    alloc: Global,
    call: &str,
    cone: Cone,
    inner: IntVec,
    fields: &[&str],
) -> Option<String>
    requires { cone.beside ≡ units cone.variables cone.variables }
{
    if !is_inside(&cone, &inner) {
        return None;
    }
    match (call, fields) {
        ("remembered", [asked]) => remembered(alloc, cone, inner, asked),
        (call, [index]) => {
            let index = index.parse::<usize>().ok()?;
            if index >= cone.normals().len() {
                return None;
            }
            at_index(alloc, call, &cone, index)
        }
        _ => None,
    }
}

/// The cone of a marked set.
fn cone_of(alloc: Global, set: &MarkedSet) -> Option<Cone>
    ensures { IfSome result (λ c. c.beside ≡ units c.variables c.variables) }
{
    match Cone::of(alloc, set) {
        Ok(cone) => Some(cone),
        Err(_) => None,
    }
}

/// What a call on the cone of a marked set in so many variables gives.
pub(crate) fn told(alloc: Global, call: &str, fields: &[&str]) -> Option<String> {
    let [n, set, fields @ ..] = fields else {
        return None;
    };
    let set = fields::marked(alloc, n.parse::<u32>().ok()?, set)?;
    let cone = cone_of(alloc, &set)?;
    match (call, fields) {
        ("normals", []) => texts::vectors(alloc, cone.normals()),
        ("inside", [v]) => texts::text(alloc, is_inside(&cone, &fields::vector(alloc, v)?)),
        ("near", [witness, normal]) => {
            texts::text(alloc, is_found_near(alloc, &cone, witness, normal)?)
        }
        (call, [inner, fields @ ..]) => {
            with_inner(alloc, call, cone, fields::vector(alloc, inner)?, fields)
        }
        _ => None,
    }
}
