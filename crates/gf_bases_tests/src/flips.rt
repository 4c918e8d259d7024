//! Flips. A facet is only crossed where the cone of the basis tells that a flip may cross it, so that what a flip asks for holds at each call.
ghost use Rattle.std.specs.Prelude.{IfOk, IfSome};
ghost use Rattle.gf_flip.specs.Reached.{IsReachedByFlips};

use crate::sets::{polynomials, start};
use gf_cone::Cone;
use gf_flip::flip;
use gf_known_cone::KnownCone;
use gf_poly::{MarkedSet, Poly, PolyError};
use gf_rows::texts;
use std::alloc::Global;

/// The basis across the facet of the normal at an index, if there is one and a flip may cross it.
fn across(
    alloc: Global,
    list: &[Poly],
    set: &MarkedSet,
    index: usize,
) -> Result<Option<MarkedSet>, PolyError>
    requires { IsReachedByFlips list.now set.now }
    ensures { IfOk result (λ o. IfSome o (IsReachedByFlips list.now)) }
{
    let cone = Cone::of(alloc, set)?;
    let mut known = KnownCone::new(alloc, cone, None)?;
    if index >= known.normals().len() {
        return Ok(None);
    }
    match known.is_flippable(index) {
        Ok(true) => {}
        Ok(false) => return Ok(None),
        Err(_) => return Err(PolyError::Memory),
    }
    let normals = known.normals();
    let normal = &normals[index];
    match flip(alloc, set, normal, 1000) {
        Ok(next) => Ok(Some(next)),
        Err(_) => Err(PolyError::Memory),
    }
}

/// The bases that were found, and from which to which of them each flip led.
#[derive(Drop)]
struct Found {
    bases: Vec<String>,
    flips: Vec<(usize, usize)>,
}

impl Found {
    /// The number of a basis, which is added where it is new.
    fn number(&mut self, basis: String) -> Option<usize> {
        let known = self.bases.iter().position(|b| b.as_str() == basis.as_str());
        if known.is_some() {
            return known;
        }
        let number = self.bases.len();
        self.bases.push(basis).ok()?;
        Some(number)
    }

    /// Whether a flip led from the first to the second.
    fn has(&self, from: usize, to: usize) -> bool {
        self.flips.iter().any(|(i, j)| *i == from && *j == to)
    }

    /// Whether each flip has one that leads back.
    fn leads_back(&self) -> bool {
        self.flips.iter().all(|(from, to)| self.has(*to, *from))
    }
}

/// Crosses all facets of a basis, and then those of the bases that are new; at most so deep.
fn visit(alloc: Global, list: &[Poly], set: &MarkedSet, depth: u32, found: &mut Found) -> Option<()>
    requires { IsReachedByFlips list.now set.now }
{
    if depth == 0 {
        return None;
    }
    let from = found.number(texts::set(alloc, set)?)?;
    let facets = Cone::of(alloc, set).ok()?.normals().len();
    for index in 0..facets {
        match across(alloc, list, set, index) {
            Ok(Some(next)) => {
                let new = found.bases.len();
                let to = found.number(texts::set(alloc, &next)?)?;
                found.flips.push((from, to)).ok()?;
                if to == new {
                    visit(alloc, list, &next, depth - 1, found)?;
                }
            }
            Ok(None) => {}
            Err(_) => return None,
        }
    }
    Some(())
}

/// How many bases flips lead to from this one; none where a flip doesn't lead back.
fn count(alloc: Global, list: &[Poly], first: &MarkedSet) -> Option<String>
    requires { IsReachedByFlips list.now first.now }
{
    let mut found = Found {
        bases: Vec::new(alloc),
        flips: Vec::new(alloc),
    };
    visit(alloc, list, first, 200, &mut found)?;
    if !found.leads_back() {
        return None;
    }
    texts::text(alloc, found.bases.len())
}

/// What flips give from the basis by degree of a set in so many variables.
pub(crate) fn told(alloc: Global, call: &str, fields: &[&str]) -> Option<String> {
    let [n, set, indices @ ..] = fields else {
        return None;
    };
    let n = n.parse::<u32>().ok()?;
    let list = polynomials(alloc, n, set)?;
    let first = start(alloc, n, &list)?;
    match (call, indices) {
        ("across", [index]) => {
            let next = across(alloc, &list, &first, index.parse().ok()?).ok()??;
            texts::set(alloc, &next)
        }
        ("count", []) => count(alloc, &list, &first),
        _ => None,
    }
}
