//! A weight by which the marks of lifts are heaviest. Nothing is asked of it: reductions end by any.

ghost use Rattle.std.specs.Prelude.{IfSome};
ghost use Rattle.gf_poly.specs.Marking.{HaveVariables};

use gf_cone::Cone;
use gf_division::weight_of;
use gf_gordan::{Answer, strict};
use gf_poly::{Marked, MarkedSet};
use gf_strands::with_room;
use gf_vec::IntVec;
use std::alloc::Global;

/// How many rounds a weight is looked for near equal entries: mostly few are enough, and where the cone is thin none would be.
pub const ROUNDS: u64 = 32;

/// The lifts, copied.
fn copies(alloc: Global, n: u32, lifts: &[Marked]) -> Option<Vec<Marked>>
    requires { HaveVariables n lifts.now }
    ensures { IfSome result (λ cs. HaveVariables n cs.items) }
{
    let mut all = Vec::new(alloc);
    'lifts: for i in 0..lifts.len() {
        let copy = match lifts[i].copy() {
            Ok(copy) => copy,
            Err(_) => return None,
        };
        match all.push(copy) {
            Ok(()) => {}
            Err(_) => return None,
        }
    }
    Some(all)
}

/// A vector inside the cone of the lifts.
fn inner(alloc: Global, n: u32, lifts: &[Marked]) -> Option<IntVec>
    requires { HaveVariables n lifts.now }
{
    let set = MarkedSet::new(n, copies(alloc, n, lifts)?);
    let cone = match Cone::of(alloc, &set) {
        Ok(cone) => cone,
        Err(_) => return None,
    };
    let vectors = match cone.vectors() {
        Ok(vectors) => vectors,
        Err(_) => return None,
    };
    match strict(alloc, cone.variables(), vectors.as_slice(), &[]) {
        Ok(Answer::Point(point)) => Some(point),
        _ => None,
    }
}

/// The vector with entries of 64 bits, if they fit.
fn narrowed(alloc: Global, point: &[i128]) -> Option<Vec<i64>> {
    let mut weight = Vec::new(alloc);
    'entries: for i in 0..point.len() {
        let entry = match i64::try_from(point[i]) {
            Ok(entry) => entry,
            Err(_) => return None,
        };
        match weight.push(entry) {
            Ok(()) => {}
            Err(_) => return None,
        }
    }
    Some(weight)
}

/// A weight by which the marks of the lifts are heaviest, or one by which nearly all are. It is looked for near equal entries first, and
/// then inside their cone.
pub fn weight_found(alloc: Global, n: u32, lifts: &[Marked]) -> Option<Vec<i64>>
    requires { HaveVariables n lifts.now }
{
    let (reached, is_found) = weight_of(alloc, lifts, ROUNDS)?;
    if is_found {
        return Some(reached);
    }
    if let Some(point) = inner(alloc, n, lifts)
        && let Some(weight) = narrowed(alloc, point.as_slice())
    {
        return Some(weight);
    }
    Some(reached)
}

/// A facet that is crossed: a vector inside it, and its normal.
#[derive(Clone, Copy)]
pub struct Facet<'a> {
    pub inside: &'a [i128],
    pub normal: &'a [i128],
}

/// What a vector gives on the exponents of `x` less those of `y`.
fn gain_of(vector: &[i64], x: &[u32], y: &[u32]) -> i64 {
    let mut sum = 0i64;
    'entries: for (v, (a, b)) in vector.iter().zip(x.iter().zip(y)) {
        sum = sum.wrapping_add(v.wrapping_mul(i64::from(*a) - i64::from(*b)));
    }
    sum
}

/// The least factor from another one on, so many times what the vector inside the facet gives is above what the normal gives.
fn raised(factor: i64, inside: i64, normal: i64) -> Option<i64> {
    if inside > 0 {
        if normal < 0 {
            return Some(factor);
        }
        return Some(factor.max((normal / inside).wrapping_add(1)));
    }
    if inside == 0 && normal < 0 {
        return Some(factor);
    }
    None
}

/// The least factor from another one on that serves for the mark of a lift and its other terms.
fn raised_by(factor: i64, lift: &Marked, inside: &[i64], normal: &[i64]) -> Option<i64> {
    let head = lift.head().exponents();
    let terms = lift.poly().terms();
    let mut most = factor;
    'terms: for k in 0..terms.len() {
        if k != lift.index() {
            let x = terms[k].mono.exponents();
            most = raised(most, gain_of(inside, head, x), gain_of(normal, head, x))?;
        }
    }
    Some(most)
}

/// The least multiple of the vector inside the facet that, less the normal, is positive and heavier at the marks of the lifts than at their other
/// terms. Once the lifts have the initial forms of the parts there is one.
fn weight_across(alloc: Global, lifts: &[Marked], facet: Facet) -> Option<Vec<i64>> {
    let inside = narrowed(alloc, facet.inside)?;
    let normal = narrowed(alloc, facet.normal)?;
    if inside.is_empty() || inside.len() != normal.len() {
        return None;
    }
    let mut factor = 1;
    'entries: for (v, a) in inside.iter().zip(&normal) {
        factor = raised(factor, *v, *a)?;
    }
    'lifts: for i in 0..lifts.len() {
        factor = raised_by(factor, &lifts[i], &inside, &normal)?;
    }
    let mut weight = with_room(alloc, inside.len())?;
    'sums: for (v, a) in inside.iter().zip(&normal) {
        match weight.push(factor.checked_mul(*v)?.checked_sub(*a)?) {
            Ok(()) => {}
            Err(_) => return None,
        }
    }
    Some(weight)
}

/// A weight by which the marks of the lifts are heaviest, or one by which nearly all are: one just across the facet, or else one that is looked
/// for anew.
pub fn weight_for(alloc: Global, n: u32, lifts: &[Marked], facet: Facet) -> Option<Vec<i64>>
    requires { HaveVariables n lifts.now }
{
    match weight_across(alloc, lifts, facet) {
        Some(weight) => Some(weight),
        None => weight_found(alloc, n, lifts),
    }
}
