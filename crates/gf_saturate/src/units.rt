//! Ideals modulo which each variable is a unit: each is its own saturation.
//!
//! A variable is a unit modulo an ideal if 1 is in the ideal of the polynomials and of this variable, so that none of their zeros is on its coordinate
//! hyperplane. If so, what a power of the variable takes into the ideal is in it. That is so of most ideals without a grade that have finitely many zeros.
//!
//! Each function answers nothing, or no, where a run of Buchberger's algorithm or the allocator refuses: then the saturation is worked out by inverses.
ghost use Rattle.std.specs.Prelude.{◌≡◌, ◌∷◌, ◌<◌, ◌≤◌, ℕ, IfOk, IfSome, IsTrue};
ghost use Rattle.gf_order.specs.Comparisons.{HasEntries};
ghost use Rattle.gf_buchberger.specs.Bases.{IsArrangedBasis, IsBasisRefusal};
ghost use Rattle.gf_buchberger.specs.Tasks.{HaveRingVariables, IsSuited};
ghost use Rattle.gf_saturate.specs.Saturating.{AddsNothing, IsSaturation};
ghost use Rattle.gf_saturate.specs.Units.{variable_terms};

use crate::monomials::has_unit_mark;
use crate::relation::variable;
use gf_buchberger::{BasisError, basis, basis_by_second_run, wide_basis};
use gf_frac::constants;
use gf_order::Order;
use gf_poly::{MarkedSet, Poly, ROOM, Term};
use std::alloc::{AllocError, Global};

/// The most pairs of a run by which a variable is tested.
const SOON: u64 = 1000;

/// Whether the polynomial vanishes at 0: it has no constant term, which would be its last one.
fn vanishes_at_zero(f: &Poly) -> bool {
    match f.terms().last() {
        Some(t) => t.mono.degree() != 0,
        None => true,
    }
}

/// Whether all polynomials vanish at 0. If so, no variable is a unit modulo their ideal.
pub(crate) fn vanish_at_zero(set: &[Poly]) -> bool {
    'polynomials: for i in 0..set.len() {
        if !vanishes_at_zero(&set[i]) {
            return false;
        }
    }
    true
}

/// The basis, by other runs than the first one, which was refused; none unless it was refused for numbers that don't fit.
fn by_other_runs(
    alloc: Global,
    n: u32,
    set: &[Poly],
    order: &Order,
    pairs: u64,
    first: BasisError,
) -> Option<MarkedSet>
    requires variables { HaveRingVariables n set.now }
    requires entries { HasEntries n order.now }
    requires suited { IsSuited order.now n set.now }
    requires first { IsBasisRefusal order.now n set.now pairs first }
    ensures { IfSome result (IsArrangedBasis order.now n set.now) }
{
    if !first.is_of_numbers() {
        return None;
    }
    match basis_by_second_run(alloc, n, set, order, pairs, first) {
        Ok(found) => Some(found),
        Err(_) => match wide_basis(alloc, n, set, order, pairs) {
            Ok(found) => Some(found),
            Err(_) => None,
        },
    }
}

/// The basis, by the first of several runs whose numbers fit.
pub(crate) fn by_runs(
    alloc: Global,
    n: u32,
    set: &[Poly],
    order: &Order,
    pairs: u64,
) -> Option<MarkedSet>
    requires variables { HaveRingVariables n set.now }
    requires entries { HasEntries n order.now }
    requires suited { IsSuited order.now n set.now }
    ensures { IfSome result (IsArrangedBasis order.now n set.now) }
{
    match basis(alloc, n, set, order, pairs) {
        Ok(found) => Some(found),
        Err(refusal) => by_other_runs(alloc, n, set, order, pairs, refusal),
    }
}

/// The variable at index `k` as a polynomial.
fn variable_polynomial(alloc: Global, n: u32, k: u32) -> Result<Poly, AllocError>
    requires room { n ≤ ROOM }
    requires inside { k < n }
    ensures { IfOk result (λ p. p ≡ variable_terms n k) }
{
    let (_, one) = constants();
    let term = Term {
        coef: one,
        mono: variable(alloc, n, k),
    };
    let mut terms = Vec::new(alloc);
    terms.push(term)?;
    Ok(Poly::from_descending(terms))
}

/// The variable at index `k`, then the polynomials. In this order each of these enters a run without its terms that have the variable.
fn with_variable(alloc: Global, n: u32, k: u32, set: &[Poly]) -> Result<Vec<Poly>, AllocError>
    requires room { n ≤ ROOM }
    requires inside { k < n }
    ensures { IfOk result (λ all. all.items ≡ variable_terms n k ∷ set.now) }
{
    let first = variable_polynomial(alloc, n, k)?;
    let mut all = Vec::new(alloc);
    all.push(first)?;
    'polynomials: for i in 0..set.len() {
        let f = set[i].copy()?;
        all.push(f)?;
    }
    Ok(all)
}

/// Whether the variable at index `k` is found to be a unit modulo the ideal, by a basis of at most 1000 pairs.
pub(crate) fn is_unit(alloc: Global, n: u32, k: u32, set: &[Poly], pairs: u64) -> bool
    requires room { n ≤ ROOM }
    requires inside { k < n }
    requires variables { HaveRingVariables n set.now }
    ensures { IsTrue result → AddsNothing n k set.now }
{
    let Ok(all) = with_variable(alloc, n, k, set) else {
        return false;
    };
    match by_runs(alloc, n, &all, &Order::deglex(), pairs.min(SOON)) {
        Some(found) => has_unit_mark(&found),
        None => false,
    }
}

/// Whether each variable is found to be a unit modulo the ideal.
fn are_units(alloc: Global, n: u32, set: &[Poly], pairs: u64) -> bool
    requires room { n ≤ ROOM }
    requires variables { HaveRingVariables n set.now }
    ensures { IsTrue result → (k : ℕ) → k < n → AddsNothing n k set.now }
{
    if vanish_at_zero(set) {
        return false;
    }
    'variables: for k in 0..n {
        if !is_unit(alloc, n, k, set, pairs) {
            return false;
        }
    }
    true
}

/// The saturation of an ideal modulo which each variable is found to be a unit: the basis of the ideal itself.
pub(crate) fn by_units(alloc: Global, n: u32, set: &[Poly], pairs: u64) -> Option<MarkedSet>
    requires room { n < ROOM }
    requires variables { HaveRingVariables n set.now }
    ensures { IfSome result (IsSaturation n set.now) }
{
    if !are_units(alloc, n, set, pairs) {
        return None;
    }
    let Some(found) = by_runs(alloc, n, set, &Order::deglex(), pairs) else {
        return None;
    };
    Some(found)
}
