//! Saturations by division: bases whose marks have least of a variable, and members without all that their terms share.
//!
//! Each function answers nothing where a run of Buchberger's algorithm or the allocator refuses, or where a member can't be divided as far as
//! it has to be: then the saturation is worked out by inverses.
ghost use Rattle.std.specs.Prelude.{◌≡◌, ◌<◌, ◌≤◌, ◌^◌, unsigned_abs, IfOk, IfSome, length};
ghost use Rattle.gf_exponents_theory.specs.Exponents.{entry};
ghost use Rattle.gf_poly.specs.Polynomial.{HasVariables};
ghost use Rattle.gf_order.specs.Weights.{AreBounded};
ghost use Rattle.gf_buchberger.specs.Tasks.{HaveRingVariables};
ghost use Rattle.gf_saturate.specs.Graded.{IsByWeights, IsWeightedBasis, IsDividedMember, AreToDivide, AreDividedMembers};
ghost use Rattle.gf_saturate.specs.Graded.{IsDividedStep, IsChoice, one_list, GenerateSaturation};
ghost use Rattle.gf_saturate.specs.Saturating.{IsSaturation};

use crate::choice::{chosen, trials};
use crate::grades::grade_of;
use crate::monomials::has_one_term;
use crate::proposals::with_proposals;
use crate::stages::copies;
use gf_buchberger::{BasisError, basis};
use gf_dividing::{Factors, stripped};
use gf_frac::constants;
use gf_order::Order;
use gf_poly::{Marked, MarkedSet, Mono, Poly, ROOM, Term};
use gf_vec::IntVec;
use std::alloc::{AllocError, Global};

/// Twice a weight, or 1 less.
fn doubled(weight: u32, less: bool) -> u64
    ensures { result < 2 ^ 33 }
{
    let twice = 2 * u64::from(weight);
    if less && 0 < twice {
        return twice - 1;
    }
    twice
}

/// Twice an entry, or 1 less; 0 where it is negative or has more than 32 bits.
fn lowered_entry(entry: i128, less: bool) -> i128
    ensures { unsigned_abs result ≤ 2 ^ 63 }
{
    match u32::try_from(entry) {
        Ok(weight) => i128::from(doubled(weight, less)),
        Err(_) => 0,
    }
}

/// Twice each entry, and 1 less at index `k`.
fn lowered(alloc: Global, k: u32, grade: &[i128]) -> Result<IntVec, AllocError>
    ensures { IfOk result AreBounded }
{
    let mut all = Vec::with_capacity(alloc, grade.len())?;
    'entries: for i in 0..grade.len() {
        all.push(lowered_entry(grade[i], i == k as usize))?;
    }
    Ok(IntVec::from_vec(all))
}

/// The order by twice the grade, less 1 at index `k`, then revlex: of monomials of one grade that with less of this variable is greater.
pub(crate) fn lowered_order(alloc: Global, n: u32, k: u32, grade: &[i128]) -> Option<Order>
    ensures { IfSome result (IsByWeights n) }
{
    let Ok(weight) = lowered(alloc, k, grade) else {
        return None;
    };
    let long = weight.as_slice().len();
    if long != n as usize {
        return None;
    }
    match Order::weighted_revlex(weight) {
        Ok(order) => Some(order),
        Err(_) => None,
    }
}

/// The basis by this order.
fn lowered_basis(
    alloc: Global,
    n: u32,
    k: u32,
    grade: &[i128],
    set: &[Poly],
    pairs: u64,
) -> Option<MarkedSet>
    requires { HaveRingVariables n set.now }
    ensures { IfSome result (IsWeightedBasis n set.now) }
{
    let Some(order) = lowered_order(alloc, n, k, grade) else {
        return None;
    };
    match basis(alloc, n, set, &order, pairs) {
        Ok(found) => Some(found),
        Err(_) => None,
    }
}

/// The most pairs that a run may settle by which variables are compared.
const FEW: u64 = 100;

/// The most pairs of a run that ends soon.
const SOON: u64 = 1000;

/// How many members a run by this order has after a few pairs; 0 if it ends before.
pub(crate) fn members_after(
    alloc: Global,
    n: u32,
    k: u32,
    grade: &[i128],
    set: &[Poly],
    pairs: u64,
) -> u64
    requires { HaveRingVariables n set.now }
{
    let Some(order) = lowered_order(alloc, n, k, grade) else {
        return 0;
    };
    match basis(alloc, n, set, &order, pairs.min(FEW)) {
        Err(BasisError::PairBudget { basis: members, .. }) => members.items().len() as u64,
        _ => 0,
    }
}

/// The exponent of the variable at index `k`.
pub(crate) fn exponent(x: &Mono, k: u32) -> u32
    requires { k < length x.now }
    ensures { result ≡ entry x.now k }
{
    x.exponents()[k as usize]
}

/// The member without all that its terms share, where that has as much of the variable at index `k` as the mark.
fn divided_member(alloc: Global, n: u32, k: u32, b: &Marked) -> Option<Poly>
    requires inside { k < n }
    requires some { 0 < length b.now.poly }
    requires variables { HasVariables n b.now.poly }
    requires head { length b.now.head ≡ n }
    ensures { IfSome result (IsDividedMember n k b.now) }
{
    let Ok(factors) = stripped(alloc, n, b.poly()) else {
        return None;
    };
    let shared = exponent(&factors.by, k);
    let marked = exponent(b.head(), k);
    if shared < marked {
        return None;
    }
    let Factors { rest, .. } = factors;
    Some(rest)
}

/// All members so divided, where each may be.
fn divided_members(
    alloc: Global,
    n: u32,
    k: u32,
    found: &MarkedSet,
) -> Result<Option<Vec<Poly>>, AllocError>
    requires inside { k < n }
    requires members { AreToDivide n found.now.items }
    ensures { IfOk result (λ o. IfSome o (λ all. AreDividedMembers n k found.now.items all.items)) }
{
    let items = found.items();
    let mut all = Vec::with_capacity(alloc, items.len())?;
    'members: for i in 0..items.len() {
        let b = &items[i];
        let Some(h) = divided_member(alloc, n, k, b) else {
            return Ok(None);
        };
        all.push(h)?;
    }
    Ok(Some(all))
}

/// One step: the members of the basis, divided, where each may be.
fn divided_step(
    alloc: Global,
    n: u32,
    k: u32,
    grade: &[i128],
    set: &[Poly],
    pairs: u64,
) -> Option<Vec<Poly>>
    requires inside { k < n }
    requires variables { HaveRingVariables n set.now }
    ensures { IfSome result (λ all. IsDividedStep n k set.now all.items) }
{
    let Some(found) = lowered_basis(alloc, n, k, grade, set, pairs) else {
        return None;
    };
    match divided_members(alloc, n, k, &found) {
        Ok(all) => all,
        Err(_) => None,
    }
}

/// A list of the constant 1 alone.
fn list_of_one(alloc: Global, n: u32) -> Result<Vec<Poly>, AllocError>
    requires { n ≤ ROOM }
    ensures { IfOk result (λ all. all.items ≡ one_list n) }
{
    let (_, one) = constants();
    let term = Term {
        coef: one,
        mono: Mono::one(alloc, n as usize),
    };
    let mut terms = Vec::new(alloc);
    terms.push(term)?;
    let mut all = Vec::new(alloc);
    all.push(Poly::from_descending(terms))?;
    Ok(all)
}

/// The constant 1 alone.
fn one_alone(alloc: Global, n: u32) -> Option<Vec<Poly>>
    requires { n ≤ ROOM }
    ensures { IfSome result (λ all. all.items ≡ one_list n) }
{
    match list_of_one(alloc, n) {
        Ok(all) => Some(all),
        Err(_) => None,
    }
}

/// What the steps by the variables of `left`, one after another, leave; 1 alone as soon as a member has one term, which is a constant then.
fn divided_by(
    alloc: Global,
    n: u32,
    grade: &[i128],
    left: &Mono,
    set: &[Poly],
    pairs: u64,
) -> Option<Vec<Poly>>
    requires room { n ≤ ROOM }
    requires choice { IsChoice n set.now left.now }
    requires variables { HaveRingVariables n set.now }
    ensures { IfSome result (λ all. GenerateSaturation n set.now all.items) }
{
    let Ok(given) = copies(alloc, set) else {
        return None;
    };
    let mut polys = given;
    'variables: for k in 0..n {
        let times = exponent(left, k);
        if times == 0 {
            continue;
        }
        let Some(next) = divided_step(alloc, n, k, grade, &polys, pairs) else {
            return None;
        };
        if has_one_term(n, &next) {
            return one_alone(alloc, n);
        }
        polys = next;
    }
    Some(polys)
}

/// The index of the first variable that occurs.
pub(crate) fn first_variable(n: u32, x: &Mono) -> Option<u32>
    requires { n ≤ length x.now }
    ensures { IfSome result (λ k. k < n) }
{
    'indices: for k in 0..n {
        if exponent(x, k) != 0 {
            return Some(k);
        }
    }
    None
}

/// A number for each variable: equal ones, but for a smaller one at index `k`, so that this variable is dropped last.
fn kept_last(k: u32) -> [u64; ROOM]
    requires { k < ROOM }
{
    let mut numbers = [2; ROOM];
    numbers[k as usize] = 1;
    numbers
}

/// What the steps by the variables of a choice leave of the polynomials and proposals, where they are differences of two monomials.
fn divided_with_proposals(
    alloc: Global,
    n: u32,
    grade: &[i128],
    set: &[Poly],
    pairs: u64,
) -> Option<Vec<Poly>>
    requires room { n ≤ ROOM }
    requires variables { HaveRingVariables n set.now }
    ensures { IfSome result (λ all. GenerateSaturation n set.now all.items) }
{
    let first = chosen(alloc, n, [1; ROOM], set);
    let Some(k) = first_variable(n, &first) else {
        return None;
    };
    let Some(order) = lowered_order(alloc, n, k, grade) else {
        return None;
    };
    let Some(start) = with_proposals(alloc, n, set, &order, pairs) else {
        return None;
    };
    let list = start.as_slice();
    let second = chosen(alloc, n, kept_last(k), list);
    divided_by(alloc, n, grade, &second, list, pairs)
}

/// What the steps by the variables of a choice leave: where each run ends soon, of the first one, and else of one by which runs are faster.
fn divided_as_given(
    alloc: Global,
    n: u32,
    grade: &[i128],
    set: &[Poly],
    pairs: u64,
) -> Option<Vec<Poly>>
    requires room { n ≤ ROOM }
    requires variables { HaveRingVariables n set.now }
    ensures { IfSome result (λ all. GenerateSaturation n set.now all.items) }
{
    let first = chosen(alloc, n, [1; ROOM], set);
    match divided_by(alloc, n, grade, &first, set, pairs.min(SOON)) {
        Some(polys) => Some(polys),
        None => {
            let numbers = trials(alloc, n, grade, set, pairs);
            let second = chosen(alloc, n, numbers, set);
            divided_by(alloc, n, grade, &second, set, pairs)
        }
    }
}

/// What the steps by the variables of a choice leave, with proposals where that may be.
fn divided(alloc: Global, n: u32, grade: &[i128], set: &[Poly], pairs: u64) -> Option<Vec<Poly>>
    requires room { n ≤ ROOM }
    requires variables { HaveRingVariables n set.now }
    ensures { IfSome result (λ all. GenerateSaturation n set.now all.items) }
{
    match divided_with_proposals(alloc, n, grade, set, pairs) {
        Some(polys) => Some(polys),
        None => divided_as_given(alloc, n, grade, set, pairs),
    }
}

/// The saturation of polynomials that a positive weight makes homogeneous, if such a weight is found and nothing is refused.
pub(crate) fn by_division(alloc: Global, n: u32, set: &[Poly], pairs: u64) -> Option<MarkedSet>
    requires room { n < ROOM }
    requires variables { HaveRingVariables n set.now }
    ensures { IfSome result (IsSaturation n set.now) }
{
    let Some(grade) = grade_of(alloc, n, set) else {
        return None;
    };
    let Some(polys) = divided(alloc, n, grade.as_slice(), set, pairs) else {
        return None;
    };
    match basis(alloc, n, &polys, &Order::deglex(), pairs) {
        Ok(saturation) => Some(saturation),
        Err(_) => None,
    }
}
