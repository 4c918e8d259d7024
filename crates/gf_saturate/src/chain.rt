//! Saturations by one variable after another, by elimination by degree.
//!
//! With one more variable t, and `t*x - 1` beside the polynomials, a basis is made by degree, in which t counts a thousand times, then revlex. If no member
//! without t in its mark has t in another term, the members without t generate the saturation by x, whatever the order is: this is tested. In contrast to the
//! weight of t and lex, by which any basis is so, numbers stay narrow. Variables that are units modulo the ideal are left out; and since the time and the
//! numbers of a run depend on the variables before, it is begun anew at a variable whose run is refused.
//!
//! Each function answers nothing where a run of Buchberger's algorithm or the allocator refuses: then the saturation is worked out by the weight of t and lex.
ghost use Rattle.std.specs.Prelude.{◌≡◌, ◌<◌, ◌+◌, IfOk, IfErr, IfSome, length};
ghost use Rattle.gf_buchberger.specs.Tasks.{HaveRingVariables};
ghost use Rattle.gf_saturate.specs.Chains.{AreWide, AreFreeMembers, AreSaturated, IsTaken, IsChainIndex};
ghost use Rattle.gf_saturate.specs.Graded.{GenerateSaturation};
ghost use Rattle.gf_saturate.specs.Saturating.{IsSaturation};

use crate::elimination::{extended, is_free};
use crate::graded::{exponent, first_variable};
use crate::inverses::{inverse_basis, is_without};
use crate::narrowing::narrowed_polynomial;
use crate::relation::variable;
use crate::stages::{copies, product};
use crate::units::{by_runs, is_unit, vanish_at_zero};
use gf_order::Order;
use gf_poly::{MarkedSet, Mono, Poly, ROOM};
use std::alloc::{AllocError, Global};

/// How often the inverse of a variable counts in the degree: more than the degree of any mark without it, as a rule.
const OFTEN: i128 = 1000;

/// How often it is begun anew.
const STARTS: u32 = 4;

/// The members without the last of `n + 1` variables, in the first `n`; nothing if one has it, but not in its mark.
fn free_members(alloc: Global, n: u32, found: &MarkedSet) -> Result<Option<Vec<Poly>>, AllocError>
    requires { AreWide n found.now.items }
    ensures { IfOk result (λ o. IfSome o (λ all. AreFreeMembers n found.now.items all.items)) }
{
    let items = found.items();
    let mut all = Vec::new(alloc);
    'members: for i in 0..items.len() {
        let b = &items[i];
        if !is_free(n, b) {
            continue;
        }
        let f = b.poly();
        if !is_without(n, f) {
            return Ok(None);
        }
        let g = narrowed_polynomial(alloc, n, f)?;
        all.push(g)?;
    }
    Ok(Some(all))
}

/// What generates the saturation by the variable at index `k`.
fn eliminated(alloc: Global, n: u32, k: u32, set: &[Poly], pairs: u64) -> Option<Vec<Poly>>
    requires room { n < ROOM }
    requires inside { k < n }
    requires variables { HaveRingVariables n set.now }
    ensures { IfSome result (λ all. AreSaturated n k set.now all.items) }
{
    let by = variable(alloc, n, k);
    let Ok(generators) = extended(alloc, n, &by, set) else {
        return None;
    };
    let Some(found) = inverse_basis(alloc, n, OFTEN, &generators, pairs) else {
        return None;
    };
    match free_members(alloc, n, &found) {
        Ok(all) => all,
        Err(_) => None,
    }
}

/// The monomial without one of the variable at index `k`, where it has one.
fn taken(alloc: Global, n: u32, k: u32, left: &Mono) -> Mono
    requires room { n < ROOM }
    requires inside { k < n }
    requires long { length left.now ≡ n }
    ensures long { length result ≡ n }
    ensures taken { IsTaken k left.now result }
{
    let one = variable(alloc, n, k);
    if !one.divides(left) {
        return left.copy();
    }
    left.quotient(&one)
}

/// The product of the variables that aren't found to be units modulo the ideal.
fn without_units(alloc: Global, n: u32, set: &[Poly], pairs: u64) -> Mono
    requires room { n < ROOM }
    requires variables { HaveRingVariables n set.now }
    ensures { IsChainIndex n set.now set.now result }
{
    let mut left = product(alloc, n);
    if vanish_at_zero(set) {
        return left;
    }
    'variables: for k in 0..n {
        if !is_unit(alloc, n, k, set, pairs) {
            continue;
        }
        left = taken(alloc, n, k, &left);
    }
    left
}

/// The variable at index `first`, if that occurs; else the first one that does.
fn next_index(n: u32, first: u32, left: &Mono) -> Option<u32>
    requires inside { first < n }
    requires long { length left.now ≡ n }
    ensures { IfSome result (λ k. k < n) }
{
    if exponent(left, first) != 0 {
        return Some(first);
    }
    first_variable(n, left)
}

/// What generates the saturation, by the variables of `left` one after another, the one at index `first` before the others; or the variable whose run is
/// refused.
fn along(
    alloc: Global,
    n: u32,
    first: u32,
    left: &Mono,
    set: &[Poly],
    pairs: u64,
) -> Result<Vec<Poly>, u32>
    requires room { n < ROOM }
    requires inside { first < n }
    requires variables { HaveRingVariables n set.now }
    requires index { IsChainIndex n set.now set.now left.now }
    ensures ok { IfOk result (λ all. GenerateSaturation n set.now all.items) }
    ensures err { IfErr result (λ k. k < n) }
{
    let Ok(given) = copies(alloc, set) else {
        return Err(first);
    };
    let mut polys = given;
    let mut rest = left.copy();
    'variables: for _ in 0..n {
        let Some(k) = next_index(n, first, &rest) else {
            continue;
        };
        let Some(next) = eliminated(alloc, n, k, &polys, pairs) else {
            return Err(k);
        };
        polys = next;
        rest = taken(alloc, n, k, &rest);
    }
    if rest.degree() != 0 {
        return Err(first);
    }
    Ok(polys)
}

/// What generates the saturation: it is begun at the first variable, and anew at one whose run is refused, or after it.
fn generators(alloc: Global, n: u32, set: &[Poly], pairs: u64) -> Option<Vec<Poly>>
    requires room { n < ROOM }
    requires variables { HaveRingVariables n set.now }
    ensures { IfSome result (λ all. GenerateSaturation n set.now all.items) }
{
    let left = without_units(alloc, n, set, pairs);
    let mut first = 0;
    'starts: for _ in 0..STARTS {
        if first >= n {
            return None;
        }
        match along(alloc, n, first, &left, set, pairs) {
            Ok(all) => return Some(all),
            Err(k) => first = if k == first { k + 1 } else { k },
        }
    }
    None
}

/// The saturation, by one variable after another.
pub(crate) fn by_chain(alloc: Global, n: u32, set: &[Poly], pairs: u64) -> Option<MarkedSet>
    requires room { n < ROOM }
    requires variables { HaveRingVariables n set.now }
    ensures { IfSome result (IsSaturation n set.now) }
{
    let Some(polys) = generators(alloc, n, set, pairs) else {
        return None;
    };
    let list = polys.as_slice();
    let Some(found) = by_runs(alloc, n, list, &Order::deglex(), pairs) else {
        return None;
    };
    Some(found)
}
