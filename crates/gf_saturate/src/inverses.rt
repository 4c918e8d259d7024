//! Saturations by some of their polynomials that a basis with the inverse of a variable has.
//!
//! With one more variable t, and `t*x - 1` beside the polynomials, whatever has no t is in the saturation by x. The members of a basis without t needn't
//! generate that; but where each variable is a unit modulo the ideal of them and the polynomials, this is the saturation. So the order may be one that
//! keeps numbers narrow.
ghost use Rattle.std.specs.Prelude.{◌≡◌, ◌<◌, ◌+◌, IfOk, IfSome, IsTrue, map};
ghost use Rattle.gf_poly.specs.Polynomial.{HasVariables};
ghost use Rattle.gf_buchberger.specs.Tasks.{HaveRingVariables};
ghost use Rattle.gf_saturate.specs.Graded.{IsWeightedBasis};
ghost use Rattle.gf_saturate.specs.Proposals.{IsStart};
ghost use Rattle.gf_saturate.specs.Saturating.{IsSaturation, step_list};
ghost use Rattle.gf_saturate.specs.Widening.{narrowed_term, widened_term};

use crate::elimination::extended;
use crate::graded::{exponent, lowered_order};
use crate::narrowing::narrowed_polynomial;
use crate::relation::variable;
use crate::stages::copies;
use crate::units::{by_runs, by_units, is_unit, vanish_at_zero};
use gf_poly::{MarkedSet, Poly, ROOM};
use std::alloc::{AllocError, Global};

/// The most pairs of a run with an inverse.
const SOON: u64 = 1000;

/// How often the inverse counts in the degree.
const TWICE: i128 = 2;

/// The basis of polynomials in `n + 1` variables by degree, in which the last variable counts so many times, then revlex.
pub(crate) fn inverse_basis(
    alloc: Global,
    n: u32,
    times: i128,
    set: &[Poly],
    pairs: u64,
) -> Option<MarkedSet>
    requires room { n < ROOM }
    requires variables { HaveRingVariables (n + 1) set.now }
    ensures { IfSome result (IsWeightedBasis (n + 1) set.now) }
{
    let mut grade = [1i128; ROOM];
    grade[n as usize] = times;
    let Some(order) = lowered_order(alloc, n + 1, n + 1, &grade[..n as usize + 1]) else {
        return None;
    };
    let Some(found) = by_runs(alloc, n + 1, set, &order, pairs.min(SOON)) else {
        return None;
    };
    Some(found)
}

/// Whether the last of `n + 1` variables doesn't occur in the polynomial.
pub(crate) fn is_without(n: u32, f: &Poly) -> bool
    requires { HasVariables (n + 1) f.now }
    ensures { IsTrue result → map widened_term (map (narrowed_term n) f.now) ≡ f.now }
{
    let terms = f.terms();
    'monomials: for i in 0..terms.len() {
        let t = &terms[i];
        let last = exponent(&t.mono, n);
        if last != 0 {
            return false;
        }
    }
    true
}

/// The polynomials, and the members of the basis in which the last variable doesn't occur.
fn with_members_without(
    alloc: Global,
    n: u32,
    k: u32,
    set: &[Poly],
    found: &MarkedSet,
) -> Result<Vec<Poly>, AllocError>
    requires room { n < ROOM }
    requires inside { k < n }
    requires variables { HaveRingVariables n set.now }
    requires basis { IsWeightedBasis (n + 1) (step_list n k set.now) found.now }
    ensures { IfOk result (λ all. IsStart n set.now all.items) }
{
    let mut all = copies(alloc, set)?;
    let items = found.items();
    'members: for i in 0..items.len() {
        let b = &items[i];
        let f = b.poly();
        if !is_without(n, f) {
            continue;
        }
        let g = narrowed_polynomial(alloc, n, f)?;
        all.push(g)?;
    }
    Ok(all)
}

/// The polynomials, and more in the saturation by the variable at index `k`.
fn with_inverse(alloc: Global, n: u32, k: u32, set: &[Poly], pairs: u64) -> Option<Vec<Poly>>
    requires room { n < ROOM }
    requires inside { k < n }
    requires variables { HaveRingVariables n set.now }
    ensures { IfSome result (λ all. IsStart n set.now all.items) }
{
    let by = variable(alloc, n, k);
    let Ok(generators) = extended(alloc, n, &by, set) else {
        return None;
    };
    let Some(found) = inverse_basis(alloc, n, TWICE, &generators, pairs) else {
        return None;
    };
    match with_members_without(alloc, n, k, set, &found) {
        Ok(all) => Some(all),
        Err(_) => None,
    }
}

/// The polynomials, and more in the saturation by those variables that are no units modulo them, until they are; nothing where one stays none.
fn with_inverses(alloc: Global, n: u32, set: &[Poly], pairs: u64) -> Option<Vec<Poly>>
    requires room { n < ROOM }
    requires variables { HaveRingVariables n set.now }
    ensures { IfSome result (λ all. IsStart n set.now all.items) }
{
    let Ok(given) = copies(alloc, set) else {
        return None;
    };
    let mut polys = given;
    'variables: for k in 0..n {
        let list = polys.as_slice();
        if is_unit(alloc, n, k, list, pairs) {
            continue;
        }
        let Some(more) = with_inverse(alloc, n, k, list, pairs) else {
            return None;
        };
        let longer = more.as_slice();
        if !is_unit(alloc, n, k, longer, pairs) {
            return None;
        }
        polys = more;
    }
    Some(polys)
}

/// The saturation of an ideal, where with more polynomials of it, which bases with inverses have, each variable is a unit.
pub(crate) fn by_inverses(alloc: Global, n: u32, set: &[Poly], pairs: u64) -> Option<MarkedSet>
    requires room { n < ROOM }
    requires variables { HaveRingVariables n set.now }
    ensures { IfSome result (IsSaturation n set.now) }
{
    if vanish_at_zero(set) {
        return None;
    }
    let Some(polys) = with_inverses(alloc, n, set, pairs) else {
        return None;
    };
    let list = polys.as_slice();
    by_units(alloc, n, list, pairs)
}
