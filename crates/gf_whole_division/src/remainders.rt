//! What is left of a generator, or of an S-polynomial, up to a factor.

ghost use Rattle.std.specs.Prelude.{◌≡◌, ◌≢◌, ◌<◌, [], false, length, pos, Contains, IfOk, OnOk, IsTrue};
ghost use Rattle.gf_frac.specs.Fraction.{whole, ◌*ℚ◌};
ghost use Rattle.gf_poly.specs.Polynomial.{HasVariables, KeepsVariables, Terms};
ghost use Rattle.gf_ideal_theory.specs.Reduction.{IsDivisible, IsIrreducible};
ghost use Rattle.gf_division.specs.SPolynomials.{KeepsPairVariables, AreLcmCofactors};
ghost use Rattle.gf_whole_division.specs.Values.{whole_terms, IsMultipleOf};
ghost use Rattle.gf_whole_division.specs.Reductions.{IsRemainderMultiple, IsPairMultiple, IsPairRemainderMultiple, KeepsReached, terms_of};

use crate::combinations::{Multiplier, combined};
use crate::dividend::WholeDividend;
use crate::members::{WholeMember, whole_multiple};
use crate::ranking::Ranking;
use crate::terms::{Beyond, WholeTerm};
use gf_frac::Frac;
use gf_poly::{Mono, Poly, Term};
use gf_whole::Whole;
use std::alloc::Global;

/// More steps than a reduction takes in any time that is given to it.
const STEPS: u64 = 1 << 40;

/// Steps, while a member reduces the greatest term that waits.
fn worked_off(
    alloc: Global,
    rest: &mut WholeDividend,
    by: &[WholeMember],
    ranking: &Ranking,
) -> Result<(), Beyond>
    ensures reached { OnOk result (KeepsReached by.now (terms_of rest.old) (terms_of rest.new)) }
    ensures done { OnOk result (rest.new.rest.items ≡ []) }
{
    'steps: for _ in 0..STEPS {
        if rest.is_done() {
            return Ok(());
        }
        rest.reduce(alloc, by, ranking)?;
        rest.shorten(alloc)?;
    }
    Err(Beyond)
}

/// Whether no mark divides the monomial of a term.
fn is_irreducible(terms: &[WholeTerm], by: &[WholeMember]) -> bool
    ensures { IsTrue result → IsIrreducible (Contains by.now) (whole_terms terms.now) }
{
    'terms: for i in 0..terms.len() {
        let t = &terms[i];
        if is_divisible(t.mono(), by) {
            return false;
        }
    }
    true
}

/// Whether a mark divides `x`, or isn't in its variables.
fn is_divisible(x: &Mono, by: &[WholeMember]) -> bool
    ensures { result ≡ false → IsDivisible (Contains by.now) x.now → ⊥ }
{
    'members: for j in 0..by.len() {
        let member = &by[j];
        let mark = member.head();
        if mark.exponents().len() != x.exponents().len() || mark.divides(x) {
            return true;
        }
    }
    false
}

/// The quotient of two whole numbers, the second of which isn't zero.
fn quotient(a: &Whole, b: &Whole) -> Result<Frac, Beyond>
    requires { b.now ≢ pos 0 }
    ensures { IfOk result (λ x. whole a.now ≡ whole b.now *ℚ x) }
{
    let (_, p, q) = a.common(b);
    let (Some(numerator), Some(denominator)) = (p.to_i128(), q.to_i128()) else {
        return Err(Beyond);
    };
    if denominator <= 0 {
        return Err(Beyond);
    }
    Ok(Frac::new(numerator, denominator))
}

/// The number or its negative, whichever is positive; it isn't zero.
fn size(a: &Whole) -> Result<Whole, Beyond>
    ensures { IfOk result (λ z. z ≢ pos 0) }
{
    if a.is_zero() {
        return Err(Beyond);
    }
    if a.is_negative() {
        return Ok(a.neg());
    }
    Ok(a.copy())
}

/// The polynomial divided by its first coefficient, in narrow numbers.
fn narrowed(alloc: Global, terms: &[WholeTerm]) -> Result<Poly, Beyond>
    ensures { IfOk result (IsMultipleOf (whole_terms terms.now)) }
{
    let mut out = Vec::with_capacity(alloc, terms.len())?;
    if terms.is_empty() {
        return Ok(Poly::zero(alloc));
    }
    let by = size(terms[0].coef())?;
    let mut i = 0;
    'terms: while i < terms.len() {
        let t = &terms[i];
        let coef = quotient(t.coef(), &by)?;
        let mono = t.mono().copy();
        out.push(Term { coef, mono })?;
        i += 1;
    }
    let narrow = Poly::from_terms(out)?;
    Ok(narrow)
}

/// Whether each monomial has so many variables.
fn have_variables(terms: &[Term], n: usize) -> bool
    ensures { IsTrue result → HasVariables n terms.now }
{
    'terms: for i in 0..terms.len() {
        let t = &terms[i];
        if t.mono.exponents().len() != n {
            return false;
        }
    }
    true
}

/// A remainder, up to a factor, of a polynomial with whole coefficients, in n variables.
fn remainder_of(
    alloc: Global,
    start: Vec<WholeTerm>,
    by: &[WholeMember],
    ranking: &Ranking,
    n: usize,
) -> Result<Poly, Beyond>
    ensures remainder { IfOk result (λ p. (f : Terms) → IsMultipleOf f (whole_terms start.items) → IsRemainderMultiple by.now f p) }
    ensures variables { IfOk result (HasVariables n) }
{
    let mut rest = WholeDividend::new(alloc, start);
    worked_off(alloc, &mut rest, by, ranking)?;
    let left = rest.into_terms();
    if !is_irreducible(&left, by) {
        return Err(Beyond);
    }
    let narrow = narrowed(alloc, &left)?;
    if have_variables(narrow.terms(), n) {
        return Ok(narrow);
    }
    Err(Beyond)
}

/// A remainder of a polynomial, up to a factor, in 127 bits: each term is reduced by the first member whose mark divides its monomial. Where some
/// weight marks the members, it is a multiple of the normal form.
///
/// # Errors
///
/// Where a number on the way leaves 512 bits, or one that is left, divided by the leading one, 127, or for want of memory; nothing is
/// stated of when that comes.
pub fn whole_remainder(
    alloc: Global,
    f: &Poly,
    by: &[WholeMember],
    ranking: &Ranking,
) -> Result<Poly, Beyond>
    ensures value { IfOk result (IsRemainderMultiple by.now f.now) }
    ensures variables { IfOk result (KeepsVariables f.now) }
{
    let terms = f.terms();
    let Some(first) = terms.first() else {
        return Ok(Poly::zero(alloc));
    };
    let n = first.mono.exponents().len();
    let (_, start) = whole_multiple(alloc, terms, ranking)?;
    remainder_of(alloc, start, by, ranking, n)
}

/// The monomials that raise both to their least common multiple.
fn cofactors(x: &Mono, y: &Mono) -> Result<(Mono, Mono), Beyond>
    ensures { IfOk result (λ r. AreLcmCofactors x.now y.now r.0 r.1) }
{
    if x.exponents().len() != y.exponents().len() {
        return Err(Beyond);
    }
    let multiple = x.lcm(y);
    Ok((multiple.quotient(x), multiple.quotient(y)))
}

/// A whole multiple of the S-polynomial of two members.
fn pair(
    alloc: Global,
    b: &WholeMember,
    c: &WholeMember,
    ranking: &Ranking,
) -> Result<Vec<WholeTerm>, Beyond>
    ensures { IfOk result (λ h. IsPairMultiple b.now c.now (whole_terms h.items)) }
{
    let (of_b, of_c) = cofactors(b.head(), c.head())?;
    let (lead_b, terms_b) = b.multiple();
    let (lead_c, terms_c) = c.multiple();
    let (_, share_b, share_c) = lead_b.common(lead_c);
    let one = Whole::new(1);
    let left = Multiplier {
        factor: share_c,
        rank: ranking.rank(&of_b)?,
        mono: of_b,
    };
    let right = Multiplier {
        factor: share_b.neg(),
        rank: ranking.rank(&of_c)?,
        mono: of_c,
    };
    let first = combined(alloc, Vec::new(alloc), &one, terms_b, &left, ranking)?;
    combined(alloc, first, &one, terms_c, &right, ranking)
}

/// A remainder of the S-polynomial of two members, up to a factor, in 127 bits.
///
/// # Errors
///
/// As those of `whole_remainder`.
pub fn whole_remainder_of_pair(
    alloc: Global,
    b: &WholeMember,
    c: &WholeMember,
    by: &[WholeMember],
    ranking: &Ranking,
) -> Result<Poly, Beyond>
    ensures value { IfOk result (IsPairRemainderMultiple by.now b.now c.now) }
    ensures variables { IfOk result (KeepsPairVariables b.now c.now) }
{
    let start = pair(alloc, b, c, ranking)?;
    let n = b.head().exponents().len();
    remainder_of(alloc, start, by, ranking, n)
}
