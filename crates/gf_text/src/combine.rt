//! From what a text of a set says to polynomials.
ghost use Rattle.std.specs.Prelude.{◌≡◌, ◌≤◌, ◌<◌, ◌^◌, IfOk, IfErr, OnOk, Ok, Err, ℕ, length, MatchOption, ◌∷◌, []};
ghost use Rattle.gf_frac.specs.Fraction.{zero_ℚ};
ghost use Rattle.gf_poly.specs.Polynomial.{coefficient, IsDescending, HasVariables};
ghost use Rattle.gf_text.specs.Limits.{IsFactorWithin, AreFactorsWithin, IsTermWithin, AreTermsWithin, ArePolynomialsWithin};
ghost use Rattle.gf_text.specs.Combining.{raised_by, times_factors, exponents_of, coefficient_of, term_written, terms_written, WrittenExponentsFit, IsSumOf};
ghost use Rattle.gf_text.specs.Combining.{FindsFirst, IsPlaceOf};
ghost use Rattle.gf_text.specs.Sets.{IsExponentCause, IsSummed, IsSummingCause, HasSums, Adds, from_poly};

use crate::error::TextError;
use crate::tree::{Factor, WrittenSet, WrittenTerm};
use crate::written::Written;
use gf_frac::{Frac, Overflow};
use gf_poly::{ExponentOverflow, Marked, Mono, Poly, PolyError, ROOM, Term};
use std::alloc::{AllocError, Global};

/// Multiplies a monomial by a power.
fn raise(mono: &mut Mono, factor: Factor) -> Result<(), ExponentOverflow>
    requires { IsFactorWithin (length mono.old) factor }
    ensures ok { OnOk result (raised_by mono.old factor ≡ Ok mono.new) }
    ensures err { IfErr result (λ o. raised_by mono.old factor ≡ Err o) }
{
    mono.raise(usize::from(factor.variable), factor.exponent)
}

/// Multiplies a monomial by powers, one after another.
fn raise_all(mono: &mut Mono, factors: &[Factor]) -> Result<(), ExponentOverflow>
    requires { AreFactorsWithin (length mono.old) factors.now }
    ensures ok { OnOk result (times_factors mono.old factors.now ≡ Ok mono.new) }
    ensures err { IfErr result (λ o. times_factors mono.old factors.now ≡ Err o) }
{
    'factors: for factor in factors {
        raise(mono, *factor)?;
    }
    Ok(())
}

/// The monomial of a term, in n variables.
fn mono_of(alloc: Global, n: usize, term: &WrittenTerm) -> Result<Mono, ExponentOverflow>
    requires room { n ≤ ROOM }
    requires within { IsTermWithin n term.now }
    ensures ok { IfOk result (λ m. exponents_of n term.now ≡ Ok m) }
    ensures err { IfErr result (λ o. exponents_of n term.now ≡ Err o) }
{
    let mut mono = Mono::one(alloc, n);
    raise_all(&mut mono, term.factors.as_slice())?;
    Ok(mono)
}

/// The coefficient that is written.
fn coefficient_of(term: &WrittenTerm) -> Frac
    requires numer { term.now.numer < 2 ^ 127 }
    requires denom { (0 < term.now.denom) × (term.now.denom < 2 ^ 127) }
    ensures { result ≡ coefficient_of term.now }
{
    let size = Frac::new(term.numer as i128, term.denom as i128);
    if term.minus { size.neg() } else { size }
}

/// The term that is written, in n variables.
fn term_of(alloc: Global, n: usize, term: &WrittenTerm) -> Result<Term, ExponentOverflow>
    requires room { n ≤ ROOM }
    requires within { IsTermWithin n term.now }
    ensures ok { IfOk result (λ t. term_written n term.now ≡ Ok t) }
    ensures err { IfErr result (λ o. term_written n term.now ≡ Err o) }
{
    let mono = mono_of(alloc, n, term)?;
    Ok(Term {
        coef: coefficient_of(term),
        mono,
    })
}

/// The terms that are written, in n variables.
pub(crate) fn terms_from(
    alloc: Global,
    n: usize,
    terms: &[WrittenTerm],
) -> Result<Vec<Term>, TextError>
    requires room { n ≤ ROOM }
    requires within { AreTermsWithin n terms.now }
    ensures ok { IfOk result (λ ts. terms_written n terms.now ≡ Ok ts.items) }
    ensures err { IfErr result (IsExponentCause (terms_written n terms.now)) }
{
    let mut out = Vec::with_capacity(alloc, terms.len())?;
    'terms: for term in terms {
        let next = term_of(alloc, n, term)?;
        out.push(next)?;
    }
    Ok(out)
}

/// Whether each exponent of the terms stays within its limit; the first that doesn't.
fn check_terms(alloc: Global, n: usize, terms: &[WrittenTerm]) -> Result<(), ExponentOverflow>
    requires room { n ≤ ROOM }
    requires within { AreTermsWithin n terms.now }
    ensures ok { OnOk result (WrittenExponentsFit n terms.now) }
    ensures err { IfErr result (λ o. terms_written n terms.now ≡ Err o) }
{
    'terms: for term in terms {
        mono_of(alloc, n, term)?;
    }
    Ok(())
}

/// The place of a monomial among descending terms.
pub(crate) fn place_of(terms: &[Term], at: &Mono) -> Option<usize>
    requires descending { IsDescending terms.now }
    requires same_variables { HasVariables (length at.now) terms.now }
    ensures { MatchOption result (coefficient terms.now at.now ≡ zero_ℚ) (IsPlaceOf terms.now at.now) }
{
    terms.binary_search_by(|t| at.compare(&t.mono)).ok()
}

/// The place, in their sum, of the first of the terms that remains.
fn first_remaining(
    alloc: Global,
    n: usize,
    sum: &Poly,
    terms: &[WrittenTerm],
) -> Result<Option<usize>, ExponentOverflow>
    requires room { n ≤ ROOM }
    requires within { AreTermsWithin n terms.now }
    requires sum { IsSumOf n terms.now sum.now }
    requires variables { HasVariables n sum.now }
    ensures ok { IfOk result (FindsFirst n terms.now sum.now) }
    ensures err { IfErr result (λ o. terms_written n terms.now ≡ Err o) }
{
    'terms: for term in terms {
        let mono = mono_of(alloc, n, term)?;
        if let Some(place) = place_of(sum.terms(), &mono) {
            return Ok(Some(place));
        }
    }
    Ok(None)
}

/// Why a sum of terms is refused.
fn sum_error(error: PolyError) -> TextError
    ensures { result ≡ from_poly error }
{
    match error {
        PolyError::Overflow(overflow) => TextError::Overflow(overflow),
        PolyError::Exponent(overflow) => TextError::Exponent(overflow),
        PolyError::Memory => TextError::Memory,
    }
}

/// The sum of terms, marked at the first of them, as written, that remains.
fn summed(alloc: Global, n: usize, terms: &[WrittenTerm]) -> Result<Written, TextError>
    requires room { n ≤ ROOM }
    requires within { AreTermsWithin n terms.now }
    ensures ok { IfOk result (IsSummed n terms.now) }
    ensures err { IfErr result (IsSummingCause n terms.now) }
{
    let made = terms_from(alloc, n, terms)?;
    let sum = match Poly::from_terms(made) {
        Ok(sum) => sum,
        Err(error) => return Err(sum_error(error)),
    };
    match first_remaining(alloc, n, &sum, terms)? {
        Some(place) => Ok(Written::Nonzero(Marked::mark(sum, place))),
        None => Ok(Written::Zero),
    }
}

/// What came of the polynomials of a set so far: what is left of each; or the first sum of coefficients that leaves its
/// range; or the first exponent that passes its limit, whatever sums leave their range before it.
#[derive(Drop)]
pub enum Sums {
    Fit(Vec<Written>),
    Overflow(Overflow),
    Exponent(ExponentOverflow),
}

impl Sums {
    /// No polynomials.
    pub(crate) fn new(alloc: Global) -> Sums
        ensures { (n : ℕ) → HasSums n [] result }
    {
        Sums::Fit(Vec::new(alloc))
    }

    /// Adds a polynomial in n variables as the last one.
    pub(crate) fn add(
        &mut self,
        alloc: Global,
        n: usize,
        terms: &[WrittenTerm],
    ) -> Result<(), AllocError>
        requires room { n ≤ ROOM }
        requires within { AreTermsWithin n terms.now }
        ensures { OnOk result (Adds n (terms.now ∷ []) self.old self.new) }
    {
        match self {
            Sums::Fit(written) => match summed(alloc, n, terms) {
                Ok(next) => written.push(next)?,
                Err(TextError::Overflow(overflow)) => *self = Sums::Overflow(overflow),
                Err(TextError::Exponent(overflow)) => *self = Sums::Exponent(overflow),
                Err(_) => return Err(AllocError),
            },
            Sums::Overflow(_) => {
                if let Err(first) = check_terms(alloc, n, terms) {
                    *self = Sums::Exponent(first);
                    return Ok(());
                }
            }
            Sums::Exponent(_) => {}
        }
        Ok(())
    }

    /// Adds the polynomial in n variables that is read, where there is one.
    pub(crate) fn add_read(
        &mut self,
        alloc: Global,
        n: usize,
        set: &WrittenSet,
    ) -> Result<(), AllocError>
        requires room { n ≤ ROOM }
        requires within { ArePolynomialsWithin n set.now }
        ensures { OnOk result (Adds n set.now self.old self.new) }
    {
        match set.last() {
            Some(terms) => self.add(alloc, n, terms.as_slice()),
            None => Ok(()),
        }
    }
}
