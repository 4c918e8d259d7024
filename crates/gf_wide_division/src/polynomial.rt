//! Polynomials with wide coefficients.

ghost use Rattle.std.specs.Prelude.{◌≡◌, ◌↔◌, ◌<◌, [], length, IfOk, IsTrue};
ghost use Rattle.gf_frac.specs.Fraction.{reciprocal_ℚ, zero_ℚ};
ghost use Rattle.gf_poly.specs.Marking.{head_of};
ghost use Rattle.gf_poly.specs.Polynomial.{IsDescending, times};
ghost use Rattle.gf_wide_division.specs.Monic.{IsMonicAt};
ghost use Rattle.gf_wide_division.specs.Values.{value_terms};

use crate::terms::{Beyond, WideTerm, narrow, narrow_quotient};
use gf_poly::{Marked, Mono, Poly, Term};
use gf_wide::WideFrac;
use std::alloc::Global;
use std::marker::Model;

/// A polynomial with wide coefficients: its terms, descending in deglex, with nonzero coefficients.
#[derive(Drop)]
pub struct WidePoly {
    terms: Vec<WideTerm>,
}

impl Model for WidePoly {
    ghost use Rattle.gf_poly.specs.Polynomial.{Terms, IsDescending};
    ghost use Rattle.gf_wide_division.specs.Values.{value_terms};

    ghost Value = { Terms };

    ghost view = { λ p. value_terms p.terms.items };

    ghost invariant = { λ p. IsDescending (value_terms p.terms.items) };
}

/// The quotient of each coefficient by `by`, in fractions of 128 bits.
fn quotients(alloc: Global, terms: &[WideTerm], by: &WideFrac) -> Result<Vec<Term>, Beyond>
    requires { ¬ (by.now ≡ zero_ℚ) }
    ensures { IfOk result (λ h. h.items ≡ times (reciprocal_ℚ by.now) [] (value_terms terms.now)) }
{
    let mut out = Vec::with_capacity(alloc, terms.len())?;
    let mut i = 0;
    'terms: while i < terms.len() {
        let t = &terms[i];
        let coef = narrow_quotient(&t.coef, by)?;
        let mono = t.mono.copy();
        out.push(Term { coef, mono })?;
        i += 1;
    }
    Ok(out)
}

impl WidePoly {
    /// The polynomial with these terms, which descend in deglex and have nonzero coefficients; nothing is copied.
    pub fn of(terms: Vec<WideTerm>) -> WidePoly
        requires { IsDescending (value_terms terms.items) }
        ensures { result ≡ value_terms terms.items }
    {
        WidePoly { terms }
    }

    /// The terms, descending in deglex.
    pub fn terms(&self) -> &[WideTerm]
        ensures value { value_terms result.now ≡ self.now }
        ensures descending { IsDescending self.now }
    {
        self.terms.as_slice()
    }

    /// Whether it is zero.
    pub fn is_zero(&self) -> bool
        ensures { IsTrue result ↔ (self.now ≡ []) }
    {
        self.terms().is_empty()
    }

    /// How many terms it has.
    pub fn len(&self) -> usize
        ensures { result ≡ length self.now }
    {
        self.terms().len()
    }

    /// The monomial of the term at an index.
    pub fn mono(&self, index: usize) -> &Mono
        requires { index < length self.now }
        ensures { result.now ≡ head_of self.now index }
    {
        let terms = self.terms();
        &terms[index].mono
    }

    /// The polynomial with its coefficients as fractions of 128 bits.
    ///
    /// # Errors
    ///
    /// `Beyond` where the numerator or the denominator of a coefficient exceeds 2^127 - 1 in size, or if memory runs out.
    pub fn narrowed(&self, alloc: Global) -> Result<Poly, Beyond>
        ensures { IfOk result (λ f. f ≡ self.now) }
    {
        let terms = self.terms();
        let mut out = Vec::with_capacity(alloc, terms.len())?;
        let mut i = 0;
        'terms: while i < terms.len() {
            let t = &terms[i];
            let coef = narrow(&t.coef)?;
            let mono = t.mono.copy();
            out.push(Term { coef, mono })?;
            i += 1;
        }
        Ok(Poly::from_descending(out))
    }

    /// The polynomial divided by its coefficient at an index and marked there, with coefficients of 128 bits; only the quotients have to fit in them.
    ///
    /// # Errors
    ///
    /// `Beyond` where the working of a quotient reaches 2^512, where the numerator or the denominator of a quotient exceeds 2^127 - 1 in size, or if
    /// memory runs out.
    pub fn monic(&self, alloc: Global, index: usize) -> Result<Marked, Beyond>
        requires { index < length self.now }
        ensures monic { IfOk result (IsMonicAt self.now index) }
        ensures descending { IsDescending self.now }
    {
        let terms = self.terms();
        let t = &terms[index];
        let quotients = quotients(alloc, terms, &t.coef)?;
        let poly = Poly::from_descending(quotients);
        Ok(Marked::mark(poly, index))
    }
}
