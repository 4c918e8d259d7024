//! Polynomials: descending lists of terms.

ghost use Rattle.std.specs.Prelude.{◌≡◌, ◌≢◌, ◌↔◌, [], length, IfOk, IfErr, IsTrue};
ghost use Rattle.gf_frac.specs.Fraction.{reciprocal_ℚ, zero_ℚ};
ghost use Rattle.gf_frac.specs.declared.refusal.Op.TheVariants.{Add, Sub};
ghost use Rattle.gf_poly.specs.declared.products.Scaling.TheVariants.{Times, Over};
ghost use Rattle.gf_poly.specs.Polynomial.{coefficient, times, SamePolynomial, IsDescending, HasVariables, KeepsVariables, KeepsBothVariables};
ghost use Rattle.gf_poly.specs.Collecting.{LikeSumsFit, IsLikeSumCause};
ghost use Rattle.gf_poly.specs.Products.{HasProducts, IsScaled, IsScaleCause, ScalesFit, IsProductCause, ProductsFit};
ghost use Rattle.gf_poly.specs.Sums.{IsPolynomialSum, IsDifference, LikeTermsFit, IsLikeCause};

mod initial_form;

use super::Term;
use super::collect::{collected, sorted};
use super::descending::descend;
use super::error::PolyError;
use super::merge::{Sign, merged};
use super::monomial::Mono;
use super::products::{Scaling, multiplied, scaled};
use gf_frac::Frac;
use std::alloc::{AllocError, Global};
use std::cmp::Ordering;
use std::marker::Model;

/// A polynomial: its terms, descending in deglex, with nonzero coefficients and distinct monomials.
#[derive(Drop)]
pub struct Poly {
    terms: Vec<Term>,
}

impl Model for Poly {
    ghost use Rattle.gf_poly.specs.Polynomial.{Terms, IsDescending};

    ghost Value = { Terms };

    ghost view = { λ p. p.terms.items };

    ghost invariant = { λ p. IsDescending p.terms.items };
}

/// The coefficient 0.
fn zero_coefficient() -> Frac
    ensures { result ≡ zero_ℚ }
{
    Frac::ZERO
}

/// The coefficient at a monomial, in a descending list.
fn found(terms: &[Term], at: &Mono) -> Frac
    requires descending { IsDescending terms.now }
    requires same_variables { HasVariables (length at.now) terms.now }
    ensures { result ≡ coefficient terms.now at.now }
{
    let mut i = 0;
    'terms: while i < terms.len() {
        let t = &terms[i];
        match t.mono.compare(at) {
            Ordering::Greater => i += 1,
            Ordering::Equal => return t.coef,
            Ordering::Less => return zero_coefficient(),
        }
    }
    zero_coefficient()
}

/// Equal terms, in a list whose own are dropped.
fn refilled(list: Vec<Term>, terms: &[Term]) -> Result<Vec<Term>, AllocError>
    ensures { IfOk result (λ h. h.items ≡ terms.now) }
{
    let mut out = list;
    out.clear();
    'terms: for i in 0..terms.len() {
        out.push(terms[i].copy())?;
    }
    Ok(out)
}

impl Poly {
    /// The zero polynomial, which has no terms.
    pub fn zero(alloc: Global) -> Poly
        ensures { result ≡ [] }
    {
        Poly {
            terms: Vec::new(alloc),
        }
    }

    /// The polynomial that is the sum of these terms.
    ///
    /// Like terms are added from the left, and zeros are left out.
    ///
    /// # Errors
    ///
    /// `Overflow` exactly where such a sum leaves its range; it holds the operands of the first one at the greatest
    /// monomial where that happens.
    pub fn from_terms(terms: Vec<Term>) -> Result<Poly, PolyError>
        ensures value { IfOk result (λ p. SamePolynomial p terms.items) }
        ensures descending { IfOk result IsDescending }
        ensures variables { IfOk result (KeepsVariables terms.items) }
        ensures fits { IfOk result (λ p. LikeSumsFit terms.items) }
        ensures cause { IfErr result (IsLikeSumCause terms.items) }
    {
        let alloc = *terms.allocator();
        let ordered = sorted(terms)?;
        if descend(&ordered) {
            return Ok(Poly { terms: ordered });
        }
        let terms = collected(alloc, &ordered)?;
        Ok(Poly { terms })
    }

    /// The polynomial with these terms, which descend in deglex and have nonzero coefficients; nothing is copied.
    pub fn from_descending(terms: Vec<Term>) -> Poly
        requires { IsDescending terms.items }
        ensures { result ≡ terms.items }
    {
        Poly { terms }
    }

    /// Its terms, descending in deglex; nothing is copied.
    pub fn into_terms(self) -> Vec<Term>
        ensures value { result.items ≡ self }
        ensures descending { IsDescending self }
    {
        let Poly { terms } = self;
        terms
    }

    /// The terms, descending in deglex.
    pub fn terms(&self) -> &[Term]
        ensures value { result.now ≡ self.now }
        ensures descending { IsDescending self.now }
    {
        self.terms.as_slice()
    }

    /// An equal polynomial.
    ///
    /// # Errors
    /// `AllocError` if memory runs out.
    pub fn copy(&self) -> Result<Poly, AllocError>
        ensures { IfOk result (λ p. p ≡ self.now) }
    {
        let list = Vec::with_capacity(*self.terms.allocator(), self.terms.len())?;
        let terms = refilled(list, self.terms())?;
        Ok(Poly { terms })
    }

    /// An equal polynomial, in the memory of another one, which is dropped; more is asked for only where that has too little.
    ///
    /// # Errors
    /// Want of memory.
    pub fn copy_over(&self, old: Poly) -> Result<Poly, AllocError>
        ensures { IfOk result (λ p. p ≡ self.now) }
    {
        let terms = refilled(old.terms, self.terms())?;
        Ok(Poly { terms })
    }

    /// Whether it is zero.
    pub fn is_zero(&self) -> bool
        ensures { IsTrue result ↔ (self.now ≡ []) }
    {
        self.terms.is_empty()
    }

    /// The coefficient at `at`, which has as many variables as each monomial of the polynomial.
    pub fn coefficient(&self, at: &Mono) -> Frac
        requires { HasVariables (length at.now) self.now }
        ensures { result ≡ coefficient self.now at.now }
    {
        found(self.terms(), at)
    }

    /// The exact sum with `other`, in one pass.
    ///
    /// # Errors
    ///
    /// `Overflow` exactly where the sum of two coefficients of one monomial leaves its range; it holds the two of the
    /// greatest such monomial.
    pub fn add(&self, other: &Poly) -> Result<Poly, PolyError>
        ensures sum { IfOk result (IsPolynomialSum self.now other.now) }
        ensures descending { IfOk result IsDescending }
        ensures variables { IfOk result (KeepsBothVariables self.now other.now) }
        ensures fits { IfOk result (λ h. LikeTermsFit Add self.now other.now) }
        ensures cause { IfErr result (IsLikeCause Add self.now other.now) }
    {
        let alloc = *self.terms.allocator();
        let terms = merged(alloc, self.terms(), other.terms(), Sign::Plus)?;
        Ok(Poly { terms })
    }

    /// The exact difference: `other` is taken away, in one pass.
    ///
    /// # Errors
    ///
    /// `Overflow` exactly where the difference of two coefficients of one monomial leaves its range; it holds the two of
    /// the greatest such monomial.
    pub fn sub(&self, other: &Poly) -> Result<Poly, PolyError>
        ensures difference { IfOk result (IsDifference self.now other.now) }
        ensures descending { IfOk result IsDescending }
        ensures variables { IfOk result (KeepsBothVariables self.now other.now) }
        ensures fits { IfOk result (λ h. LikeTermsFit Sub self.now other.now) }
        ensures cause { IfErr result (IsLikeCause Sub self.now other.now) }
    {
        let alloc = *self.terms.allocator();
        let terms = merged(alloc, self.terms(), other.terms(), Sign::Minus)?;
        Ok(Poly { terms })
    }

    /// The product with the fraction `by`; with 0 it is zero.
    ///
    /// # Errors
    ///
    /// `Overflow` exactly where the product of `by` and a coefficient leaves its range; it holds them, for the greatest
    /// such monomial.
    pub fn scale(&self, by: Frac) -> Result<Poly, PolyError>
        ensures value { IfOk result (IsScaled by self.now) }
        ensures descending { IfOk result IsDescending }
        ensures variables { IfOk result (KeepsVariables self.now) }
        ensures fits { IfOk result (λ h. ScalesFit Times by self.now) }
        ensures cause { IfErr result (IsScaleCause Times by self.now) }
    {
        let alloc = *self.terms.allocator();
        let terms = scaled(alloc, self.terms(), &by, Scaling::Times)?;
        Ok(Poly { terms })
    }

    /// The product with the term of `coef` and `mono`; with the coefficient 0 it is zero. `mono` has as many variables
    /// as each monomial of the polynomial.
    ///
    /// # Errors
    ///
    /// - `Overflow` exactly where the product of `coef` and a coefficient leaves its range; it holds them.
    /// - `Exponent` exactly where the sum of an exponent of `mono` and one of the same variable in a term leaves its
    ///   range; it holds them.
    ///
    /// Terms are worked out from the greatest down, the coefficient first; the first that leaves its range is told.
    pub fn mul_term(&self, coef: Frac, mono: &Mono) -> Result<Poly, PolyError>
        requires { HasVariables (length mono.now) self.now }
        ensures value { IfOk result (λ h. SamePolynomial h (times coef mono.now self.now)) }
        ensures terms { IfOk result (HasProducts coef mono.now self.now) }
        ensures descending { IfOk result IsDescending }
        ensures variables { IfOk result (HasVariables (length mono.now)) }
        ensures fits { IfOk result (λ h. ProductsFit coef mono.now self.now) }
        ensures cause { IfErr result (IsProductCause coef mono.now self.now) }
    {
        let alloc = *self.terms.allocator();
        let terms = multiplied(alloc, self.terms(), &coef, mono)?;
        Ok(Poly { terms })
    }

    /// The quotient by the fraction `by`, which isn't zero: the product with its reciprocal.
    ///
    /// # Errors
    ///
    /// `Overflow` exactly where the quotient of a coefficient by `by` leaves its range; it holds them, for the greatest
    /// such monomial.
    pub fn divided(&self, by: &Frac) -> Result<Poly, PolyError>
        requires { by.now ≢ zero_ℚ }
        ensures terms { IfOk result (HasProducts (reciprocal_ℚ by.now) [] self.now) }
        ensures fits { IfOk result (λ h. ScalesFit Over by.now self.now) }
        ensures cause { IfErr result (IsScaleCause Over by.now self.now) }
    {
        let alloc = *self.terms.allocator();
        let terms = scaled(alloc, self.terms(), by, Scaling::Over)?;
        Ok(Poly { terms })
    }
}
