//! Marked polynomials: a nonzero polynomial with one of its terms chosen.

ghost use Rattle.std.specs.Prelude.{◌≡◌, ◌≢◌, ◌<◌, length, IfOk, IfErr};
ghost use Rattle.gf_frac.specs.Fraction.{zero_ℚ};
ghost use Rattle.gf_poly.specs.Marking.{head_of, HasMark, HasMarkedTerm, IsMonicOf, IsMonicCause};

use super::error::PolyError;
use super::monomial::Mono;
use super::polynomial::Poly;
use gf_frac::Frac;
use std::alloc::AllocError;
use std::marker::Model;

/// A nonzero polynomial with a marked term.
#[derive(Drop)]
pub struct Marked {
    poly: Poly,
    index: usize,
}

impl Model for Marked {
    ghost use Rattle.std.specs.Prelude.{◌<◌, length};
    ghost use Rattle.gf_poly.specs.Marking.{MarkedPolynomial, head_of};

    ghost Value = { MarkedPolynomial };

    ghost view = { λ m. record { poly = m.poly; head = head_of m.poly m.index } };

    ghost invariant = { λ m. m.index < length m.poly };
}

impl Marked {
    /// The polynomial with its term at index `index` marked, which is one of its indices.
    pub fn mark(poly: Poly, index: usize) -> Marked
        requires { index < length poly }
        ensures { result ≡ record { poly = poly; head = head_of poly index } }
    {
        Marked { poly, index }
    }

    /// The polynomial.
    pub fn poly(&self) -> &Poly
        ensures { result.now ≡ self.now.poly }
    {
        &self.poly
    }

    /// The polynomial alone; nothing is copied.
    pub fn into_poly(self) -> Poly
        ensures { result ≡ self.poly }
    {
        self.poly
    }

    /// The index of the marked term.
    pub fn index(&self) -> usize
        ensures inside { result < length self.now.poly }
        ensures head { head_of self.now.poly result ≡ self.now.head }
    {
        self.index
    }

    /// The marked monomial.
    pub fn head(&self) -> &Mono
        ensures value { result.now ≡ self.now.head }
        ensures marked { HasMarkedTerm self.now }
    {
        &self.poly.terms()[self.index].mono
    }

    /// The coefficient of the marked term.
    pub fn coefficient(&self) -> Frac
        ensures term { HasMark self.now result }
        ensures nonzero { result ≢ zero_ℚ }
    {
        self.poly.terms()[self.index].coef
    }

    /// An equal marked polynomial.
    ///
    /// # Errors
    /// `AllocError` if memory runs out.
    pub fn copy(&self) -> Result<Marked, AllocError>
        ensures { IfOk result (λ b. b ≡ self.now) }
    {
        let poly = self.poly.copy()?;
        Ok(Marked {
            poly,
            index: self.index,
        })
    }

    /// An equal marked polynomial, in the memory of another one, which is dropped; more is asked for only where that has too little.
    ///
    /// # Errors
    /// Want of memory.
    pub fn copy_over(&self, old: Marked) -> Result<Marked, AllocError>
        ensures { IfOk result (λ b. b ≡ self.now) }
    {
        let poly = self.poly.copy_over(old.poly)?;
        Ok(Marked {
            poly,
            index: self.index,
        })
    }

    /// The polynomial divided by its marked coefficient, with the same mark.
    ///
    /// # Errors
    ///
    /// `Overflow` exactly where the quotient of a coefficient by the marked one leaves its range; it holds the two, for
    /// the greatest such monomial.
    pub fn monic(&self) -> Result<Marked, PolyError>
        ensures value { IfOk result (IsMonicOf self.now) }
        ensures cause { IfErr result (IsMonicCause self.now) }
    {
        let by = self.coefficient();
        let poly = self.poly.divided(&by)?;
        Ok(Marked {
            poly,
            index: self.index,
        })
    }
}
