//! Terms with whole coefficients.

ghost use Rattle.std.specs.Prelude.{◌≡◌, ◌+◌, ◌+ℤ◌, ◌*ℤ◌, false, [], IfOk, OnOk, IsTrue};
ghost use Rattle.gf_frac.specs.Fraction.{whole};
ghost use Rattle.gf_exponents_theory.specs.Exponents.{same, plus};
ghost use Rattle.gf_poly.specs.Polynomial.{times_term};
ghost use Rattle.gf_whole_division.specs.Values.{term_value};

use crate::ranking::Rank;
use gf_poly::{ExponentOverflow, Mono, PolyError};
use gf_whole::Whole;
use std::alloc::{AllocError, AllocFailed, Global};

/// There is no answer: a number is beyond its range, or there is no memory.
#[derive(Drop)]
pub struct Beyond;

impl From<AllocError> for Beyond {
    fn from(_e: AllocError) -> Beyond {
        Beyond
    }
}

impl<T: Drop> From<AllocFailed<T>> for Beyond {
    fn from(_e: AllocFailed<T>) -> Beyond {
        Beyond
    }
}

impl From<ExponentOverflow> for Beyond {
    fn from(_e: ExponentOverflow) -> Beyond {
        Beyond
    }
}

impl From<PolyError> for Beyond {
    fn from(_e: PolyError) -> Beyond {
        Beyond
    }
}

/// A whole number and a monomial.
#[derive(Drop)]
pub struct Kept {
    coef: Whole,
    mono: Mono,
}

/// A term of a polynomial with whole coefficients, and how it stands among others. What it is made of is kept apart, so that lists of terms are
/// rearranged without moving that.
#[derive(Drop)]
pub struct WholeTerm {
    kept: Box<Kept>,
    pub rank: Rank,
}

impl WholeTerm {
    /// The term of a whole number and a monomial, with the rank of this.
    ///
    /// # Errors
    ///
    /// `AllocError` if there is no memory.
    pub fn new(alloc: Global, coef: Whole, mono: Mono, rank: Rank) -> Result<WholeTerm, AllocError>
        ensures coef { IfOk result (λ r. r.kept.value.coef ≡ coef) }
        ensures mono { IfOk result (λ r. r.kept.value.mono ≡ mono) }
    {
        let kept = Box::new(alloc, Kept { coef, mono })?;
        Ok(WholeTerm { kept, rank })
    }

    /// Its number.
    pub fn coef(&self) -> &Whole
        ensures { result.now ≡ self.now.kept.value.coef }
    {
        &self.kept.coef
    }

    /// Its monomial.
    pub fn mono(&self) -> &Mono
        ensures { result.now ≡ self.now.kept.value.mono }
    {
        &self.kept.mono
    }

    /// From now on this is its number.
    pub fn set_coef(&mut self, coef: Whole)
        ensures coef { self.new.kept.value.coef ≡ coef }
        ensures mono { self.new.kept.value.mono ≡ self.old.kept.value.mono }
    {
        self.kept.coef = coef;
    }

    /// Multiplies the term by a whole number.
    ///
    /// # Errors
    ///
    /// `Beyond` if the coefficient reaches 2^512.
    pub fn scale(&mut self, by: &Whole) -> Result<(), Beyond>
        ensures { OnOk result (term_value self.new ≡ times_term (whole by.now) [] (term_value self.old)) }
    {
        if by.is_one() {
            return Ok(());
        }
        let coef = product(self.coef(), by)?;
        self.set_coef(coef);
        Ok(())
    }

    /// The term divided by a divisor of its coefficient.
    ///
    /// # Errors
    ///
    /// `Beyond` if the division is not found to be exact, or if there is no memory.
    pub fn divided(&self, alloc: Global, by: &Whole) -> Result<WholeTerm, Beyond>
        ensures { IfOk result (λ r. term_value self.now ≡ times_term (whole by.now) [] (term_value r)) }
    {
        let coef = share(self.coef(), by)?;
        let mono = self.mono().copy();
        let term = WholeTerm::new(alloc, coef, mono, self.rank)?;
        Ok(term)
    }
}

/// The product of two whole numbers.
///
/// # Errors
///
/// `Beyond` if its size reaches 2^512.
pub fn product(a: &Whole, b: &Whole) -> Result<Whole, Beyond>
    ensures { IfOk result (λ z. z ≡ a.now *ℤ b.now) }
{
    match a.times(b) {
        Some(z) => Ok(z),
        None => Err(Beyond),
    }
}

/// The quotient of two whole numbers.
///
/// # Errors
///
/// `Beyond` if the division is not found to be exact.
pub fn share(a: &Whole, by: &Whole) -> Result<Whole, Beyond>
    ensures { IfOk result (λ z. a.now ≡ by.now *ℤ z) }
{
    match a.quotient(by) {
        Some(z) => Ok(z),
        None => Err(Beyond),
    }
}

/// The sum of two whole numbers.
///
/// # Errors
///
/// `Beyond` if its size reaches 2^512.
pub fn sum(a: &Whole, b: &Whole) -> Result<Whole, Beyond>
    ensures { IfOk result (λ z. z ≡ a.now +ℤ b.now) }
{
    match a.plus(b) {
        Some(z) => Ok(z),
        None => Err(Beyond),
    }
}

/// Whether the first number is the sum of the others.
fn is_sum(x: u32, y: u32, z: u32) -> bool
    ensures { IsTrue result → x ≡ y + z }
{
    u64::from(x) == u64::from(y) + u64::from(z)
}

/// Whether the first monomial is the product of the others.
pub fn is_product(x: &Mono, y: &Mono, z: &Mono) -> bool
    ensures { IsTrue result → x.now ≡ plus y.now z.now }
{
    let x = x.exponents();
    let y = y.exponents();
    let z = z.exponents();
    if x.len() != y.len() || x.len() != z.len() {
        return false;
    }
    'variables: for i in 0..x.len() {
        if !is_sum(x[i], y[i], z[i]) {
            return false;
        }
    }
    true
}

/// Whether the monomials differ; of those of one degree that have the same variables it is found out.
pub fn differ(x: &Mono, y: &Mono) -> bool
    ensures { IsTrue result → same x.now y.now ≡ false }
{
    if x.degree() != y.degree() {
        return true;
    }
    if x.exponents().len() != y.exponents().len() {
        return false;
    }
    y.exponents() != x.exponents()
}
