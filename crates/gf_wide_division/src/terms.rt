//! Terms with wide coefficients, and why there are none.

ghost use Rattle.std.specs.Prelude.{◌≡◌, IfOk};
ghost use Rattle.gf_frac.specs.Fraction.{◌-ℚ◌, ◌*ℚ◌, ◌/ℚ◌, zero_ℚ, one_ℚ};

use gf_frac::Frac;
use gf_poly::{ExponentOverflow, Mono};
use gf_wide::WideFrac;
use std::alloc::{AllocError, AllocFailed};

/// There is no wide answer: a number is beyond its range, or there is no memory.
#[derive(Drop)]
pub struct Beyond;

impl From<AllocError> for Beyond {
    fn from(_e: AllocError) -> Beyond {
        Beyond
    }
}

impl<T: Drop> From<AllocFailed<T>> for Beyond {
    fn from(_e: AllocFailed<T>) -> Beyond {
        Beyond
    }
}

impl From<ExponentOverflow> for Beyond {
    fn from(_e: ExponentOverflow) -> Beyond {
        Beyond
    }
}

/// A term of a polynomial with wide coefficients, and whether it waits to be reduced.
#[derive(Drop)]
pub struct WideTerm {
    pub coef: WideFrac,
    pub mono: Mono,
    pub waits: bool,
}

impl WideTerm {
    /// An equal term.
    pub fn copy(&self) -> WideTerm
        ensures { result ≡ self.now }
    {
        WideTerm {
            coef: self.coef.copy(),
            mono: self.mono.copy(),
            waits: self.waits,
        }
    }
}

/// The fraction 1, of 128 bits.
pub fn narrow_one() -> Frac
    ensures { result ≡ one_ℚ }
{
    Frac::ONE
}

/// The wide fraction 1.
pub fn one() -> WideFrac
    ensures { result ≡ one_ℚ }
{
    WideFrac::new(&narrow_one())
}

/// The product of a wide fraction and one of 128 bits.
///
/// # Errors
///
/// `Beyond` where a number of the working reaches 2^512.
pub fn product(a: &WideFrac, b: &Frac) -> Result<WideFrac, Beyond>
    ensures { IfOk result (λ x. x ≡ a.now *ℚ b.now) }
{
    match a.times(&WideFrac::new(b)) {
        Some(x) => Ok(x),
        None => Err(Beyond),
    }
}

/// The difference of two wide fractions.
///
/// # Errors
///
/// `Beyond` where a number of the working reaches 2^512.
pub fn difference(a: &WideFrac, b: &WideFrac) -> Result<WideFrac, Beyond>
    ensures { IfOk result (λ x. x ≡ a.now -ℚ b.now) }
{
    match a.minus(b) {
        Some(x) => Ok(x),
        None => Err(Beyond),
    }
}

/// The quotient of `a` by `b`, which isn't zero, as a fraction of 128 bits.
///
/// # Errors
///
/// `Beyond` where a number of the working reaches 2^512, or where the numerator or the denominator of the quotient exceeds 2^127 - 1 in size.
pub fn narrow_quotient(a: &WideFrac, b: &WideFrac) -> Result<Frac, Beyond>
    requires { ¬ (b.now ≡ zero_ℚ) }
    ensures { IfOk result (λ x. x ≡ a.now /ℚ b.now) }
{
    match a.over(b) {
        Some(x) => narrow(&x),
        None => Err(Beyond),
    }
}

/// The number as a fraction of 128 bits.
///
/// # Errors
///
/// `Beyond` where its numerator or its denominator exceeds 2^127 - 1 in size.
pub fn narrow(a: &WideFrac) -> Result<Frac, Beyond>
    ensures { IfOk result (λ x. x ≡ a.now) }
{
    match a.narrowed() {
        Some(x) => Ok(x),
        None => Err(Beyond),
    }
}
