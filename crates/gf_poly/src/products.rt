//! Products of descending lists of terms with a term or a fraction.

ghost use Rattle.std.specs.Prelude.{◌≡◌, ◌↔◌, [], length, IfOk, IfErr, IsOk};
ghost use Rattle.gf_frac.specs.Fraction.{◌*ℚ◌};
ghost use Rattle.gf_poly.specs.Polynomial.{IsDescending, HasVariables};
ghost use Rattle.gf_poly.specs.Products.{HasProducts, ProductsFit, IsProductCause, ScaleFits, ScalesFit, HasOperands, IsScaleCause, MayScale, factor};

use super::Term;
use super::error::PolyError;
use super::merge::push_nonzero;
use super::monomial::Mono;
use gf_frac::{Frac, Overflow};
use std::alloc::Global;

/// Whether each coefficient is multiplied or divided.
#[derive(Clone, Copy)]
pub enum Scaling {
    Times,
    Over,
}

/// The product of `by` and the coefficient, or the quotient by it.
fn scaled_coefficient(kind: Scaling, by: &Frac, c: &Frac) -> Result<Frac, Overflow>
    requires { MayScale kind by.now }
    ensures value { IfOk result (λ x. x ≡ factor kind by.now *ℚ c.now) }
    ensures fits { IsOk result ↔ ScaleFits kind by.now c.now }
    ensures overflow { IfErr result (HasOperands kind by.now c.now) }
{
    match kind {
        Scaling::Times => by.mul(c),
        Scaling::Over => c.div(by),
    }
}

/// The product of each term with the fraction `by`, or the quotient by it, without zeros.
///
/// # Errors
/// - `Overflow` where the product of `by` and a coefficient, or the quotient of a coefficient by it, leaves its range; it holds the two, for the
///   greatest such monomial.
/// - `Memory` if memory runs out.
pub fn scaled(
    alloc: Global,
    terms: &[Term],
    by: &Frac,
    kind: Scaling,
) -> Result<Vec<Term>, PolyError>
    requires descending { IsDescending terms.now }
    requires divisor { MayScale kind by.now }
    ensures value { IfOk result (λ h. HasProducts (factor kind by.now) [] terms.now h.items) }
    ensures fits { IfOk result (λ h. ScalesFit kind by.now terms.now) }
    ensures cause { IfErr result (IsScaleCause kind by.now terms.now) }
{
    let mut out = Vec::with_capacity(alloc, terms.len())?;
    let mut i = 0;
    'terms: while i < terms.len() {
        let t = &terms[i];
        let coef = scaled_coefficient(kind, by, &t.coef)?;
        push_nonzero(&mut out, coef, t.mono.copy())?;
        i += 1;
    }
    Ok(out)
}

/// The product of each term with the term of `coef` and `mono`; the empty list where `coef` is 0.
///
/// # Errors
/// - `Overflow` where the product of `coef` and a coefficient leaves its range; it holds them.
/// - `Exponent` where the sum of an exponent of `mono` and one of the same variable in a term leaves its range; it holds them.
/// - `Memory` if memory runs out.
///
/// Terms are worked out from the greatest down, the coefficient first; the first that leaves its range is told.
pub fn multiplied(
    alloc: Global,
    terms: &[Term],
    coef: &Frac,
    mono: &Mono,
) -> Result<Vec<Term>, PolyError>
    requires descending { IsDescending terms.now }
    requires same_variables { HasVariables (length mono.now) terms.now }
    ensures value { IfOk result (λ h. HasProducts coef.now mono.now terms.now h.items) }
    ensures fits { IfOk result (λ h. ProductsFit coef.now mono.now terms.now) }
    ensures cause { IfErr result (IsProductCause coef.now mono.now terms.now) }
{
    let mut out = Vec::with_capacity(alloc, terms.len())?;
    let mut i = 0;
    'terms: while i < terms.len() {
        let t = &terms[i];
        let product = coef.mul(&t.coef)?;
        let monomial = mono.mul(&t.mono)?;
        push_nonzero(&mut out, product, monomial)?;
        i += 1;
    }
    Ok(out)
}
