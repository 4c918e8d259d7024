//! Polynomials as rows.

ghost use Rattle.std.specs.Prelude.{◌≡◌, ◌<◌, length, IfOk, IfSome, IsTrue};
ghost use Rattle.gf_poly.specs.Monomial.{IsMonomial};
ghost use Rattle.gf_poly.specs.Polynomial.{HasVariables};

use gf_frac::Frac;
use gf_poly::{Mono, Poly, PolyError, ROOM, Term};
use std::alloc::Global;

/// Whether these are the exponents of a monomial.
fn is_monomial(exponents: &[u32]) -> bool
    ensures { IsTrue result → IsMonomial exponents.now }
{
    exponents.len() <= ROOM && exponents.iter().all(|k| *k < 1 << 31)
}

/// The term of a row, unless the coefficient or an exponent leaves its range.
fn term<const N: usize>(alloc: Global, coef: i128, exponents: [u32; N]) -> Option<Term>
    ensures { IfSome result (λ t. length t.mono ≡ N) }
{
    if coef == i128::MIN || !is_monomial(&exponents) {
        return None;
    }
    Some(Term {
        coef: Frac::new(coef, 1),
        mono: Mono::new(alloc, &exponents),
    })
}

/// The sum of the terms of these rows.
///
/// # Errors
///
/// `Overflow` where a sum of like terms doesn't fit; `Memory` also where a coefficient is `-2^127`, an exponent is `2^31` or
/// more, or there are more than `ROOM` variables.
#[tactic(auto, using(crate::proofs::PushLaws::terms_push))]
pub fn poly<const N: usize>(alloc: Global, rows: &[(i128, [u32; N])]) -> Result<Poly, PolyError>
    ensures { IfOk result (HasVariables N) }
{
    let mut terms = Vec::with_capacity(alloc, rows.len())?;
    'rows: for i in 0..rows.len() {
        let (coef, exponents) = rows[i];
        match term(alloc, coef, exponents) {
            Some(t) => terms.push(t)?,
            None => return Err(PolyError::Memory),
        }
    }
    Poly::from_terms(terms)
}

/// Whether the terms of the polynomial are these, the numerator and the denominator of each coefficient and the exponents, in
/// the order in which they are kept.
pub fn lists<const N: usize>(f: &Poly, rows: &[(i128, i128, [u32; N])]) -> bool {
    let terms = f.terms();
    if terms.len() != rows.len() {
        return false;
    }
    for i in 0..terms.len() {
        let (numerator, denominator, exponents) = rows[i];
        let t = &terms[i];
        if t.coef.numer() != numerator
            || t.coef.denom() != denominator
            || t.mono.exponents() != exponents.as_slice()
        {
            return false;
        }
    }
    true
}
