//! Differences of two monomials as vectors: their sums, divided by what both monomials share.
ghost use Rattle.std.specs.Prelude.{◌≡◌, IsTrue, IfOk, IfSome, Contains, length};
ghost use Rattle.gf_frac.specs.Fraction.{neg_ℚ, one_ℚ};
ghost use Rattle.gf_buchberger.specs.Tasks.{HaveRingVariables};
ghost use Rattle.gf_saturate.specs.Proposals.{IsDivided, IsVectorOf, IsWritten, IsProposed, IsProposal};

use gf_frac::{Frac, constants};
use gf_poly::{Mono, Poly, PolyError, Term};
use std::alloc::{AllocError, Global};

/// The difference of two monomials.
#[derive(Drop)]
pub struct Vector {
    pub first: Mono,
    pub second: Mono,
}

impl Vector {
    /// An equal vector.
    pub(crate) fn copy(&self) -> Vector
        ensures { result ≡ self.now }
    {
        Vector {
            first: self.first.copy(),
            second: self.second.copy(),
        }
    }
}

/// The difference of the two, divided by what both share.
fn divided(x: &Mono, y: &Mono) -> Vector
    requires { length x.now ≡ length y.now }
    ensures { IsDivided x.now y.now result }
{
    let multiple = x.lcm(y);
    let first = multiple.quotient(y);
    let shared = x.quotient(&first);
    let second = y.quotient(&shared);
    Vector { first, second }
}

/// The sum of the vector and of `x` less `y`; nothing where an exponent doesn't fit.
pub(crate) fn sum(n: u32, set: &[Poly], v: &Vector, x: &Mono, y: &Mono) -> Option<Vector>
    requires variables { HaveRingVariables n set.now }
    requires left { IsProposal n set.now v.now }
    requires right { IsProposed n set.now x.now y.now }
    ensures { IfSome result (IsProposal n set.now) }
{
    let Ok(first) = v.first.mul(x) else {
        return None;
    };
    let Ok(second) = v.second.mul(y) else {
        return None;
    };
    Some(divided(&first, &second))
}

/// Whether the coefficients are 1 and -1.
fn is_difference(s: &Term, t: &Term) -> bool
    ensures { IsTrue result → (s.now.coef ≡ one_ℚ) × (t.now.coef ≡ neg_ℚ one_ℚ) }
{
    let (_, one) = constants();
    s.coef == one && t.coef == one.neg()
}

/// The two monomials of the polynomial, the one with the coefficient 1 first, where it is such a difference.
fn vector_of(f: &Poly) -> Option<Vector>
    ensures { IfSome result (IsVectorOf f.now) }
{
    let terms = f.terms();
    if terms.len() != 2 {
        return None;
    }
    let s = &terms[0];
    let t = &terms[1];
    if is_difference(s, t) {
        return Some(Vector {
            first: s.mono.copy(),
            second: t.mono.copy(),
        });
    }
    if is_difference(t, s) {
        return Some(Vector {
            first: t.mono.copy(),
            second: s.mono.copy(),
        });
    }
    None
}

/// The two monomials of a polynomial of the set, divided.
pub(crate) fn given_vector(n: u32, set: &[Poly], f: &Poly) -> Option<Vector>
    requires variables { HaveRingVariables n set.now }
    requires inside { Contains set.now f.now }
    ensures { IfSome result (IsProposal n set.now) }
{
    let Some(v) = vector_of(f) else {
        return None;
    };
    Some(divided(&v.first, &v.second))
}

/// A term.
fn term(coef: Frac, x: &Mono) -> Term
    ensures coef { result.coef ≡ coef }
    ensures mono { result.mono ≡ x.now }
{
    Term {
        coef,
        mono: x.copy(),
    }
}

/// The vector as a polynomial.
pub(crate) fn written(alloc: Global, v: &Vector) -> Result<Poly, PolyError>
    ensures { IfOk result (IsWritten v.now) }
{
    let (_, one) = constants();
    let mut terms = Vec::with_capacity(alloc, 2)?;
    terms.push(term(one, &v.first))?;
    terms.push(term(one.neg(), &v.second))?;
    let f = Poly::from_terms(terms)?;
    Ok(f)
}
