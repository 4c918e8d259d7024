//! Polynomials without their last variable, which doesn't occur.
ghost use Rattle.std.specs.Prelude.{◌≡◌, ◌≤◌, ◌+◌, IfOk, length, map, take};
ghost use Rattle.gf_poly.specs.Polynomial.{HasVariables};
ghost use Rattle.gf_saturate.specs.Widening.{narrowed_term, widened_term};

use gf_poly::{Mono, Poly, Term};
use std::alloc::{AllocError, Global};

/// The monomial in the first `n` variables.
pub(crate) fn narrowed(alloc: Global, n: u32, x: &Mono) -> Mono
    requires { n ≤ length x.now }
    ensures { result ≡ take n x.now }
{
    Mono::new(alloc, &x.exponents()[..n as usize])
}

/// The terms in the first `n` variables.
fn narrowed_terms(alloc: Global, n: u32, terms: &[Term]) -> Result<Vec<Term>, AllocError>
    requires { HasVariables (n + 1) terms.now }
    ensures { IfOk result (λ all. all.items ≡ map (narrowed_term n) terms.now) }
{
    let mut all = Vec::with_capacity(alloc, terms.len())?;
    'terms: for i in 0..terms.len() {
        let t = &terms[i];
        all.push(Term {
            coef: t.coef,
            mono: narrowed(alloc, n, &t.mono),
        })?;
    }
    Ok(all)
}

/// The polynomial in the first `n` variables, where the last one doesn't occur.
pub(crate) fn narrowed_polynomial(alloc: Global, n: u32, f: &Poly) -> Result<Poly, AllocError>
    requires variables { HasVariables (n + 1) f.now }
    requires free { map widened_term (map (narrowed_term n) f.now) ≡ f.now }
    ensures { IfOk result (λ p. p ≡ map (narrowed_term n) f.now) }
{
    let terms = narrowed_terms(alloc, n, f.terms())?;
    Ok(Poly::from_descending(terms))
}
