//! Polynomials in one more variable, which doesn't occur.
ghost use Rattle.std.specs.Prelude.{◌≡◌, ◌<◌, ℕ, IfOk, map};
ghost use Rattle.gf_poly.specs.Polynomial.{HasVariables};
ghost use Rattle.gf_saturate.specs.Widening.{widened_term};

use gf_poly::{Poly, ROOM, Term, filled};
use std::alloc::{AllocError, Global};

/// The terms in one more variable, the last one, whose exponent is 0 in each of them.
fn widened_terms(alloc: Global, terms: &[Term]) -> Result<Vec<Term>, AllocError>
    requires { (n : ℕ) × ((n < ROOM) × HasVariables n terms.now) }
    ensures { IfOk result (λ all. all.items ≡ map widened_term terms.now) }
{
    let mut all = Vec::with_capacity(alloc, terms.len())?;
    'terms: for i in 0..terms.len() {
        let t = &terms[i];
        all.push(Term {
            coef: t.coef,
            mono: filled(alloc, &t.mono, 0),
        })?;
    }
    Ok(all)
}

/// The polynomial in one more variable, the last one, which doesn't occur in it.
pub(crate) fn widened_polynomial(alloc: Global, f: &Poly) -> Result<Poly, AllocError>
    requires { (n : ℕ) × ((n < ROOM) × HasVariables n f.now) }
    ensures { IfOk result (λ p. p ≡ map widened_term f.now) }
{
    let terms = widened_terms(alloc, f.terms())?;
    Ok(Poly::from_descending(terms))
}
