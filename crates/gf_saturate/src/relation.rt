//! A variable, and the generator that makes a monomial invertible.
ghost use Rattle.std.specs.Prelude.{◌≡◌, ◌<◌, ◌≤◌, length, IfOk};
ghost use Rattle.gf_saturate.specs.Widening.{rabinowitsch_terms, variable_at};

use gf_frac::constants;
use gf_poly::{Mono, Poly, ROOM, Term, filled};
use std::alloc::{AllocError, Global};

/// The variable at index `k`, from 0, of `n`.
pub(crate) fn variable(alloc: Global, n: u32, k: u32) -> Mono
    requires room { n ≤ ROOM }
    requires inside { k < n }
    ensures { result ≡ variable_at n k }
{
    let mut exponents = [0; ROOM];
    exponents[k as usize] = 1;
    Mono::new(alloc, &exponents[..n as usize])
}

/// The monomial times one more variable, less 1.
pub(crate) fn inverse_relation(alloc: Global, by: &Mono) -> Result<Poly, AllocError>
    requires { length by.now < ROOM }
    ensures { IfOk result (λ p. p ≡ rabinowitsch_terms by.now) }
{
    let (_, one) = constants();
    let n = by.exponents().len();
    let mut terms = Vec::with_capacity(alloc, 2)?;
    terms.push(Term {
        coef: one,
        mono: filled(alloc, by, 1),
    })?;
    terms.push(Term {
        coef: one.neg(),
        mono: Mono::one(alloc, n + 1),
    })?;
    Ok(Poly::from_descending(terms))
}
