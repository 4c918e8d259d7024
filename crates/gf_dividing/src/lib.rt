//! Polynomials divided by the greatest monomial that divides all of their terms.
//!
//! Start at `stripped`. What is answered stands in `specs/Dividing.antt`.
#![tactic(auto)]

ghost use Rattle.std.specs.Prelude.{◌≡◌, ◌<◌, ◌≤◌, ℕ, IfOk, length, map};
ghost use Rattle.gf_exponents_theory.specs.Exponents.{entry};
ghost use Rattle.gf_poly.specs.Polynomial.{HasVariables};
ghost use Rattle.gf_dividing.specs.Dividing.{DividesAll, IsGreatest, divided_term, IsStripped};

use gf_poly::{Mono, Poly, Term};
use std::alloc::{AllocError, Global};

/// A monomial, and the polynomial that times it is another one.
#[derive(Drop)]
pub struct Factors {
    pub by: Mono,
    pub rest: Poly,
}

/// The greatest monomial that divides both.
fn shared(x: &Mono, y: &Mono) -> Mono
    requires { length x.now ≡ length y.now }
    ensures long { length result ≡ length x.now }
    ensures left { (k : ℕ) → entry result k ≤ entry x.now k }
    ensures right { (k : ℕ) → entry result k ≤ entry y.now k }
    ensures greatest { (j k : ℕ) → j ≤ entry x.now k → j ≤ entry y.now k → j ≤ entry result k }
{
    let multiple = x.lcm(y);
    let rest = multiple.quotient(y);
    x.quotient(&rest)
}

/// The greatest monomial that divides all terms.
fn common(n: u32, terms: &[Term]) -> Mono
    requires some { 0 < length terms.now }
    requires variables { HasVariables n terms.now }
    ensures long { length result ≡ n }
    ensures all { DividesAll result terms.now }
    ensures greatest { IsGreatest result terms.now }
{
    let mut all = terms[0].mono.copy();
    'terms: for i in 1..terms.len() {
        all = shared(&all, &terms[i].mono);
    }
    all
}

/// The terms, divided by a monomial that divides them all.
fn divided_terms(alloc: Global, n: u32, by: &Mono, terms: &[Term]) -> Result<Vec<Term>, AllocError>
    requires long { length by.now ≡ n }
    requires variables { HasVariables n terms.now }
    requires all { DividesAll by.now terms.now }
    ensures { IfOk result (λ all. all.items ≡ map (divided_term by.now) terms.now) }
{
    let mut all = Vec::with_capacity(alloc, terms.len())?;
    'terms: for i in 0..terms.len() {
        let t = &terms[i];
        all.push(Term {
            coef: t.coef,
            mono: t.mono.quotient(by),
        })?;
    }
    Ok(all)
}

/// A polynomial in `n` variables, which isn't zero, divided by the greatest monomial that divides all of its terms, with that monomial.
///
/// # Errors
///
/// Want of memory alone.
pub fn stripped(alloc: Global, n: u32, f: &Poly) -> Result<Factors, AllocError>
    requires some { 0 < length f.now }
    requires variables { HasVariables n f.now }
    ensures { IfOk result (IsStripped n f.now) }
{
    let terms = f.terms();
    let by = common(n, terms);
    let divided = divided_terms(alloc, n, &by, terms)?;
    Ok(Factors {
        by,
        rest: Poly::from_descending(divided),
    })
}
