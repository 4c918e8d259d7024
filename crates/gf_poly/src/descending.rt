//! Terms that descend already.

ghost use Rattle.std.specs.Prelude.{◌≡◌, ◌≢◌, ◌↔◌, IsTrue};
ghost use Rattle.std.specs.declared.cmp.Ordering.TheVariants.{Greater};
ghost use Rattle.gf_frac.specs.Fraction.{zero_ℚ};
ghost use Rattle.gf_exponents_theory.specs.Orders.{deglex};
ghost use Rattle.gf_poly.specs.Polynomial.{IsDescending};

use super::Term;
use std::cmp::Ordering;

/// Whether a term isn't zero and stands below the one before it.
fn follows(before: &Term, next: &Term) -> bool
    ensures { IsTrue result ↔ ((next.now.coef ≢ zero_ℚ) × (deglex before.now.mono next.now.mono ≡ Greater)) }
{
    if next.coef.is_zero() {
        return false;
    }
    match before.mono.compare(&next.mono) {
        Ordering::Greater => true,
        _ => false,
    }
}

/// Whether these terms are those of a polynomial, in its order: none is zero, and their monomials descend in deglex.
pub fn descend(terms: &[Term]) -> bool
    ensures { IsTrue result ↔ IsDescending terms.now }
{
    if terms.is_empty() {
        return true;
    }
    if terms[0].coef.is_zero() {
        return false;
    }
    'terms: for i in 1..terms.len() {
        if !follows(&terms[i - 1], &terms[i]) {
            return false;
        }
    }
    true
}
