//! From a list of terms to a descending one: a stable sort, then sums of like terms.

ghost use Rattle.std.specs.Prelude.{IfOk, IfErr};
ghost use Rattle.gf_poly.specs.Polynomial.{SamePolynomial, IsDescending, KeepsVariables};
ghost use Rattle.gf_poly.specs.Collecting.{HasLikeTerms, IsOrdered, LikeSumsFit, IsLikeSumCause};

use super::Term;
use super::error::PolyError;
use super::merge::push_nonzero;
use std::alloc::{AllocError, Global};
use std::cmp::Ordering;

/// The terms in descending deglex order of their monomials; like terms stay in the order in which they stood.
///
/// # Errors
/// `AllocError` if memory runs out.
pub fn sorted(terms: Vec<Term>) -> Result<Vec<Term>, AllocError>
    ensures ordered { IfOk result (λ h. IsOrdered h.items) }
    ensures terms { IfOk result (λ h. HasLikeTerms terms.items h.items) }
{
    let mut all = terms;
    all.sort_by(|x, y| y.mono.compare(&x.mono))?;
    Ok(all)
}

/// Adds like terms, which stand together, from the left, and leaves out zeros.
///
/// # Errors
/// - `Overflow` where a sum of coefficients of like terms, added from the left, leaves its range; it holds the operands of the first such sum at the
///   greatest monomial that has one.
/// - `Memory` if memory runs out.
pub fn collected(alloc: Global, terms: &[Term]) -> Result<Vec<Term>, PolyError>
    requires { IsOrdered terms.now }
    ensures value { IfOk result (λ h. SamePolynomial h.items terms.now) }
    ensures descending { IfOk result (λ h. IsDescending h.items) }
    ensures variables { IfOk result (λ h. KeepsVariables terms.now h.items) }
    ensures fits { IfOk result (λ h. LikeSumsFit terms.now) }
    ensures cause { IfErr result (IsLikeSumCause terms.now) }
{
    let mut out = Vec::with_capacity(alloc, terms.len())?;
    if terms.is_empty() {
        return Ok(out);
    }
    let first = &terms[0];
    let mut coef = first.coef;
    let mut mono = first.mono.copy();
    let mut i = 1;
    'terms: while i < terms.len() {
        let t = &terms[i];
        match mono.compare(&t.mono) {
            Ordering::Equal => {
                coef = coef.add(&t.coef)?;
                i += 1;
            }
            _ => {
                push_nonzero(&mut out, coef, mono)?;
                coef = t.coef;
                mono = t.mono.copy();
                i += 1;
            }
        }
    }
    push_nonzero(&mut out, coef, mono)?;
    Ok(out)
}
