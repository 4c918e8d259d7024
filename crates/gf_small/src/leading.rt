//! The leading terms of a marked set.
ghost use Rattle.std.specs.Prelude.{◌≡◌, IfOk};
ghost use Rattle.gf_poly.specs.Marking.{HasMarkedTerm};
ghost use Rattle.gf_division.specs.MonicForms.{HasSomeVariables};
ghost use Rattle.gf_small.specs.LeadingTerms.{leading_of, leading_set};

use gf_poly::{Marked, MarkedSet, Poly, Term};
use std::alloc::{AllocError, Global};

/// The marked term of a polynomial, as a polynomial.
fn leading_term(alloc: Global, b: &Marked) -> Result<Marked, AllocError>
    requires { HasSomeVariables b.now }
    ensures value { IfOk result (λ c. c ≡ leading_of b.now) }
    ensures marked { IfOk result (λ c. HasMarkedTerm b.now) }
{
    let coef = b.coefficient();
    let head = b.head();
    let mono = head.copy();
    let mut terms = Vec::with_capacity(alloc, 1)?;
    terms.push(Term { coef, mono })?;
    Ok(Marked::mark(Poly::from_descending(terms), 0))
}

/// The marked terms of the polynomials of a set, with their coefficients, in the order of the set.
///
/// # Errors
///
/// Only when memory runs out.
pub fn leading_terms(alloc: Global, set: &MarkedSet) -> Result<MarkedSet, AllocError>
    ensures { IfOk result (λ found. found ≡ leading_set set.now) }
{
    let items = set.items();
    let mut found = Vec::with_capacity(alloc, items.len())?;
    'members: for i in 0..items.len() {
        let term = leading_term(alloc, &items[i])?;
        found.push(term)?;
    }
    Ok(MarkedSet::new(set.variables(), found))
}
