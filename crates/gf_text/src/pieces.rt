//! Polynomials that are summed piece by piece while they are read, so that of a long one no more than a piece is kept as it is written.
//!
//! What is given here is right where it is given. Where a coefficient or an exponent leaves its range, where the first term doesn't remain, or where
//! memory runs out, nothing is, and the polynomial has to be read as a whole.
ghost use Rattle.std.specs.Prelude.{◌≡◌, ◌≤◌, ◌++◌, IfOk, IfSome, IsTrue, List, Some, ℕ, length};
ghost use Rattle.gf_poly.specs.Polynomial.{Terms, HasVariables};
ghost use Rattle.gf_text.specs.declared.tree.WrittenTerm.{WrittenTerm as WrittenTermValue};
ghost use Rattle.gf_text.specs.declared.written.Written.TheVariants as written;
ghost use Rattle.gf_text.specs.Combining.{IsSumMarked};
ghost use Rattle.gf_text.specs.Limits.{AreTermsWithin, ArePolynomialsWithin};
ghost use Rattle.gf_text.specs.Pieces.{IsSumFrom, IsFrontSum, IsFront, HasFront, Takes, AddsBehind};
ghost use Rattle.gf_text.specs.Sets.{IsSummed};
ghost use Rattle.gf_text.specs.WrittenText.{AreInRange};

use crate::combine::{Sums, place_of, terms_from};
use crate::printer::terms_are_in_range;
use crate::tree::{WrittenSet, WrittenTerm, WrittenTerms};
use crate::written::Written;
use gf_poly::{Marked, Mono, Poly, ROOM, Term};
use std::alloc::{AllocError, Global};
use std::mem;

/// The fewest terms that are added to a sum.
const PIECE: usize = 8192;

/// The sum of the first terms of a polynomial, and the monomial of the first of them, as written.
#[derive(Drop)]
pub struct Front {
    pub poly: Poly,
    pub first: Mono,
}

impl Front {
    /// The front of these terms, where there are some.
    fn of(terms: Vec<Term>) -> Option<Front>
        ensures { IfSome result (λ g. (n : ℕ) → HasVariables n terms.items → IsSumFrom n terms.items g) }
    {
        if terms.is_empty() {
            return None;
        }
        let first = terms[0].mono.copy();
        let Ok(poly) = Poly::from_terms(terms) else {
            return None;
        };
        Some(Front { poly, first })
    }

    /// The front with these terms behind its own.
    fn with(self, terms: Vec<Term>) -> Option<Front>
        requires { AreInRange terms.items }
        ensures { IfSome result (λ g. (n : ℕ) (f : Terms) → HasVariables n terms.items → IsSumFrom n f self → IsSumFrom n (f ++ terms.items) g) }
    {
        let Front { poly, first } = self;
        let mut all = poly.into_terms();
        let mut more = terms;
        if all.append(&mut more).is_err() {
            return None;
        }
        drop(more);
        let Ok(poly) = Poly::from_terms(all) else {
            return None;
        };
        Some(Front { poly, first })
    }

    /// The sum, marked at the first of the terms, where that remains.
    fn marked(self) -> Option<Marked>
        requires { HasVariables (length self.first) self.poly }
        ensures { IfSome result (λ m. (n : ℕ) (f : Terms) → IsSumFrom n f self → IsSumMarked f m) }
    {
        let Front { poly, first } = self;
        match place_of(poly.terms(), &first) {
            Some(place) => Some(Marked::mark(poly, place)),
            None => None,
        }
    }
}

/// How many terms the sum of the first terms has.
fn size_of(front: &Option<Front>) -> usize
    ensures { IfSome front.now (λ g. result ≡ length g.poly) }
{
    match front {
        Some(front) => front.poly.terms().len(),
        None => 0,
    }
}

/// The front in n variables with these terms behind its own.
fn joined(alloc: Global, n: usize, front: Option<Front>, terms: &[WrittenTerm]) -> Option<Front>
    requires room { n ≤ ROOM }
    requires within { AreTermsWithin n terms.now }
    ensures { IfSome result (λ g. (us : List WrittenTermValue) → IsFront n us front → IsFrontSum n (us ++ terms.now) g) }
{
    let Ok(made) = terms_from(alloc, n, terms) else {
        return None;
    };
    match front {
        None => Front::of(made),
        Some(front) => {
            terms_are_in_range(&made);
            front.with(made)
        }
    }
}

/// What is left of the polynomial in n variables whose first terms are summed and whose others are these.
fn remaining(alloc: Global, n: usize, front: Front, terms: &[WrittenTerm]) -> Option<Marked>
    requires room { n ≤ ROOM }
    requires within { AreTermsWithin n terms.now }
    requires known { HasFront n (Some front) }
    ensures { IfSome result (λ m. (us : List WrittenTermValue) → IsFrontSum n us front → IsSummed n (us ++ terms.now) (written.Nonzero m)) }
{
    match joined(alloc, n, Some(front), terms) {
        Some(whole) => whole.marked(),
        None => None,
    }
}

/// Sums the terms in n variables that are read, and leaves none, where they are at least a piece and no fewer than the sum has. Whether that is done,
/// or needn't be.
pub(crate) fn take_piece(
    alloc: Global,
    n: usize,
    front: &mut Option<Front>,
    terms: &mut WrittenTerms,
) -> bool
    requires room { n ≤ ROOM }
    requires within { AreTermsWithin n terms.old }
    ensures { IsTrue result → Takes n front.old terms.old front.new terms.new }
{
    let count = terms.as_slice().len();
    if count < PIECE || count < size_of(front) {
        return true;
    }
    let Some(next) = joined(alloc, n, mem::replace(front, None), terms.as_slice()) else {
        return false;
    };
    *front = Some(next);
    terms.clear();
    true
}

/// Adds the polynomial in n variables that is read, where there is one, behind those before it; its first terms are those that are summed, of which
/// none is left then. Whether that is done, or needn't be.
pub(crate) fn add_behind(
    alloc: Global,
    n: usize,
    sums: &mut Sums,
    front: &mut Option<Front>,
    set: &WrittenSet,
) -> Result<bool, AllocError>
    requires room { n ≤ ROOM }
    requires within { ArePolynomialsWithin n set.now }
    requires known { HasFront n front.old }
    ensures { IfOk result (λ done. IsTrue done → AddsBehind n set.now front.old sums.old front.new sums.new) }
{
    let Some(terms) = set.last() else {
        return Ok(true);
    };
    match mem::replace(front, None) {
        None => {
            sums.add(alloc, n, terms.as_slice())?;
            Ok(true)
        }
        Some(first) => match sums {
            Sums::Fit(written) => {
                let Some(marked) = remaining(alloc, n, first, terms.as_slice()) else {
                    return Ok(false);
                };
                written.push(Written::Nonzero(marked))?;
                Ok(true)
            }
            _ => Ok(false),
        },
    }
}
