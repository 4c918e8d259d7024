//! Marks by a weight.
ghost use Rattle.std.specs.Prelude.{◌≡◌, ◌≢◌, ◌≤◌, ◌<◌, ◌^◌, ◌⊎◌, [], All, IfOk, length, unsigned_abs, Contains, true, false, ◌<ℤ◌};
ghost use Rattle.gf_exponents_theory.specs.Orders.{IsLexBelow};
ghost use Rattle.gf_poly.specs.declared.Term.{Term as AnyTerm};
ghost use Rattle.gf_poly.specs.Polynomial.{HasVariables};
ghost use Rattle.gf_poly.specs.Marking.{head_of};
ghost use Rattle.gf_small.specs.MarksByWeight.{IsBelowBy, IsMarkedByWeight, AreMarkedByWeight};

use gf_poly::{Marked, MarkedSet, Poly, Term};
use gf_vec::{IntVec, weight_of};
use std::alloc::{AllocError, Global};
use std::cmp::Ordering;

/// Whether the monomial `x`, of weight `weight`, is above the monomial `y`, of weight `other`: it has the greater weight, or the weights
/// are equal and it is above by lex.
fn is_above(weight: i128, x: &[u32], other: i128, y: &[u32]) -> bool
    requires { length x.now ≡ length y.now }
    ensures above { result ≡ true → (other <ℤ weight) ⊎ ((other ≡ weight) × IsLexBelow y.now x.now) }
    ensures below { result ≡ false → (x.now ≡ y.now) ⊎ (weight <ℤ other) ⊎ ((weight ≡ other) × IsLexBelow x.now y.now) }
{
    match weight.cmp(&other) {
        Ordering::Greater => true,
        Ordering::Less => false,
        Ordering::Equal => match x.cmp(y) {
            Ordering::Greater => true,
            _ => false,
        },
    }
}

/// The index of the greatest term by the weight, ties broken by lex. There is at least one term.
fn greatest_index(terms: &[Term], weight: &[i128]) -> usize
    requires some { 0 < length terms.now }
    requires bounded { All (λ w. unsigned_abs w ≤ 2 ^ 63) weight.now }
    requires same_variables { HasVariables (length weight.now) terms.now }
    ensures inside { result < length terms.now }
    ensures others { (t : AnyTerm) → Contains terms.now t → (t.mono ≡ head_of terms.now result) ⊎ IsBelowBy weight.now t.mono (head_of terms.now result) }
{
    let mut index = 0;
    let mut greatest = weight_of(weight, terms[0].mono.exponents());
    'terms: for i in 0..terms.len() {
        let x = terms[i].mono.exponents();
        let own = weight_of(weight, x);
        if is_above(own, x, greatest, terms[index].mono.exponents()) {
            index = i;
            greatest = own;
        }
    }
    index
}

/// The polynomial marked at its greatest term by the weight.
fn marked_by(f: &Poly, weight: &[i128]) -> Result<Marked, AllocError>
    requires some { 0 < length f.now }
    requires bounded { All (λ w. unsigned_abs w ≤ 2 ^ 63) weight.now }
    requires same_variables { HasVariables (length weight.now) f.now }
    ensures polynomial { IfOk result (λ c. c.poly ≡ f.now) }
    ensures mark { IfOk result (IsMarkedByWeight weight.now) }
{
    let index = greatest_index(f.terms(), weight);
    let copy = f.copy()?;
    Ok(Marked::mark(copy, index))
}

/// The polynomials of a set in their order, each marked at its greatest term by the vector, ties broken by lex. None of them is zero. The
/// vector has an entry for each of their variables; entries are at most `2^63` in absolute value, and may be negative.
///
/// # Errors
///
/// Only when memory runs out.
pub fn mark_set(alloc: Global, set: &[Poly], vector: &IntVec) -> Result<MarkedSet, AllocError>
    requires some { All (λ f. f ≢ []) set.now }
    requires variables { All (HasVariables (length vector.now)) set.now }
    requires bounded { All (λ w. unsigned_abs w ≤ 2 ^ 63) vector.now }
    requires short { length vector.now < 2 ^ 32 }
    ensures { IfOk result (AreMarkedByWeight vector.now set.now) }
{
    let weight = vector.as_slice();
    let mut found = Vec::with_capacity(alloc, set.len())?;
    'polynomials: for f in set {
        let b = marked_by(f, weight)?;
        found.push(b)?;
    }
    Ok(MarkedSet::new(weight.len() as u32, found))
}
