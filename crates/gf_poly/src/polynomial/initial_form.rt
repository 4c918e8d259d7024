//! Initial forms: the terms of greatest weight.

ghost use Rattle.std.specs.Prelude.{◌≡◌, ◌≤◌, ◌^◌, All, IfOk, unsigned_abs, length};
ghost use Rattle.gf_exponents_theory.specs.Exponents.{whole_weight};
ghost use Rattle.gf_poly.specs.Polynomial.{IsDescending, HasVariables, KeepsVariables};
ghost use Rattle.gf_poly.specs.InitialForms.{IsInitialForm};

use super::Poly;
use crate::Term;
use crate::monomial::Mono;
use gf_vec::IntVec;
use std::alloc::{AllocError, Global};
use std::cmp::Ordering;

/// The weight of a monomial.
fn weight_of(weight: &[i128], mono: &Mono) -> i128
    requires bounded { All (λ w. unsigned_abs w ≤ 2 ^ 63) weight.now }
    requires same_variables { length mono.now ≡ length weight.now }
    ensures value { result ≡ whole_weight weight.now mono.now }
    ensures bound { unsigned_abs result ≤ 2 ^ 101 }
{
    gf_vec::weight_of(weight, mono.exponents())
}

/// The terms of greatest weight, in their order.
fn heaviest(alloc: Global, terms: &[Term], weight: &[i128]) -> Result<Vec<Term>, AllocError>
    requires bounded { All (λ w. unsigned_abs w ≤ 2 ^ 63) weight.now }
    requires same_variables { HasVariables (length weight.now) terms.now }
    requires descending { IsDescending terms.now }
    ensures value { IfOk result (λ h. IsInitialForm weight.now terms.now h.items) }
    ensures descending { IfOk result (λ h. IsDescending h.items) }
    ensures variables { IfOk result (λ h. KeepsVariables terms.now h.items) }
{
    let mut out = Vec::new(alloc);
    let mut greatest = i128::MIN;
    'terms: for i in 0..terms.len() {
        let t = &terms[i];
        let own = weight_of(weight, &t.mono);
        match own.cmp(&greatest) {
            Ordering::Greater => {
                out.clear();
                out.push(t.copy())?;
                greatest = own;
            }
            Ordering::Equal => out.push(t.copy())?,
            Ordering::Less => {}
        }
    }
    Ok(out)
}

impl Poly {
    /// The initial form by a weight: the sum of the terms of greatest weight. The weight has an entry for each variable,
    /// within `2^63` in absolute value, and may be negative.
    ///
    /// # Errors
    /// `AllocError` if memory runs out.
    pub fn initial_form(&self, weight: &IntVec) -> Result<Poly, AllocError>
        requires bounded { All (λ w. unsigned_abs w ≤ 2 ^ 63) weight.now }
        requires same_variables { HasVariables (length weight.now) self.now }
        ensures value { IfOk result (IsInitialForm weight.now self.now) }
        ensures descending { IfOk result IsDescending }
        ensures variables { IfOk result (KeepsVariables self.now) }
    {
        let terms = heaviest(*self.terms.allocator(), self.terms(), weight.as_slice())?;
        Ok(Poly { terms })
    }
}
