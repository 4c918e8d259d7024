//! Initial forms of polynomials, with their marks.
ghost use Rattle.std.specs.Prelude.{◌≡◌, ◌≢◌, ◌≤◌, ◌<◌, ◌^◌, All, IfOk, length, unsigned_abs};
ghost use Rattle.gf_frac.specs.Fraction.{zero_ℚ};
ghost use Rattle.gf_poly.specs.Polynomial.{coefficient, HasVariables, IsDescending};
ghost use Rattle.gf_poly.specs.Marking.{head_of};
ghost use Rattle.gf_text.specs.Sets.{IsIn, AreIn};
ghost use Rattle.gf_small.specs.InitialForms.{IsMarkedInitialForm, IsWrittenInitialForm, AreInitialForms};

use gf_poly::{Marked, Mono, Term};
use gf_text::Written;
use gf_vec::IntVec;
use std::alloc::{AllocError, Global};
use std::cmp::Ordering;

/// The index of the term with this monomial, and 0 if there is none.
fn index_or_first(terms: &[Term], x: &Mono) -> usize
    requires some { 0 < length terms.now }
    requires descending { IsDescending terms.now }
    requires same_variables { HasVariables (length x.now) terms.now }
    ensures inside { result < length terms.now }
    ensures there { coefficient terms.now x.now ≢ zero_ℚ → head_of terms.now result ≡ x.now }
    ensures elsewhere { coefficient terms.now x.now ≡ zero_ℚ → head_of terms.now result ≡ head_of terms.now 0 }
{
    'terms: for i in 0..terms.len() {
        let t = &terms[i];
        if let Ordering::Equal = t.mono.compare(x) {
            return i;
        }
    }
    0
}

/// The initial form of a marked polynomial by the weight.
fn marked_form(b: &Marked, weight: &IntVec) -> Result<Marked, AllocError>
    requires bounded { All (λ w. unsigned_abs w ≤ 2 ^ 63) weight.now }
    requires same_variables { HasVariables (length weight.now) b.now.poly }
    ensures { IfOk result (IsMarkedInitialForm weight.now b.now) }
{
    let form = b.poly().initial_form(weight)?;
    let index = index_or_first(form.terms(), b.head());
    Ok(Marked::mark(form, index))
}

/// The initial form of a polynomial that may be zero.
fn written_form(f: &Written, weight: &IntVec) -> Result<Written, AllocError>
    requires bounded { All (λ w. unsigned_abs w ≤ 2 ^ 63) weight.now }
    requires same_variables { IsIn (length weight.now) f.now }
    ensures form { IfOk result (IsWrittenInitialForm weight.now f.now) }
    ensures variables { IfOk result (IsIn (length weight.now)) }
{
    match f {
        Written::Zero => Ok(Written::Zero),
        Written::Nonzero(b) => {
            let form = marked_form(b, weight)?;
            Ok(Written::Nonzero(form))
        }
    }
}

/// The initial form of each polynomial by the vector, in their order: the sum of its terms of greatest weight. Its mark is the marked term
/// of the polynomial if the initial form has this term, and else the deglex greatest term of the initial form. The initial form of zero is
/// zero. The vector has an entry for each variable; entries are at most `2^63` in absolute value, and may be negative.
///
/// # Errors
///
/// Only when memory runs out.
pub fn initial_forms(
    alloc: Global,
    set: &[Written],
    vector: &IntVec,
) -> Result<Vec<Written>, AllocError>
    requires bounded { All (λ w. unsigned_abs w ≤ 2 ^ 63) vector.now }
    requires variables { AreIn (length vector.now) set.now }
    ensures forms { IfOk result (λ forms. AreInitialForms vector.now set.now forms.items) }
    ensures variables { IfOk result (λ forms. AreIn (length vector.now) forms.items) }
{
    let mut forms = Vec::with_capacity(alloc, set.len())?;
    'polynomials: for f in set {
        let form = written_form(f, vector)?;
        forms.push(form)?;
    }
    Ok(forms)
}
