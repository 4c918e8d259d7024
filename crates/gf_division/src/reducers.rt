//! Which member reduces a term, and the search for a term that one reduces.

ghost use Rattle.std.specs.Prelude.{false, ◌≡◌, ◌↔◌, length, IfSome, IfNone, IfOk, IsTrue, OnOk, Contains};
ghost use Rattle.gf_exponents_theory.specs.Exponents.{Divides, degree as total_degree};
ghost use Rattle.gf_poly.specs.Marking.{HaveVariables};
ghost use Rattle.gf_ideal_theory.specs.Reduction.{IsDivisible};
ghost use Rattle.gf_division.specs.Dividends.{split_of, joined_terms};
ghost use Rattle.gf_division.specs.Reducers.{IsDivisorAt, IsBeside, IsSpareIn, AreIrreducible, ShareVariables, IsSought};

use crate::dividend::Dividend;
use gf_poly::{Marked, Mono};
use std::alloc::AllocError;

/// Whether the mark divides `x`, whose degree is given: a mark of greater degree doesn't.
fn is_divided(x: &Mono, degree: u64, mark: &Mono) -> bool
    requires variables { length mark.now ≡ length x.now }
    requires degree { degree ≡ total_degree x.now }
    ensures { IsTrue result ↔ Divides mark.now x.now }
{
    if degree < mark.degree() {
        return false;
    }
    mark.divides(x)
}

/// The index of the first member whose mark divides `x`, if there is one.
pub fn divisor_of(x: &Mono, by: &[Marked]) -> Option<usize>
    requires { HaveVariables (length x.now) by.now }
    ensures found { IfSome result (IsDivisorAt by.now x.now) }
    ensures none { IfNone result (IsDivisible (Contains by.now) x.now → ⊥) }
{
    let degree = x.degree();
    'members: for j in 0..by.len() {
        let member = &by[j];
        if is_divided(x, degree, member.head()) {
            return Some(j);
        }
    }
    None
}

/// Whether `x` is another monomial than the spared one.
fn is_beside(spared: &Option<Mono>, x: &Mono) -> bool
    requires { IsSpareIn (length x.now) spared.now }
    ensures yes { IsTrue result → IsBeside spared.now x.now }
    ensures no { result ≡ false → IsBeside spared.now x.now → ⊥ }
{
    match spared {
        Some(y) => y.exponents() != x.exponents(),
        None => true,
    }
}

/// The index of the first member that reduces a term at `x`, if there is one and `x` isn't spared.
pub fn reducer_of(x: &Mono, by: &[Marked], spared: &Option<Mono>) -> Option<usize>
    requires members { HaveVariables (length x.now) by.now }
    requires spare { IsSpareIn (length x.now) spared.now }
    ensures found { IfSome result (IsDivisorAt by.now x.now) }
    ensures beside { IfSome result (λ _. IsBeside spared.now x.now) }
    ensures none { IfNone result (IsBeside spared.now x.now → IsDivisible (Contains by.now) x.now → ⊥) }
{
    match divisor_of(x, by) {
        Some(j) if is_beside(spared, x) => Some(j),
        _ => None,
    }
}

/// Moves the index down to the first term that a member reduces, and answers the index of the first such member among `by`; none where no member
/// reduces a term.
///
/// # Errors
///
/// `AllocError` if memory runs out; nothing is promised of the polynomial then.
pub fn seek(
    rest: &mut Dividend,
    by: &[Marked],
    spared: &Option<Mono>,
) -> Result<Option<usize>, AllocError>
    requires variables { ShareVariables (split_of rest.old) by.now spared.now }
    requires above { AreIrreducible by.now spared.now (split_of rest.old).above }
    ensures same { OnOk result (joined_terms (split_of rest.new) ≡ joined_terms (split_of rest.old)) }
    ensures above { OnOk result (AreIrreducible by.now spared.now (split_of rest.new).above) }
    ensures found { IfOk result (IsSought by.now spared.now (split_of rest.new)) }
{
    'terms: while let Some(t) = rest.next() {
        // Called for the proof alone: what `exponents` ensures says that each exponent is below 2^31, by which reductions
        // are shown to end.
        let _ = t.mono.exponents();
        match reducer_of(&t.mono, by, spared) {
            Some(j) => return Ok(Some(j)),
            None => rest.advance()?,
        }
    }
    Ok(None)
}
