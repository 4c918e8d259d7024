//! Terms that keep a marked set from being reduced: those that are divisible by a mark.
ghost use Rattle.std.specs.Prelude.{◌≡◌, ◌≢◌, ◌⊎◌, ◌<◌, true, false, length, IsTrue, IfSome, IfNone};
ghost use Rattle.gf_exponents_theory.specs.Exponents.{same};
ghost use Rattle.gf_poly.specs.Marking.{HaveVariables};
ghost use Rattle.gf_reduced.specs.Terms.{IsDividedAt, IsNotDividedBy, IsFirstOffendingOf, HasNoOffence, IsFirstOffending, AreReduced};
ghost use Rattle.gf_reduced.specs.Pairs.{MembersShareVariables};

use gf_poly::{Marked, Mono};

/// The index of a member, and its first offending monomial.
#[derive(Drop)]
pub(crate) struct OffendingTerm {
    pub polynomial: usize,
    pub term: Mono,
}

/// Whether the two are different monomials.
fn are_different(x: &Mono, y: &Mono) -> bool
    requires { length x.now ≡ length y.now }
    ensures yes { IsTrue result → same x.now y.now ≡ false }
    ensures no { result ≡ false → same x.now y.now ≡ true }
{
    y.exponents() != x.exponents()
}

/// Whether the mark of the member at `j` counts against a monomial of the one at `i`: its own mark doesn't count against the marked
/// monomial.
fn counts(i: usize, j: usize, is_marked: bool) -> bool
    ensures yes { IsTrue result → (j ≢ i) ⊎ (is_marked ≡ false) }
    ensures no { result ≡ false → (j ≡ i) × (is_marked ≡ true) }
{
    !is_marked || j != i
}

/// Whether the mark of the member at `j` counts, and divides the monomial `x` of the one at `i`.
fn is_divided_by(items: &[Marked], i: usize, j: usize, x: &Mono, is_marked: bool) -> bool
    requires within { j < length items.now }
    requires variables { HaveVariables (length x.now) items.now }
    ensures yes { IsTrue result → IsDividedAt items.now i x.now is_marked }
    ensures no { result ≡ false → IsNotDividedBy items.now i j x.now is_marked }
{
    if !counts(i, j, is_marked) {
        return false;
    }
    let member = &items[j];
    member.head().divides(x)
}

/// Whether a mark divides the monomial `x` of the member at `i`, the marked one or another.
fn is_divided(items: &[Marked], i: usize, x: &Mono, is_marked: bool) -> bool
    requires { HaveVariables (length x.now) items.now }
    ensures yes { IsTrue result → IsDividedAt items.now i x.now is_marked }
    ensures no { result ≡ false → IsDividedAt items.now i x.now is_marked → ⊥ }
{
    'members: for j in 0..items.len() {
        if is_divided_by(items, i, j, x, is_marked) {
            return true;
        }
    }
    false
}

/// Whether `x` is another monomial than the marked one of the member at `i`, and a mark divides it.
fn offends_in_tail(items: &[Marked], i: usize, head: &Mono, x: &Mono) -> bool
    requires lengths { length x.now ≡ length head.now }
    requires variables { HaveVariables (length x.now) items.now }
    ensures different { IsTrue result → same x.now head.now ≡ false }
    ensures divided { IsTrue result → IsDividedAt items.now i x.now false }
    ensures no { result ≡ false → (same x.now head.now ≡ true) ⊎ (IsDividedAt items.now i x.now false → ⊥) }
{
    if !are_different(x, head) {
        return false;
    }
    is_divided(items, i, x, false)
}

/// The first monomial of the member at `i`, the marked one first, that offends.
fn offending_of(items: &[Marked], i: usize) -> Option<Mono>
    requires within { i < length items.now }
    requires variables { MembersShareVariables items.now }
    ensures some { IfSome result (IsFirstOffendingOf items.now i) }
    ensures none { IfNone result (HasNoOffence items.now i) }
{
    let member = &items[i];
    let head = member.head();
    if is_divided(items, i, head, true) {
        return Some(head.copy());
    }
    let terms = member.poly().terms();
    'terms: for k in 0..terms.len() {
        let t = &terms[k];
        if offends_in_tail(items, i, head, &t.mono) {
            return Some(t.mono.copy());
        }
    }
    None
}

/// The first member with a monomial that offends, and its first such monomial, the marked one first.
///
/// A monomial offends if it is divisible by the mark of another member; an unmarked one also if it is divisible by the mark of its own
/// member.
pub(crate) fn first_offending(items: &[Marked]) -> Option<OffendingTerm>
    requires { MembersShareVariables items.now }
    ensures some { IfSome result (λ o. IsFirstOffending items.now o.polynomial o.term) }
    ensures none { IfNone result (AreReduced items.now) }
{
    'members: for i in 0..items.len() {
        if let Some(term) = offending_of(items, i) {
            return Some(OffendingTerm {
                polynomial: i,
                term,
            });
        }
    }
    None
}
