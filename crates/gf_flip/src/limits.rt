//! That exponents are within the limit, as their accessor says. Nothing is computed.

ghost use Rattle.gf_flip.specs.Limits.{AreMonomials, HasMonomialsAlone, HaveMonomialsAlone};

use gf_poly::{Marked, Term};

/// Each term is looked at.
fn see_terms(terms: &[Term])
    ensures { AreMonomials terms.now }
{
    'terms: for i in 0..terms.len() {
        let t = &terms[i];
        let _ = t.mono.exponents();
    }
}

/// The mark is looked at, and each term.
fn see_member(member: &Marked)
    ensures { HasMonomialsAlone member.now }
{
    let _ = member.head().exponents();
    see_terms(member.poly().terms());
}

/// Each member is looked at: its exponents are below `2^31`.
pub fn see_members(items: &[Marked])
    ensures { HaveMonomialsAlone items.now }
{
    'members: for i in 0..items.len() {
        see_member(&items[i]);
    }
}
