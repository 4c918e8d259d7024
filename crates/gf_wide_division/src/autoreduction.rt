//! Autoreduction where the numbers of a tail don't fit on the way.

ghost use Rattle.std.specs.Prelude.{Contains, IfOk, IsTrue};
ghost use Rattle.gf_poly.specs.Polynomial.{KeepsVariables};
ghost use Rattle.gf_ideal_theory.specs.Bases.{AreArranged};
ghost use Rattle.gf_ideal_theory.specs.Marks.{HasPositiveWeight, IsRealisable};
ghost use Rattle.gf_ideal_theory.specs.WorkLists.{IsReducedTail, AreReducedTails};
ghost use Rattle.gf_division.specs.Autoreduction.{AreNeededForms, IsAutoreduced, IsReducedOf, ShareSomeVariables, KeepVariables, IsKeptForm, AreKeptForms};
ghost use Rattle.gf_division.specs.MonicForms.{IsMadeMonic, HasSomeVariables};
ghost use Rattle.gf_division.specs.NormalForms.{HasSomeWeight};

use crate::precedence::Precedence;
use crate::remainders::wide_tail;
use crate::terms::{Beyond, narrow_one};
use gf_division::{Guide, is_needed, reduced_tail};
use gf_poly::{Marked, MarkedSet, PolyError};
use std::alloc::Global;

/// Whether the marked coefficient is 1, so that the polynomial is its own monic form.
fn is_monic(b: &Marked) -> bool
    requires { HasSomeVariables b.now }
    ensures { IsTrue result → IsMadeMonic b.now b.now }
{
    // Called for the proof alone: what `head` ensures says that the terms descend, and that the mark is that of one of them.
    let _ = b.head();
    b.coefficient() == narrow_one()
}

/// A copy of a member, if it is monic.
fn form(b: &Marked) -> Result<Marked, Beyond>
    requires { HasSomeVariables b.now }
    ensures form { IfOk result (IsMadeMonic b.now) }
    ensures variables { IfOk result (λ c. KeepsVariables b.now.poly c.poly) }
{
    if is_monic(b) {
        return Ok(b.copy()?);
    }
    Err(Beyond)
}

/// The needed members, if they are monic.
fn needed_forms(alloc: Global, items: &[Marked]) -> Result<Vec<Marked>, Beyond>
    requires { ShareSomeVariables items.now }
    ensures value { IfOk result (λ ks. AreNeededForms items.now ks.items) }
    ensures variables { IfOk result (λ ks. KeepVariables items.now ks.items) }
{
    let mut forms = Vec::new(alloc);
    'members: for i in 0..items.len() {
        if is_needed(items, i) {
            let form = form(&items[i])?;
            forms.push(form)?;
        }
    }
    Ok(forms)
}

/// A member with its tail reduced, in fractions of 512 bits where those of 128 bits overflow. `Beyond` where a sum of exponents or a wide number
/// leaves its range, or if memory runs out.
fn tail(
    alloc: Global,
    member: &Marked,
    by: &[Marked],
    guide: &mut Guide,
    first: &Precedence,
) -> Result<Marked, Beyond>
    requires member { Contains by.now member.now }
    requires marked { HasSomeWeight by.now }
    requires variables { ShareSomeVariables by.now }
    ensures tail { IfOk result (IsReducedTail by.now member.now) }
    ensures form { IfOk result (IsKeptForm member.now) }
{
    match reduced_tail(alloc, member, by, guide) {
        Ok(reduced) => Ok(reduced),
        Err(PolyError::Overflow(_)) => wide_tail(alloc, member, by, first),
        Err(_) => Err(Beyond),
    }
}

/// The members with their tails reduced by one another.
fn tails(
    alloc: Global,
    members: &[Marked],
    guide: &mut Guide,
    first: &Precedence,
) -> Result<Vec<Marked>, Beyond>
    requires marked { HasSomeWeight members.now }
    requires variables { ShareSomeVariables members.now }
    ensures tails { IfOk result (λ cs. AreReducedTails members.now members.now cs.items) }
    ensures forms { IfOk result (λ cs. AreKeptForms members.now cs.items) }
{
    let mut done = Vec::with_capacity(alloc, members.len())?;
    'members: for i in 0..members.len() {
        let member = tail(alloc, &members[i], members, guide, first)?;
        done.push(member)?;
    }
    Ok(done)
}

/// The members that are needed, which are monic, their tails reduced by one another, ascending by their marks: where the set is a Gröbner basis for
/// its marking, the reduced one. A tail is reduced in fractions of 512 bits where those of 128 bits overflow on the way.
///
/// A member is dropped where its marked monomial is a proper multiple of another's; of members with the same marked monomial the first stays. Some
/// positive weight sets each marked monomial above the other ones of its polynomial. `guide` and `first` tell which terms are reduced first.
///
/// # Errors
///
/// `Beyond` where a needed member isn't monic; where in a step of a wide reduction the working of a product or a difference of coefficients reaches
/// 2^512, or a sum of two exponents reaches 2^31; where the numerator or the denominator of a coefficient of a reduced tail exceeds 2^127 - 1 in
/// size; or if memory runs out.
#[cold]
#[inline(never)]
pub fn wide_autoreduce(
    alloc: Global,
    set: &MarkedSet,
    guide: &mut Guide,
    first: &Precedence,
) -> Result<MarkedSet, Beyond>
    requires { IsRealisable set.now.variables set.now.items }
    ensures value { IfOk result (IsAutoreduced set.now) }
    ensures arranged { IfOk result (λ t. AreArranged set.now.variables t.items) }
    ensures marked { IfOk result (λ t. HasPositiveWeight set.now.variables t.items) }
    ensures reduced { IfOk result (λ t. IsReducedOf set.now.variables set.now.items t.items) }
{
    let forms = needed_forms(alloc, set.items())?;
    let reduced = tails(alloc, &forms, guide, first)?;
    let all = MarkedSet::new(set.variables(), reduced).arrange()?;
    Ok(all)
}
