//! Remainders by a dividend with wide coefficients: what the narrow calls answer, where their numbers don't fit on the way.

ghost use Rattle.std.specs.Prelude.{Contains, IfOk, IfSome, IsTrue, OnOk};
ghost use Rattle.gf_poly.specs.Polynomial.{KeepsVariables};
ghost use Rattle.gf_ideal_theory.specs.NormalForms.{IsNormalForm};
ghost use Rattle.gf_ideal_theory.specs.WorkLists.{IsReducedTail};
ghost use Rattle.gf_division.specs.Autoreduction.{ShareSomeVariables, IsKeptForm};
ghost use Rattle.gf_division.specs.NormalForms.{HasSomeWeight, HaveSameVariables};
ghost use Rattle.gf_division.specs.Dividends.{joined_terms};
ghost use Rattle.gf_division.specs.Reducers.{AreIrreducible, ShareVariables};
ghost use Rattle.gf_division.specs.Remainders.{IsRemainder, IsWorkedOn, HasTailReached};
ghost use Rattle.gf_division.specs.Tables.{IsReducibleAt};
ghost use Rattle.gf_wide_division.specs.Dividends.{uncut, dividend_of};
ghost use Rattle.gf_wide_division.specs.Pairs.{IsPairRemainder, SharePairMembers};
ghost use Rattle.gf_wide_division.specs.Values.{term_value};

use crate::dividend::WideDividend;
use crate::polynomial::WidePoly;
use crate::precedence::Precedence;
use crate::terms::{Beyond, WideTerm};
use gf_division::{index_of, reducer_of};
use gf_poly::{Marked, Mono, Poly};
use std::alloc::Global;

/// The foremost term that waits, if a member reduces it, and the index of the first such member.
fn next(
    rest: &WideDividend,
    by: &[Marked],
    spared: &Option<Mono>,
    first: &Precedence,
) -> Option<(WideTerm, usize)>
    requires { ShareVariables (dividend_of rest.now) by.now spared.now }
    ensures { IfSome result (λ r. IsReducibleAt by.now spared.now (joined_terms (dividend_of rest.now)) (term_value r.0) r.1) }
{
    let t = rest.foremost(first)?;
    // Called for the proof alone: what `exponents` ensures says that each exponent is below 2^31, by which reductions
    // are shown to end.
    let _ = t.mono.exponents();
    let j = reducer_of(&t.mono, by, spared)?;
    Some((t, j))
}

/// Steps, while a member reduces the foremost term that waits.
fn through(
    rest: &mut WideDividend,
    by: &[Marked],
    spared: &Option<Mono>,
    first: &Precedence,
) -> Result<(), Beyond>
    requires marked { HasSomeWeight by.now }
    requires variables { ShareVariables (dividend_of rest.old) by.now spared.now }
    ensures { OnOk result (IsWorkedOn by.now spared.now (dividend_of rest.old) (dividend_of rest.new)) }
{
    'steps: while let Some((t, j)) = next(rest, by, spared, first) {
        let member = &by[j];
        rest.step(&t, member, by, spared)?;
    }
    Ok(())
}

/// Whether no member reduces a term that isn't spared.
fn is_irreducible(f: &WidePoly, by: &[Marked], spared: &Option<Mono>) -> bool
    requires { ShareVariables (uncut f.now) by.now spared.now }
    ensures { IsTrue result → AreIrreducible by.now spared.now f.now }
{
    let terms = f.terms();
    'terms: for i in 0..terms.len() {
        let t = &terms[i];
        match reducer_of(&t.mono, by, spared) {
            Some(_) => return false,
            None => {}
        }
    }
    true
}

/// Steps until no member reduces a term that isn't spared.
fn worked_off(
    start: WideDividend,
    by: &[Marked],
    spared: &Option<Mono>,
    first: &Precedence,
) -> Result<WidePoly, Beyond>
    requires marked { HasSomeWeight by.now }
    requires variables { ShareVariables (dividend_of start) by.now spared.now }
    ensures worked { IfOk result (λ f. IsWorkedOn by.now spared.now (dividend_of start) (uncut f)) }
    ensures done { IfOk result (AreIrreducible by.now spared.now) }
{
    let mut rest = start;
    through(&mut rest, by, spared, first)?;
    let left = rest.into_poly();
    if is_irreducible(&left, by, spared) {
        return Ok(left);
    }
    Err(Beyond)
}

/// The remainder of `f` on division by the members, with coefficients of 512 bits: the normal form in which each term is reduced by the first member
/// whose mark divides its monomial, until no mark divides a monomial. `first` tells which terms are reduced first. It is for where fractions of
/// 128 bits overflow on the way.
///
/// # Errors
///
/// `Beyond` where in a step the working of a product or a difference of coefficients reaches 2^512, or a sum of two exponents reaches 2^31, or if
/// memory runs out.
#[cold]
#[inline(never)]
pub fn wide_remainder(
    alloc: Global,
    f: &Poly,
    by: &[Marked],
    first: &Precedence,
) -> Result<WidePoly, Beyond>
    requires marked { HasSomeWeight by.now }
    requires variables { HaveSameVariables f.now by.now }
    ensures value { IfOk result (IsRemainder by.now f.now) }
    ensures normal_form { IfOk result (IsNormalForm by.now f.now) }
    ensures variables { IfOk result (KeepsVariables f.now) }
{
    let rest = WideDividend::new(alloc, f, by, &None)?;
    worked_off(rest, by, &None, first)
}

/// The remainder on division by the members of a polynomial with wide coefficients, as another reduction leaves it. `first` tells which terms are
/// reduced first.
///
/// # Errors
///
/// `Beyond` where in a step the working of a product or a difference of coefficients reaches 2^512, or a sum of two exponents reaches 2^31, or if
/// memory runs out.
#[cold]
#[inline(never)]
pub fn wide_remainder_again(
    alloc: Global,
    f: &WidePoly,
    by: &[Marked],
    first: &Precedence,
) -> Result<WidePoly, Beyond>
    requires marked { HasSomeWeight by.now }
    requires variables { HaveSameVariables f.now by.now }
    ensures value { IfOk result (IsRemainder by.now f.now) }
    ensures variables { IfOk result (KeepsVariables f.now) }
{
    let rest = WideDividend::of_poly(alloc, f, by, &None)?;
    worked_off(rest, by, &None, first)
}

/// The remainder on division by the members of the S-polynomial of two monic ones of them. `first` tells which terms are reduced first.
///
/// # Errors
///
/// `Beyond` where in making the S-polynomial or in a step the working of a product or a difference of coefficients reaches 2^512, or a sum of two
/// exponents reaches 2^31, or if memory runs out.
#[cold]
#[inline(never)]
pub fn wide_remainder_of_pair(
    alloc: Global,
    b: &Marked,
    c: &Marked,
    by: &[Marked],
    first: &Precedence,
) -> Result<WidePoly, Beyond>
    requires marked { HasSomeWeight by.now }
    requires variables { SharePairMembers by.now b.now c.now }
    ensures { IfOk result (IsPairRemainder by.now b.now c.now) }
{
    let rest = WideDividend::of_pair(alloc, b, c, by)?;
    worked_off(rest, by, &None, first)
}

/// A member with its tail reduced by all of them, in fractions of 512 bits: reduced like a polynomial, but for its marked term. `first` tells which
/// terms are reduced first. The coefficients of the answer have 128 bits.
///
/// # Errors
///
/// `Beyond` where in a step the working of a product or a difference of coefficients reaches 2^512, or a sum of two exponents reaches 2^31; where the
/// numerator or the denominator of a coefficient of the answer exceeds 2^127 - 1 in size; or if memory runs out.
#[cold]
#[inline(never)]
pub fn wide_tail(
    alloc: Global,
    member: &Marked,
    by: &[Marked],
    first: &Precedence,
) -> Result<Marked, Beyond>
    requires member { Contains by.now member.now }
    requires marked { HasSomeWeight by.now }
    requires variables { ShareSomeVariables by.now }
    ensures tail { IfOk result (IsReducedTail by.now member.now) }
    ensures reached { IfOk result (HasTailReached by.now member.now) }
    ensures form { IfOk result (IsKeptForm member.now) }
{
    let spared = Some(member.head().copy());
    let rest = WideDividend::new(alloc, member.poly(), by, &spared)?;
    let left = worked_off(rest, by, &spared, first)?;
    let tail = left.narrowed(alloc)?;
    let index = index_of(tail.terms(), member.head());
    Ok(Marked::mark(tail, index))
}
