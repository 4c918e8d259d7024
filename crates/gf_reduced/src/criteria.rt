//! The test of a monic set by the pairs that no criterion settles.
ghost use Rattle.std.specs.Prelude.{◌≡◌, ◌≤◌, ◌<◌, false, length, IfOk, IfErr, IsTrue};
ghost use Rattle.gf_exponents_theory.specs.Exponents.{AreCoprime};
ghost use Rattle.gf_poly.specs.Marking.{HaveVariables};
ghost use Rattle.gf_division.specs.NormalForms.{HasSomeWeight};
ghost use Rattle.gf_reduced.specs.Pairs.{MembersShareVariables};
ghost use Rattle.gf_reduced.specs.Criteria.{IsDividedBefore, IsPairExcused, IsPassed, HasFailing, ArePassedFrom, AreAllPassed};
ghost use Rattle.gf_reduced.specs.Refusals.{IsPairsRefusal};

use crate::pairs::remainder_at;
use gf_division::Guide;
use gf_poly::{Marked, Mono, PolyError};
use std::alloc::Global;

/// Whether no variable occurs in both: then the least common multiple is their product.
fn are_coprime(x: &Mono, y: &Mono) -> bool
    requires { length x.now ≡ length y.now }
    ensures { IsTrue result → AreCoprime x.now y.now }
{
    let multiple = x.lcm(y);
    let rest = multiple.quotient(x);
    rest.exponents() == y.exponents()
}

/// Whether the mark of a member before that at `i` divides `x`.
fn is_divided_before(by: &[Marked], i: usize, x: &Mono) -> bool
    requires within { i ≤ length by.now }
    requires variables { HaveVariables (length x.now) by.now }
    ensures { IsTrue result → IsDividedBefore by.now i x.now }
{
    'members: for k in 0..i {
        let member = &by[k];
        if member.head().divides(x) {
            return true;
        }
    }
    false
}

/// Whether a criterion settles the pair of the members at `i` and `j`: their marks are coprime, or the mark of a member before both divides
/// the least common multiple of theirs.
fn is_excused(by: &[Marked], i: usize, j: usize) -> bool
    requires variables { MembersShareVariables by.now }
    requires first { i < length by.now }
    requires second { j < length by.now }
    ensures { IsTrue result → IsPairExcused by.now i j }
{
    let b = &by[i];
    let c = &by[j];
    if are_coprime(b.head(), c.head()) {
        return true;
    }
    let multiple = b.head().lcm(c.head());
    is_divided_before(by, i, &multiple)
}

/// Whether a criterion settles the pair, or its S-polynomial has the normal form zero.
fn is_passed(
    alloc: Global,
    by: &[Marked],
    i: usize,
    j: usize,
    guide: &mut Guide,
) -> Result<bool, PolyError>
    requires marked { HasSomeWeight by.now }
    requires variables { MembersShareVariables by.now }
    requires first { i < length by.now }
    requires second { j < length by.now }
    ensures yes { IfOk result (λ r. IsTrue r → IsPassed by.now i j) }
    ensures no { IfOk result (λ r. r ≡ false → HasFailing by.now) }
    ensures cause { IfErr result (IsPairsRefusal by.now) }
{
    if is_excused(by, i, j) {
        return Ok(true);
    }
    let rest = remainder_at(alloc, by, i, j, guide)?;
    Ok(rest.is_zero())
}

/// Whether each pair of the member at `i` and a later one is settled by a criterion, or its S-polynomial has the normal form zero.
///
/// If the mark of an earlier member divides the mark of this one, it divides the least common multiple of each such pair, and no pair is
/// tested.
fn are_passed_from(
    alloc: Global,
    by: &[Marked],
    i: usize,
    guide: &mut Guide,
) -> Result<bool, PolyError>
    requires marked { HasSomeWeight by.now }
    requires variables { MembersShareVariables by.now }
    requires first { i < length by.now }
    ensures yes { IfOk result (λ r. IsTrue r → ArePassedFrom by.now i) }
    ensures no { IfOk result (λ r. r ≡ false → HasFailing by.now) }
    ensures cause { IfErr result (IsPairsRefusal by.now) }
{
    let member = &by[i];
    if is_divided_before(by, i, member.head()) {
        return Ok(true);
    }
    'later: for j in i + 1..by.len() {
        if !is_passed(alloc, by, i, j, guide)? {
            return Ok(false);
        }
    }
    Ok(true)
}

/// Whether each pair of members is settled by a criterion, or its S-polynomial has the normal form zero. If not, the S-polynomial of some
/// pair has a nonzero normal form.
///
/// The members are monic, and some weight sets each mark above the rest.
///
/// # Errors
///
/// `Overflow`, `Exponent`: the operands of an operation of an S-polynomial of two members, or of a step of its reduction by the members,
/// don't fit.
pub(crate) fn are_all_passed(alloc: Global, by: &[Marked]) -> Result<bool, PolyError>
    requires marked { HasSomeWeight by.now }
    requires variables { MembersShareVariables by.now }
    ensures yes { IfOk result (λ r. IsTrue r → AreAllPassed by.now) }
    ensures no { IfOk result (λ r. r ≡ false → HasFailing by.now) }
    ensures cause { IfErr result (IsPairsRefusal by.now) }
{
    let mut guide = Guide::unknown(alloc);
    'members: for i in 0..by.len() {
        if !are_passed_from(alloc, by, i, &mut guide)? {
            return Ok(false);
        }
    }
    Ok(true)
}
