//! The S-polynomials of the pairs of a monic set, and their normal forms.
ghost use Rattle.std.specs.Prelude.{◌≡◌, ◌<◌, length, IfOk, IfErr, IfSome, IfNone};
ghost use Rattle.gf_division.specs.NormalForms.{HasSomeWeight};
ghost use Rattle.gf_reduced.specs.Pairs.{MembersShareVariables, IsRemainderAt, IsFirstFailingWith, IsFirstFailing, VanishFrom, DoAllVanish};
ghost use Rattle.gf_reduced.specs.Refusals.{IsPairsRefusal};

use gf_division::{Guide, remainder, s_poly};
use gf_poly::{Marked, Poly, PolyError};
use std::alloc::Global;

/// The indices of two members whose S-polynomial has a nonzero normal form, and that normal form.
#[derive(Drop)]
pub(crate) struct FailingPair {
    pub first: usize,
    pub second: usize,
    pub remainder: Poly,
}

/// The normal form of the S-polynomial of two members; a long reduction takes its terms in the order of the guide.
///
/// # Errors
///
/// `Overflow`, `Exponent`: the operands of an operation of the S-polynomial, or of a step of its reduction by the members, don't fit.
/// `Memory`: memory runs out.
pub(crate) fn remainder_at(
    alloc: Global,
    by: &[Marked],
    i: usize,
    j: usize,
    guide: &mut Guide,
) -> Result<Poly, PolyError>
    requires marked { HasSomeWeight by.now }
    requires variables { MembersShareVariables by.now }
    requires first { i < length by.now }
    requires second { j < length by.now }
    ensures value { IfOk result (IsRemainderAt by.now i j) }
    ensures cause { IfErr result (IsPairsRefusal by.now) }
{
    let f = s_poly(alloc, &by[i], &by[j])?;
    let rest = remainder(alloc, f, by, guide)?;
    Ok(rest)
}

/// The first later member such that its S-polynomial with the member at `i` has a nonzero normal form.
fn failing_with(
    alloc: Global,
    by: &[Marked],
    i: usize,
    guide: &mut Guide,
) -> Result<Option<FailingPair>, PolyError>
    requires marked { HasSomeWeight by.now }
    requires variables { MembersShareVariables by.now }
    requires first { i < length by.now }
    ensures some { IfOk result (λ o. IfSome o (λ p. p.first ≡ i)) }
    ensures pair { IfOk result (λ o. IfSome o (λ p. IsFirstFailingWith by.now i p.second p.remainder)) }
    ensures none { IfOk result (λ o. IfNone o (VanishFrom by.now i)) }
    ensures cause { IfErr result (IsPairsRefusal by.now) }
{
    'later: for j in i + 1..by.len() {
        let rest = remainder_at(alloc, by, i, j, guide)?;
        if !rest.is_zero() {
            return Ok(Some(FailingPair {
                first: i,
                second: j,
                remainder: rest,
            }));
        }
    }
    Ok(None)
}

/// The first pair of members, by the first index and then by the second, whose S-polynomial has a nonzero normal form.
///
/// The members are monic, and some weight sets each mark above the rest. No pair is skipped by a criterion: the first pair is the first by
/// the normal forms themselves.
///
/// # Errors
///
/// `Overflow`, `Exponent`: the operands of an operation of an S-polynomial of two members, or of a step of its reduction by the members,
/// don't fit. `Memory`: memory runs out.
pub(crate) fn first_failing(alloc: Global, by: &[Marked]) -> Result<Option<FailingPair>, PolyError>
    requires marked { HasSomeWeight by.now }
    requires variables { MembersShareVariables by.now }
    ensures pair { IfOk result (λ o. IfSome o (λ p. IsFirstFailing by.now p.first p.second p.remainder)) }
    ensures none { IfOk result (λ o. IfNone o (DoAllVanish by.now)) }
    ensures cause { IfErr result (IsPairsRefusal by.now) }
{
    let mut guide = Guide::unknown(alloc);
    'members: for i in 0..by.len() {
        let found = failing_with(alloc, by, i, &mut guide)?;
        if let Some(pair) = found {
            return Ok(Some(pair));
        }
    }
    Ok(None)
}
