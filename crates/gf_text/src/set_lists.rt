//! The reading of lists of sets.
ghost use Rattle.std.specs.Prelude.{◌≤◌, [], ℕ, IfOk, IfErr, OnOk, length};
ghost use Rattle.gf_text.specs.SetLists.{HasSetSums, AddsSet, AreAllIn, sets_in, sets_first, sets_inside, sets_from, sets_at, AreListSums, AreSetsRead};
ghost use Rattle.gf_text.specs.SetLists.{IsSetsCause};
ghost use Rattle.gf_text.specs.ListText.{opening};
ghost use Rattle.gf_text.specs.Given.{Fails};

use crate::combine::Sums;
use crate::error::{Cause, TextError, refused_at};
use crate::names::Ring;
use crate::set_reader::sums_from;
use crate::tokens::{first_token_from, is_mark};
use crate::written::Written;
use gf_frac::Overflow;
use gf_poly::ExponentOverflow;
use std::alloc::{AllocError, Global};

/// What came of the sets of a list so far: what is left of each; or the first sum of coefficients that leaves its range; or
/// the first exponent that passes its limit, whatever sums leave their range before it.
#[derive(Drop)]
pub enum SetSums {
    Fit(Vec<Vec<Written>>),
    Overflow(Overflow),
    Exponent(ExponentOverflow),
}

impl SetSums {
    /// No sets.
    fn new(alloc: Global) -> SetSums
        ensures { (n : ℕ) → HasSetSums n [] result }
    {
        SetSums::Fit(Vec::new(alloc))
    }

    /// Adds what came of a set as the last one.
    fn add(&mut self, next: Sums) -> Result<(), AllocError>
        ensures { OnOk result (AddsSet next self.old self.new) }
    {
        match self {
            SetSums::Fit(sets) => match next {
                Sums::Fit(written) => sets.push(written)?,
                Sums::Overflow(overflow) => *self = SetSums::Overflow(overflow),
                Sums::Exponent(overflow) => *self = SetSums::Exponent(overflow),
            },
            SetSums::Overflow(_) => {
                if let Sums::Exponent(overflow) = next {
                    *self = SetSums::Exponent(overflow);
                    return Ok(());
                }
            }
            SetSums::Exponent(_) => {}
        }
        Ok(())
    }
}

/// What came of the sets of a list from its first item on, which stands in the source from this place on, and the place
/// behind the list.
fn items_from(
    alloc: Global,
    ring: &Ring,
    source: &[u8],
    from: usize,
) -> Result<(SetSums, usize), TextError>
    requires { from ≤ length source.now }
    ensures ok { IfOk result (λ x. AreListSums ring.now sets_inside (record { source = source.now; at = from }) x.1 x.0) }
    ensures err { IfErr result (λ e. Fails e (sets_from ring.now sets_inside source.now from)) }
    ensures within { IfOk result (λ x. x.1 ≤ length source.now) }
{
    let mut all = SetSums::new(alloc);
    let mut at = from;
    loop {
        let (sums, end) = sums_from(alloc, ring, source, at)?;
        all.add(sums)?;
        let Some((start, behind)) = first_token_from(ring, source, end) else {
            return Err(refused_at(source.len(), Cause::Ended));
        };
        let token = &source[start..behind];
        if !is_mark(token, b',') {
            if is_mark(token, b'}') {
                return Ok((all, behind));
            }
            return Err(refused_at(start, Cause::Unexpected));
        }
        at = behind;
    }
}

/// What came of the sets of a list from behind its first brace on, and the place behind the list.
fn behind_brace(
    alloc: Global,
    ring: &Ring,
    source: &[u8],
    from: usize,
) -> Result<(SetSums, usize), TextError>
    requires { from ≤ length source.now }
    ensures ok { IfOk result (λ x. AreListSums ring.now sets_first (record { source = source.now; at = from }) x.1 x.0) }
    ensures err { IfErr result (λ e. Fails e (sets_from ring.now sets_first source.now from)) }
    ensures within { IfOk result (λ x. x.1 ≤ length source.now) }
{
    let Some((start, end)) = first_token_from(ring, source, from) else {
        return Err(refused_at(source.len(), Cause::Ended));
    };
    if is_mark(&source[start..end], b'}') {
        return Ok((SetSums::new(alloc), end));
    }
    let (sums, end) = items_from(alloc, ring, source, from)?;
    Ok((sums, end))
}

/// What came of the sets of the list that stands in the source from this place on, and the place behind it.
fn list_from(
    alloc: Global,
    ring: &Ring,
    source: &[u8],
    from: usize,
) -> Result<(SetSums, usize), TextError>
    requires { from ≤ length source.now }
    ensures ok { IfOk result (λ x. AreListSums ring.now (opening, []) (record { source = source.now; at = from }) x.1 x.0) }
    ensures err { IfErr result (λ e. Fails e (sets_at ring.now source.now from)) }
    ensures within { IfOk result (λ x. x.1 ≤ length source.now) }
{
    let Some((start, end)) = first_token_from(ring, source, from) else {
        return Err(refused_at(source.len(), Cause::Ended));
    };
    if !is_mark(&source[start..end], b'{') {
        return Err(refused_at(start, Cause::Unexpected));
    }
    let (sums, end) = behind_brace(alloc, ring, source, end)?;
    Ok((sums, end))
}

/// The sets of the list that stands in the source from this place on, and the place behind it.
pub(crate) fn written_sets_at(
    alloc: Global,
    ring: &Ring,
    source: &[u8],
    from: usize,
) -> Result<(Vec<Vec<Written>>, usize), TextError>
    requires { from ≤ length source.now }
    ensures ok { IfOk result (λ x. AreSetsRead ring.now (record { source = source.now; at = from }) x.1 (sets_in x.0.items)) }
    ensures variables { IfOk result (λ x. AreAllIn (length ring.now) (sets_in x.0.items)) }
    ensures err { IfErr result (IsSetsCause ring.now (record { source = source.now; at = from })) }
    ensures within { IfOk result (λ x. x.1 ≤ length source.now) }
{
    // The proof needs that the names are those of a ring.
    let _names = ring.names();
    let (sums, end) = list_from(alloc, ring, source, from)?;
    match sums {
        SetSums::Fit(sets) => Ok((sets, end)),
        SetSums::Overflow(overflow) => Err(TextError::Overflow(overflow)),
        SetSums::Exponent(overflow) => Err(TextError::Exponent(overflow)),
    }
}
