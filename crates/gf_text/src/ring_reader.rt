//! The reading of a ring.
ghost use Rattle.std.specs.Prelude.{◌≡◌, ◌≤◌, ◌∷◌, IfOk, IfErr, length, bytes_eq, [], if◌then◌else◌};
ghost use Rattle.std.specs.List.{list_all};
ghost use Rattle.gf_text.specs.Tokens.{is_name_byte};
ghost use Rattle.gf_text.specs.RingText.{is_name, ring_step, ring_at};
ghost use Rattle.gf_text.specs.Marks.{comma, bracket_end};
ghost use Rattle.gf_text.specs.Given.{ReturnsRead, ring_move};
ghost use Rattle.gf_text.specs.Rings.{IsRingRead, IsRingCause};

use crate::MOST_VARIABLES;
use crate::error::{Cause, TextError, refused_at};
use crate::names::{DifferentNames, Ring};
use crate::tokens::{is_name_byte, word_from};
use std::alloc::{AllocError, Global};

/// What may stand next in a ring: the letter Q, the bracket, a name, or what follows a name.
#[derive(Clone, Copy)]
pub enum RingPlace {
    Letter,
    Bracket,
    Variable,
    Behind,
}

/// What a token does in a ring.
#[derive(Clone, Copy)]
pub enum RingStep {
    Go(RingPlace),
    Done,
    Halt(Cause),
}

/// Whether all bytes are letters, digits and `_`.
fn are_name_bytes(bytes: &[u8]) -> bool
    ensures { result ≡ list_all is_name_byte bytes.now }
{
    bytes.iter().all(|b| is_name_byte(*b))
}

/// A name is a letter, then letters, digits and `_`.
pub(crate) fn is_name(t: &[u8]) -> bool
    ensures { result ≡ is_name t.now }
{
    let [first, rest @ ..] = t else {
        return false;
    };
    first.is_ascii_alphabetic() && are_name_bytes(rest)
}

/// What a token does.
fn step(
    alloc: Global,
    names: &mut DifferentNames,
    place: RingPlace,
    t: &[u8],
) -> Result<RingStep, AllocError>
    ensures { IfOk result (λ m. ring_move m names.new ≡ ring_step (place, names.old) t.now) }
{
    match place {
        RingPlace::Letter => Ok(expect(t, b'Q', RingPlace::Bracket)),
        RingPlace::Bracket => Ok(expect(t, b'[', RingPlace::Variable)),
        RingPlace::Variable => {
            if !is_name(t) {
                return Ok(RingStep::Halt(Cause::Unexpected));
            }
            if names.insert(alloc, t)? {
                Ok(RingStep::Go(RingPlace::Behind))
            } else {
                Ok(RingStep::Halt(Cause::RepeatedName))
            }
        }
        RingPlace::Behind => Ok(behind_name(t)),
    }
}

/// This mark leads to this place.
fn expect(t: &[u8], mark: u8, next: RingPlace) -> RingStep
    ensures { result ≡ (if bytes_eq t.now (mark ∷ []) then RingStep.Go next else RingStep.Halt Cause.Unexpected) }
{
    if t == [mark].as_slice() {
        RingStep::Go(next)
    } else {
        RingStep::Halt(Cause::Unexpected)
    }
}

/// What follows a name.
fn behind_name(t: &[u8]) -> RingStep
    ensures { result ≡ (if bytes_eq t.now comma then RingStep.Go RingPlace.Variable else if bytes_eq t.now bracket_end then RingStep.Done else RingStep.Halt
        Cause.Unexpected) }
{
    if t == b",".as_slice() {
        return RingStep::Go(RingPlace::Variable);
    }
    if t == b"]".as_slice() {
        RingStep::Done
    } else {
        RingStep::Halt(Cause::Unexpected)
    }
}

/// The names of the ring that stands in the source from this place on, however many they are, and the place behind it.
fn names_from(
    alloc: Global,
    source: &[u8],
    from: usize,
) -> Result<(DifferentNames, usize), TextError>
    requires { from ≤ length source.now }
    ensures ring { ReturnsRead (λ x. (x.0, x.1)) result (ring_at source.now from) }
    ensures within { IfOk result (λ x. x.1 ≤ length source.now) }
{
    let mut names = DifferentNames::new(alloc);
    let mut place = RingPlace::Letter;
    let mut at = from;
    loop {
        let Some((start, end)) = word_from(source, at) else {
            return Err(refused_at(source.len(), Cause::Ended));
        };
        match step(alloc, &mut names, place, &source[start..end])? {
            RingStep::Go(next) => place = next,
            RingStep::Done => return Ok((names, end)),
            RingStep::Halt(cause) => return Err(refused_at(start, cause)),
        }
        at = end;
    }
}

/// The ring that stands in the source from this place on, and the place behind it.
pub(crate) fn ring_from(
    alloc: Global,
    source: &[u8],
    from: usize,
) -> Result<(Ring, usize), TextError>
    requires { from ≤ length source.now }
    ensures ok { IfOk result (λ x. IsRingRead (record { source = source.now; at = from }) x.1 x.0) }
    ensures err { IfErr result (IsRingCause (record { source = source.now; at = from })) }
    ensures within { IfOk result (λ x. x.1 ≤ length source.now) }
{
    let (names, end) = names_from(alloc, source, from)?;
    let count = names.len();
    if count > MOST_VARIABLES {
        return Err(TextError::TooManyVariables {
            count: count as u64,
        });
    }
    Ok((Ring::of(names.copied(alloc)?), end))
}
