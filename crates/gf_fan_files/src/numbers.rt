//! The reading of a number on a line of its own, and of the version of a file.
ghost use Rattle.std.specs.Prelude.{◌≡◌, ◌≤◌, length, true, false, MatchOption};
ghost use Rattle.gf_fan_files.specs.Lines.{content_from};
ghost use Rattle.gf_fan_files.specs.NumberText.{number_step};
ghost use Rattle.gf_fan_files.specs.FanText.{the_number, number_to, content_read, is_above, first_value, version_number};
ghost use Rattle.gf_fan_files.specs.Found.{IsReadSo, IsPlaceWithin, tokens_left};
ghost use Rattle.gf_fan_files.specs.Given.{number_move};

use crate::cones::MOST_NUMBER;
use crate::error::{FanFileError, Reason, refused};
use crate::places::{Place, content_at, place_of, text_of, token_at};
use gf_text::{Number, number_of};

/// Before the number, behind it, or behind its line.
#[derive(Clone, Copy)]
pub(crate) enum NumberState {
    Unread,
    Read(u64),
    Finished(u64),
}

/// What a token does.
#[derive(Clone, Copy)]
pub(crate) enum NumberStep {
    Go(NumberState),
    Done(u64),
    Halt(Reason),
}

/// What a token does.
fn step(state: NumberState, t: &[u8]) -> NumberStep
    ensures { number_move result ≡ number_step state t.now }
{
    match state {
        NumberState::Unread => match number_of(t, MOST_NUMBER) {
            Number::None => NumberStep::Halt(Reason::Unexpected),
            Number::Wide => NumberStep::Halt(Reason::TooWide),
            Number::Within(n) => NumberStep::Go(NumberState::Read(n as u64)),
        },
        NumberState::Read(n) => {
            if t == b"\n".as_slice() {
                return NumberStep::Go(NumberState::Finished(n));
            }
            NumberStep::Halt(Reason::Unexpected)
        }
        NumberState::Finished(n) => {
            if t.is_empty() {
                return NumberStep::Done(n);
            }
            NumberStep::Halt(Reason::Unexpected)
        }
    }
}

/// The first number, where it is above the limit but not too wide.
fn above(source: &[u8], place: Place, limit: u64) -> Option<u64>
    requires { IsPlaceWithin source.now place }
    ensures { MatchOption result (is_above limit (tokens_left source.now place) ≡ false) (λ n. (is_above limit (tokens_left source.now place) ≡ true) ×
        (n ≡ first_value (tokens_left source.now place))) }
{
    let Some((token, _)) = token_at(source, place) else {
        return None;
    };
    match number_of(text_of(source, token), MOST_NUMBER) {
        Number::Within(n) if n as u64 > limit => Some(n as u64),
        _ => None,
    }
}

/// The number up to this limit in the content that begins at this place of the source.
pub(crate) fn number_from(source: &[u8], from: usize, limit: u64) -> Result<u64, FanFileError>
    requires { from ≤ length source.now }
    ensures { IsReadSo (λ n. the_number n) result (content_read (length source.now) (number_to limit) (content_from source.now from)) }
{
    let (mut place, _) = content_at(source, from);
    if let Some(count) = above(source, place, limit) {
        return Err(FanFileError::TooManyVariables { count });
    }
    let mut state = NumberState::Unread;
    loop {
        let Some((token, rest)) = token_at(source, place) else {
            return Err(refused(source.len(), source.len(), Reason::Unexpected));
        };
        let taken = step(state, text_of(source, token));
        match taken {
            NumberStep::Go(next) => state = next,
            NumberStep::Done(n) => return Ok(n),
            NumberStep::Halt(reason) => {
                return Err(refused(source.len(), place_of(token), reason));
            }
        }
        place = rest;
    }
}

/// The number that the content which begins at this place of the source begins with, and 0 where it begins with none.
pub(crate) fn version_number(source: &[u8], from: usize) -> u64
    requires { from ≤ length source.now }
    ensures { result ≡ version_number (content_from source.now from) }
{
    let (place, _) = content_at(source, from);
    let Some((token, _)) = token_at(source, place) else {
        return 0;
    };
    match number_of(text_of(source, token), MOST_NUMBER) {
        Number::Within(n) => n as u64,
        _ => 0,
    }
}
