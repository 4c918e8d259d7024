//! The loop of a session.
ghost use Rattle.std.specs.Prelude.{◌≡◌, [], IfOk, IfErr, OnOk};
ghost use Rattle.std.specs.Io.KnownBytes.{Appends};
ghost use Rattle.gf_outside.specs.Moved.{TookAtMost};
ghost use Rattle.gf_session.specs.Sessions.{Trail, IsEnded};
ghost use Rattle.gf_session.specs.Endings.{IsCause, IsReadCalm, IsWithinInput};
ghost use Rattle.gf_session.specs.Moves.{IsGoing, IsGoingBack, IsSessionAt, IsSomeTrail, IsMoveRefusal, IsBackRefusal, IsOfferCause, IsPrompted, IsPromptCause};
ghost use Rattle.gf_session.specs.Moves.{IsTurnTaken, IsTurnCause, IsWriteCalm};

use crate::choice::Choice;
use crate::line::{HearingError, next_line};
use crate::moves::Moves;
use gf_outside::{Sink, Source, WriteFault, write_all};
use std::alloc::Global;

/// Why a session is cut off.
#[derive(Drop)]
pub enum SessionError<E> {
    /// A read failed.
    ReadFault,
    /// One byte more than `MAX_INPUT` was taken.
    InputTooLong,
    /// A write failed, or took nothing.
    WriteFault,
    /// There is no memory for the steps.
    Memory,
    /// A call at a state is refused.
    Refused(E),
}

/// Writes a piece.
fn offer<E, K: Sink>(output: &mut K, piece: &[u8]) -> Result<(), SessionError<E>>
    ensures all { OnOk result (Appends (K.held output.old) (K.held output.new) piece.now) }
    ensures err { IfErr result (IsOfferCause (K.held output.old) (K.held output.new) (K.faults output.old) (K.faults output.new) piece.now) }
    ensures calm { OnOk result (K.faults output.new ≡ K.faults output.old) }
    ensures err_calm { IfErr result (IsWriteCalm (K.faults output.old) (K.faults output.new)) }
{
    match write_all(output, piece) {
        Ok(()) => Ok(()),
        Err(WriteFault) => Err(SessionError::WriteFault),
    }
}

/// Goes on by the choice of a number; whether there is a state across.
fn go_on<M: Moves>(
    moves: &M,
    here: &mut M::State,
    crossed: &mut Vec<M::Step>,
    number: u64,
) -> Result<bool, SessionError<M::Error>>
    requires { M.is_state moves.now here.old }
    ensures ok { IfOk result (IsGoing (M.rules moves.now) (M.joins moves.now) (M.is_state moves.now) here.old crossed.old.items
        number here.new crossed.new.items) }
    ensures err { IfErr result (IsMoveRefusal (M.refuses moves.now here.old)) }
{
    match moves.cross(here, number) {
        Ok(Some((step, there))) => {
            if crossed.push(step).is_err() {
                return Err(SessionError::Memory);
            }
            *here = there;
            Ok(true)
        }
        Ok(None) => Ok(false),
        Err(error) => Err(SessionError::Refused(error)),
    }
}

/// Goes back by the latest step; whether there is one.
fn go_back<M: Moves>(
    moves: &M,
    here: &mut M::State,
    crossed: &mut Vec<M::Step>,
) -> Result<bool, SessionError<M::Error>>
    requires state { M.is_state moves.now here.old }
    requires trail { IsSomeTrail (M.joins moves.now) here.old crossed.old.items }
    ensures ok { IfOk result (IsGoingBack (M.joins moves.now) (M.is_state moves.now) here.old crossed.old.items here.new
        crossed.new.items) }
    ensures err { IfErr result (IsBackRefusal crossed.old.items (M.refuses moves.now here.old)) }
{
    let Some(step) = crossed.pop() else {
        return Ok(false);
    };
    match moves.back(here, &step) {
        Ok(before) => {
            *here = before;
            Ok(true)
        }
        Err(error) => Err(SessionError::Refused(error)),
    }
}

/// Writes what is told of a state, in one piece.
fn prompt<M: Moves, K: Sink>(
    moves: &M,
    here: &M::State,
    behind: usize,
    output: &mut K,
) -> Result<(), SessionError<M::Error>>
    requires { M.is_state moves.now here.now }
    ensures ok { OnOk result (IsPrompted (M.rules moves.now) here.now behind (K.held output.old) (K.held output.new)) }
    ensures err { IfErr result (IsPromptCause (M.rules moves.now) (M.refuses moves.now) here.now behind (K.held output.old)
        (K.held output.new) (K.faults output.old) (K.faults output.new)) }
    ensures calm { OnOk result (K.faults output.new ≡ K.faults output.old) }
    ensures err_calm { IfErr result (IsWriteCalm (K.faults output.old) (K.faults output.new)) }
{
    let text = match moves.tell(here, behind) {
        Ok(text) => text,
        Err(error) => return Err(SessionError::Refused(error)),
    };
    offer(output, &text)
}

/// Answers a line, and goes on or back.
fn turn<M: Moves, K: Sink>(
    moves: &M,
    here: &mut M::State,
    crossed: &mut Vec<M::Step>,
    choice: Choice,
    output: &mut K,
) -> Result<(), SessionError<M::Error>>
    requires state { M.is_state moves.now here.old }
    requires trail { IsSomeTrail (M.joins moves.now) here.old crossed.old.items }
    requires goes_on { choice ≡ Choice.Quit → ⊥ }
    ensures state { OnOk result (M.is_state moves.now here.new) }
    ensures taken { OnOk result ((s : Trail M.State) (asked : Choice) → IsSessionAt (M.joins moves.now) here.old crossed.old.items choice s asked
        → IsTurnTaken (M.rules moves.now) (M.joins moves.now) s asked here.new crossed.new.items (K.held output.old)
        (K.held output.new)) }
    ensures cause { IfErr result (IsTurnCause (M.rules moves.now) (M.joins moves.now) (M.refuses moves.now) here.old crossed.old.items
        choice (K.held output.old) (K.held output.new) (K.faults output.old) (K.faults output.new)) }
    ensures calm { OnOk result (K.faults output.new ≡ K.faults output.old) }
    ensures err_calm { IfErr result (IsWriteCalm (K.faults output.old) (K.faults output.new)) }
{
    match choice {
        Choice::Blank => Ok(()),
        Choice::Across(number) => {
            if go_on(moves, here, crossed, number)? {
                prompt(moves, here, crossed.len(), output)
            } else {
                offer(output, b"no such facet\n")
            }
        }
        Choice::Undo => {
            if go_back(moves, here, crossed)? {
                prompt(moves, here, crossed.len(), output)
            } else {
                offer(output, b"nothing to undo\n")
            }
        }
        Choice::Quit => unreachable!(),
        Choice::Unknown => offer(output, b"not understood\n"),
    }
}

/// Holds a session that begins at a state: takes a line, one byte a call, and answers it before the next one is taken, until `q` or the end
/// of the input.
///
/// A number goes on and tells of the new state, `u` goes back by the latest step and tells of the state before; each answer is offered to
/// the output as one piece. Where a number leads nowhere the answer is `no such facet`, where there is no step to go back by `nothing to
/// undo`, to any other line `not understood`; to an empty line there is none. What is told of `start` is the caller's to write before.
/// After `q` no more is taken than its line feed.
///
/// # Errors
///
/// - `ReadFault` only where a read failed, after at most `MAX_INPUT` bytes; each line before has its answer.
/// - `InputTooLong` exactly where one byte more than `MAX_INPUT` was taken; each line before has its answer.
/// - `WriteFault` only where a write failed or took nothing; a prefix of the answers to all lines that were taken stands.
/// - `Refused` where a call is refused at a state that the last line looks at, and `Memory` where there is none for a step; each line
///   before has its answer, and nothing of the last one stands.
pub fn converse<M: Moves, S: Source, K: Sink>(
    alloc: Global,
    moves: &M,
    start: M::State,
    source: &mut S,
    output: &mut K,
) -> Result<(), SessionError<M::Error>>
    requires { M.is_state moves.now start }
    // It ends at `q` or at the end of the input alone, and each line that was taken before has its answer.
    ensures ended { OnOk result (IsEnded (M.rules moves.now) (record { here = start; before = [] }) (S.left source.old)
        (S.left source.new) (S.given source.old) (S.given source.new) (K.held output.old) (K.held output.new)) }

    // It is cut off for a reason, and each line before that is answered.
    ensures cause { IfErr result (IsCause (M.rules moves.now) (M.refuses moves.now) (record { here = start; before = [] }) (S.left source.old)
        (S.left source.new) (S.given source.old) (S.given source.new) (K.held output.old) (K.held output.new)
        (S.faults source.old) (S.faults source.new) (K.faults output.old) (K.faults output.new)) }

    // No more is taken than an input may have, but where it is too long.
    ensures short { OnOk result (TookAtMost (S.left source.old) (S.left source.new) (S.given source.old) (S.given source.new) 67_108_864) }
    ensures err_short { IfErr result (IsWithinInput (S.left source.old) (S.left source.new) (S.given source.old) (S.given source.new)) }

    // No fault is counted but the one that is answered.
    ensures source_calm { OnOk result (S.faults source.new ≡ S.faults source.old) }
    ensures output_calm { OnOk result (K.faults output.new ≡ K.faults output.old) }
    ensures err_source_calm { IfErr result (IsReadCalm (S.faults source.old) (S.faults source.new)) }
    ensures err_output_calm { IfErr result (IsWriteCalm (K.faults output.old) (K.faults output.new)) }
{
    let mut here = start;
    let mut crossed = Vec::new(alloc);
    let mut taken = 0;
    loop {
        let heard = match next_line(source, taken) {
            Ok(heard) => heard,
            Err(HearingError::ReadFault) => return Err(SessionError::ReadFault),
            Err(HearingError::InputTooLong) => return Err(SessionError::InputTooLong),
        };
        if let Choice::Quit = heard.choice {
            return Ok(());
        }
        turn(moves, &mut here, &mut crossed, heard.choice, output)?;
        if heard.is_last {
            return Ok(());
        }
        taken = heard.taken;
    }
}
