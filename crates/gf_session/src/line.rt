//! The next line of a source, one byte a call.
//!
//! A line ends at a line feed or at the end of the source. Of a line as much is kept as tells what it asks for, so no line takes memory.
ghost use Rattle.std.specs.Prelude.{◌≡◌, ◌≤◌, ◌+◌, ◌++◌, ◌∷◌, [], take, IfOk, IsErrOf, ℕ};
ghost use Rattle.gf_outside.specs.Faults.{Rose};
ghost use Rattle.gf_session.specs.Choices.{choice_of, narrowed};
ghost use Rattle.gf_session.specs.Lines.{IsLineHeard, IsCut};

use crate::choice::{Choice, choice_of};
use gf_outside::{MAX_INPUT, Source};
use std::marker::Model;

/// How many bytes of a line are kept: one more than a line may have that is understood.
const KEPT: usize = 81;

/// A line, as much of it as is kept.
#[derive(Drop)]
struct InputLine {
    bytes: [u8; KEPT],
    count: usize,
}

impl Model for InputLine {
    ghost use Rattle.std.specs.Prelude.{◌≤◌, List, ℕ, take};

    ghost Value = { List ℕ };

    ghost view = { λ s. take s.count s.bytes };

    ghost invariant = { λ s. s.count ≤ 81 };
}

impl InputLine {
    /// Nothing.
    fn new() -> InputLine
        ensures { result ≡ [] }
    {
        InputLine {
            bytes: [0; KEPT],
            count: 0,
        }
    }

    /// One byte more, where it is kept.
    fn push(&mut self, byte: u8)
        ensures { self.new ≡ take 81 (self.old ++ byte ∷ []) }
    {
        if self.count < KEPT {
            self.bytes[self.count] = byte;
            self.count += 1;
        }
    }

    /// What the line asks for.
    fn choice(&self) -> Choice
        ensures { result ≡ narrowed (choice_of self.now) }
    {
        choice_of(&self.bytes[..self.count])
    }
}

/// A line that was taken.
#[derive(Clone, Copy, Debug)]
pub(crate) struct Heard {
    /// What it asks for.
    pub choice: Choice,
    /// Whether the input has ended with it.
    pub is_last: bool,
    /// How many bytes were taken in all.
    pub taken: usize,
}

/// Why there is no line.
#[derive(Clone, Copy, Debug, PartialEq, Eq)]
pub(crate) enum HearingError {
    /// A read failed.
    ReadFault,
    /// One byte more than `MAX_INPUT` was taken.
    InputTooLong,
}

/// Takes the next line, behind so many bytes. No byte behind its line feed is taken.
///
/// # Errors
///
/// - `ReadFault` only where a read of this call failed, after at most `MAX_INPUT` bytes in all.
/// - `InputTooLong` exactly where one byte more than `MAX_INPUT` was taken in all.
pub(crate) fn next_line<S: Source>(source: &mut S, before: usize) -> Result<Heard, HearingError>
    requires { before ≤ 67_108_864 }
    ensures heard { IfOk result (IsLineHeard (S.left source.old) (S.left source.new) (S.given source.old) (S.given source.new) before) }
    ensures short { IfOk result (λ h. h.taken ≤ 67_108_864) }
    ensures fault { IsErrOf result HearingError.ReadFault → Rose (S.faults source.old) (S.faults source.new) }
    ensures before_fault { IsErrOf result HearingError.ReadFault → (n : ℕ) × (before + n ≤ 67_108_864)
        × IsCut (S.left source.old) (S.left source.new) (S.given source.old) (S.given source.new) n }
    ensures long { IsErrOf result HearingError.InputTooLong → (n : ℕ) × (before + n ≡ 67_108_865)
        × IsCut (S.left source.old) (S.left source.new) (S.given source.old) (S.given source.new) n }
    ensures calm { (IsErrOf result HearingError.ReadFault → ⊥) → S.faults source.new ≡ S.faults source.old }
{
    let mut line = InputLine::new();
    let mut taken = before;
    let mut byte = [0u8; 1];
    loop {
        let Ok(count) = source.read(&mut byte) else {
            return Err(HearingError::ReadFault);
        };
        if count == 0 {
            return Ok(Heard {
                choice: line.choice(),
                is_last: true,
                taken,
            });
        }
        if taken == MAX_INPUT {
            return Err(HearingError::InputTooLong);
        }
        taken += 1;
        if byte[0] == b'\n' {
            return Ok(Heard {
                choice: line.choice(),
                is_last: false,
                taken,
            });
        }
        line.push(byte[0]);
    }
}
