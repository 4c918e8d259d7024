//! Sources of bytes, and the reading of all that a source has left.
//!
//! What is left of a source is known only where the source tells it; how many bytes it has given is
//! always known, up to the last value of a `u64`.
ghost use Rattle.std.specs.Prelude.{◌≡◌, ◌≤◌, ◌+◌, List, ℕ, length, IfOk, OnOk, IsErrOf};
ghost use Rattle.std.specs.declared.option.Option.{Option};
ghost use Rattle.std.specs.Io.{ReadsAtMost};
ghost use Rattle.std.specs.Io.KnownBytes.{ReadConsumes, IsAtEnd};
ghost use Rattle.gf_outside.specs.Faults.{HasCause, Rose};
ghost use Rattle.gf_outside.specs.Moved.{CountsMoved, Took, TookExactly, TookAtMost};

use crate::{Failed, InputError};
use std::alloc::Global;

/// The most bytes that an input may have.
pub const MAX_INPUT: usize = 67_108_864;

/// The most bytes that are asked for at once.
pub(crate) const CHUNK: usize = 16_384;

/// What gives bytes, and counts its faults.
pub trait Source {
    /// The bytes that are left, where the source tells them.
    ghost left: { Self → Option (List ℕ) };

    /// How many bytes it has given, up to the last value of a `u64`.
    ghost given: { Self → ℕ };

    /// How many of its reads have failed, up to the last value of a `u64`.
    ghost faults: { Self → ℕ };

    /// Gives bytes at the front of `into`, and answers how many.
    ///
    /// It answers 0 for a buffer that isn't empty only at the end.
    ///
    /// # Errors
    ///
    /// `Failed` only where the count of faults rose; nothing was taken then. The count rises nowhere else.
    fn read(&mut self, into: &mut [u8]) -> Result<usize, Failed>
        ensures bound { ReadsAtMost result into.new }
        ensures bytes { ReadConsumes (left self.old) (left self.new) result into.new }
        ensures count { CountsMoved (given self.old) (given self.new) result }
        ensures cause { HasCause (faults self.old) (faults self.new) result }
        ensures calm { OnOk result (faults self.new ≡ faults self.old) };
}

/// Reads all bytes that are left of `source`, at most `MAX_INPUT`.
///
/// # Errors
///
/// - `ReadFault` only where a read of this call failed, after at most `MAX_INPUT` bytes.
/// - `InputTooLong` exactly where one byte more than `MAX_INPUT` was taken.
/// - `Memory` at any growth of the result, after at most `MAX_INPUT` bytes.
///
/// What was taken before a refusal is gone.
pub fn read_all<S: Source>(alloc: Global, source: &mut S) -> Result<Vec<u8>, InputError>
    // All that was left, and nothing is left.
    ensures all { IfOk result (λ all. Took (S.left source.old) (S.left source.new)
        (S.given source.old) (S.given source.new) all.items) }
    ensures end { OnOk result (IsAtEnd (S.left source.new)) }
    ensures short { IfOk result (λ all. length all.items ≤ 67_108_864) }

    // Too long exactly where one byte more than the limit was taken.
    ensures long { IsErrOf result InputError.InputTooLong → TookExactly (S.left source.old)
        (S.left source.new) (S.given source.old) (S.given source.new) 67_108_865 }
    ensures before_fault { IsErrOf result InputError.ReadFault → TookAtMost (S.left source.old)
        (S.left source.new) (S.given source.old) (S.given source.new) 67_108_864 }
    ensures before_memory { IsErrOf result InputError.Memory → TookAtMost (S.left source.old)
        (S.left source.new) (S.given source.old) (S.given source.new) 67_108_864 }

    // A fault has its cause, nothing is opened, and the count never falls.
    // The count rises by one at a fault, and stands still at every other answer.
    ensures fault { IsErrOf result InputError.ReadFault
        → Rose (S.faults source.old) (S.faults source.new) }
    ensures opens_nothing { IsErrOf result InputError.OpenFault → ⊥ }
    ensures later { S.faults source.old ≤ S.faults source.new }
    ensures once { S.faults source.new ≤ S.faults source.old + 1 }
    ensures calm { (IsErrOf result InputError.ReadFault → ⊥)
        → S.faults source.new ≡ S.faults source.old }
{
    let mut all = Vec::new(alloc);
    let mut buffer = [0u8; CHUNK];
    loop {
        let room = CHUNK.min(MAX_INPUT + 1 - all.len());
        let Ok(count) = source.read(&mut buffer[..room]) else {
            return Err(InputError::ReadFault);
        };
        if count == 0 {
            return Ok(all);
        }
        if count > MAX_INPUT - all.len() {
            return Err(InputError::InputTooLong);
        }
        if all.extend_from_slice(&buffer[..count]).is_err() {
            return Err(InputError::Memory);
        }
    }
}
