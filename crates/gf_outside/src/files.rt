//! Files that are read by their names, and the reading of a whole file.
//!
//! What a file holds is known only where the files tell it. One file at a time is chosen, and read as a source is.
ghost use Rattle.std.specs.Prelude.{◌≡◌, ◌≤◌, ◌+◌, ◌⊎◌, [], List, ℕ, length, Some, IfOk, OnOk, OnErr, IsErrOf};
ghost use Rattle.std.specs.declared.option.Option.{Option};
ghost use Rattle.std.specs.Io.{ReadsAtMost};
ghost use Rattle.std.specs.Io.KnownBytes.{ReadConsumes, IsAtEnd, Keeps};
ghost use Rattle.gf_outside.specs.Faults.{HasCause, Rose};
ghost use Rattle.gf_outside.specs.Moved.{CountsMoved, Took, TookExactly, TookAtMost};
ghost use Rattle.gf_outside.specs.Moved.{NothingIsChosen};

use crate::source::CHUNK;
use crate::{Failed, InputError, MAX_INPUT, OpenError};
use std::alloc::Global;

/// What gives the bytes of files by their names, and counts its faults: failed openings and failed reads.
pub trait Files {
    /// The bytes of each name, where the files tell them.
    ghost bytes: { Self → List ℕ → Option (List ℕ) };

    /// The bytes that are left of the chosen file, where the files tell them; none where none is chosen.
    ghost left: { Self → Option (List ℕ) };

    /// How many bytes were given, of all files together, up to the last value of a `u64`.
    ghost given: { Self → ℕ };

    /// How many openings have failed, up to the last value of a `u64`.
    ghost unopened: { Self → ℕ };

    /// How many reads have failed, up to the last value of a `u64`.
    ghost faults: { Self → ℕ };

    /// Chooses the file of this name, to be read from its beginning.
    ///
    /// # Errors
    ///
    /// `Failed` only where the count of failed openings rose, which rises nowhere else. After an error no file is chosen.
    fn choose(&mut self, name: &str) -> Result<(), OpenError>
        ensures chosen { OnOk result (Keeps (bytes self.old name.now) (left self.new)) }
        ensures none { OnErr result (left self.new ≡ Some []) }
        ensures kept { bytes self.new ≡ bytes self.old }
        ensures gives_nothing { given self.new ≡ given self.old }
        ensures later { unopened self.old ≤ unopened self.new }
        ensures once { unopened self.new ≤ unopened self.old + 1 }
        ensures cause { IsErrOf result OpenError.Failed → Rose (unopened self.old) (unopened self.new) }
        ensures calm { (IsErrOf result OpenError.Failed → ⊥) → unopened self.new ≡ unopened self.old }
        ensures reads_nothing { faults self.new ≡ faults self.old };

    /// Gives bytes of the chosen file at the front of `into`, and answers how many; 0 where none is chosen.
    ///
    /// It answers 0 for a buffer that isn't empty only at the end of the file.
    ///
    /// # Errors
    ///
    /// `Failed` only where the count of failed reads rose, which rises nowhere else; nothing was taken then.
    fn read(&mut self, into: &mut [u8]) -> Result<usize, Failed>
        ensures bound { ReadsAtMost result into.new }
        ensures moved { ReadConsumes (left self.old) (left self.new) result into.new }
        ensures count { CountsMoved (given self.old) (given self.new) result }
        ensures kept { bytes self.new ≡ bytes self.old }
        ensures cause { HasCause (faults self.old) (faults self.new) result }
        ensures calm { OnOk result (faults self.new ≡ faults self.old) }
        ensures opens_nothing { unopened self.new ≡ unopened self.old };
}

/// Reads all bytes of the file of this name, at most `MAX_INPUT`.
///
/// # Errors
///
/// - `OpenFault` only where the opening failed; nothing was read then.
/// - `ReadFault` only where a read of this call failed, after at most `MAX_INPUT` bytes.
/// - `InputTooLong` exactly where one byte more than `MAX_INPUT` was taken.
/// - `Memory` at the opening or at any growth of the result, after at most `MAX_INPUT` bytes.
///
/// What was taken before a refusal is gone.
pub fn load<F: Files>(alloc: Global, files: &mut F, name: &str) -> Result<Vec<u8>, InputError>
    // All bytes of the file, and nothing is left of it.
    ensures whole { IfOk result (λ all. Keeps (F.bytes files.old name.now) (Some all.items)) }
    ensures all { IfOk result (λ all. Took (F.bytes files.old name.now) (F.left files.new)
        (F.given files.old) (F.given files.new) all.items) }
    ensures end { OnOk result (IsAtEnd (F.left files.new)) }
    ensures short { IfOk result (λ all. length all.items ≤ 67_108_864) }

    // Too long exactly where one byte more than the limit was taken.
    ensures long { IsErrOf result InputError.InputTooLong → TookExactly (F.bytes files.old name.now)
        (F.left files.new) (F.given files.old) (F.given files.new) 67_108_865 }
    ensures before_fault { IsErrOf result InputError.ReadFault → TookAtMost (F.bytes files.old name.now)
        (F.left files.new) (F.given files.old) (F.given files.new) 67_108_864 }
    ensures before_memory { IsErrOf result InputError.Memory → NothingIsChosen (F.left files.new)
        (F.given files.old) (F.given files.new) ⊎ TookAtMost (F.bytes files.old name.now)
        (F.left files.new) (F.given files.old) (F.given files.new) 67_108_864 }

    // What isn't opened isn't read.
    ensures unopened { IsErrOf result InputError.OpenFault → NothingIsChosen (F.left files.new)
        (F.given files.old) (F.given files.new) }

    // A fault has its cause, and no count falls. Each count rises by one at its fault, and stands still at every other answer.
    ensures open_fault { IsErrOf result InputError.OpenFault → Rose (F.unopened files.old) (F.unopened files.new) }
    ensures open_later { F.unopened files.old ≤ F.unopened files.new }
    ensures open_once { F.unopened files.new ≤ F.unopened files.old + 1 }
    ensures open_calm { (IsErrOf result InputError.OpenFault → ⊥) → F.unopened files.new ≡ F.unopened files.old }
    ensures fault { IsErrOf result InputError.ReadFault → Rose (F.faults files.old) (F.faults files.new) }
    ensures later { F.faults files.old ≤ F.faults files.new }
    ensures once { F.faults files.new ≤ F.faults files.old + 1 }
    ensures calm { (IsErrOf result InputError.ReadFault → ⊥) → F.faults files.new ≡ F.faults files.old }

    // The files are as before.
    ensures kept { F.bytes files.new ≡ F.bytes files.old }
{
    match files.choose(name) {
        Ok(()) => {}
        Err(OpenError::Failed) => return Err(InputError::OpenFault),
        Err(OpenError::Memory) => return Err(InputError::Memory),
    }
    chosen(alloc, files)
}

/// Reads all bytes that are left of the chosen file, at most `MAX_INPUT`.
fn chosen<F: Files>(alloc: Global, files: &mut F) -> Result<Vec<u8>, InputError>
    ensures all { IfOk result (λ all. Took (F.left files.old) (F.left files.new)
        (F.given files.old) (F.given files.new) all.items) }
    ensures end { OnOk result (IsAtEnd (F.left files.new)) }
    ensures short { IfOk result (λ all. length all.items ≤ 67_108_864) }
    ensures long { IsErrOf result InputError.InputTooLong → TookExactly (F.left files.old)
        (F.left files.new) (F.given files.old) (F.given files.new) 67_108_865 }
    ensures before_fault { IsErrOf result InputError.ReadFault → TookAtMost (F.left files.old)
        (F.left files.new) (F.given files.old) (F.given files.new) 67_108_864 }
    ensures before_memory { IsErrOf result InputError.Memory → TookAtMost (F.left files.old)
        (F.left files.new) (F.given files.old) (F.given files.new) 67_108_864 }
    ensures fault { IsErrOf result InputError.ReadFault
        → Rose (F.faults files.old) (F.faults files.new) }
    ensures later { F.faults files.old ≤ F.faults files.new }
    ensures once { F.faults files.new ≤ F.faults files.old + 1 }
    ensures calm { (IsErrOf result InputError.ReadFault → ⊥)
        → F.faults files.new ≡ F.faults files.old }
    ensures opens_nothing { IsErrOf result InputError.OpenFault → ⊥ }
    ensures unopened { F.unopened files.new ≡ F.unopened files.old }
    ensures kept { F.bytes files.new ≡ F.bytes files.old }
{
    let mut all = Vec::new(alloc);
    let mut buffer = [0u8; CHUNK];
    loop {
        let room = CHUNK.min(MAX_INPUT + 1 - all.len());
        let Ok(count) = files.read(&mut buffer[..room]) else {
            return Err(InputError::ReadFault);
        };
        if count == 0 {
            return Ok(all);
        }
        if count > MAX_INPUT - all.len() {
            return Err(InputError::InputTooLong);
        }
        if all.extend_from_slice(&buffer[..count]).is_err() {
            return Err(InputError::Memory);
        }
    }
}
