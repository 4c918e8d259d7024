//! Runs of the program over bytes in memory.
//!
//! What a file or a stream holds no contract can say, so the clauses of `run` speak of bytes that may be unknown. Here the input, the files and the
//! output are bytes in memory, and the contract says what is written for them.
#![tactic(auto)]

ghost use Rattle.std.specs.Prelude.{◌≡◌, map, string_bytes};
ghost use Rattle.gf_front.specs.declared.command_line.Job.{Job};
ghost use Rattle.gf_front.specs.Jobs.{IsJobOf};
ghost use Rattle.gf_frame.specs.Loading.{AreShort};
ghost use Rattle.gf_frame.specs.Commands.{IsAnswered, IsRefusedAtOnce, IsInReach};
ghost use Rattle.gf_frame.specs.Programs.{IsRefusedWith};
ghost use Rattle.gfan.specs.Commands.{command_of};
ghost use Rattle.gfan_on_bytes.specs.OnBytes.{IsOneAnswer, texts_of, IsDoneUnlessMemory, IsLeftOnBytes};

use gf_front::{Refusal, Status};
use gf_outside::{MemFile, MemSink, SureFiles, SureSource};
use gf_waves::FreeGate;
use gfan::run::run;
use std::alloc::Global;
use std::thread::Threads;

/// How a run over bytes ended: its status, what it wrote, and the line that it reported.
#[derive(Drop)]
pub struct RunOnBytes {
    pub status: Status,
    pub output: MemSink,
    pub errors: MemSink,
}

/// Runs the program on the bytes of `input` and of `files`, as `run` of `gfan` does. `words` are those after the program's name. Of files with one name the
/// first is read, and a name that no file has is that of an empty file.
///
/// The clauses are about the jobs that give one answer, which are all but `_interactive`.
///
/// # Errors
///
/// As `run` has them, in the status; `OpenFault` and `ReadFault` never occur, and `WriteFault` only if there is no memory for the output.
pub fn run_on_bytes<R: Threads + Sync>(
    rt: &R,
    alloc: Global,
    words: &[String],
    input: Vec<u8>,
    files: Vec<MemFile>,
) -> RunOnBytes
    // With status 0 the output is what the job writes for these bytes.
    ensures done { (job : Job) → IsJobOf (map string_bytes words.now) job → IsOneAnswer job → result.status ≡ Status.Done
        → IsAnswered (command_of job) (texts_of input.items files.items job) result.output.held }

    // With another status it is the beginning of that text, as far as the job has written it before this refusal; it is empty if the refusal comes before
    // anything is written, is one of the words or the outside, or is for want of memory.
    ensures begun { (job : Job) (refusal : Refusal) → IsJobOf (map string_bytes words.now) job → IsOneAnswer job → result.status ≡ Status.Refused refusal
        → (refusal ≡ Refusal.WriteFault → ⊥)
        → IsLeftOnBytes (command_of job) (texts_of input.items files.items job) result.output.held refusal }

    // If no operation that the job may do exceeds its limits, the status is 0 unless memory runs out.
    ensures complete { (job : Job) → IsJobOf (map string_bytes words.now) job → IsOneAnswer job → AreShort (texts_of input.items files.items job)
        → IsInReach (command_of job) (texts_of input.items files.items job) → IsDoneUnlessMemory result.status }

    // An input that isn't of the form that the job reads is refused so.
    ensures exact { (job : Job) (refusal : Refusal) → IsJobOf (map string_bytes words.now) job → AreShort (texts_of input.items files.items job)
        → IsRefusedAtOnce (command_of job) (texts_of input.items files.items job) refusal → IsRefusedWith result.status refusal }
{
    let mut source = SureSource::new(input);
    let mut output = MemSink::new(alloc, usize::MAX, Vec::new(alloc));
    let mut errors = MemSink::new(alloc, usize::MAX, Vec::new(alloc));
    let mut files = SureFiles::new(files);
    let status = run(
        rt,
        alloc,
        words,
        &mut source,
        &mut output,
        &mut errors,
        &mut files,
        &FreeGate,
    );
    RunOnBytes {
        status,
        output,
        errors,
    }
}
