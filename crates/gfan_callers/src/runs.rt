//! Callers of `run`.
ghost use Rattle.std.specs.Prelude.{◌≡◌, ◌↔◌, ℕ, List, map, string_bytes, IfSome, IsTrue};
ghost use Rattle.gf_outside.specs.Faults.{Rose};
ghost use Rattle.gf_front.specs.Jobs.{IsMatched, IsJobOf};
ghost use Rattle.gf_front.specs.declared.command_line.Job.{Job};
ghost use Rattle.gf_frame.specs.Programs.{IsRefusedWith};
ghost use Rattle.gfan_common.specs.Refused.{WrittenAsFar};
ghost use Rattle.gfan_fans.specs.CommonRefinement.{IsRefusedInWords};
ghost use Rattle.gfan_callers.specs.Told.{IsLineOf, usage_line};
ghost use Rattle.gfan_callers.specs.TwoFiles.{HoldTwo};

use gf_front::{Job, Refusal, Status};
use gf_outside::{Files, Sink, Source};
use gf_waves::Gate;
use gfan::run::run;
use std::alloc::Global;
use std::thread::Threads;

/// The status of a process that runs the words, from 0 to 7, with what stands in `faults` then.
///
/// It is 0 where all is done, and nothing is told. It is that of the refusal whose line is told otherwise; 2 only where the table of commands has no match for
/// the words, and any other but 7, want of memory, only where it has one.
pub fn code_of_run<R: Threads + Sync, S: Source, K: Sink, E: Sink, F: Files, G: Gate>(
    rt: &R,
    alloc: Global,
    words: &[String],
    input: &mut S,
    output: &mut K,
    faults: &mut E,
    files: &mut F,
    gate: &G,
) -> u8
    ensures usage { result ≡ 2 → IsMatched (map string_bytes words.now) → ⊥ }
    ensures matched { (result ≡ 2 → ⊥) → (result ≡ 7 → ⊥) → IsMatched (map string_bytes words.now) }
    ensures told { (result ≡ 0 → ⊥) → IsLineOf result (E.held faults.old) (E.held faults.new) (E.faults faults.old) (E.faults faults.new) }
    ensures usage_told { result ≡ 2 → WrittenAsFar (E.held faults.old) (E.held faults.new) (E.faults faults.old) (E.faults faults.new) usage_line }
    ensures silent { result ≡ 0 → faults.new ≡ faults.old }
{
    run(rt, alloc, words, input, output, faults, files, gate).code()
}

/// Whether the words ask for a job, as a run of them shows; none where there was no memory for it.
pub fn asks_for_a_job<R: Threads + Sync, S: Source, K: Sink, E: Sink, F: Files, G: Gate>(
    rt: &R,
    alloc: Global,
    words: &[String],
    input: &mut S,
    output: &mut K,
    faults: &mut E,
    files: &mut F,
    gate: &G,
) -> Option<bool>
    ensures { IfSome result (λ asks. IsTrue asks ↔ IsMatched (map string_bytes words.now)) }
{
    let code = code_of_run(rt, alloc, words, input, output, faults, files, gate);
    if code == 7 {
        return None;
    }
    Some(code != 2)
}

/// How a run of the words ends, which may ask for the common refinement of the fans of two files.
///
/// The first file is judged first: a fault that its text has is told whatever the second one holds.
pub fn refined_in_order<R: Threads + Sync, S: Source, K: Sink, E: Sink, F: Files, G: Gate>(
    rt: &R,
    alloc: Global,
    words: &[String],
    input: &mut S,
    output: &mut K,
    faults: &mut E,
    files: &mut F,
    gate: &G,
) -> Status
    ensures { (first second a b : List ℕ) (refusal : Refusal)
        → IsJobOf (map string_bytes words.now) (Job.FanCommonRefinement (record { first = first; second = second }))
        → HoldTwo (F.bytes files.old) first second a b
        → (Rose (F.unopened files.old) (F.unopened files.new) → ⊥) → (Rose (F.faults files.old) (F.faults files.new) → ⊥)
        → IsRefusedInWords a refusal → IsRefusedWith result refusal }
{
    run(rt, alloc, words, input, output, faults, files, gate)
}
