//! The function at the top.
//!
//! It returns whether a job is done or refused; what it read and wrote is in the source, the files and the sinks.
ghost use Rattle.std.specs.Prelude.{◌≡◌, ℕ, List, map, string_bytes, IfErr, OnOk};
ghost use Rattle.gf_frac.specs.declared.refusal.Overflow.{Overflow};
ghost use Rattle.gf_outside.specs.Faults.{Rose};
ghost use Rattle.gf_front.specs.Jobs.{IsJobOf};
ghost use Rattle.gf_front.specs.declared.command_line.Job.{Job};
ghost use Rattle.gf_frame.specs.Seen.{seen, output_seen};
ghost use Rattle.gf_frame.specs.Runs.{AreGivenTexts};
ghost use Rattle.gf_frame.specs.Programs.{IsRunDone, IsRunRefused, RunClauses, IsRefusedWith, AskForNoInput, AskForNoFile};
ghost use Rattle.gfan.specs.Commands.{command_of, IsPastReach};
ghost use Rattle.gfan_plain_theory.specs.PlainInputs.{IsOnBinomials};
ghost use Rattle.gfan.specs.Run.{IsOfSources, IsTold};

use crate::commands::{Work, perform_list, texts_for, work_for, write_text};
use gf_front::{Refusal, Status};
use gf_outside::{Files, Sink, Source};
use gf_waves::Gate;
use gfan_common::refused::Refused;
use gfan_interactive::interactive;
use std::alloc::Global;
use std::thread::Threads;

/// The arguments, the sources of the job, and the output, without the line of a refusal.
fn outcome<R: Threads + Sync, S: Source, K: Sink, F: Files, G: Gate>(
    rt: &R,
    alloc: Global,
    words: &[String],
    input: &mut S,
    output: &mut K,
    files: &mut F,
    gate: &G,
) -> Result<(), Refused>
    ensures done { OnOk result (IsRunDone command_of (map string_bytes words.now)
        (seen (S.left input.old) (S.given input.old) (S.faults input.old) (F.bytes files.old) (F.left files.old)
        (F.given files.old) (F.unopened files.old) (F.faults files.old))
        (seen (S.left input.new) (S.given input.new) (S.faults input.new) (F.bytes files.new) (F.left files.new)
        (F.given files.new) (F.unopened files.new) (F.faults files.new))
        (output_seen (K.held output.old) (K.faults output.old)) (output_seen (K.held output.new) (K.faults output.new))) }
    ensures refused { IfErr result (λ e. IsRunRefused command_of (map string_bytes words.now)
        (seen (S.left input.old) (S.given input.old) (S.faults input.old) (F.bytes files.old) (F.left files.old)
        (F.given files.old) (F.unopened files.old) (F.faults files.old))
        (seen (S.left input.new) (S.given input.new) (S.faults input.new) (F.bytes files.new) (F.left files.new)
        (F.given files.new) (F.unopened files.new) (F.faults files.new))
        (output_seen (K.held output.old) (K.faults output.old)) (output_seen (K.held output.new) (K.faults output.new)) e.refusal) }
    ensures told { IfErr result (IsOfSources (map string_bytes words.now) (F.bytes files.old) (S.left input.old) (S.left input.new) (S.given input.old)
        (S.given input.new)) }
    ensures input_untouched { AskForNoInput command_of (map string_bytes words.now) → input.new ≡ input.old }
    ensures files_untouched { AskForNoFile command_of (map string_bytes words.now) → files.new ≡ files.old }
{
    let job = gf_front::words(alloc, words)?;
    let texts = texts_for(alloc, &job, input, files)?;
    let work = work_for(rt, alloc, &job, &texts)?;
    match work {
        Work::Text(text) => write_text(&text, output),
        Work::List(given) => perform_list(rt, alloc, given, &texts, output, gate),
        Work::Turns(given) => interactive::perform(alloc, &texts[0], given.pairs, input, output),
    }
}

/// Does what the arguments request, and writes a line for a refusal.
///
/// `words` are the arguments after the program's name. The job is the one that `gf_front::words` finds; what it reads and writes is
/// described at its own function. `_fancommonrefinement` reads two of `files`, the first one to its end before the second, and not the
/// input; `_generated` reads nothing; `_bases --within` reads one of `files`, and then the input; `_bases --after` reads one of `files`,
/// after that of the region if one is named, and then the input; `_interactive` reads one, and then takes the input line by line and writes
/// an answer to each line; every other job reads the input to its end, and no file. The output is written in one piece, or by `_bases` in
/// one piece for each basis and one for the end of the list. Several workers may do the jobs of the list of `_bases`, on threads of `rt`:
/// before each of them the gate is called, on the thread that will do it, and no output depends on it; workers may list the bases for
/// `_generated` too, without the gate. `_fancommonrefinement`, `_tropicalintersection` and `_minkowskisum` intersect cones on threads of
/// `rt` too. If the job is done, nothing is written to `faults`. Whether `faults` takes the line of a refusal changes neither the status
/// nor the output.
///
/// # Errors
///
/// - `Usage` if and only if the table of commands has no match for the arguments; nothing is read then.
/// - `OpenFault`: a file that the arguments name can't be opened. `ReadFault`: a read of the input, or of such a file, failed in this call.
///   `InputTooLong` if and only if more than 67,108,864 bytes were read of one of them.
/// - `Syntax`, `TooWide`, `UnknownName`, `TooManyVariables` if and only if the input, or a file, isn't of the form that the job reads: at
///   the first offending position; of two files the first is checked before the second.
/// - `Dimensions`, `NotTermOrder`, `NotHomogeneous`, `ZeroPolynomial` if and only if what was read doesn't meet the conditions of the job,
///   at the first place. `Missing` if and only if a fan file lacks a section, the first one, `BadRay` if one of its rays is in the
///   lineality space, or a number in a cone isn't that of a ray, `BadVersion` if its version is neither 1 nor 2, and `BadCertificate` if it
///   lists an interior vector that isn't inside its cone, or a cone without such a vector.
/// - `Inconsistent`, `NotReduced`, `NotBasis` if and only if a marked set that is read isn't a basis for its marking, or not the reduced
///   one if the job requires that, unless numbers of the work before don't fit: no positive weight gives the marking, with multipliers that
///   show it; or a mark divides a term other than itself, the first such term; or the S-polynomial of two members has a nonzero normal
///   form, with the first such pair and the normal form. `NotAFan` if and only if the cones of such sets, or of a fan file, have no fan,
///   with the first pair whose intersection isn't a face of both, unless numbers of the work don't fit.
/// - `OtherRing`, `NotListed` if and only if the basis after which `_bases --after` continues is in another ring, or isn't in the list,
///   unless numbers of the work before don't fit.
/// - `EmptyRegion` if and only if the vectors of the file of `_bases --within` cut out no region of positive weights, with multipliers that
///   show it, unless numbers of the work before don't fit.
/// - `WideRoot`: they cut out a region, and this is the first entry of its root that is greater than `2^63 - 1`; or it is an entry, greater
///   than `2^63` in absolute value, of a vector at which `_tropicalintersection --basistest` arrives.
/// - `Overflow`, `ExponentOverflow`, `ConeOverflow`, `WideVector`: the operands of an operation that the job may need don't fit; never
///   `Overflow` for `_generated`, nor, if each polynomial is written as a monomial or a difference of two, without numbers, for `_buchberger`,
///   `_bases`, `_saturation`, `_weightvector`, `_groebnercone`, `_tropicalintersection`, `_ismarkedgroebnerbasis`, `_doesidealcontain`.
/// - `PairBudget`: the budget that the arguments give is spent.
/// - `ListLimit`: the limit that the arguments give is reached, and the list continues. It is always reported then, unless numbers of the
///   work don't fit.
/// - `WriteFault`: a write of this call failed, or wrote nothing; a prefix of the output may be written then. Any other refusal leaves
///   nothing in the output, or the beginning of the text of a job that writes as it goes; a session that is cut off has answered each line
///   before the last one, and nothing of the answer to the last one is written.
/// - `Memory`, at any allocation: memory runs out.
pub fn run<R: Threads + Sync, S: Source, K: Sink, E: Sink, F: Files, G: Gate>(
    rt: &R,
    alloc: Global,
    words: &[String],
    input: &mut S,
    output: &mut K,
    faults: &mut E,
    files: &mut F,
    gate: &G,
) -> Status
    // Done: the arguments request a job, and its command is done: its sources were read, and its output was written.
    ensures done { result ≡ Status.Done → IsRunDone command_of (map string_bytes words.now)
        (seen (S.left input.old) (S.given input.old) (S.faults input.old) (F.bytes files.old) (F.left files.old)
        (F.given files.old) (F.unopened files.old) (F.faults files.old))
        (seen (S.left input.new) (S.given input.new) (S.faults input.new) (F.bytes files.new) (F.left files.new)
        (F.given files.new) (F.unopened files.new) (F.faults files.new))
        (output_seen (K.held output.old) (K.faults output.old)) (output_seen (K.held output.new) (K.faults output.new)) }

    // Refused: the table has no match for the arguments, or memory runs out before a job is known, and nothing has changed; or the command
    // of the job is stopped.
    ensures refused { (refusal : Refusal) → result ≡ Status.Refused refusal → IsRunRefused command_of (map string_bytes words.now)
        (seen (S.left input.old) (S.given input.old) (S.faults input.old) (F.bytes files.old) (F.left files.old)
        (F.given files.old) (F.unopened files.old) (F.faults files.old))
        (seen (S.left input.new) (S.given input.new) (S.faults input.new) (F.bytes files.new) (F.left files.new)
        (F.given files.new) (F.unopened files.new) (F.faults files.new))
        (output_seen (K.held output.old) (K.faults output.old)) (output_seen (K.held output.new) (K.faults output.new)) refusal }

    // What follows: which refusal is returned whenever its condition holds, and that the job is done within limits; how much is read, and what
    // is in the output; and that no fault is counted except the one that is returned.
    ensures follows { RunClauses command_of (map string_bytes words.now)
        (seen (S.left input.old) (S.given input.old) (S.faults input.old) (F.bytes files.old) (F.left files.old)
        (F.given files.old) (F.unopened files.old) (F.faults files.old))
        (seen (S.left input.new) (S.given input.new) (S.faults input.new) (F.bytes files.new) (F.left files.new)
        (F.given files.new) (F.unopened files.new) (F.faults files.new))
        (output_seen (K.held output.old) (K.faults output.old)) (output_seen (K.held output.new) (K.faults output.new)) result }

    // Whenever the list of a job continues after its limit, and no operation of the job leaves its limits, this is returned.
    ensures limit_always { (job : Job) (texts : List (List ℕ)) (most : ℕ) → IsJobOf (map string_bytes words.now) job
        → AreGivenTexts (command_of job)
        (seen (S.left input.old) (S.given input.old) (S.faults input.old) (F.bytes files.old) (F.left files.old)
        (F.given files.old) (F.unopened files.old) (F.faults files.old))
        (seen (S.left input.new) (S.given input.new) (S.faults input.new) (F.bytes files.new) (F.left files.new)
        (F.given files.new) (F.unopened files.new) (F.faults files.new))
        texts → IsPastReach job texts most → (Rose (K.faults output.old) (K.faults output.new) → ⊥)
        → IsRefusedWith result (Refusal.ListLimit most) }

    // If each polynomial is written as a monomial or as a difference of two, without numbers, no coefficient overflows in the commands that
    // `IsOnBinomials` lists; nor does one in `_generated`.
    ensures binomials { (job : Job) (texts : List (List ℕ)) (o : Overflow) → IsJobOf (map string_bytes words.now) job
        → AreGivenTexts (command_of job)
        (seen (S.left input.old) (S.given input.old) (S.faults input.old) (F.bytes files.old) (F.left files.old)
        (F.given files.old) (F.unopened files.old) (F.faults files.old))
        (seen (S.left input.new) (S.given input.new) (S.faults input.new) (F.bytes files.new) (F.left files.new)
        (F.given files.new) (F.unopened files.new) (F.faults files.new))
        texts → IsOnBinomials job texts → result ≡ Status.Refused (Refusal.Overflow o) → ⊥ }

    // What no job that the arguments request reads stays the same.
    ensures input_untouched { AskForNoInput command_of (map string_bytes words.now) → input.new ≡ input.old }
    ensures files_untouched { AskForNoFile command_of (map string_bytes words.now) → files.new ≡ files.old }

    // The line of a refusal; none if the job is done.
    ensures told { (refusal : Refusal) → result ≡ Status.Refused refusal → IsTold (map string_bytes words.now) refusal (F.bytes files.old)
        (S.left input.old) (S.left input.new) (S.given input.old) (S.given input.new)
        (E.held faults.old) (E.held faults.new) (E.faults faults.old) (E.faults faults.new) }
    ensures silent { result ≡ Status.Done → faults.new ≡ faults.old }
{
    match outcome(rt, alloc, words, input, output, files, gate) {
        Ok(()) => Status::Done,
        Err(refused) => {
            refused.tell(faults);
            Status::Refused(refused.refusal)
        }
    }
}
