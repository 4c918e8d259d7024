//! Two runs that write one text.
ghost use Rattle.std.specs.Prelude.{◌≡◌, ℕ, Bool, map, string_bytes, IfOk, IfSome};
ghost use Rattle.gf_front.specs.Jobs.{IsJobOf};
ghost use Rattle.gfan_lists.specs.declared.bases.ListOptions.{ListOptions};
ghost use Rattle.gfan.specs.Commands.{list_job, IsAnswerTo};

use gf_front::Status;
use gf_outside::{MemSink, SureFiles, SureSink, SureSource};
use gf_waves::Gate;
use gfan::run::run;
use std::alloc::{AllocError, Global};
use std::thread::Threads;

/// What a run of the words writes for an input in memory, without files; none where it is refused.
fn written<R: Threads + Sync, G: Gate>(
    rt: &R,
    alloc: Global,
    words: &[String],
    input: &[u8],
    gate: &G,
) -> Result<Option<Vec<u8>>, AllocError>
    ensures { IfOk result (λ r. IfSome r (λ text. (from_basis : Bool) (options : ListOptions) (workers : ℕ)
        → IsJobOf (map string_bytes words.now) (list_job from_basis options workers)
        → IsAnswerTo (list_job from_basis options workers) input.now text.items)) }
{
    let mut source = SureSource::new(input.to_vec(alloc)?);
    let mut output = MemSink::new(alloc, usize::MAX, Vec::new(alloc));
    let mut faults = SureSink;
    let mut files = SureFiles::new(Vec::new(alloc));
    match run(
        rt,
        alloc,
        words,
        &mut source,
        &mut output,
        &mut faults,
        &mut files,
        gate,
    ) {
        Status::Done => Ok(Some(output.bytes().to_vec(alloc)?)),
        Status::Refused(_) => Ok(None),
    }
}

/// What runs of two lists of words write for one input in memory; none where one of them is refused.
///
/// They write the same bytes where the words ask for one list of bases, for all positive weights, by numbers of workers that may differ.
///
/// # Errors
///
/// Want of memory outside the runs.
pub fn written_twice<R: Threads + Sync, G: Gate>(
    rt: &R,
    alloc: Global,
    one: &[String],
    other: &[String],
    input: &[u8],
    gate: &G,
) -> Result<Option<(Vec<u8>, Vec<u8>)>, AllocError>
    ensures { IfOk result (λ r. IfSome r (λ texts. (from_basis : Bool) (options : ListOptions) (workers others : ℕ)
        → IsJobOf (map string_bytes one.now) (list_job from_basis options workers)
        → IsJobOf (map string_bytes other.now) (list_job from_basis options others) → texts.0.items ≡ texts.1.items)) }
{
    let Some(first) = written(rt, alloc, one, input, gate)? else {
        return Ok(None);
    };
    let Some(second) = written(rt, alloc, other, input, gate)? else {
        return Ok(None);
    };
    Ok(Some((first, second)))
}
