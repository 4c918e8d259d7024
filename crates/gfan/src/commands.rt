//! The work of the program for each job.
ghost use Rattle.std.specs.Prelude.{◌≡◌, [], ◌∷◌, ℕ, List, length, IfOk, IfErr, OnOk, MatchResult};
ghost use Rattle.gf_front.specs.Jobs.{HasNumbersInRange};
ghost use Rattle.gf_front.specs.declared.command_line.Job.{Job};
ghost use Rattle.gf_frame.specs.Seen.{seen, output_seen};
ghost use Rattle.gf_frame.specs.Loading.{AreLoaded, AreUnloaded, HaveInput, HaveFile};
ghost use Rattle.gf_frame.specs.Origins.{texts_of};
ghost use Rattle.gf_frame.specs.Commands.{WritesOnce, IsAnswered, IsRefusedOn};
ghost use Rattle.gf_frame.specs.Runs.{IsDoneOn, IsStoppedOn};
ghost use Rattle.gfan_common.specs.Refused.{IsUnnamed, IsOfSource};
ghost use Rattle.gfan.specs.Commands.{plain_command, command_of};
ghost use Rattle.gfan.specs.Work.{as_text, IsWorkFor, IsWorkRefused};
ghost use Rattle.gfan.specs.Run.{IsOfLoaded};

use gf_frame::{LoadFrom, load_all};
use gf_front::{BasesOptions, InteractiveOptions, Job, PlainCommand, Refusal};
use gf_outside::{Files, Sink, Source, WriteFault, write_all};
use gf_waves::Gate;
use gfan_common::refused::Refused;
use gfan_plain_theory::fans::tropical::TropicalFan;
use gfan_plain_theory::fans::{
    common_refinement, groebner_cone, homogeneity_space, migrate_fan, to_polyhedral_fan, tropical,
    tropical_intersection,
};
use gfan_plain_theory::lists::list;
use gfan_plain_theory::lists::list::ListJob;
use gfan_plain_theory::sets::{
    buchberger, containment, homogenize, initial_forms, leading_terms, mark_polynomial_set, marked,
    polynomial_set_union, saturation, stats, weight_vector,
};
use std::alloc::Global;
use std::thread::Threads;

/// The texts of the sources of the job, each read to its end before the next: of its files, of the input, or of one or two files and then
/// of the input.
///
/// # Errors
///
/// - `OpenFault`: a file can't be opened. `ReadFault`: a read fails.
/// - `InputTooLong`: a source has more than 67,108,864 bytes.
/// - `Memory`: memory runs out.
pub(crate) fn texts_for<S: Source, F: Files>(
    alloc: Global,
    job: &Job,
    input: &mut S,
    files: &mut F,
) -> Result<Vec<Vec<u8>>, Refusal>
    ensures loaded { IfOk result (λ texts. AreLoaded (command_of job.now).reads
        (seen (S.left input.old) (S.given input.old) (S.faults input.old) (F.bytes files.old) (F.left files.old)
        (F.given files.old) (F.unopened files.old) (F.faults files.old))
        (seen (S.left input.new) (S.given input.new) (S.faults input.new) (F.bytes files.new) (F.left files.new)
        (F.given files.new) (F.unopened files.new) (F.faults files.new))
        (texts_of texts.items)) }
    ensures unloaded { IfErr result (AreUnloaded (command_of job.now).reads
        (seen (S.left input.old) (S.given input.old) (S.faults input.old) (F.bytes files.old) (F.left files.old)
        (F.given files.old) (F.unopened files.old) (F.faults files.old))
        (seen (S.left input.new) (S.given input.new) (S.faults input.new) (F.bytes files.new) (F.left files.new)
        (F.given files.new) (F.unopened files.new) (F.faults files.new))) }

    // What the job doesn't read is as before.
    ensures input_kept { (HaveInput (command_of job.now).reads → ⊥) → input.new ≡ input.old }
    ensures files_kept { (HaveFile (command_of job.now).reads → ⊥) → files.new ≡ files.old }
{
    match job {
        Job::FanCommonRefinement(given) => {
            let two = [
                LoadFrom::File(given.first.as_str()),
                LoadFrom::File(given.second.as_str()),
            ];
            load_all(alloc, &two, input, files)
        }
        Job::Bases(given) => list::load(alloc, given, input, files),
        Job::Generated(_) => load_all(alloc, &[], input, files),
        Job::Interactive(given) => {
            load_all(alloc, &[LoadFrom::File(given.file.as_str())], input, files)
        }
        _ => load_all(alloc, &[LoadFrom::Input], input, files),
    }
}

/// The output of a command without options for the source.
fn plain_answer<R: Threads + Sync>(
    rt: &R,
    alloc: Global,
    command: PlainCommand,
    source: &[u8],
) -> Result<Vec<u8>, Refused>
    ensures ok { IfOk result (λ text. IsAnswered (plain_command command) (source.now ∷ []) text.items) }
    ensures err { IfErr result (λ e. IsRefusedOn (plain_command command) (source.now ∷ []) e.refusal) }
    ensures told { IfErr result (IsOfSource source.now) }
{
    match command {
        PlainCommand::IsMarkedGroebnerBasis => marked::answer(alloc, source),
        PlainCommand::DoesIdealContain => containment::answer(alloc, source),
        PlainCommand::MarkPolynomialSet => mark_polynomial_set::answer(alloc, source),
        PlainCommand::InitialForms => initial_forms::answer(alloc, source),
        PlainCommand::Homogenize => homogenize::answer(alloc, source),
        PlainCommand::PolynomialSetUnion => polynomial_set_union::answer(alloc, source),
        PlainCommand::Stats => stats::answer(alloc, source),
        PlainCommand::HomogeneitySpace => homogeneity_space::answer(alloc, source),
        PlainCommand::TropicalHypersurface => {
            tropical::answer(rt, alloc, source, TropicalFan::Hypersurface)
        }
        PlainCommand::MinkowskiSum => {
            tropical::answer(rt, alloc, source, TropicalFan::MinkowskiSum)
        }
        PlainCommand::MigrateFan => migrate_fan::answer(alloc, source),
    }
}

/// What is left to do of a job on the texts of its sources.
#[derive(Drop)]
pub(crate) enum Work<'j> {
    /// The output of a job that writes once is written.
    Text(Vec<u8>),
    /// A list is written piece by piece.
    List(&'j BasesOptions),
    /// Turns are taken with the input.
    Turns(&'j InteractiveOptions),
}

/// The work of a job that writes once: its output is there, unless it is refused.
fn written<'j>(answer: Result<Vec<u8>, Refused>) -> Result<Work<'j>, Refused>
    ensures { result ≡ as_text answer }
{
    match answer {
        Ok(text) => Ok(Work::Text(text)),
        Err(refused) => Err(refused),
    }
}

/// What is left to do of the job on the texts of its sources: its output is computed if it writes once.
pub(crate) fn work_for<'j, R: Threads + Sync>(
    rt: &R,
    alloc: Global,
    job: &'j Job,
    texts: &[Vec<u8>],
) -> Result<Work<'j>, Refused>
    requires limits { HasNumbersInRange job.now }
    requires all { length texts.now ≡ length (command_of job.now).reads }
    ensures { MatchResult result (IsWorkFor job.now (texts_of texts.now)) (IsWorkRefused job.now (texts_of texts.now)) }
{
    match job {
        Job::Plain(command) => written(plain_answer(rt, alloc, *command, &texts[0])),
        Job::Buchberger(given) => written(buchberger::answer(alloc, &texts[0], *given)),
        Job::Bases(given) => Ok(Work::List(given)),
        Job::LeadingTerms(given) => written(leading_terms::answer(alloc, &texts[0], *given)),
        Job::GroebnerCone(given) => written(groebner_cone::answer(alloc, &texts[0], *given)),
        Job::WeightVector(given) => written(weight_vector::answer(alloc, &texts[0], *given)),
        Job::ToPolyhedralFan(given) => {
            written(to_polyhedral_fan::answer(alloc, &texts[0], *given))
        }
        Job::TropicalIntersection(given) => written(tropical_intersection::answer(
            rt, alloc, &texts[0], *given,
        )),
        Job::FanCommonRefinement(_) => written(common_refinement::answer(
            rt, alloc, &texts[0], &texts[1],
        )),
        Job::Generated(given) => written(gfan_plain_theory::generated::answer(rt, alloc, given)),
        Job::Saturation(given) => written(saturation::answer(alloc, &texts[0], *given)),
        Job::Interactive(given) => Ok(Work::Turns(given)),
    }
}

/// Writes the output of a job that writes once.
pub(crate) fn write_text<K: Sink>(text: &[u8], output: &mut K) -> Result<(), Refused>
    ensures done { OnOk result ((job : Job) (texts : List (List ℕ)) → WritesOnce (command_of job).writing → IsAnswered (command_of job) texts text.now
        → IsDoneOn (command_of job) texts (output_seen (K.held output.old) (K.faults output.old)) (output_seen (K.held output.new) (K.faults output.new))) }
    ensures stopped { IfErr result (λ e. (job : Job) (texts : List (List ℕ)) → WritesOnce (command_of job).writing → IsAnswered (command_of job) texts text.now
        → IsStoppedOn (command_of job) texts (output_seen (K.held output.old) (K.faults output.old))
        (output_seen (K.held output.new) (K.faults output.new)) e.refusal) }
    ensures told { IfErr result IsUnnamed }
{
    match write_all(output, text) {
        Ok(()) => Ok(()),
        Err(WriteFault) => Err(Refused::from(Refusal::WriteFault)),
    }
}

/// Writes the list of bases that the options request, piece by piece.
pub(crate) fn perform_list<R: Threads + Sync, K: Sink, G: Gate>(
    rt: &R,
    alloc: Global,
    given: &BasesOptions,
    texts: &[Vec<u8>],
    output: &mut K,
    gate: &G,
) -> Result<(), Refused>
    requires limits { HasNumbersInRange (Job.Bases given.now) }
    requires all { length texts.now ≡ length (command_of (Job.Bases given.now)).reads }
    ensures done { OnOk result (IsDoneOn (command_of (Job.Bases given.now)) (texts_of texts.now) (output_seen (K.held output.old) (K.faults output.old))
        (output_seen (K.held output.new) (K.faults output.new))) }
    ensures stopped { IfErr result (λ e. IsStoppedOn (command_of (Job.Bases given.now)) (texts_of texts.now)
        (output_seen (K.held output.old) (K.faults output.old))
        (output_seen (K.held output.new) (K.faults output.new)) e.refusal) }
    ensures told { IfErr result (IsOfLoaded (command_of (Job.Bases given.now)).reads (texts_of texts.now)) }
{
    let job = ListJob::on(texts, given);
    list::perform(rt, alloc, &job, output, gate)
}
