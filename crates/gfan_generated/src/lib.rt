//! The command `_generated`: a summary of the bases of the ideal with a number.
//!
//! `specs/Generated.antt` has its output, and why it is refused.
#![tactic(auto)]

ghost use Rattle.std.specs.Prelude.{◌≡◌, ◌⊎◌, ◌-◌, ◌<◌, ◌≤◌, ◌^◌, ◌++◌, [], length, List, IfOk, IfErr, OnOk};
ghost use Rattle.gf_vec.specs.Vector.{vector_sum};
ghost use Rattle.gf_vec.specs.Steps.{sum_steps, NoneWide};
ghost use Rattle.gf_poly.specs.Polynomial.{Terms};
ghost use Rattle.gf_poly.specs.Marking.{polys};
ghost use Rattle.gf_facets_theory.specs.Regions.{all_positive};
ghost use Rattle.gf_reverse_theory.specs.Upward.{IsNodeIn};
ghost use Rattle.gfan_lists.specs.Parents.{ideal_of};
ghost use Rattle.gf_subtree.specs.Rows.{first_row};
ghost use Rattle.gf_weights.specs.declared.error.WeightError.{WeightError};
ghost use Rattle.gf_weights.specs.Weights.{IsPrintedWeight};
ghost use Rattle.gf_weights.specs.Refusals.{IsWeightCause};
ghost use Rattle.gf_generated.specs.Generated.{generated_set};
ghost use Rattle.gf_front.specs.declared.command_line.Job.{Job};
ghost use Rattle.gf_front.specs.Jobs.{HasNumbersInRange};
ghost use Rattle.gf_frame.specs.Commands.{IsAnswered, IsRefusedOn};
ghost use Rattle.gfan_lists.specs.Bases.{IsRootRefusal};
ghost use Rattle.gf_lists_theory.specs.Starts.{IsFirstBasis, StartsAt};
ghost use Rattle.gfan_common.specs.Refused.{IsUnnamed};
ghost use Rattle.gfan_common.specs.Causes.{of_weight_error};
ghost use Rattle.gfan_generated.specs.Generated.{one_where, vector_line, summary_text, IsSummaryCause, generated_command};
ghost use Rattle.gfan_generated.specs.Summaries.{IsOfNoBasis, IsWideSum, IsWithBasis, IsUnsummed, IsSummary};

use gf_cone::Region;
use gf_front::{GeneratedOptions, Refusal};
use gf_generated::generators;
use gf_order::Order;
use gf_poly::MarkedSet;
use gf_small::degree_of_set;
use gf_subtree::Waves;
use gf_text::Printer;
use gf_vec::{IntVec, VecError};
use gf_waves::{FreeGate, Gate};
use gf_weights::weight;
use gfan_common::printing::push_line;
use gfan_common::refused::{Refused, of_weight_error};
use gfan_lists::basis_by_several_ways;
use std::alloc::{AllocError, Global};
use std::thread::Threads;

/// A summary of the first bases of a list.
#[derive(Drop)]
struct Summary {
    /// Their number.
    bases: u64,
    /// The greatest total degree of their polynomials.
    degree: u64,
    /// The sum of their weights.
    weights: IntVec,
    /// Whether these are all bases.
    complete: bool,
}

// ---- the list

/// The first basis, by deglex, of the ideal with this number.
fn first_basis(alloc: Global, number: u64, pairs: u64) -> Result<MarkedSet, Refused>
    requires { number < 2147483647 }
    ensures ok { IfOk result (IsFirstBasis 4 (generated_set number)) }
    ensures err { IfErr result (λ e. IsRootRefusal 4 (generated_set number) pairs e.refusal) }
    ensures told { IfErr result IsUnnamed }
{
    let generators = generators(alloc, number)?;
    match basis_by_several_ways(alloc, 4, &generators, &Order::deglex(), pairs) {
        Ok(root) => Ok(root),
        Err(error) => Err(Refused::from(error)),
    }
}

/// The list of a basis and of all below it, for all positive weights, by so many workers.
fn waves_of<'g, G: Gate>(
    alloc: Global,
    root: MarkedSet,
    workers: u32,
    pairs: u64,
    gate: &'g G,
) -> Result<Waves<'g, G>, AllocError>
    requires basis { IsNodeIn (ideal_of root) root }
    requires some { 1 ≤ workers }
    requires most { workers ≤ 64 }
    ensures { IfOk result (λ w. w ≡ first_row alloc root (all_positive root.variables) workers pairs) }
{
    let region = Region::positive(alloc, root.variables())?;
    Waves::new(alloc, root, &region, workers, pairs, gate)
}

/// The summary of no bases.
fn nothing(alloc: Global) -> Result<Summary, AllocError>
    ensures { IfOk result IsOfNoBasis }
{
    Ok(Summary {
        bases: 0,
        degree: 0,
        weights: IntVec::from_slice(alloc, &[0, 0, 0, 0])?,
        complete: true,
    })
}

/// The weight of a basis.
fn weight_of(alloc: Global, basis: &MarkedSet) -> Result<IntVec, Refusal>
    ensures ok { IfOk result (IsPrintedWeight basis.now.variables basis.now.items) }
    ensures err { IfErr result (λ r. (e : WeightError) × IsWeightCause basis.now.variables basis.now.items e × (r ≡ of_weight_error e)) }
{
    match weight(alloc, basis) {
        Ok(found) => Ok(found),
        Err(error) => Err(of_weight_error(error)),
    }
}

/// The sum of a sum of weights and a weight.
fn with_weight(weights: &IntVec, weight: &IntVec) -> Result<IntVec, Refusal>
    requires { length weights.now ≡ length weight.now }
    ensures ok { IfOk result (λ v. (v ≡ vector_sum weights.now weight.now) × NoneWide (sum_steps weights.now weight.now)) }
    ensures err { IfErr result (IsWideSum weights.now weight.now) }
{
    match weights.add(weight) {
        Ok(sum) => Ok(sum),
        Err(VecError::Wide(wide)) => Err(Refusal::WideVector(wide)),
        Err(VecError::Memory) => Err(Refusal::Memory),
    }
}

/// The summary with one more basis.
fn with_basis(alloc: Global, summary: &Summary, basis: &MarkedSet) -> Result<Summary, Refusal>
    requires variables { basis.now.variables ≡ 4 }
    requires weights { length summary.now.weights ≡ 4 }
    requires room { summary.now.bases < 2 ^ 64 - 1 }
    ensures ok { IfOk result (IsWithBasis summary.now basis.now) }
    ensures err { IfErr result (IsUnsummed summary.now basis.now) }
{
    let weight = weight_of(alloc, basis)?;
    let weights = with_weight(&summary.weights, &weight)?;
    Ok(Summary {
        bases: summary.bases + 1,
        degree: summary.degree.max(degree_of_set(basis.items())),
        weights,
        complete: true,
    })
}

/// The summary of the first bases of the list that starts at the root, as many as the limit, or of all if there are fewer. If the limit is
/// reached, one more basis is computed, but not its weight.
fn summed_up<R: Threads + Sync>(
    rt: &R,
    alloc: Global,
    root: MarkedSet,
    limit: u64,
    pairs: u64,
    workers: u32,
) -> Result<Summary, Refused>
    requires first { StartsAt 4 (polys root.items) root }
    requires some { 1 ≤ workers }
    requires most { workers ≤ 64 }
    ensures ok { IfOk result (λ s. (fs : List Terms) → StartsAt 4 fs root → IsSummary limit fs s) }
    ensures err { IfErr result (λ e. (fs : List Terms) → StartsAt 4 fs root
        → IsSummaryCause limit pairs fs e.refusal ⊎ (e.refusal ≡ Refusal.Memory)) }
    ensures told { IfErr result IsUnnamed }
{
    let gate = FreeGate;
    let mut waves = waves_of(alloc, root, workers, pairs, &gate)?;
    let mut summary = nothing(alloc)?;
    'list: while let Some(basis) = waves.next_written(rt)? {
        if summary.bases == limit {
            return Ok(Summary {
                complete: false,
                ..summary
            });
        }
        summary = with_basis(alloc, &summary, &basis)?;
    }
    Ok(summary)
}

// ---- the text

/// 1 for true, and 0 for false.
fn one_where(truth: bool) -> u128
    ensures { result ≡ one_where truth }
{
    if truth { 1 } else { 0 }
}

/// Adds a line: a label, and the vector.
fn push_vector(text: &mut Vec<u8>, label: &str, vector: &IntVec) -> Result<(), AllocError>
    ensures { OnOk result (text.new.items ≡ text.old.items ++ vector_line label.now vector.now) }
{
    text.extend_from_slice(label.as_bytes())?;
    Printer::vector(text, vector)?;
    text.push(b'\n')?;
    Ok(())
}

/// The four lines.
fn printed(alloc: Global, summary: &Summary) -> Result<Vec<u8>, AllocError>
    ensures { IfOk result (λ text. text.items ≡ summary_text summary.now.bases summary.now.degree summary.now.weights summary.now.complete) }
{
    let mut text = Vec::new(alloc);
    push_line(&mut text, "Bases: ", u128::from(summary.bases))?;
    push_line(&mut text, "Greatest degree: ", u128::from(summary.degree))?;
    push_vector(&mut text, "Sum of weights: ", &summary.weights)?;
    push_line(&mut text, "Complete: ", one_where(summary.complete))?;
    Ok(text)
}

/// Four lines on the ideal with a number: the number of bases that are summed up, the greatest total degree of their polynomials, the sum
/// of their printed weights, and 1 if these are all bases of the ideal, else 0. The bases are the first ones in the order of `_bases`, as
/// many as the limit, or all if there are fewer. Nothing is read. `workers` workers list the bases; the output doesn't depend on their
/// number.
///
/// # Errors
///
/// - `ExponentOverflow`: the operands of an operation of a run of Buchberger's algorithm on the generators by deglex, or of a flip at a
///   basis of the ideal across a flippable normal, don't fit.
/// - `ConeOverflow`: a step of the system that decides whether a flip may cross a facet of such a basis leaves its range, or one of finding
///   the rays of the intersection of such a basis's cone with the non-negative orthant.
/// - `WideVector`: a sum of entries of these rays, or of the weights, leaves the range.
/// - `PairBudget`: such a run or flip has more than `pairs` pairs to settle.
/// - `Memory`: memory runs out.
pub fn answer<R: Threads + Sync>(
    rt: &R,
    alloc: Global,
    given: &GeneratedOptions,
) -> Result<Vec<u8>, Refused>
    requires { HasNumbersInRange (Job.Generated given.now) }
    ensures ok { IfOk result (λ text. IsAnswered (generated_command given.now) [] text.items) }
    ensures err { IfErr result (λ e. IsRefusedOn (generated_command given.now) [] e.refusal) }
    ensures told { IfErr result IsUnnamed }
{
    let root = first_basis(alloc, given.number, given.pairs)?;
    let summary = summed_up(rt, alloc, root, given.limit, given.pairs, given.workers)?;
    let text = printed(alloc, &summary)?;
    Ok(text)
}
