//! The flip.

ghost use Rattle.std.specs.Prelude.{◌≡◌, ℕ, length, IfOk, IfErr, IfSome};
ghost use Rattle.gf_poly.specs.Marking.{HaveVariables};
ghost use Rattle.gf_buchberger.specs.Bases.{IsWantOfMemory, of_poly_error};
ghost use Rattle.gf_lifts.specs.Crossings.{IsCrossing, IsNeighbour};
ghost use Rattle.gf_strands.specs.Along.{AreAlong, IsBasisOfParts, AreSmall};
ghost use Rattle.gf_flip.specs.Operations.{IsFlipRefusal, IsFlipWithinLimits};
ghost use Rattle.gf_flip.specs.Chosen.{AreLiftsOfParts};
ghost use Rattle.gf_strands.specs.Strands.{ArePartsOnStrands, terms_of_parts};
ghost use Rattle.gf_strands.specs.Splits.{AreSplit};

use crate::chosen::chosen_lifts;
use crate::limits::see_members;
use crate::queued::{Task, basis_by_queue, top_lifts};
use gf_buchberger::{BasisError, refused};
use gf_division::autoreduce;
use gf_lifts::{Facet, Lifts, literal_lifts, reduced_tails, wide_crossed};
use gf_order::Order;
use gf_poly::{Marked, MarkedSet, Poly, PolyError};
use gf_strand_runs::{settled, strands_in_turn};
use gf_strands::{Ground, Part, SpareLists, Split, are_single, parts, split_parts};
use gf_vec::IntVec;
use std::alloc::Global;

/// Why there is no flip: as there may be no basis.
pub type FlipError = BasisError;

/// Lifts of the reduced basis of the parts, which end early, by a run on strands that takes the pairs in turn; none where a number doesn't fit, the run
/// passes a limit, of which `pairs` is that of the strands worked off, or memory runs out.
fn lifts_of_split(
    alloc: Global,
    ground: &Ground,
    indices: &[usize],
    list: Vec<Part>,
    pairs: u64,
    spare: &mut SpareLists,
) -> Option<Lifts>
    requires crossing { IsCrossing (length ground.now.normal.now) ground.now.by.now ground.now.normal.now }
    requires bounded { AreSmall ground.now.normal.now }
    requires split { AreSplit ground.now.normal.now ground.now.by.now indices.now ground.now.marks.now (terms_of_parts ground.now.normal.now list.items) }
    requires parts { ArePartsOnStrands ground.now.normal.now ground.now.by.now list.items }
    ensures { IfSome result (λ ls. AreLiftsOfParts (length ground.now.normal.now) ground.now.by.now ground.now.normal.now ls.members.items ls.copied.items) }
{
    let mut strands = strands_in_turn(alloc, ground, list, pairs)?;
    let flags = settled(alloc, ground, &mut strands)?;
    chosen_lifts(alloc, ground, indices, &strands, &flags, spare)
}

/// Lifts of the reduced basis of the parts of the members along the normal, which end early, by a run on strands that takes the pairs in turn. The set
/// is split into these parts first. None where a number doesn't fit, the run passes a limit, of which `pairs` is that of the strands worked
/// off, or memory runs out.
fn lifts_in_turn(
    alloc: Global,
    set: &MarkedSet,
    normal: &IntVec,
    pairs: u64,
    spare: &mut SpareLists,
) -> Option<Lifts>
    requires crossing { IsCrossing set.now.variables set.now.items normal.now }
    requires bounded { AreSmall normal.now }
    ensures { IfSome result (λ ls. AreLiftsOfParts set.now.variables set.now.items normal.now ls.members.items ls.copied.items) }
{
    let by = set.items();
    let normal = normal.as_slice();
    let Split {
        indices,
        marks,
        list,
    } = split_parts(alloc, by, normal, spare)?;
    let ground = Ground {
        by,
        normal,
        marks: &marks,
    };
    let lifts = lifts_of_split(alloc, &ground, &indices, list, pairs, spare);
    spare.leave(indices, marks);
    lifts
}

/// The reduced basis of the parts, for the order along the facet, by a queue of pairs.
fn basis_of_parts(
    alloc: Global,
    set: &MarkedSet,
    list: &[Poly],
    normal: &IntVec,
    pairs: u64,
) -> Result<MarkedSet, FlipError>
    requires crossing { IsCrossing set.now.variables set.now.items normal.now }
    requires bounded { AreSmall normal.now }
    requires along { AreAlong normal.now set.now.items list.now }
    ensures value { IfOk result (λ s. IsBasisOfParts set.now.variables set.now.items normal.now s.items) }
    ensures variables { IfOk result (λ s. HaveVariables set.now.variables s.items) }
    ensures cause { IfErr result (IsFlipRefusal set.now.variables set.now.items normal.now pairs) }
{
    let along = match normal.copy() {
        Ok(along) => along,
        Err(_) => return Err(BasisError::Memory),
    };
    let order = Order::facet(along);
    let task = Task {
        n: set.variables(),
        order: &order,
    };
    let below = basis_by_queue(alloc, &task, list, pairs)?;
    // Called for the proof alone: the members have the variables of their set.
    let _ = below.items();
    Ok(below)
}

/// Lifts of the reduced basis of the parts of the members along the normal, which end early, by a queue of pairs; none where a number of a lift
/// doesn't fit.
fn lifts_by_queue(
    alloc: Global,
    set: &MarkedSet,
    normal: &IntVec,
    pairs: u64,
) -> Result<Option<Lifts>, FlipError>
    requires crossing { IsCrossing set.now.variables set.now.items normal.now }
    requires bounded { AreSmall normal.now }
    ensures value { IfOk result (λ lifts. IfSome lifts (λ ls. AreLiftsOfParts set.now.variables set.now.items normal.now ls.members.items ls.copied.items)) }
    ensures cause { IfErr result (IsFlipRefusal set.now.variables set.now.items normal.now pairs) }
{
    let items = set.items();
    let list = match parts(alloc, items, normal.as_slice()) {
        Ok(list) => list,
        Err(_) => return Err(BasisError::Memory),
    };
    let alone = match are_single(alloc, &list) {
        Ok(alone) => alone,
        Err(_) => return Err(BasisError::Memory),
    };
    let below = basis_of_parts(alloc, set, &list, normal, pairs)?;
    Ok(top_lifts(alloc, below.into_items(), items, &alone, normal.as_slice()))
}

/// Lifts of the reduced basis of the parts of the members along the normal, which end early: by a run on strands or, where that has none, by a queue of
/// pairs.
fn early_lifts(
    alloc: Global,
    set: &MarkedSet,
    normal: &IntVec,
    pairs: u64,
    spare: &mut SpareLists,
) -> Result<Option<Lifts>, FlipError>
    requires crossing { IsCrossing set.now.variables set.now.items normal.now }
    requires bounded { AreSmall normal.now }
    ensures value { IfOk result (λ lifts. IfSome lifts (λ ls. AreLiftsOfParts set.now.variables set.now.items normal.now ls.members.items ls.copied.items)) }
    ensures cause { IfErr result (IsFlipRefusal set.now.variables set.now.items normal.now pairs) }
{
    if let Some(lifts) = lifts_in_turn(alloc, set, normal, pairs, spare) {
        return Ok(Some(lifts));
    }
    lifts_by_queue(alloc, set, normal, pairs)
}

/// The basis on the other side of the facet: the members of `below`, each less its remainder by the set, autoreduced.
fn crossed(
    alloc: Global,
    set: &MarkedSet,
    below: &[Marked],
    normal: &IntVec,
) -> Result<MarkedSet, PolyError>
    requires crossing { IsCrossing set.now.variables set.now.items normal.now }
    requires variables { HaveVariables set.now.variables below.now }
    requires parts { IsBasisOfParts set.now.variables set.now.items normal.now below.now }
    ensures value { IfOk result (λ t. IsNeighbour set.now.variables set.now.items normal.now t.items) }
    ensures variables { IfOk result (λ t. t.variables ≡ set.now.variables) }
    ensures cause { IfErr result (λ e. (pairs : ℕ) → IsFlipRefusal set.now.variables set.now.items normal.now pairs (of_poly_error e)) }
{
    let lifted = literal_lifts(alloc, below, set)?;
    let all = MarkedSet::new(set.variables(), lifted);
    autoreduce(alloc, &all)
}

/// The basis on the other side of the facet: the members of `below`, each less its remainder by the set, autoreduced. Where a coefficient leaves the
/// range of 128-bit fractions on the way, it is worked out in wide numbers; where these have no answer either, the refusal is that of the first try.
fn lifted_across(
    alloc: Global,
    set: &MarkedSet,
    below: &[Marked],
    normal: &IntVec,
) -> Result<MarkedSet, PolyError>
    requires crossing { IsCrossing set.now.variables set.now.items normal.now }
    requires variables { HaveVariables set.now.variables below.now }
    requires parts { IsBasisOfParts set.now.variables set.now.items normal.now below.now }
    ensures value { IfOk result (λ t. IsNeighbour set.now.variables set.now.items normal.now t.items) }
    ensures variables { IfOk result (λ t. t.variables ≡ set.now.variables) }
    ensures cause { IfErr result (λ e. (pairs : ℕ) → IsFlipRefusal set.now.variables set.now.items normal.now pairs (of_poly_error e)) }
{
    match crossed(alloc, set, below, normal) {
        Ok(across) => Ok(across),
        Err(refusal) => {
            if let PolyError::Overflow(_) = refusal
                && let Ok(across) = wide_crossed(alloc, set, below, normal)
            {
                return Ok(across);
            }
            Err(refusal)
        }
    }
}

/// The basis on the other side, by the parts, the remainders by the set, and their differences; in wide numbers where narrow ones don't fit on
/// the way.
fn literal(
    alloc: Global,
    set: &MarkedSet,
    normal: &IntVec,
    pairs: u64,
) -> Result<MarkedSet, FlipError>
    requires crossing { IsCrossing set.now.variables set.now.items normal.now }
    requires bounded { AreSmall normal.now }
    ensures value { IfOk result (λ t. IsNeighbour set.now.variables set.now.items normal.now t.items) }
    ensures variables { IfOk result (λ t. t.variables ≡ set.now.variables) }
    ensures cause { IfErr result (IsFlipRefusal set.now.variables set.now.items normal.now pairs) }
{
    let list = match parts(alloc, set.items(), normal.as_slice()) {
        Ok(list) => list,
        Err(_) => return Err(BasisError::Memory),
    };
    let below = basis_of_parts(alloc, set, &list, normal, pairs)?;
    match lifted_across(alloc, set, below.items(), normal) {
        Ok(across) => Ok(across),
        Err(refusal) => Err(refused(refusal)),
    }
}

/// The basis on the other side, from lifts that end early, if all numbers fit.
fn across(
    alloc: Global,
    set: &MarkedSet,
    lifts: Lifts,
    normal: &IntVec,
    inside: &[i128],
) -> Option<MarkedSet>
    requires crossing { IsCrossing set.now.variables set.now.items normal.now }
    requires lifts { AreLiftsOfParts set.now.variables set.now.items normal.now lifts.members.items lifts.copied.items }
    ensures value { IfSome result (λ t. IsNeighbour set.now.variables set.now.items normal.now t.items) }
    ensures variables { IfSome result (λ t. t.variables ≡ set.now.variables) }
{
    let n = set.variables();
    let normal = normal.as_slice();
    let members = reduced_tails(alloc, n, lifts, Facet { inside, normal })?;
    let all = MarkedSet::new(n, members);
    match all.arrange() {
        Ok(across) => Some(across),
        Err(_) => None,
    }
}

/// What `flip` answers, in fewer steps where `inside` is a vector inside the facet: positive, zero on the normal, and positive on the other
/// normals. Each other list is safe, too, and takes as many steps as `flip`. The members are in spare lists, as far as there are some.
///
/// # Errors
///
/// Those of `flip`.
pub fn flip_near(
    alloc: Global,
    set: &MarkedSet,
    normal: &IntVec,
    inside: &[i128],
    pairs: u64,
    spare: &mut SpareLists,
) -> Result<MarkedSet, FlipError>
    requires { IsCrossing set.now.variables set.now.items normal.now }
    ensures value { IfOk result (λ t. IsNeighbour set.now.variables set.now.items normal.now t.items) }
    ensures variables { IfOk result (λ t. t.variables ≡ set.now.variables) }
    ensures cause { IfErr result (IsFlipRefusal set.now.variables set.now.items normal.now pairs) }
    ensures complete { IsFlipWithinLimits set.now.variables set.now.items normal.now pairs → IfErr result IsWantOfMemory }
{
    see_members(set.items());
    if let Some(lifts) = early_lifts(alloc, set, normal, pairs, spare)?
        && let Some(across) = across(alloc, set, lifts, normal, inside)
    {
        return Ok(across);
    }
    literal(alloc, set, normal, pairs)
}

/// The basis on the other side of the facet with this normal.
///
/// The set is the marked reduced Gröbner basis of an ideal, in some region, and the normal is one of its flippable ones.
/// The answer is the neighbour for each such ideal and region, in the variables of the set (Fukuda, Jensen, Thomas,
/// *Computing Gröbner fans*, 4.2): of the terms of the members along the normal the reduced basis is worked out for the
/// order along the facet, with at most `pairs` pairs; from each of its members the remainder by the set is taken away;
/// these lifts are autoreduced.
///
/// # Errors
///
/// `Overflow` and `Exponent` only at an operation of this one flip: of a run on the parts, of a reduction of a member of
/// their basis by the set, of the difference with the remainder, or of a step that reduces a tail of the lifts; it holds the
/// operands, which don't fit. `PairBudget` only where more pairs of a list of a run on the parts would have to be settled.
/// So where no operation of this flip leaves its range, and no such list has more than `pairs` pairs, only memory may be
/// wanting.
pub fn flip(
    alloc: Global,
    set: &MarkedSet,
    normal: &IntVec,
    pairs: u64,
) -> Result<MarkedSet, FlipError>
    requires { IsCrossing set.now.variables set.now.items normal.now }
    ensures value { IfOk result (λ t. IsNeighbour set.now.variables set.now.items normal.now t.items) }
    ensures variables { IfOk result (λ t. t.variables ≡ set.now.variables) }
    ensures cause { IfErr result (IsFlipRefusal set.now.variables set.now.items normal.now pairs) }
    ensures complete { IsFlipWithinLimits set.now.variables set.now.items normal.now pairs → IfErr result IsWantOfMemory }
{
    flip_near(alloc, set, normal, &[], pairs, &mut SpareLists::new(alloc))
}
