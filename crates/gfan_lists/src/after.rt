//! `_bases --after`: the checks of the basis of a file, and the way up from it, so that the list continues after it.
ghost use Rattle.std.specs.Prelude.{◌≡◌, ◌≤◌, ◌∷◌, ◌++◌, [], ℕ, List, None, Some, length, IfOk, IfErr, OnOk, IfSome, IsNone, All};
ghost use Rattle.gf_poly.specs.Polynomial.{Terms, HasVariables};
ghost use Rattle.gf_poly.specs.Marking.{MarkedPolynomials};
ghost use Rattle.gf_ideal_theory.specs.Marks.{HasPositiveWeight};
ghost use Rattle.gf_reduced.specs.Refusals.{IsReducedRefusalBeside};
ghost use Rattle.gf_reverse_theory.specs.Upward.{IsNode, IsNodeIn, fan_of};
ghost use Rattle.gf_tree.specs.TreeError.{TreeError};
ghost use Rattle.gf_tree.specs.Ideals.{ideal_within};
ghost use Rattle.gf_tree.specs.Refusals.{IsTreeRefusal};
ghost use Rattle.gfan_common.specs.Causes.{of_tree};
ghost use Rattle.gfan_common.specs.CheckedSets.{of_check, IsSomeReductionRefusal};
ghost use Rattle.gf_lists_theory.specs.Starts.{StartsIn};
ghost use Rattle.gfan_lists.specs.BasesWriting.{GoesOnBehind};
ghost use Rattle.gfan_lists.specs.After.{IsFirstDifference, IsOtherRing, IsBasisTaken, LeaveZero, IsFirstOutside, IsSomeOutside, IsListedBy, IsUnlisted};

use gf_cone::Region;
use gf_division::normal_form;
use gf_front::Refusal;
use gf_poly::{MarkedSet, Poly, PolyError};
use gf_reduced::{CheckError, require_reduced};
use gf_subtree::Waves;
use gf_text::Ring;
use gf_tree::Walker;
use gf_waves::Gate;
use gfan_common::marked_sets;
use gfan_common::refused::{Refused, of_check};
use std::alloc::Global;

// ---- the ring

/// The first index at which two lists of names differ, or at which one of them ends and the other continues.
fn first_difference(found: &Ring, ring: &Ring) -> Option<u32>
    ensures some { IfSome result (IsFirstDifference found.now ring.now) }
    ensures none { IsNone result → found.now ≡ ring.now }
{
    let shared = found.len().min(ring.len());
    'names: for i in 0..shared {
        if found.name(i as usize) != ring.name(i as usize) {
            return Some(i);
        }
    }
    if found.len() == ring.len() {
        None
    } else {
        Some(shared)
    }
}

/// Checks that two rings have the same names.
pub(crate) fn check_ring(found: &Ring, ring: &Ring) -> Result<(), Refusal>
    ensures ok { OnOk result (found.now ≡ ring.now) }
    ensures err { IfErr result (IsOtherRing found.now ring.now) }
{
    match first_difference(found, ring) {
        None => Ok(()),
        Some(index) => Err(Refusal::OtherRing { index }),
    }
}

// ---- the basis

/// The set as the reduced basis of its ideal that some weight of the region gives. It has fewer than `2^32` members.
pub(crate) fn taken_in(
    alloc: Global,
    marked: &MarkedSet,
    region: &Region,
) -> Result<MarkedSet, Refusal>
    requires { length region.now.root ≡ marked.now.variables }
    ensures ok { IfOk result (IsBasisTaken region.now marked.now) }
    ensures err { IfErr result (λ r. (e : CheckError) × IsReducedRefusalBeside region.now.rows 0 marked.now e × (r ≡ of_check e)) }
{
    if marked.items().len() > u32::MAX as usize {
        return Err(of_check(CheckError::Memory));
    }
    match require_reduced(alloc, marked, 0, region.rows()) {
        Ok(basis) => Ok(basis),
        Err(error) => Err(of_check(error)),
    }
}

/// The first of these polynomials with a nonzero remainder by the set, and this remainder.
fn first_outside(
    alloc: Global,
    polynomials: &[Poly],
    by: &MarkedSet,
) -> Result<Option<(usize, Poly)>, PolyError>
    requires marked { HasPositiveWeight by.now.variables by.now.items }
    requires variables { All (HasVariables by.now.variables) polynomials.now }
    ensures some { IfOk result (λ o. IfSome o (λ found. IsFirstOutside by.now polynomials.now found.0 found.1)) }
    ensures none { IfOk result (λ o. IsNone o → LeaveZero by.now.items polynomials.now) }
    ensures err { IfErr result (IsSomeReductionRefusal by.now.items polynomials.now) }
{
    'polynomials: for i in 0..polynomials.len() {
        let rest = normal_form(alloc, &polynomials[i], by)?;
        if !rest.is_zero() {
            return Ok(Some((i, rest)));
        }
    }
    Ok(None)
}

/// Checks that the remainder by the set of each of these polynomials is zero. There are fewer than `2^32`.
fn check_inside(
    alloc: Global,
    side: u32,
    polynomials: &[Poly],
    by: &MarkedSet,
) -> Result<(), Refusal>
    requires marked { HasPositiveWeight by.now.variables by.now.items }
    requires variables { All (HasVariables by.now.variables) polynomials.now }
    ensures ok { OnOk result (LeaveZero by.now.items polynomials.now) }
    ensures err { IfErr result (IsSomeOutside side by.now polynomials.now) }
{
    if polynomials.len() > u32::MAX as usize {
        return Err(of_check(CheckError::from(PolyError::Memory)));
    }
    match first_outside(alloc, polynomials, by) {
        Ok(None) => Ok(()),
        Ok(Some((index, remainder))) => Err(Refusal::NotListed {
            side,
            index: index as u32,
            remainder,
        }),
        Err(error) => Err(of_check(CheckError::from(error))),
    }
}

/// Checks that a basis is one of the ideal of the root: the remainders of the polynomials of the set that was read, from which the basis is
/// made, and of the generators are zero.
pub(crate) fn check_listed(
    alloc: Global,
    marked: &MarkedSet,
    generators: &[Poly],
    root: &MarkedSet,
    basis: &MarkedSet,
) -> Result<(), Refusal>
    requires root { HasPositiveWeight root.now.variables root.now.items }
    requires basis { HasPositiveWeight basis.now.variables basis.now.items }
    requires same { marked.now.variables ≡ root.now.variables }
    requires variables { All (HasVariables basis.now.variables) generators.now }
    ensures ok { OnOk result (IsListedBy generators.now marked.now root.now basis.now) }
    ensures err { IfErr result (IsUnlisted generators.now marked.now root.now basis.now) }
{
    let members = marked_sets::polynomials(alloc, marked)?;
    check_inside(alloc, 0, &members, root)?;
    check_inside(alloc, 1, generators, basis)
}

// ---- the list

/// What follows the basis in the list below the root, by this number of workers.
pub(crate) fn waves_after<'g, G: Gate>(
    alloc: Global,
    basis: MarkedSet,
    region: &Region,
    workers: u32,
    pairs: u64,
    gate: &'g G,
) -> Result<Waves<'g, G>, Refusal>
    requires basis { IsNode region.now basis }
    requires some { 1 ≤ workers }
    requires most { workers ≤ 64 }
    ensures ok { IfOk result (λ waves. (n : ℕ) (fs : List Terms) (root : MarkedPolynomials) → StartsIn n region.now fs root →
        IsNodeIn (ideal_within n fs region.now) basis
        → (front : List MarkedPolynomials) × GoesOnBehind (front ++ basis ∷ []) n region.now fs pairs waves) }
    ensures err { IfErr result (λ r. (e : TreeError) × IsTreeRefusal (fan_of region.now basis) pairs e × (r ≡ of_tree e)) }
{
    let walker = match Walker::after(alloc, basis, region, pairs) {
        Ok(walker) => walker,
        Err(error) => return Err(Refused::from(error).refusal),
    };
    let waves = Waves::resume(alloc, walker, workers, pairs, gate)?;
    Ok(waves)
}
