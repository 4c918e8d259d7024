//! Tails of lifts, reduced in place, one lift after another. A lift whose tail no mark divides stays as it is, and nothing of
//! it is copied; where it was copied from the set that is flipped, only the marks of lifts that weren't are tried. Of the
//! others each time the heaviest term is reduced that a mark divides, by a weight for which the marks are heaviest, which keeps
//! the numbers small.

ghost use Rattle.std.specs.Prelude.{◌≡◌, ◌<◌, ◌≤◌, false, true, Some, length, Contains, IfSome, IsTrue};
ghost use Rattle.gf_exponents_theory.specs.Exponents.{Divides};
ghost use Rattle.gf_poly.specs.Marking.{HaveVariables};
ghost use Rattle.gf_poly.specs.Polynomial.{HasVariables};
ghost use Rattle.gf_ideal_theory.specs.Reduction.{IsDivisible};
ghost use Rattle.gf_division.specs.NormalForms.{HasSomeWeight};
ghost use Rattle.gf_division.specs.Autoreduction.{ShareSomeVariables};
ghost use Rattle.gf_division.specs.Reducers.{AreIrreducible};
ghost use Rattle.gf_lifts.specs.LiftTails.{AreCopiedTo, AreCopiedFrom, AreCopiedBeside, AreSparedBeside, AreUndivided, HasUndividedTailAt, IsReducedLiftAt};
ghost use Rattle.gf_lifts.specs.LiftTails.{IsNextInTurn, AreTailsInTurn};

use crate::tops::Lifts;
use crate::weights::{Facet, weight_for};
use gf_division::{Guide, divisor_of, reduced_tail};
use gf_poly::{Marked, Mono};
use std::alloc::Global;

/// Whether the mark of a lift divides `x`; it isn't tried where both are of copied lifts.
fn reduces(lift: &Marked, is_copy: bool, x: &Mono, of_copy: bool) -> bool
    requires { HasVariables (length x.now) lift.now.poly }
    ensures { result ≡ false → (of_copy ≡ true → is_copy ≡ true → ⊥) → Divides lift.now.head x.now → ⊥ }
{
    if of_copy && is_copy {
        return false;
    }
    lift.head().divides(x)
}

/// A stretch of indices, from the first one on and before the end.
#[derive(Clone, Copy)]
struct Span {
    first: usize,
    end: usize,
}

/// How many lifts at the front are copied.
fn copied_front(copied: &[bool]) -> usize
    ensures within { result ≤ length copied.now }
    ensures copied { AreCopiedTo copied.now result }
{
    'lifts: for j in 0..copied.len() {
        if !copied[j] {
            return j;
        }
    }
    copied.len()
}

/// The index behind the last lift that isn't copied.
fn copied_back(copied: &[bool]) -> usize
    ensures within { result ≤ length copied.now }
    ensures copied { AreCopiedFrom copied.now result (length copied.now) }
{
    let mut end = 0;
    'lifts: for j in 0..copied.len() {
        if !copied[j] {
            end = j + 1;
        }
    }
    end
}

/// Where the lifts are that aren't copied: beside it all are.
fn fresh_of(copied: &[bool]) -> Span
    ensures { AreCopiedBeside copied.now result.first result.end }
{
    Span {
        first: copied_front(copied),
        end: copied_back(copied),
    }
}

/// Where the lifts are whose marks are tried for the tail of a lift: for a copied one those that aren't copied, for another all.
fn tried_for(copied: &[bool], fresh: Span, of_copy: bool) -> Span
    requires { AreCopiedBeside copied.now fresh.first fresh.end }
    ensures { AreSparedBeside copied.now of_copy result.first result.end }
{
    if of_copy {
        return fresh;
    }
    Span {
        first: 0,
        end: copied.len(),
    }
}

/// Whether the mark of one of the lifts that are tried divides `x`.
fn is_divided(lifts: &[Marked], copied: &[bool], tried: Span, x: &Mono, of_copy: bool) -> bool
    requires variables { HaveVariables (length x.now) lifts.now }
    requires flags { length copied.now ≡ length lifts.now }
    requires tried { AreSparedBeside copied.now of_copy tried.first tried.end }
    ensures { result ≡ false → AreUndivided lifts.now copied.now of_copy x.now (length lifts.now) }
{
    'lifts: for j in tried.first..tried.end {
        let lift = &lifts[j];
        if reduces(lift, copied[j], x, of_copy) {
            return true;
        }
    }
    false
}

/// Whether a term at `x` that isn't the marked one is divided by a mark that is tried.
fn is_divided_beside(
    lifts: &[Marked],
    copied: &[bool],
    tried: Span,
    x: &Mono,
    of_copy: bool,
    is_marked: bool,
) -> bool
    requires variables { HaveVariables (length x.now) lifts.now }
    requires flags { length copied.now ≡ length lifts.now }
    requires tried { AreSparedBeside copied.now of_copy tried.first tried.end }
    ensures { result ≡ false → is_marked ≡ false → AreUndivided lifts.now copied.now of_copy x.now (length lifts.now) }
{
    if is_marked {
        return false;
    }
    is_divided(lifts, copied, tried, x, of_copy)
}

/// Whether no unmarked term of the lift at an index is divided by a mark that is tried.
fn stays(lifts: &[Marked], copied: &[bool], fresh: Span, at: usize) -> bool
    requires inside { at < length lifts.now }
    requires flags { length copied.now ≡ length lifts.now }
    requires fresh { AreCopiedBeside copied.now fresh.first fresh.end }
    requires variables { ShareSomeVariables lifts.now }
    ensures { IsTrue result → HasUndividedTailAt lifts.now copied.now at }
{
    let lift = &lifts[at];
    let of_copy = copied[at];
    let tried = tried_for(copied, fresh, of_copy);
    // Called for the proof alone: the terms descend, and the mark is that of one of them.
    let _ = lift.head();
    let terms = lift.poly().terms();
    'terms: for k in 0..terms.len() {
        let t = &terms[k];
        if is_divided_beside(lifts, copied, tried, &t.mono, of_copy, k == lift.index()) {
            return false;
        }
    }
    true
}

/// Whether a mark divides `x`.
fn is_divisible(x: &Mono, by: &[Marked]) -> bool
    requires { HaveVariables (length x.now) by.now }
    ensures { result ≡ false → IsDivisible (Contains by.now) x.now → ⊥ }
{
    match divisor_of(x, by) {
        Some(_) => true,
        None => false,
    }
}

/// Whether a mark divides a term at `x` that isn't the marked one.
fn is_divisible_beside(x: &Mono, lifts: &[Marked], is_marked: bool) -> bool
    requires { HaveVariables (length x.now) lifts.now }
    ensures { result ≡ false → is_marked ≡ false → IsDivisible (Contains lifts.now) x.now → ⊥ }
{
    if is_marked {
        return false;
    }
    is_divisible(x, lifts)
}

/// Whether no mark divides an unmarked term of the member.
pub fn is_reduced(member: &Marked, lifts: &[Marked]) -> bool
    requires members { HaveVariables (length member.now.head) lifts.now }
    requires terms { HasVariables (length member.now.head) member.now.poly }
    ensures { IsTrue result → AreIrreducible lifts.now (Some member.now.head) member.now.poly }
{
    let terms = member.poly().terms();
    'terms: for k in 0..terms.len() {
        let t = &terms[k];
        if is_divisible_beside(&t.mono, lifts, k == member.index()) {
            return false;
        }
    }
    true
}

/// The lift at an index with its tail reduced by all of them, the heaviest term first, if all numbers fit.
fn reduced_lift(alloc: Global, lifts: &[Marked], at: usize, weight: &Vec<i64>) -> Option<Marked>
    requires inside { at < length lifts.now }
    requires marked { HasSomeWeight lifts.now }
    requires variables { ShareSomeVariables lifts.now }
    ensures { IfSome result (IsReducedLiftAt lifts.now at) }
{
    let mut guide = match weight.clone() {
        Ok(same) => Guide::at_once(same),
        Err(_) => return None,
    };
    match reduced_tail(alloc, &lifts[at], lifts, &mut guide) {
        Ok(member) => Some(member),
        Err(_) => None,
    }
}

/// Reduces the tail of the lift at an index, unless it stays. A weight is found where one is needed first.
fn settle(
    alloc: Global,
    n: u32,
    all: &mut Vec<Marked>,
    copied: &[bool],
    fresh: Span,
    at: usize,
    facet: Facet,
    weight: &mut Vec<i64>,
) -> Option<()>
    requires inside { at < length all.old.items }
    requires marked { HasSomeWeight all.old.items }
    requires flags { length copied.now ≡ length all.old.items }
    requires fresh { AreCopiedBeside copied.now fresh.first fresh.end }
    requires variables { HaveVariables n all.old.items }
    ensures { IfSome result (λ _. IsNextInTurn all.old.items copied.now at all.new.items) }
{
    if stays(all, copied, fresh, at) {
        return Some(());
    }
    if weight.is_empty() {
        *weight = weight_for(alloc, n, all, facet)?;
    }
    let member = reduced_lift(alloc, all, at, weight)?;
    all[at] = member;
    Some(())
}

/// The lifts with their tails reduced, one after another by the lifts as they are then, in their order, if all numbers fit.
pub fn reduced_tails(alloc: Global, n: u32, lifts: Lifts, facet: Facet) -> Option<Vec<Marked>>
    requires marked { HasSomeWeight lifts.members.items }
    requires flags { length lifts.copied.items ≡ length lifts.members.items }
    requires variables { HaveVariables n lifts.members.items }
    ensures { IfSome result (λ cs. AreTailsInTurn lifts.members.items lifts.copied.items (length lifts.members.items) cs.items) }
{
    let Lifts { members, copied } = lifts;
    let mut all = members;
    let fresh = fresh_of(&copied);
    let mut weight = Vec::new(alloc);
    'lifts: for at in 0..all.len() {
        settle(alloc, n, &mut all, &copied, fresh, at, facet, &mut weight)?;
    }
    Some(all)
}
