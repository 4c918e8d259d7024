//! The flip in wide numbers, where those of the other ways don't fit. The remainders of the members of the basis of the parts by the set are
//! kept in wide numbers. One after another, those of members with light marks first, they are reduced by the lifts that are done, and the
//! member less what is left is a lift: its tail is reduced before it is kept, so that it fits where the answer does.

ghost use Rattle.std.specs.Prelude.{◌≡◌, ◌<◌, ◌≤◌, length, IfOk, IfSome};
ghost use Rattle.gf_poly.specs.Marking.{HaveVariables, head_of};
ghost use Rattle.gf_poly.specs.Polynomial.{HasVariables, KeepsVariables};
ghost use Rattle.gf_ideal_theory.specs.Marks.{HasPositiveWeight, IsRealisable};
ghost use Rattle.gf_division.specs.NormalForms.{HasSomeWeight, HaveSameVariables};
ghost use Rattle.gf_strands.specs.Along.{IsBasisOfParts};
ghost use Rattle.gf_lifts.specs.Crossings.{IsCrossing, IsNeighbour};
ghost use Rattle.gf_lifts.specs.LiftsInTurn.{IsReducedForm, IsRest, AreRests, IsLessBy, AreLiftsInTurn, IsLiftIn, AreLiftsIn};

use crate::tops::index_of_mark;
use crate::weights::{ROUNDS, weight_found};
use gf_division::{autoreduce, weight_of};
use gf_poly::{Marked, MarkedSet, Mono, Poly, Term};
use gf_strands::one;
use gf_vec::IntVec;
use gf_wide_division::{Beyond, Precedence, WidePoly, wide_remainder, wide_remainder_again};
use std::alloc::Global;
use std::cmp::Ordering;

/// The index of the term at a monomial, if there is one.
fn index_in(terms: &[Term], x: &Mono) -> Option<usize>
    ensures inside { IfSome result (λ i. i < length terms.now) }
    ensures head { IfSome result (λ i. head_of terms.now i ≡ x.now) }
{
    'terms: for i in 0..terms.len() {
        let t = &terms[i];
        if let Ordering::Equal = t.mono.compare(x) {
            return Some(i);
        }
    }
    None
}

/// The remainder of a member by the set, which needn't fit.
fn rest_of(
    alloc: Global,
    member: &Marked,
    set: &MarkedSet,
    first: &Precedence,
) -> Result<WidePoly, Beyond>
    requires marked { HasPositiveWeight set.now.variables set.now.items }
    requires variables { HasVariables set.now.variables member.now.poly }
    ensures { IfOk result (IsRest set.now.items member.now) }
{
    wide_remainder(alloc, member.poly(), set.items(), first)
}

/// The remainders of the members by the set, which needn't fit.
fn rests(
    alloc: Global,
    below: &[Marked],
    set: &MarkedSet,
    first: &Precedence,
) -> Result<Vec<WidePoly>, Beyond>
    requires marked { HasPositiveWeight set.now.variables set.now.items }
    requires variables { HaveVariables set.now.variables below.now }
    ensures { IfOk result (λ rs. AreRests set.now.items below.now rs.items) }
{
    let mut all = Vec::with_capacity(alloc, below.len())?;
    'members: for i in 0..below.len() {
        let rest = rest_of(alloc, &below[i], set, first)?;
        all.push(rest)?;
    }
    Ok(all)
}

/// A member less what steps by the lifts that are done lead to from its remainder, marked as it is.
fn lift_by(
    alloc: Global,
    member: &Marked,
    rest: &WidePoly,
    done: &[Marked],
    then: &Precedence,
) -> Result<Marked, Beyond>
    requires weight { HasSomeWeight done.now }
    requires variables { HaveSameVariables rest.now done.now }
    requires kept { KeepsVariables member.now.poly rest.now }
    ensures value { IfOk result (IsLessBy done.now rest.now member.now) }
    ensures variables { IfOk result (λ l. KeepsVariables member.now.poly l.poly) }
{
    let left = wide_remainder_again(alloc, rest, done, then)?;
    let narrow = left.narrowed(alloc)?;
    let poly = match member.poly().sub(&narrow) {
        Ok(poly) => poly,
        Err(_) => return Err(Beyond),
    };
    match index_in(poly.terms(), member.head()) {
        Some(index) => Ok(Marked::mark(poly, index)),
        None => Err(Beyond),
    }
}

/// The lifts, in these turns, each by those before it.
fn lifts_in_turn(
    alloc: Global,
    below: &[Marked],
    rests: &[WidePoly],
    set: &MarkedSet,
    normal: &IntVec,
    turns: &[usize],
    then: &Precedence,
) -> Result<Vec<Marked>, Beyond>
    requires crossing { IsCrossing set.now.variables set.now.items normal.now }
    requires variables { HaveVariables set.now.variables below.now }
    requires parts { IsBasisOfParts set.now.variables set.now.items normal.now below.now }
    requires rests { AreRests set.now.items below.now rests.now }
    ensures value { IfOk result (λ ds. AreLiftsInTurn set.now.items below.now ds.items) }
    ensures variables { IfOk result (λ ds. HaveVariables set.now.variables ds.items) }
{
    let mut done = Vec::with_capacity(alloc, turns.len())?;
    'turns: for k in 0..turns.len() {
        let i = turns[k];
        if i >= below.len() || i >= rests.len() {
            return Err(Beyond);
        }
        let lift = lift_by(alloc, &below[i], &rests[i], &done, then)?;
        done.push(lift)?;
    }
    Ok(done)
}

/// The lift with the mark of a member.
fn lift_in(done: &[Marked], member: &Marked) -> Result<Marked, Beyond>
    ensures { IfOk result (IsLiftIn done.now member.now) }
{
    let j = match index_of_mark(member.head(), done, 0) {
        Some(j) => j,
        None => return Err(Beyond),
    };
    let lift = done[j].copy()?;
    Ok(lift)
}

/// The lifts in the order of the members.
fn lifts_in(alloc: Global, done: &[Marked], below: &[Marked]) -> Result<Vec<Marked>, Beyond>
    ensures { IfOk result (λ ls. AreLiftsIn done.now below.now ls.items) }
{
    let mut all = Vec::with_capacity(alloc, below.len())?;
    'members: for i in 0..below.len() {
        let lift = lift_in(done, &below[i])?;
        all.push(lift)?;
    }
    Ok(all)
}

/// A term with the coefficient 1.
fn unit(mono: &Mono) -> Term {
    Term {
        coef: one(),
        mono: mono.copy(),
    }
}

/// A polynomial marked as a member is, with all monomials that its lift may have before its tail is reduced.
fn shape(alloc: Global, member: &Marked, rest: &WidePoly) -> Result<Marked, Beyond> {
    let own = member.poly().terms();
    let left = rest.terms();
    let mut terms = Vec::new(alloc);
    'own: for i in 0..own.len() {
        terms.push(unit(&own[i].mono))?;
    }
    'left: for i in 0..left.len() {
        terms.push(unit(&left[i].mono))?;
    }
    let poly = match Poly::from_terms(terms) {
        Ok(poly) => poly,
        Err(_) => return Err(Beyond),
    };
    match index_in(poly.terms(), member.head()) {
        Some(index) => Ok(Marked::mark(poly, index)),
        None => Err(Beyond),
    }
}

/// The terms first that are heavy by a weight for which the marks of the lifts are heaviest, or nearly all.
fn precedence_across(
    alloc: Global,
    below: &[Marked],
    rests: &[WidePoly],
) -> Result<Precedence, Beyond> {
    let mut shapes = Vec::with_capacity(alloc, below.len())?;
    'members: for (member, rest) in below.iter().zip(rests) {
        let shape = shape(alloc, member, rest)?;
        shapes.push(shape)?;
    }
    match weight_of(alloc, &shapes, ROUNDS) {
        Some((weight, _)) => Ok(Precedence::by(weight, false)),
        None => Err(Beyond),
    }
}

/// The terms first that are heavy by a weight of the marks.
fn precedence_for(alloc: Global, n: u32, members: &[Marked]) -> Result<Precedence, Beyond>
    requires { HaveVariables n members.now }
{
    match weight_found(alloc, n, members) {
        Some(weight) => Ok(Precedence::by(weight, false)),
        None => Err(Beyond),
    }
}

/// Whether the mark of the one member is taken after that of the other, and so is lighter.
fn is_lighter(below: &[Marked], i: usize, j: usize, then: &Precedence) -> bool {
    if i >= below.len() || j >= below.len() {
        return false;
    }
    then.is_before(below[j].head(), below[i].head())
}

/// The index of the first turn whose member has a heavier mark.
fn index_for(turns: &[usize], below: &[Marked], i: usize, then: &Precedence) -> usize
    ensures { result ≤ length turns.now }
{
    'turns: for k in 0..turns.len() {
        if is_lighter(below, i, turns[k], then) {
            return k;
        }
    }
    turns.len()
}

/// The indices of the members, that with the lightest mark first.
fn turns_by(alloc: Global, below: &[Marked], then: &Precedence) -> Result<Vec<usize>, Beyond> {
    let mut turns = Vec::with_capacity(alloc, below.len())?;
    'members: for i in 0..below.len() {
        let at = index_for(&turns, below, i, then);
        turns.insert(at, i)?;
    }
    Ok(turns)
}

/// The members autoreduced, if all numbers fit.
fn autoreduced(alloc: Global, n: u32, members: Vec<Marked>) -> Option<MarkedSet>
    requires variables { HaveVariables n members.items }
    requires realisable { IsRealisable n members.items }
    ensures { IfSome result (IsReducedForm n members.items) }
{
    let set = MarkedSet::new(n, members);
    match autoreduce(alloc, &set) {
        Ok(basis) => Some(basis),
        Err(_) => None,
    }
}

/// The basis on the other side of the facet: the members of `below`, each less its remainder by the set, autoreduced; the remainders are worked out
/// in wide numbers.
///
/// # Errors
/// `Beyond` where a wide number leaves its range, a coefficient or an exponent of a lift or of the answer doesn't fit in the 128-bit fractions and
/// 31-bit exponents of a polynomial, no weight of the marks is found, or memory runs out.
#[cold]
#[inline(never)]
pub fn wide_crossed(
    alloc: Global,
    set: &MarkedSet,
    below: &[Marked],
    normal: &IntVec,
) -> Result<MarkedSet, Beyond>
    requires crossing { IsCrossing set.now.variables set.now.items normal.now }
    requires variables { HaveVariables set.now.variables below.now }
    requires parts { IsBasisOfParts set.now.variables set.now.items normal.now below.now }
    ensures value { IfOk result (λ t. IsNeighbour set.now.variables set.now.items normal.now t.items) }
    ensures variables { IfOk result (λ t. t.variables ≡ set.now.variables) }
{
    let first = precedence_for(alloc, set.variables(), set.items())?;
    let rests = rests(alloc, below, set, &first)?;
    let then = precedence_across(alloc, below, &rests)?;
    let turns = turns_by(alloc, below, &then)?;
    let done = lifts_in_turn(alloc, below, &rests, set, normal, &turns, &then)?;
    let members = lifts_in(alloc, &done, below)?;
    match autoreduced(alloc, set.variables(), members) {
        Some(across) => Ok(across),
        None => Err(Beyond),
    }
}
