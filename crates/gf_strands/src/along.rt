//! The terms of a polynomial whose exponents are multiples of a vector apart from the mark.

ghost use Rattle.gf_strands.specs.Along.{AreAlong, AreSmall, HasNonzero, IsAlong};
ghost use Rattle.gf_strands.specs.Strands.{AreFalling, AreSpots, ArePartsOnStrands, IsDistance, IsPartOf, IsTermAdded, strand_terms, terms_of_parts};
ghost use Rattle.gf_strands.specs.Splits.{AreSplit, IsSplitOn, IsAlone};
ghost use Rattle.gf_ideal_theory.specs.OrderTable.{AreMultipleApart};
ghost use Rattle.gf_poly.specs.Marking.{HaveVariables};
ghost use Rattle.gf_poly.specs.Polynomial.{HasVariables};
ghost use Rattle.std.specs.Prelude.{IfNone, IfOk, IfSome, IsTrue, [], false, get_or, length, map, pos, true, unsigned_abs, ℤ, ◌*ℤ◌, ◌++◌, ◌-ℤ◌, ◌<◌, ◌==◌, ◌^◌};
ghost use Rattle.std.specs.Prelude.{◌∷◌, ◌≡◌, ◌≢◌, ◌≤◌};

use crate::SpareLists;
use crate::strands::{Part, Point, add_point};
use gf_poly::{Marked, Mono, Poly, Term};
use std::alloc::{AllocError, Global};

/// The index of an entry that isn't zero: of one that is 1 or -1, by which nothing is divided, if there is one.
pub fn pivot_of(normal: &[i128]) -> usize
    requires { HasNonzero normal.now }
    ensures inside { result < length normal.now }
    ensures nonzero { get_or normal.now result (pos 0) ≢ pos 0 }
{
    'units: for i in 0..normal.len() {
        if normal[i] == 1 || normal[i] == -1 {
            return i;
        }
    }
    'entries: for i in 0..normal.len() {
        if normal[i] != 0 {
            return i;
        }
    }
    unreachable!()
}

/// The exponent x less y.
fn less(x: u32, y: u32) -> i64
    ensures value { result ≡ pos x -ℤ pos y }
    ensures bound { unsigned_abs result ≤ 2 ^ 32 }
{
    x as i64 - y as i64
}

/// An entry in 64 bits.
pub fn narrow(a: i128) -> i64
    requires small { unsigned_abs a < 2 ^ 31 }
    ensures { result ≡ a }
{
    a as i64
}

/// A multiple of an entry.
fn multiple(k: i64, a: i64) -> i64
    requires factor { unsigned_abs k ≤ 2 ^ 32 }
    requires small { unsigned_abs a < 2 ^ 31 }
    ensures { result ≡ k *ℤ a }
{
    k * a
}

/// The number k for which d is k times a, if there is one; nothing is divided by 1 or -1.
fn multiplier(d: i64, a: i64) -> i64
    requires difference { unsigned_abs d ≤ 2 ^ 32 }
    requires nonzero { a ≢ pos 0 }
    requires small { unsigned_abs a < 2 ^ 31 }
    ensures bound { unsigned_abs result ≤ 2 ^ 32 }
    ensures value { (k : ℤ) → d ≡ k *ℤ a → result ≡ k }
{
    if a == 1 {
        return d;
    }
    if a == -1 {
        return -d;
    }
    d / a
}

/// How many multiples of the normal the exponents of x are apart from those of y, if they are.
fn distance(x: &[u32], y: &[u32], normal: &[i128], pivot: usize) -> Option<i64>
    requires same_length { length x.now ≡ length normal.now }
    requires same_variables { length y.now ≡ length normal.now }
    requires bounded { AreSmall normal.now }
    requires inside { pivot < length normal.now }
    requires nonzero { get_or normal.now pivot (pos 0) ≢ pos 0 }
    ensures some { IfSome result (IsDistance normal.now x.now y.now) }
    ensures bound { IfSome result (λ k. unsigned_abs k ≤ 2 ^ 32) }
    ensures none { IfNone result (AreMultipleApart normal.now x.now y.now → ⊥) }
{
    let k = multiplier(less(x[pivot], y[pivot]), narrow(normal[pivot]));
    'entries: for i in 0..normal.len() {
        if less(x[i], y[i]) != multiple(k, narrow(normal[i])) {
            return None;
        }
    }
    Some(k)
}

/// Whether the exponents of x are those of y and a multiple of the normal.
pub fn is_apart(x: &[u32], y: &[u32], normal: &[i128], pivot: usize) -> bool
    requires same_length { length x.now ≡ length normal.now }
    requires same_variables { length y.now ≡ length normal.now }
    requires bounded { AreSmall normal.now }
    requires inside { pivot < length normal.now }
    requires nonzero { get_or normal.now pivot (pos 0) ≢ pos 0 }
    ensures yes { IsTrue result → AreMultipleApart normal.now x.now y.now }
    ensures no { result ≡ false → AreMultipleApart normal.now x.now y.now → ⊥ }
{
    distance(x, y, normal, pivot).is_some()
}

/// Whether the exponents of a term at `x` are those of the head and a multiple of the normal; those of the marked one are.
fn is_along(x: &Mono, head: &Mono, normal: &[i128], pivot: usize, is_marked: bool) -> bool
    requires same_length { length x.now ≡ length normal.now }
    requires same_variables { length head.now ≡ length normal.now }
    requires bounded { AreSmall normal.now }
    requires inside { pivot < length normal.now }
    requires nonzero { get_or normal.now pivot (pos 0) ≢ pos 0 }
    requires marked { is_marked ≡ true → x.now ≡ head.now }
    ensures yes { IsTrue result → AreMultipleApart normal.now x.now head.now }
    ensures no { result ≡ false → AreMultipleApart normal.now x.now head.now → ⊥ }
{
    if is_marked {
        return true;
    }
    is_apart(x.exponents(), head.exponents(), normal, pivot)
}

/// The terms of a member along the normal.
fn part(alloc: Global, member: &Marked, normal: &[i128], pivot: usize) -> Result<Poly, AllocError>
    requires variables { HasVariables (length normal.now) member.now.poly }
    requires bounded { AreSmall normal.now }
    requires inside { pivot < length normal.now }
    requires nonzero { get_or normal.now pivot (pos 0) ≢ pos 0 }
    ensures { IfOk result (IsAlong normal.now member.now) }
{
    let terms = member.poly().terms();
    let head = member.head();
    let mut kept = Vec::with_capacity(alloc, terms.len())?;
    'terms: for i in 0..terms.len() {
        let t = &terms[i];
        if is_along(&t.mono, head, normal, pivot, i == member.index()) {
            kept.push(t.copy())?;
        }
    }
    Ok(Poly::from_descending(kept))
}

/// The polynomials of the members' parts along the normal.
///
/// # Errors
///
/// Want of memory.
pub fn parts(alloc: Global, items: &[Marked], normal: &[i128]) -> Result<Vec<Poly>, AllocError>
    requires variables { HaveVariables (length normal.now) items.now }
    requires bounded { AreSmall normal.now }
    requires nonzero { HasNonzero normal.now }
    ensures { IfOk result (λ fs. AreAlong normal.now items.now fs.items) }
{
    let pivot = pivot_of(normal);
    let mut all = Vec::with_capacity(alloc, items.len())?;
    'members: for i in 0..items.len() {
        let member = &items[i];
        let poly = part(alloc, member, normal, pivot)?;
        all.push(poly)?;
    }
    Ok(all)
}

/// The parts of members: of those that are one term alone the indices and the marks, the others on strands.
#[derive(Drop)]
pub struct Split {
    pub indices: Vec<usize>,
    pub marks: Vec<Mono>,
    pub list: Vec<Part>,
}

/// Whether a term at `x` isn't the marked one, and its exponents are those of the head and a multiple of the normal.
fn is_further_along(x: &Mono, head: &Mono, normal: &[i128], pivot: usize, is_marked: bool) -> bool
    requires same_length { length x.now ≡ length normal.now }
    requires same_variables { length head.now ≡ length normal.now }
    requires bounded { AreSmall normal.now }
    requires inside { pivot < length normal.now }
    requires nonzero { get_or normal.now pivot (pos 0) ≢ pos 0 }
    ensures { result ≡ false → is_marked ≡ false → AreMultipleApart normal.now x.now head.now → ⊥ }
{
    if is_marked {
        return false;
    }
    is_apart(x.exponents(), head.exponents(), normal, pivot)
}

/// Whether no term but the marked one is along the normal.
pub fn is_alone(member: &Marked, normal: &[i128], pivot: usize) -> bool
    requires variables { HasVariables (length normal.now) member.now.poly }
    requires bounded { AreSmall normal.now }
    requires inside { pivot < length normal.now }
    requires nonzero { get_or normal.now pivot (pos 0) ≢ pos 0 }
    ensures { IsTrue result → IsAlone normal.now member.now }
{
    let terms = member.poly().terms();
    let head = member.head();
    'terms: for i in 0..terms.len() {
        let t = &terms[i];
        if is_further_along(&t.mono, head, normal, pivot, i == member.index()) {
            return false;
        }
    }
    true
}

/// Adds the point of a term at `x`, if its exponents are those of the head and a multiple of the normal.
fn add_term(
    points: &mut Vec<Point>,
    t: &Term,
    head: &Mono,
    normal: &[i128],
    pivot: usize,
) -> Option<()>
    requires same_length { length t.now.mono ≡ length normal.now }
    requires same_variables { length head.now ≡ length normal.now }
    requires bounded { AreSmall normal.now }
    requires inside { pivot < length normal.now }
    requires nonzero { get_or normal.now pivot (pos 0) ≢ pos 0 }
    ensures { IfSome result (λ _. IsTermAdded normal.now head.now t.now points.old.items points.new.items) }
{
    match distance(t.mono.exponents(), head.exponents(), normal, pivot) {
        Some(k) => match i32::try_from(k) {
            Ok(k) => add_point(points, k, t.coef),
            Err(_) => None,
        },
        None => Some(()),
    }
}

/// The part of a member along the normal, on the strand through its mark.
fn part_on_strand(
    alloc: Global,
    member: &Marked,
    normal: &[i128],
    pivot: usize,
) -> Option<Vec<Point>>
    requires variables { HasVariables (length normal.now) member.now.poly }
    requires bounded { AreSmall normal.now }
    requires inside { pivot < length normal.now }
    requires nonzero { get_or normal.now pivot (pos 0) ≢ pos 0 }
    ensures part { IfSome result (λ ps. IsPartOf normal.now member.now (strand_terms normal.now member.now.head ps.items)) }
    ensures on { IfSome result (λ ps. AreSpots normal.now member.now.head ps.items) }
    ensures falling { IfSome result (λ ps. AreFalling ps.items) }
{
    let terms = member.poly().terms();
    let head = member.head();
    let mut points = Vec::new(alloc);
    'terms: for i in 0..terms.len() {
        add_term(&mut points, &terms[i], head, normal, pivot)?;
    }
    Some(points)
}

/// Adds the part of a member: where that is one term alone the index and the mark, else the part on a strand.
fn add(
    alloc: Global,
    member: &Marked,
    index: usize,
    normal: &[i128],
    pivot: usize,
    all: &mut Split,
) -> Option<()>
    requires variables { HasVariables (length normal.now) member.now.poly }
    requires bounded { AreSmall normal.now }
    requires inside { pivot < length normal.now }
    requires nonzero { get_or normal.now pivot (pos 0) ≢ pos 0 }
    ensures { IfSome result (λ _. IsSplitOn normal.now index member.now all.old all.new) }
{
    if is_alone(member, normal, pivot) {
        return add_mark(all, index, member.head());
    }
    let points = part_on_strand(alloc, member, normal, pivot)?;
    let base = member.head().copy();
    let part = Part {
        index,
        base,
        points,
    };
    add_part(all, part)
}

/// Adds an index and a mark.
fn add_mark(all: &mut Split, index: usize, mark: &Mono) -> Option<()>
    ensures indices { IfSome result (λ _. all.new.indices.items ≡ all.old.indices.items ++ index ∷ []) }
    ensures marks { IfSome result (λ _. all.new.marks.items ≡ all.old.marks.items ++ mark.now ∷ []) }
    ensures list { IfSome result (λ _. all.new.list.items ≡ all.old.list.items) }
{
    match all.indices.push(index) {
        Ok(()) => {}
        Err(_) => return None,
    }
    match all.marks.push(mark.copy()) {
        Ok(()) => Some(()),
        Err(_) => None,
    }
}

/// Adds a part.
fn add_part(all: &mut Split, part: Part) -> Option<()>
    ensures indices { IfSome result (λ _. all.new.indices.items ≡ all.old.indices.items) }
    ensures marks { IfSome result (λ _. all.new.marks.items ≡ all.old.marks.items) }
    ensures list { IfSome result (λ _. all.new.list.items ≡ all.old.list.items ++ part ∷ []) }
{
    match all.list.push(part) {
        Ok(()) => Some(()),
        Err(_) => None,
    }
}

/// The parts of the members along the normal, if there is memory.
pub fn split_parts(
    alloc: Global,
    items: &[Marked],
    normal: &[i128],
    spare: &mut SpareLists,
) -> Option<Split>
    requires variables { HaveVariables (length normal.now) items.now }
    requires bounded { AreSmall normal.now }
    requires nonzero { HasNonzero normal.now }
    ensures split { IfSome result (λ s. AreSplit normal.now items.now s.indices.items s.marks.items (terms_of_parts normal.now s.list.items)) }
    ensures parts { IfSome result (λ s. ArePartsOnStrands normal.now items.now s.list.items) }
{
    let pivot = pivot_of(normal);
    let mut all = Split {
        indices: spare.indices(alloc),
        marks: spare.marks(alloc),
        list: Vec::new(alloc),
    };
    'members: for i in 0..items.len() {
        let member = &items[i];
        add(alloc, member, i, normal, pivot, &mut all)?;
    }
    Some(all)
}

/// Of each part whether it is one term alone.
///
/// # Errors
///
/// Want of memory.
pub fn are_single(alloc: Global, list: &[Poly]) -> Result<Vec<bool>, AllocError>
    ensures { IfOk result (λ flags. flags.items ≡ map (λ f. length f == 1) list.now) }
{
    list.iter().map(|f| f.terms().len() == 1).collect(alloc)
}
