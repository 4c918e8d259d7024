//! Lifts that end once nothing is left along the normal: members of the basis of the parts, less what steps lead to.

ghost use Rattle.std.specs.Prelude.{◌≡◌, ◌≢◌, ◌<◌, ◌++◌, ◌∷◌, pos, false, true, None, [], length, get_or, IfSome, IsTrue};
ghost use Rattle.gf_frac.specs.Fraction.{one_ℚ};
ghost use Rattle.gf_poly.specs.Marking.{HaveVariables, head_of};
ghost use Rattle.gf_poly.specs.Polynomial.{coefficient, HasVariables};
ghost use Rattle.gf_division.specs.NormalForms.{HasSomeWeight};
ghost use Rattle.gf_division.specs.Dividends.{split_of, joined_terms, IsSound};
ghost use Rattle.gf_division.specs.Reducers.{IsDivisorAt, IsReducibleFirst, IsSought};
ghost use Rattle.gf_initial_theory.specs.Lifts.{IsTopLift};
ghost use Rattle.gf_strands.specs.Along.{AreSmall};
ghost use Rattle.gf_lifts.specs.Tops.{AreOff, IsTopRemainder, IsQuotientAt, IsMarkedAt};

use gf_division::{Dividend, divisor_of, index_of, stride};
use gf_poly::{Marked, Mono, Poly, Term};
use gf_strands::is_apart;
use std::alloc::Global;
use std::cmp::Ordering;

/// How many steps take the greatest term first whatever the normal: short reductions need no other.
const PATIENCE: u32 = 16;

/// Lifts, and of each whether it is copied from the set.
#[derive(Drop)]
pub struct Lifts {
    pub members: Vec<Marked>,
    pub copied: Vec<bool>,
}

/// The member that reduces a term at `y`, if that is a multiple of the normal apart from `x`.
fn reducer_on_strand(
    y: &Mono,
    by: &[Marked],
    x: &Mono,
    normal: &[i128],
    pivot: usize,
) -> Option<usize>
    requires members { HaveVariables (length normal.now) by.now }
    requires same_length { length y.now ≡ length normal.now }
    requires same_variables { length x.now ≡ length normal.now }
    requires bounded { AreSmall normal.now }
    requires inside { pivot < length normal.now }
    requires nonzero { get_or normal.now pivot (pos 0) ≢ pos 0 }
    ensures { IfSome result (IsDivisorAt by.now y.now) }
{
    if !is_apart(y.exponents(), x.exponents(), normal, pivot) {
        return None;
    }
    divisor_of(y, by)
}

/// Moves the index down to the first term that is a multiple of the normal apart from `x` and that a member reduces; the
/// index of that member, if there is such a term.
fn seek_strand(
    rest: &mut Dividend,
    by: &[Marked],
    x: &Mono,
    normal: &[i128],
    pivot: usize,
) -> Option<Option<usize>>
    requires sound { IsSound (length normal.now) (split_of rest.old) }
    requires members { HaveVariables (length normal.now) by.now }
    requires variables { length x.now ≡ length normal.now }
    requires bounded { AreSmall normal.now }
    requires inside { pivot < length normal.now }
    requires nonzero { get_or normal.now pivot (pos 0) ≢ pos 0 }
    ensures same { IfSome result (λ _. joined_terms (split_of rest.new) ≡ joined_terms (split_of rest.old)) }
    ensures found { IfSome result (IsSought by.now None (split_of rest.new)) }
{
    'terms: while let Some(t) = rest.next() {
        // Its exponents are within the limit: the accessor says so.
        let _ = t.mono.exponents();
        if let Some(j) = reducer_on_strand(&t.mono, by, x, normal, pivot) {
            return Some(Some(j));
        }
        match rest.advance() {
            Ok(()) => {}
            Err(_) => return None,
        }
    }
    Some(None)
}

/// Moves the index to `y`, which is a multiple of the normal apart from `x`; the index of the member that reduces the term there.
fn reducer_at(
    rest: &mut Dividend,
    y: &Mono,
    by: &[Marked],
    x: &Mono,
    normal: &[i128],
    pivot: usize,
) -> Option<usize>
    requires sound { IsSound (length normal.now) (split_of rest.old) }
    requires members { HaveVariables (length normal.now) by.now }
    requires variables { length x.now ≡ length normal.now }
    requires bounded { AreSmall normal.now }
    requires inside { pivot < length normal.now }
    requires nonzero { get_or normal.now pivot (pos 0) ≢ pos 0 }
    ensures same { IfSome result (λ _. joined_terms (split_of rest.new) ≡ joined_terms (split_of rest.old)) }
    ensures found { IfSome result (IsReducibleFirst by.now None (split_of rest.new)) }
{
    match rest.go_to(y) {
        Ok(Ordering::Equal) => {}
        _ => return None,
    }
    let t = rest.next()?;
    // Its exponents are within the limit: the accessor says so.
    let _ = t.mono.exponents();
    reducer_on_strand(&t.mono, by, x, normal, pivot)
}

/// Moves the index to the last term that is a multiple of the normal apart from `x` and that a member reduces; the index of that
/// member, if there is such a term.
fn seek_last(
    rest: &mut Dividend,
    by: &[Marked],
    x: &Mono,
    normal: &[i128],
    pivot: usize,
) -> Option<Option<usize>>
    requires sound { IsSound (length normal.now) (split_of rest.old) }
    requires members { HaveVariables (length normal.now) by.now }
    requires variables { length x.now ≡ length normal.now }
    requires bounded { AreSmall normal.now }
    requires inside { pivot < length normal.now }
    requires nonzero { get_or normal.now pivot (pos 0) ≢ pos 0 }
    ensures same { IfSome result (λ _. joined_terms (split_of rest.new) ≡ joined_terms (split_of rest.old)) }
    ensures found { IfSome result (IsSought by.now None (split_of rest.new)) }
{
    match rest.rewind() {
        Ok(()) => {}
        Err(_) => return None,
    }
    let mut last = None;
    'terms: while let Some(t) = rest.next() {
        if let Some(_) = reducer_on_strand(&t.mono, by, x, normal, pivot) {
            last = Some(t.mono.copy());
        }
        match rest.advance() {
            Ok(()) => {}
            Err(_) => return None,
        }
    }
    let y = match last {
        Some(y) => y,
        None => return Some(None),
    };
    let j = reducer_at(rest, &y, by, x, normal, pivot)?;
    Some(Some(j))
}

/// Moves the index to a term that is a multiple of the normal apart from `x` and that a member reduces, the first or the last one;
/// the index of that member, if there is such a term.
fn seek(
    rest: &mut Dividend,
    by: &[Marked],
    x: &Mono,
    normal: &[i128],
    pivot: usize,
    from_below: bool,
) -> Option<Option<usize>>
    requires sound { IsSound (length normal.now) (split_of rest.old) }
    requires members { HaveVariables (length normal.now) by.now }
    requires variables { length x.now ≡ length normal.now }
    requires bounded { AreSmall normal.now }
    requires inside { pivot < length normal.now }
    requires nonzero { get_or normal.now pivot (pos 0) ≢ pos 0 }
    ensures same { IfSome result (λ _. joined_terms (split_of rest.new) ≡ joined_terms (split_of rest.old)) }
    ensures found { IfSome result (IsSought by.now None (split_of rest.new)) }
{
    if from_below {
        return seek_last(rest, by, x, normal, pivot);
    }
    seek_strand(rest, by, x, normal, pivot)
}

/// Whether what steps along the normal lead to is greater by degree and then lex.
fn leads_up(normal: &[i128]) -> bool {
    let mut degree = 0i128;
    let mut first = 0i128;
    'entries: for a in normal {
        degree = degree.wrapping_add(*a);
        if first == 0 {
            first = *a;
        }
    }
    if degree == 0 {
        return first < 0;
    }
    degree < 0
}

/// Whether no term is a multiple of the normal apart from `x`.
fn is_off(terms: &[Term], x: &Mono, normal: &[i128], pivot: usize) -> bool
    requires terms { HasVariables (length normal.now) terms.now }
    requires variables { length x.now ≡ length normal.now }
    requires bounded { AreSmall normal.now }
    requires inside { pivot < length normal.now }
    requires nonzero { get_or normal.now pivot (pos 0) ≢ pos 0 }
    ensures { IsTrue result → AreOff normal.now x.now terms.now }
{
    'terms: for i in 0..terms.len() {
        let t = &terms[i];
        if is_apart(t.mono.exponents(), x.exponents(), normal, pivot) {
            return false;
        }
    }
    true
}

/// Whether the member has two terms, which are multiples of the normal apart.
fn is_along(member: &Marked, normal: &[i128], pivot: usize) -> bool
    requires variables { HasVariables (length normal.now) member.now.poly }
    requires bounded { AreSmall normal.now }
    requires inside { pivot < length normal.now }
    requires nonzero { get_or normal.now pivot (pos 0) ≢ pos 0 }
{
    let terms = member.poly().terms();
    if terms.len() != 2 {
        return false;
    }
    let first = &terms[0];
    let second = &terms[1];
    let (x, y) = (first.mono.exponents(), second.mono.exponents());
    is_apart(x, y, normal, pivot)
}

/// How many other steps by the member may come before a step at once: none where single steps are asked for, or the terms of the member aren't
/// multiples of the normal apart.
fn others_at_most(member: &Marked, normal: &[i128], pivot: usize, is_single: bool) -> u64
    requires variables { HasVariables (length normal.now) member.now.poly }
    requires bounded { AreSmall normal.now }
    requires inside { pivot < length normal.now }
    requires nonzero { get_or normal.now pivot (pos 0) ≢ pos 0 }
{
    if !is_single && is_along(member, normal, pivot) {
        return u64::MAX;
    }
    0
}

/// What steps by the members lead to, each at a term that is a multiple of the normal apart from `x`, once no member reduces
/// such a term; if none is left. Where steps lead up, the last such term is taken once there were many: by it equal terms meet before
/// they are reduced.
fn top_remainder(
    alloc: Global,
    f: Poly,
    by: &[Marked],
    x: &Mono,
    normal: &[i128],
    pivot: usize,
) -> Option<Poly>
    requires marked { HasSomeWeight by.now }
    requires poly { HasVariables (length normal.now) f }
    requires members { HaveVariables (length normal.now) by.now }
    requires variables { length x.now ≡ length normal.now }
    requires bounded { AreSmall normal.now }
    requires inside { pivot < length normal.now }
    requires nonzero { get_or normal.now pivot (pos 0) ≢ pos 0 }
    ensures { IfSome result (IsTopRemainder by.now normal.now x.now f) }
{
    let up = leads_up(normal);
    let mut patience = PATIENCE;
    let mut rest = Dividend::new(alloc, f);
    'steps: while let Some(j) = seek(&mut rest, by, x, normal, pivot, up && patience == 0)? {
        let most = others_at_most(&by[j], normal, pivot, up && patience > 0);
        patience = patience.saturating_sub(1);
        match stride(alloc, &mut rest, by, j, &None, most) {
            Ok(_) => {}
            Err(_) => return None,
        }
    }
    let left = match rest.into_poly() {
        Ok(left) => left,
        Err(_) => return None,
    };
    if !is_off(left.terms(), x, normal, pivot) {
        return None;
    }
    Some(left)
}

/// A member less what steps by the set lead to, marked as it is.
pub fn top_lift(
    alloc: Global,
    member: &Marked,
    by: &[Marked],
    normal: &[i128],
    pivot: usize,
) -> Option<Marked>
    requires marked { HasSomeWeight by.now }
    requires poly { HasVariables (length normal.now) member.now.poly }
    requires monic { coefficient member.now.poly member.now.head ≡ one_ℚ }
    requires members { HaveVariables (length normal.now) by.now }
    requires bounded { AreSmall normal.now }
    requires inside { pivot < length normal.now }
    requires nonzero { get_or normal.now pivot (pos 0) ≢ pos 0 }
    ensures value { IfSome result (IsTopLift by.now normal.now member.now) }
    ensures variables { IfSome result (λ l. HasVariables (length normal.now) l.poly) }
{
    let copy = match member.poly().copy() {
        Ok(copy) => copy,
        Err(_) => return None,
    };
    let rest = top_remainder(alloc, copy, by, member.head(), normal, pivot)?;
    let poly = match member.poly().sub(&rest) {
        Ok(poly) => poly,
        Err(_) => return None,
    };
    let index = index_of(poly.terms(), member.head());
    Some(Marked::mark(poly, index))
}

/// The index of the first term at `x`, if there is one.
pub fn index_at(terms: &[Term], x: &Mono) -> Option<usize>
    requires { HasVariables (length x.now) terms.now }
    ensures within { IfSome result (λ k. k < length terms.now) }
    ensures head { IfSome result (λ k. head_of terms.now k ≡ x.now) }
{
    'terms: for k in 0..terms.len() {
        let t = &terms[k];
        if t.mono.is_same(x) {
            return Some(k);
        }
    }
    None
}

/// A member divided by its coefficient at `x`, and marked there; none where it has none, or a number doesn't fit.
pub fn divided_at(member: &Marked, x: &Mono) -> Option<Marked>
    requires { HasVariables (length x.now) member.now.poly }
    ensures { IfSome result (IsQuotientAt member.now x.now) }
{
    let terms = member.poly().terms();
    let at = index_at(terms, x)?;
    match member.poly().divided(&terms[at].coef) {
        Ok(divided) => Some(Marked::mark(divided, at)),
        Err(_) => None,
    }
}

/// Whether the member has this mark.
fn has_mark(member: &Marked, head: &Mono) -> bool
    ensures { IsTrue result → member.now.head ≡ head.now }
{
    let mark = member.head();
    if mark.exponents().len() != head.exponents().len() {
        return false;
    }
    mark.is_same(head)
}

/// The index of a member with this mark, looked for from an index on, and then before it.
pub fn index_of_mark(head: &Mono, by: &[Marked], from: usize) -> Option<usize>
    ensures { IfSome result (λ j. IsMarkedAt by.now head.now j) }
{
    'after: for j in from..by.len() {
        if has_mark(&by[j], head) {
            return Some(j);
        }
    }
    'before: for j in 0..by.len().min(from) {
        if has_mark(&by[j], head) {
            return Some(j);
        }
    }
    None
}

/// Adds a lift.
pub fn push(lifts: &mut Lifts, lift: Marked, is_copy: bool) -> Option<()>
    ensures members { IfSome result (λ _. lifts.new.members.items ≡ lifts.old.members.items ++ lift ∷ []) }
    ensures copied { IfSome result (λ _. lifts.new.copied.items ≡ lifts.old.copied.items ++ is_copy ∷ []) }
{
    match lifts.members.push(lift) {
        Ok(()) => {}
        Err(_) => return None,
    }
    match lifts.copied.push(is_copy) {
        Ok(()) => Some(()),
        Err(_) => None,
    }
}
