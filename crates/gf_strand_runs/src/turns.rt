//! The run on the parts, on strands, that takes the pairs in turn.

ghost use Rattle.gf_strands.specs.Strands.{AreStrandsOf, ArePartsOnStrands, IsGround, facet_order, strand_member, strand_members, moved, negated_point};
ghost use Rattle.gf_strands.specs.Strands.{terms_of_parts};
ghost use Rattle.gf_strands.specs.Monomials.{with_monomials};
ghost use Rattle.gf_strand_runs.specs.Turns.{AreKeptIn, ArePairExcused, AreUndividedBy, HasEntering, HasTurning, IsChained, KeepsEntering, KeepsTurning};
ghost use Rattle.gf_strand_runs.specs.Turns.{LeadsToEnd};
ghost use Rattle.gf_strands.specs.Forms.{HasCover};
ghost use Rattle.gf_frac.specs.Fraction.{one_ℚ};
ghost use Rattle.gf_poly.specs.Marking.{Each, HaveVariables};
ghost use Rattle.std.specs.Prelude.{IfSome, IsTrue, List, [], length, map, pos, ℤ, ◌+◌, ◌<◌, ◌≡◌, ◌≤◌};

use gf_buchberger::are_coprime;
use gf_frac::Frac;
use gf_poly::Mono;
use gf_strands::{
    Ground, Part, Point, Strand, is_covered, spot, strand_below, subtract, take_in, take_part,
    with_room,
};
use std::alloc::Global;

/// The polynomials, of which no monomial divides a term, are taken in; each is moved.
fn enter(alloc: Global, ground: &Ground, strands: &mut Vec<Strand>, list: Vec<Part>) -> Option<()>
    requires ground { IsGround ground.now.normal.now ground.now.marks.now }
    requires strands { AreStrandsOf ground.now.normal.now ground.now.by.now strands.old.items }
    requires parts { ArePartsOnStrands ground.now.normal.now ground.now.by.now list.items }
    requires entering { HasEntering (facet_order ground.now.normal.now) (length ground.now.normal.now) (terms_of_parts ground.now.normal.now list.items)
        (with_monomials ground.now.marks.now (strand_members ground.now.normal.now strands.old.items)) }
    requires clear { AreUndividedBy (with_monomials ground.now.marks.now []) (terms_of_parts ground.now.normal.now list.items) }
    ensures entering { IfSome result (λ _. KeepsEntering (facet_order ground.now.normal.now) (length ground.now.normal.now)
        (terms_of_parts ground.now.normal.now list.items) (with_monomials ground.now.marks.now (strand_members ground.now.normal.now strands.old.items))
        [] (with_monomials ground.now.marks.now (strand_members ground.now.normal.now strands.new.items))) }
    ensures strands { IfSome result (λ _. AreStrandsOf ground.now.normal.now ground.now.by.now strands.new.items) }
{
    'list: for part in list {
        take_part(alloc, ground, part, strands)?;
    }
    Some(())
}

/// Whether a monomial divides each exponents that the points are from `base`.
fn are_covered(alloc: Global, ground: &Ground, base: &Mono, points: &[Point]) -> bool
    requires ground { IsGround ground.now.normal.now ground.now.marks.now }
    requires base { length base.now ≡ length ground.now.normal.now }
    ensures { IsTrue result → Each (λ (p : Point). HasCover (with_monomials ground.now.marks.now []) (moved ground.now.normal.now base.now p.k)) points.now }
{
    'points: for k in 0..points.len() {
        let x = match spot(alloc, base, ground.normal, points[k].k) {
            Some(x) => x,
            None => return false,
        };
        if !is_covered(&x, ground.marks) {
            return false;
        }
    }
    true
}

/// The points, with room for as many more.
pub fn copied(alloc: Global, points: &[Point]) -> Option<Vec<Point>>
    ensures { IfSome result (λ all. all.items ≡ points.now) }
{
    let mut all = with_room(alloc, points.len().saturating_mul(2))?;
    'points: for i in 0..points.len() {
        match all.push(points[i]) {
            Ok(()) => {}
            Err(_) => return None,
        }
    }
    Some(all)
}

/// The points, their coefficients negated.
fn negated(alloc: Global, points: &[Point]) -> Option<Vec<Point>>
    ensures { IfSome result (λ all. all.items ≡ map negated_point points.now) }
{
    let mut all = with_room(alloc, points.len().saturating_mul(2))?;
    'points: for i in 0..points.len() {
        let p = &points[i];
        match all.push(Point {
            k: p.k,
            coef: p.coef.neg(),
        }) {
            Ok(()) => {}
            Err(_) => return None,
        }
    }
    Some(all)
}

/// Settles the pair of the monomial at i and the strand at j: by covers, by a chain, or by its S-polynomial.
fn take_sharing(
    alloc: Global,
    ground: &Ground,
    strands: &mut Vec<Strand>,
    i: usize,
    j: usize,
) -> Option<()>
    requires ground { IsGround ground.now.normal.now ground.now.marks.now }
    requires strands { AreStrandsOf ground.now.normal.now ground.now.by.now strands.old.items }
    requires turning { HasTurning (facet_order ground.now.normal.now) (length ground.now.normal.now)
        (with_monomials ground.now.marks.now (strand_members ground.now.normal.now strands.old.items)) i (length ground.now.marks.now + j) }
    requires first { i < length ground.now.marks.now }
    requires second { j < length strands.old.items }
    ensures turning { IfSome result (λ _. KeepsTurning (facet_order ground.now.normal.now) (length ground.now.normal.now)
        (with_monomials ground.now.marks.now (strand_members ground.now.normal.now strands.old.items)) i
        (length ground.now.marks.now + j) (with_monomials ground.now.marks.now (strand_members ground.now.normal.now strands.new.items))
        (i + 1) (length ground.now.marks.now + j)) }
    ensures kept { IfSome result (λ _. AreKeptIn (with_monomials ground.now.marks.now (strand_members ground.now.normal.now strands.old.items))
        (with_monomials ground.now.marks.now (strand_members ground.now.normal.now strands.new.items))) }
    ensures size { IfSome result (λ _. length strands.old.items ≤ length strands.new.items) }
    ensures strands { IfSome result (λ _. AreStrandsOf ground.now.normal.now ground.now.by.now strands.new.items) }
{
    let x = &ground.marks[i];
    let c = &strands[j];
    let multiple = x.lcm(&c.mark);
    if are_covered(alloc, ground, &multiple, &c.rest) {
        return Some(());
    }
    if is_covered(&multiple, &ground.marks[..i]) {
        return Some(());
    }
    let points = negated(alloc, &c.rest)?;
    take_in(alloc, ground, &multiple, points, strands)
}

/// Settles the pair of the monomial at i and the strand at j.
fn take_monomial(
    alloc: Global,
    ground: &Ground,
    strands: &mut Vec<Strand>,
    i: usize,
    j: usize,
) -> Option<()>
    requires ground { IsGround ground.now.normal.now ground.now.marks.now }
    requires strands { AreStrandsOf ground.now.normal.now ground.now.by.now strands.old.items }
    requires turning { HasTurning (facet_order ground.now.normal.now) (length ground.now.normal.now)
        (with_monomials ground.now.marks.now (strand_members ground.now.normal.now strands.old.items)) i (length ground.now.marks.now + j) }
    requires first { i < length ground.now.marks.now }
    requires second { j < length strands.old.items }
    ensures turning { IfSome result (λ _. KeepsTurning (facet_order ground.now.normal.now) (length ground.now.normal.now)
        (with_monomials ground.now.marks.now (strand_members ground.now.normal.now strands.old.items)) i
        (length ground.now.marks.now + j) (with_monomials ground.now.marks.now (strand_members ground.now.normal.now strands.new.items))
        (i + 1) (length ground.now.marks.now + j)) }
    ensures kept { IfSome result (λ _. AreKeptIn (with_monomials ground.now.marks.now (strand_members ground.now.normal.now strands.old.items))
        (with_monomials ground.now.marks.now (strand_members ground.now.normal.now strands.new.items))) }
    ensures size { IfSome result (λ _. length strands.old.items ≤ length strands.new.items) }
    ensures strands { IfSome result (λ _. AreStrandsOf ground.now.normal.now ground.now.by.now strands.new.items) }
{
    let x = &ground.marks[i];
    let c = &strands[j];
    if are_coprime(x, &c.mark) {
        return Some(());
    }
    take_sharing(alloc, ground, strands, i, j)
}

/// Whether a monomial or the mark of one of `before` divides the least common multiple of the marks: where its pairs with both are settled,
/// so is this one (Buchberger's second criterion; Becker, Weispfenning, *Gröbner Bases*, 5.5).
fn is_chained(multiple: &Mono, marks: &[Mono], before: &[Strand]) -> bool
    requires monomials { HaveVariables (length multiple.now) (with_monomials marks.now []) }
    requires strands { Each (λ (l : Strand). length l.mark ≡ length multiple.now) before.now }
    ensures { (a : List ℤ) → IsTrue result → IsChained (with_monomials marks.now (strand_members a before.now)) multiple.now }
{
    if is_covered(multiple, marks) {
        return true;
    }
    strand_below(multiple, before).is_some()
}

/// The point where a strand begins, its coefficient 1.
fn whole() -> Point
    ensures k { result.k ≡ pos 0 }
    ensures coef { result.coef ≡ one_ℚ }
{
    Point {
        k: 0,
        coef: Frac::ONE,
    }
}

/// Settles the pair of the strands at i and j: by a chain or by its S-polynomial.
fn take_pair(
    alloc: Global,
    ground: &Ground,
    strands: &mut Vec<Strand>,
    i: usize,
    j: usize,
) -> Option<()>
    requires ground { IsGround ground.now.normal.now ground.now.marks.now }
    requires strands { AreStrandsOf ground.now.normal.now ground.now.by.now strands.old.items }
    requires turning { HasTurning (facet_order ground.now.normal.now) (length ground.now.normal.now)
        (with_monomials ground.now.marks.now (strand_members ground.now.normal.now strands.old.items))
        (length ground.now.marks.now + i) (length ground.now.marks.now + j) }
    requires pair { i < j }
    requires second { j < length strands.old.items }
    ensures turning { IfSome result (λ _. KeepsTurning (facet_order ground.now.normal.now) (length ground.now.normal.now)
        (with_monomials ground.now.marks.now (strand_members ground.now.normal.now strands.old.items))
        (length ground.now.marks.now + i) (length ground.now.marks.now + j) (with_monomials ground.now.marks.now
        (strand_members ground.now.normal.now strands.new.items)) ((length ground.now.marks.now + i) + 1) (length ground.now.marks.now + j)) }
    ensures kept { IfSome result (λ _. AreKeptIn (with_monomials ground.now.marks.now (strand_members ground.now.normal.now strands.old.items))
        (with_monomials ground.now.marks.now (strand_members ground.now.normal.now strands.new.items))) }
    ensures size { IfSome result (λ _. length strands.old.items ≤ length strands.new.items) }
    ensures strands { IfSome result (λ _. AreStrandsOf ground.now.normal.now ground.now.by.now strands.new.items) }
{
    let b = &strands[i];
    let c = &strands[j];
    let multiple = b.mark.lcm(&c.mark);
    if is_chained(&multiple, ground.marks, &strands[..i]) {
        return Some(());
    }
    let mut points = copied(alloc, &b.rest)?;
    subtract(&mut points, whole(), &c.rest)?;
    take_in(alloc, ground, &multiple, points, strands)
}

/// Whether the pair needs no reduction: both have one monomial alone, or the marks are coprime.
fn is_excused(b: &Strand, c: &Strand) -> bool
    requires { length b.now.mark ≡ length c.now.mark }
    ensures { (a : List ℤ) → IsTrue result → ArePairExcused (strand_member a b.now) (strand_member a c.now) }
{
    if b.rest.is_empty() && c.rest.is_empty() {
        return true;
    }
    are_coprime(&b.mark, &c.mark)
}

/// Settles the pair of the strands at i and j.
fn take_turn(
    alloc: Global,
    ground: &Ground,
    strands: &mut Vec<Strand>,
    i: usize,
    j: usize,
) -> Option<()>
    requires ground { IsGround ground.now.normal.now ground.now.marks.now }
    requires strands { AreStrandsOf ground.now.normal.now ground.now.by.now strands.old.items }
    requires turning { HasTurning (facet_order ground.now.normal.now) (length ground.now.normal.now)
        (with_monomials ground.now.marks.now (strand_members ground.now.normal.now strands.old.items))
        (length ground.now.marks.now + i) (length ground.now.marks.now + j) }
    requires pair { i < j }
    requires second { j < length strands.old.items }
    ensures turning { IfSome result (λ _. KeepsTurning (facet_order ground.now.normal.now) (length ground.now.normal.now)
        (with_monomials ground.now.marks.now (strand_members ground.now.normal.now strands.old.items))
        (length ground.now.marks.now + i) (length ground.now.marks.now + j) (with_monomials ground.now.marks.now
        (strand_members ground.now.normal.now strands.new.items)) ((length ground.now.marks.now + i) + 1) (length ground.now.marks.now + j)) }
    ensures kept { IfSome result (λ _. AreKeptIn (with_monomials ground.now.marks.now (strand_members ground.now.normal.now strands.old.items))
        (with_monomials ground.now.marks.now (strand_members ground.now.normal.now strands.new.items))) }
    ensures size { IfSome result (λ _. length strands.old.items ≤ length strands.new.items) }
    ensures strands { IfSome result (λ _. AreStrandsOf ground.now.normal.now ground.now.by.now strands.new.items) }
{
    if is_excused(&strands[i], &strands[j]) {
        return Some(());
    }
    take_pair(alloc, ground, strands, i, j)
}

/// Settles the pairs of the strand at j with the monomials and the strands before it.
fn take_row(alloc: Global, ground: &Ground, strands: &mut Vec<Strand>, j: usize) -> Option<()>
    requires ground { IsGround ground.now.normal.now ground.now.marks.now }
    requires strands { AreStrandsOf ground.now.normal.now ground.now.by.now strands.old.items }
    requires turning { HasTurning (facet_order ground.now.normal.now) (length ground.now.normal.now)
        (with_monomials ground.now.marks.now (strand_members ground.now.normal.now strands.old.items)) 0 (length ground.now.marks.now + j) }
    requires second { j < length strands.old.items }
    ensures turning { IfSome result (λ _. KeepsTurning (facet_order ground.now.normal.now) (length ground.now.normal.now)
        (with_monomials ground.now.marks.now (strand_members ground.now.normal.now strands.old.items)) 0
        (length ground.now.marks.now + j) (with_monomials ground.now.marks.now (strand_members ground.now.normal.now strands.new.items)) 0
        ((length ground.now.marks.now + j) + 1)) }
    ensures kept { IfSome result (λ _. AreKeptIn (with_monomials ground.now.marks.now (strand_members ground.now.normal.now strands.old.items))
        (with_monomials ground.now.marks.now (strand_members ground.now.normal.now strands.new.items))) }
    ensures size { IfSome result (λ _. length strands.old.items ≤ length strands.new.items) }
    ensures strands { IfSome result (λ _. AreStrandsOf ground.now.normal.now ground.now.by.now strands.new.items) }
{
    'marks: for i in 0..ground.marks.len() {
        take_monomial(alloc, ground, strands, i, j)?;
    }
    'strands: for i in 0..j {
        take_turn(alloc, ground, strands, i, j)?;
    }
    Some(())
}

/// The strands of a run that takes the pairs in turn, if all numbers fit and no more than `bound` strands are worked off. All polynomials, of
/// which no monomial divides a term, are taken in, and all pairs are settled, with the monomials in front of the strands.
pub fn strands_in_turn(
    alloc: Global,
    ground: &Ground,
    list: Vec<Part>,
    bound: u64,
) -> Option<Vec<Strand>>
    requires ground { IsGround ground.now.normal.now ground.now.marks.now }
    requires parts { ArePartsOnStrands ground.now.normal.now ground.now.by.now list.items }
    requires entering { HasEntering (facet_order ground.now.normal.now) (length ground.now.normal.now) (terms_of_parts ground.now.normal.now list.items)
        (with_monomials ground.now.marks.now []) }
    requires clear { AreUndividedBy (with_monomials ground.now.marks.now []) (terms_of_parts ground.now.normal.now list.items) }
    ensures end { IfSome result (λ ls. LeadsToEnd (facet_order ground.now.normal.now) (length ground.now.normal.now)
        (terms_of_parts ground.now.normal.now list.items) (with_monomials ground.now.marks.now []) (with_monomials ground.now.marks.now
        (strand_members ground.now.normal.now ls.items))) }
    ensures strands { IfSome result (λ ls. AreStrandsOf ground.now.normal.now ground.now.by.now ls.items) }
{
    let mut strands = with_room(alloc, list.len().saturating_mul(2))?;
    enter(alloc, ground, &mut strands, list)?;
    'turns: for j in 0..bound {
        if j as usize == strands.len() {
            return Some(strands);
        }
        take_row(alloc, ground, &mut strands, j as usize)?;
    }
    None
}
