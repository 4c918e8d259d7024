//! Remainders on strands, by monomials, of which the exponents alone are kept, and by strands; and new strands.

ghost use Rattle.gf_division.specs.Remainders.{IsRemainder};
ghost use Rattle.gf_strands.specs.Along.{AreSmall};
ghost use Rattle.gf_strands.specs.Strands.{AreFalling, AreStrandsOf, AreSpots, HasStrandBelow, IsGround, IsStrandAlong, IsMonomialFor, IsPartOnStrand};
ghost use Rattle.gf_strands.specs.Strands.{KeepsFurther};
ghost use Rattle.gf_strands.specs.Strands.{KeepsWork, NoStrandBelow, NoneDividesTo, facet_order, strand_members, strand_terms, moved, terms_of_part};
ghost use Rattle.gf_strands.specs.Monomials.{with_monomials};
ghost use Rattle.gf_strands.specs.Forms.{HasStrandFrom, NoStrandFrom, HasCover, IsTakenIn};
ghost use Rattle.gf_ideal_theory.specs.Reduction.{IsDivisible, IsIrreducible};
ghost use Rattle.gf_poly.specs.Marking.{Each, HaveVariables};
ghost use Rattle.std.specs.Prelude.{Contains, IfNone, IfSome, IsTrue, [], false, length, pos, ◌++◌, ◌<ℤ◌, ◌∷◌, ◌≡◌};

use crate::strands::{Ground, Part, Point, Strand, spot, strand_of, subtract};
use gf_poly::Mono;
use std::alloc::Global;

/// How many points one remainder may work off.
const STEPS: u32 = 1 << 20;

/// The index of the first monomial that divides `x`.
fn monomial_below(x: &Mono, marks: &[Mono]) -> Option<usize>
    requires { HaveVariables (length x.now) (with_monomials marks.now []) }
    ensures found { IfSome result (IsMonomialFor marks.now x.now) }
    ensures none { IfNone result (NoneDividesTo marks.now (length marks.now) x.now) }
{
    'marks: for j in 0..marks.len() {
        if marks[j].divides(x) {
            return Some(j);
        }
    }
    None
}

/// Whether a monomial divides `x`.
pub fn is_covered(x: &Mono, marks: &[Mono]) -> bool
    requires { HaveVariables (length x.now) (with_monomials marks.now []) }
    ensures yes { IsTrue result → HasCover (with_monomials marks.now []) x.now }
    ensures no { result ≡ false → IsDivisible (Contains (with_monomials marks.now [])) x.now → ⊥ }
{
    monomial_below(x, marks).is_some()
}

/// The index of the first strand whose mark divides `x`.
pub fn strand_below(x: &Mono, strands: &[Strand]) -> Option<usize>
    requires { Each (λ (l : Strand). length l.mark ≡ length x.now) strands.now }
    ensures found { IfSome result (HasStrandBelow strands.now x.now) }
    ensures none { IfNone result (NoStrandBelow strands.now x.now) }
{
    'strands: for j in 0..strands.len() {
        if strands[j].mark.divides(x) {
            return Some(j);
        }
    }
    None
}

/// Whether no mark of a strand from an index on divides `x`.
pub fn is_left(x: &Mono, strands: &[Strand], from: usize) -> bool
    requires { Each (λ (l : Strand). length l.mark ≡ length x.now) strands.now }
    ensures left { IsTrue result → NoStrandFrom strands.now from x.now }
    ensures divided { result ≡ false → HasStrandFrom strands.now from x.now }
{
    'strands: for j in from..strands.len() {
        if strands[j].mark.divides(x) {
            return false;
        }
    }
    true
}

/// Whether no mark of a strand from an index on divides one of these terms on the strand through `base`.
pub fn are_left(
    alloc: Global,
    normal: &[i128],
    base: &Mono,
    points: &[Point],
    strands: &[Strand],
    from: usize,
) -> bool
    requires bounded { AreSmall normal.now }
    requires base { length base.now ≡ length normal.now }
    requires strands { Each (IsStrandAlong normal.now) strands.now }
    ensures { IsTrue result → Each (λ (p : Point). NoStrandFrom strands.now from (moved normal.now base.now p.k)) points.now }
{
    if from >= strands.len() {
        return true;
    }
    'points: for i in 0..points.len() {
        let x = match spot(alloc, base, normal, points[i].k) {
            Some(x) => x,
            None => return false,
        };
        if !is_left(&x, strands, from) {
            return false;
        }
    }
    true
}

/// Works a point off that was the last one of `work`: it is left out, reduced, or kept.
fn work_off(
    alloc: Global,
    ground: &Ground,
    base: &Mono,
    p: Point,
    work: &mut Vec<Point>,
    kept: &mut Vec<Point>,
    strands: &[Strand],
) -> Option<()>
    requires ground { IsGround ground.now.normal.now ground.now.marks.now }
    requires base { length base.now ≡ length ground.now.normal.now }
    requires strands { Each (IsStrandAlong ground.now.normal.now) strands.now }
    ensures worked { IfSome result (λ _. KeepsWork ground.now.normal.now base.now
        (with_monomials ground.now.marks.now (strand_members ground.now.normal.now strands.now)) (work.old.items ++ p ∷ []) kept.old.items work.new.items
        kept.new.items) }
    ensures further { IfSome result (λ _. KeepsFurther (work.old.items ++ p ∷ []) kept.old.items work.new.items kept.new.items) }
{
    if p.coef.is_zero() {
        return Some(());
    }
    let x = spot(alloc, base, ground.normal, p.k)?;
    if is_covered(&x, ground.marks) {
        return Some(());
    }
    if let Some(j) = strand_below(&x, strands) {
        return subtract(work, p, &strands[j].rest);
    }
    match kept.insert(0, p) {
        Ok(()) => Some(()),
        Err(_) => None,
    }
}

/// The remainder of points on the strand through `base` by the monomials and the strands, if all numbers fit.
pub fn remainder(
    alloc: Global,
    ground: &Ground,
    base: &Mono,
    points: Vec<Point>,
    strands: &[Strand],
) -> Option<Vec<Point>>
    requires ground { IsGround ground.now.normal.now ground.now.marks.now }
    requires base { length base.now ≡ length ground.now.normal.now }
    requires strands { Each (IsStrandAlong ground.now.normal.now) strands.now }
    requires on { AreSpots ground.now.normal.now base.now points.items }
    requires falling { AreFalling points.items }
    ensures value { IfSome result (λ r. IsRemainder (with_monomials ground.now.marks.now (strand_members ground.now.normal.now strands.now))
        (strand_terms ground.now.normal.now base.now points.items) (strand_terms ground.now.normal.now base.now r.items)) }
    ensures on { IfSome result (λ r. AreSpots ground.now.normal.now base.now r.items) }
    ensures falling { IfSome result (λ r. AreFalling r.items) }
    ensures further { IfSome result (λ r. Each (λ (q : Point). pos 0 <ℤ q.k) points.items → Each (λ (q : Point). pos 0 <ℤ q.k) r.items) }
{
    let mut work = points;
    let mut kept = Vec::new(alloc);
    'steps: for _ in 0..STEPS {
        let p = match work.pop() {
            Some(p) => p,
            None => return Some(kept),
        };
        work_off(alloc, ground, base, p, &mut work, &mut kept, strands)?;
    }
    None
}

/// Adds a strand, if there is memory.
pub fn push_strand(strands: &mut Vec<Strand>, strand: Strand) -> Option<()>
    ensures { IfSome result (λ _. strands.new.items ≡ strands.old.items ++ strand ∷ []) }
{
    match strands.push(strand) {
        Ok(()) => Some(()),
        Err(_) => None,
    }
}

/// Reduces points on the strand through `base` by the monomials and the strands; what is left, unless it is zero, is a new strand. None where a number
/// doesn't fit, `2^20` steps don't reach the end, or memory runs out.
pub fn take_in(
    alloc: Global,
    ground: &Ground,
    base: &Mono,
    points: Vec<Point>,
    strands: &mut Vec<Strand>,
) -> Option<()>
    requires ground { IsGround ground.now.normal.now ground.now.marks.now }
    requires base { length base.now ≡ length ground.now.normal.now }
    requires strands { AreStrandsOf ground.now.normal.now ground.now.by.now strands.old.items }
    requires on { AreSpots ground.now.normal.now base.now points.items }
    requires falling { AreFalling points.items }
    ensures taken { IfSome result (λ _. IsTakenIn (facet_order ground.now.normal.now) (strand_terms ground.now.normal.now base.now points.items)
        (with_monomials ground.now.marks.now (strand_members ground.now.normal.now strands.old.items))
        (with_monomials ground.now.marks.now (strand_members ground.now.normal.now strands.new.items))) }
    ensures strands { IfSome result (λ _. AreStrandsOf ground.now.normal.now ground.now.by.now strands.new.items) }
{
    let left = remainder(alloc, ground, base, points, strands)?;
    if left.is_empty() {
        return Some(());
    }
    let strand = strand_of(alloc, ground.normal, base, left, None)?;
    push_strand(strands, strand)
}

/// Reduces a part, of which no monomial divides a term, by the strands; what is left, unless it is zero, is a new strand. Where no mark of a strand divides
/// a term either, its points are moved into the strand. None where a number doesn't fit, `2^20` steps don't reach the end, or memory runs out.
pub fn take_part(
    alloc: Global,
    ground: &Ground,
    part: Part,
    strands: &mut Vec<Strand>,
) -> Option<()>
    requires ground { IsGround ground.now.normal.now ground.now.marks.now }
    requires strands { AreStrandsOf ground.now.normal.now ground.now.by.now strands.old.items }
    requires part { IsPartOnStrand ground.now.normal.now ground.now.by.now part }
    requires clear { IsIrreducible (Contains (with_monomials ground.now.marks.now [])) (terms_of_part ground.now.normal.now part) }
    ensures taken { IfSome result (λ _. IsTakenIn (facet_order ground.now.normal.now) (terms_of_part ground.now.normal.now part)
        (with_monomials ground.now.marks.now (strand_members ground.now.normal.now strands.old.items))
        (with_monomials ground.now.marks.now (strand_members ground.now.normal.now strands.new.items))) }
    ensures strands { IfSome result (λ _. AreStrandsOf ground.now.normal.now ground.now.by.now strands.new.items) }
{
    if are_left(alloc, ground.normal, &part.base, &part.points, strands, 0) {
        let Part {
            index,
            base,
            points,
        } = part;
        let strand = strand_of(alloc, ground.normal, &base, points, Some(index))?;
        return push_strand(strands, strand);
    }
    let Part { base, points, .. } = part;
    take_in(alloc, ground, &base, points, strands)
}
