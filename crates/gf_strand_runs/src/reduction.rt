//! Which monomials and strands of a run are needed, and the tails of those that are, reduced in place.

ghost use Rattle.gf_strands.specs.Strands.{AreStrandsOf, IsGround, IsStrandAlong, facet_order, strand_members};
ghost use Rattle.gf_strands.specs.Monomials.{AreLaterUndivided, AreMonomialsApart, chosen, with_monomials};
ghost use Rattle.gf_strand_runs.specs.Settling.{AreNeededFlags, IsTailSettled, SettlesTo};
ghost use Rattle.gf_poly.specs.Marking.{Each};
ghost use Rattle.std.specs.Prelude.{IfSome, length, ◌<◌, ◌≡◌};

use crate::turns::copied;
use gf_strands::{Ground, Strand, are_left, is_left, remainder, with_room};
use std::alloc::Global;

/// Of each monomial and then of each strand whether it is needed. No mark divides a monomial of a later one, and no monomial another one.
fn needed_flags(alloc: Global, ground: &Ground, strands: &[Strand]) -> Option<Vec<bool>>
    requires ground { IsGround ground.now.normal.now ground.now.marks.now }
    requires strands { Each (IsStrandAlong ground.now.normal.now) strands.now }
    requires apart { AreMonomialsApart ground.now.marks.now }
    requires later { AreLaterUndivided (with_monomials ground.now.marks.now (strand_members ground.now.normal.now strands.now)) }
    ensures { IfSome result (λ flags. AreNeededFlags (with_monomials ground.now.marks.now (strand_members ground.now.normal.now strands.now)) flags.items) }
{
    let marks = ground.marks;
    let mut flags = with_room(alloc, marks.len().saturating_add(strands.len()))?;
    'marks: for i in 0..marks.len() {
        let needed = is_left(&marks[i], strands, 0);
        match flags.push(needed) {
            Ok(()) => {}
            Err(_) => return None,
        }
    }
    'strands: for j in 0..strands.len() {
        let needed = is_left(&strands[j].mark, strands, j + 1);
        match flags.push(needed) {
            Ok(()) => {}
            Err(_) => return None,
        }
    }
    Some(flags)
}

/// Reduces the tail of the strand at the index `j`, if a mark from there on divides a term of it.
fn settle_tail(alloc: Global, ground: &Ground, strands: &mut Vec<Strand>, j: usize) -> Option<()>
    requires ground { IsGround ground.now.normal.now ground.now.marks.now }
    requires strands { AreStrandsOf ground.now.normal.now ground.now.by.now strands.old.items }
    requires within { j < length strands.old.items }
    ensures settled { IfSome result (λ _. IsTailSettled ground.now.normal.now ground.now.marks.now j strands.old.items strands.new.items) }
    ensures strands { IfSome result (λ _. AreStrandsOf ground.now.normal.now ground.now.by.now strands.new.items) }
{
    let strand = &strands[j];
    if are_left(alloc, ground.normal, &strand.mark, &strand.rest, strands, j) {
        return Some(());
    }
    let points = copied(alloc, &strand.rest)?;
    let rest = remainder(alloc, ground, &strand.mark, points, strands)?;
    let strand = &mut strands[j];
    strand.rest = rest;
    strand.origin = None;
    Some(())
}

/// Of each monomial and then of each strand of a run whether it is needed; the tails of the strands that are get reduced, if all numbers fit.
pub fn settled(alloc: Global, ground: &Ground, strands: &mut Vec<Strand>) -> Option<Vec<bool>>
    requires ground { IsGround ground.now.normal.now ground.now.marks.now }
    requires strands { AreStrandsOf ground.now.normal.now ground.now.by.now strands.old.items }
    requires apart { AreMonomialsApart ground.now.marks.now }
    requires later { AreLaterUndivided (with_monomials ground.now.marks.now (strand_members ground.now.normal.now strands.old.items)) }
    ensures basis { IfSome result (λ flags. SettlesTo (facet_order ground.now.normal.now) (length ground.now.normal.now)
        (with_monomials ground.now.marks.now (strand_members ground.now.normal.now strands.old.items))
        (chosen flags.items (with_monomials ground.now.marks.now (strand_members ground.now.normal.now strands.new.items)))) }
    ensures size { IfSome result (λ flags. length flags.items ≡
        length (with_monomials ground.now.marks.now (strand_members ground.now.normal.now strands.new.items))) }
    ensures strands { IfSome result (λ _. AreStrandsOf ground.now.normal.now ground.now.by.now strands.new.items) }
{
    let flags = needed_flags(alloc, ground, strands)?;
    let first = ground.marks.len();
    'strands: for j in 0..strands.len() {
        if flags[first + j] {
            settle_tail(alloc, ground, strands, j)?;
        }
    }
    Some(flags)
}
