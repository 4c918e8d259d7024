//! Lifts of the chosen ones of the monomials and the members of a run on the parts. A monomial is the part of a member of the set, which is
//! copied; another member is lifted by steps that end once nothing is left along the normal.

ghost use Rattle.gf_division.specs.NormalForms.{HasSomeWeight};
ghost use Rattle.gf_strands.specs.Along.{AreSmall, HasNonzero};
ghost use Rattle.gf_flip.specs.Chosen.{IsLiftedWhere};
ghost use Rattle.gf_lifts.specs.LiftTails.{AreCopies};
ghost use Rattle.gf_strands.specs.Strands.{AreStrandsOf, IsGround, IsStrandAlong, IsStrandOf, strand_member, strand_members};
ghost use Rattle.gf_strands.specs.Monomials.{IsAddedWhere, chosen, with_monomials};
ghost use Rattle.gf_strands.specs.Splits.{IsAloneAt};
ghost use Rattle.gf_initial_theory.specs.Lifts.{AreTopLifts, IsTopLift};
ghost use Rattle.gf_poly.specs.Marking.{HaveVariables};
ghost use Rattle.gf_poly.specs.Polynomial.{HasVariables, SamePolynomial};
ghost use Rattle.std.specs.Prelude.{IfSome, [], get_or, length, pos, true, ℕ, ◌<◌, ◌≡◌, ◌≢◌};

use gf_lifts::{Lifts, divided_at, index_at, push, top_lift};
use gf_poly::{Marked, Poly, Term};
use gf_strands::{Ground, SpareLists, Strand, one, pivot_of, spot, with_room};
use std::alloc::Global;

/// A copy of a member, in a spare list, if there is one.
fn copied(alloc: Global, member: &Marked, spare: &mut SpareLists) -> Option<Marked>
    ensures { IfSome result (λ b. b ≡ member.now) }
{
    let terms = member.poly().terms();
    let mut room = match spare.room(alloc, terms.len()) {
        Ok(room) => room,
        Err(_) => return None,
    };
    match room.push(terms[member.index()].copy()) {
        Ok(()) => {}
        Err(_) => return None,
    }
    let old = Marked::mark(Poly::from_descending(room), 0);
    match member.copy_over(old) {
        Ok(copy) => Some(copy),
        Err(_) => None,
    }
}

/// Adds a copy of a member, if it is chosen.
fn add_copy(
    alloc: Global,
    lifts: &mut Lifts,
    member: &Marked,
    is_chosen: bool,
    spare: &mut SpareLists,
) -> Option<()>
    ensures members { IfSome result (λ _. IsAddedWhere is_chosen member.now lifts.old.members.items lifts.new.members.items) }
    ensures copied { IfSome result (λ _. IsAddedWhere is_chosen true lifts.old.copied.items lifts.new.copied.items) }
{
    if !is_chosen {
        return Some(());
    }
    let copy = copied(alloc, member, spare)?;
    push(lifts, copy, true)?;
    Some(())
}

/// The polynomial on a strand, marked where it begins, if numbers fit.
fn member_of(alloc: Global, strand: &Strand, normal: &[i128]) -> Option<Marked>
    requires bounded { AreSmall normal.now }
    requires nonzero { HasNonzero normal.now }
    requires strand { IsStrandAlong normal.now strand.now }
    ensures twin { IfSome result (λ b. SamePolynomial b.poly (strand_member normal.now strand.now).poly) }
    ensures head { IfSome result (λ b. b.head ≡ strand.now.mark) }
    ensures variables { IfSome result (λ b. HasVariables (length normal.now) b.poly) }
{
    let mut terms = with_room(alloc, strand.rest.len().saturating_add(1))?;
    match terms.push(Term {
        coef: one(),
        mono: strand.mark.copy(),
    }) {
        Ok(()) => {}
        Err(_) => return None,
    }
    'points: for i in 0..strand.rest.len() {
        let p = &strand.rest[i];
        match terms.push(Term {
            coef: p.coef,
            mono: spot(alloc, &strand.mark, normal, p.k)?,
        }) {
            Ok(()) => {}
            Err(_) => return None,
        }
    }
    let poly = match Poly::from_terms(terms) {
        Ok(poly) => poly,
        Err(_) => return None,
    };
    let index = index_at(poly.terms(), &strand.mark)?;
    Some(Marked::mark(poly, index))
}

/// The lift of a strand: where it is the part of a member divided by a number, the member divided by that number, else what steps lead to.
fn lift(alloc: Global, strand: &Strand, ground: &Ground, pivot: usize) -> Option<Marked>
    requires marked { HasSomeWeight ground.now.by.now }
    requires ground { IsGround ground.now.normal.now ground.now.marks.now }
    requires strand { IsStrandOf ground.now.normal.now ground.now.by.now strand.now }
    requires set { HaveVariables (length ground.now.normal.now) ground.now.by.now }
    requires inside { pivot < length ground.now.normal.now }
    requires nonzero { get_or ground.now.normal.now pivot (pos 0) ≢ pos 0 }
    ensures value { IfSome result (IsTopLift ground.now.by.now ground.now.normal.now (strand_member ground.now.normal.now strand.now)) }
    ensures variables { IfSome result (λ l. HasVariables (length ground.now.normal.now) l.poly) }
{
    if let Some(index) = strand.origin {
        return divided_at(&ground.by[index], &strand.mark);
    }
    let member = member_of(alloc, strand, ground.normal)?;
    top_lift(alloc, &member, ground.by, ground.normal, pivot)
}

/// Adds the lift of a strand, if it is chosen.
fn add_lift(
    alloc: Global,
    lifts: &mut Lifts,
    strand: &Strand,
    is_chosen: bool,
    ground: &Ground,
    pivot: usize,
) -> Option<()>
    requires marked { HasSomeWeight ground.now.by.now }
    requires ground { IsGround ground.now.normal.now ground.now.marks.now }
    requires strand { IsStrandOf ground.now.normal.now ground.now.by.now strand.now }
    requires set { HaveVariables (length ground.now.normal.now) ground.now.by.now }
    requires inside { pivot < length ground.now.normal.now }
    requires nonzero { get_or ground.now.normal.now pivot (pos 0) ≢ pos 0 }
    ensures { IfSome result (λ _. IsLiftedWhere is_chosen (length ground.now.normal.now) ground.now.by.now ground.now.normal.now
        (strand_member ground.now.normal.now strand.now) lifts.old.members.items lifts.new.members.items lifts.old.copied.items lifts.new.copied.items) }
{
    if !is_chosen {
        return Some(());
    }
    let lift = lift(alloc, strand, ground, pivot)?;
    push(lifts, lift, false)?;
    Some(())
}

/// The lifts of the monomials, which are the parts of the members at these indices of the set, and of the strands behind them, as far as their flags
/// are set, if all numbers fit.
pub fn chosen_lifts(
    alloc: Global,
    ground: &Ground,
    indices: &[usize],
    strands: &[Strand],
    flags: &[bool],
    spare: &mut SpareLists,
) -> Option<Lifts>
    requires marked { HasSomeWeight ground.now.by.now }
    requires ground { IsGround ground.now.normal.now ground.now.marks.now }
    requires set { HaveVariables (length ground.now.normal.now) ground.now.by.now }
    requires strands { AreStrandsOf ground.now.normal.now ground.now.by.now strands.now }
    requires size { length ground.now.marks.now ≡ length indices.now }
    requires alone { (i : ℕ) → i < length indices.now → IsAloneAt ground.now.normal.now ground.now.by.now (get_or indices.now i 0)
        (get_or ground.now.marks.now i []) }
    requires flags { length flags.now ≡ length (with_monomials ground.now.marks.now (strand_members ground.now.normal.now strands.now)) }
    ensures value { IfSome result (λ ls. AreTopLifts ground.now.by.now ground.now.normal.now
        (chosen flags.now (with_monomials ground.now.marks.now (strand_members ground.now.normal.now strands.now))) ls.members.items) }
    ensures variables { IfSome result (λ ls. HaveVariables (length ground.now.normal.now) ls.members.items) }
    ensures copied { IfSome result (λ ls. AreCopies ground.now.by.now ls.members.items ls.copied.items) }
{
    let pivot = pivot_of(ground.normal);
    let mut lifts = Lifts {
        members: with_room(alloc, flags.len())?,
        copied: with_room(alloc, flags.len())?,
    };
    let first = ground.marks.len();
    'marks: for i in 0..first {
        add_copy(alloc, &mut lifts, &ground.by[indices[i]], flags[i], spare)?;
    }
    'strands: for j in 0..strands.len() {
        add_lift(
            alloc,
            &mut lifts,
            &strands[j],
            flags[first + j],
            ground,
            pivot,
        )?;
    }
    Some(lifts)
}
