//! The reduced basis of the parts by a queue of pairs, and its lifts. A member that is one term alone and the part of a member of the set is lifted
//! to that one, which is copied; another member is lifted by steps that end once nothing is left along the normal.

ghost use Rattle.std.specs.Prelude.{◌≡◌, ◌≢◌, ◌<◌, pos, false, true, None, [], length, get_or, IfOk, IfErr, IfSome};
ghost use Rattle.gf_frac.specs.Fraction.{one_ℚ};
ghost use Rattle.gf_poly.specs.Marking.{HaveVariables};
ghost use Rattle.gf_poly.specs.Polynomial.{coefficient, HasVariables};
ghost use Rattle.gf_ideal_theory.specs.Reduction.{HasOneMonomial};
ghost use Rattle.gf_division.specs.NormalForms.{HasSomeWeight};
ghost use Rattle.gf_buchberger.specs.Bases.{IsArrangedBasis, IsBasisRefusal};
ghost use Rattle.gf_buchberger.specs.Tasks.{IsBasisTask};
ghost use Rattle.gf_initial_theory.specs.Lifts.{IsTopLift, AreTopLifts};
ghost use Rattle.gf_strands.specs.Along.{HasNonzero, AreSmall};
ghost use Rattle.gf_strands.specs.Members.{AreMonic};
ghost use Rattle.gf_lifts.specs.Tops.{IsMarkedAt};
ghost use Rattle.gf_lifts.specs.LiftTails.{IsCopy, AreCopies};
ghost use Rattle.gf_flip.specs.Chosen.{AreAloneWhere};

use gf_buchberger::{BasisError, basis, is_single, wide_basis};
use gf_lifts::{Lifts, index_of_mark, push, top_lift};
use gf_order::Order;
use gf_poly::{Marked, MarkedSet, Poly};
use gf_strands::{pivot_of, with_room};
use std::alloc::Global;

/// What a run goes by: the number of variables, and the order.
#[derive(Clone, Copy)]
pub struct Task<'a> {
    pub n: u32,
    pub order: &'a Order,
}

/// The reduced basis by `basis`, and where numbers of that don't fit by `wide_basis`; the refusal of `basis` is told.
///
/// # Errors
///
/// Those of `basis`.
pub fn basis_by_queue(
    alloc: Global,
    task: &Task,
    list: &[Poly],
    pairs: u64,
) -> Result<MarkedSet, BasisError>
    requires { IsBasisTask task.now.order.now task.now.n list.now }
    ensures value { IfOk result (IsArrangedBasis task.now.order.now task.now.n list.now) }
    ensures cause { IfErr result (IsBasisRefusal task.now.order.now task.now.n list.now pairs) }
{
    match basis(alloc, task.n, list, task.order, pairs) {
        Ok(basis) => Ok(basis),
        Err(refusal) => {
            if refusal.is_of_numbers()
                && let Ok(basis) = wide_basis(alloc, task.n, list, task.order, pairs)
            {
                return Ok(basis);
            }
            Err(refusal)
        }
    }
}

/// The index of the member of the set with the mark of a monomial, if the flag of that member is set. It is looked for from an index on.
fn untouched(member: &Marked, by: &[Marked], from: usize, alone: &[bool]) -> Option<usize>
    requires { length alone.now ≡ length by.now }
    ensures single { IfSome result (λ _. HasOneMonomial member.now) }
    ensures index { IfSome result (IsMarkedAt by.now member.now.head) }
    ensures alone { IfSome result (λ j. get_or alone.now j false ≡ true) }
{
    if !is_single(member) {
        return None;
    }
    let j = index_of_mark(member.head(), by, from)?;
    if !alone[j] {
        return None;
    }
    Some(j)
}

/// The lift, whether it is copied from the set, and where to look on for the next one. A member of the
/// set with the same mark is looked for from an index on; it is copied into the memory of the member that is lifted.
fn lifted(
    alloc: Global,
    member: Marked,
    by: &[Marked],
    from: usize,
    alone: &[bool],
    normal: &[i128],
    pivot: usize,
) -> Option<(Marked, bool, usize)>
    requires marked { HasSomeWeight by.now }
    requires alone { AreAloneWhere normal.now by.now alone.now }
    requires poly { HasVariables (length normal.now) member.poly }
    requires monic { coefficient member.poly member.head ≡ one_ℚ }
    requires members { HaveVariables (length normal.now) by.now }
    requires bounded { AreSmall normal.now }
    requires inside { pivot < length normal.now }
    requires nonzero { get_or normal.now pivot (pos 0) ≢ pos 0 }
    ensures value { IfSome result (λ l. IsTopLift by.now normal.now member l.0) }
    ensures variables { IfSome result (λ l. HasVariables (length normal.now) l.0.poly) }
    ensures copied { IfSome result (λ l. IsCopy by.now l.0 l.1) }
{
    if let Some(j) = untouched(&member, by, from, alone) {
        return match by[j].copy_over(member) {
            Ok(copy) => Some((copy, true, j + 1)),
            Err(_) => None,
        };
    }
    let lift = top_lift(alloc, &member, by, normal, pivot)?;
    Some((lift, false, from))
}

/// The members less what steps by the set lead to, marked as they are, if nothing of a remainder is a multiple of the
/// normal apart from the mark, and all numbers fit. The flags say of which members of the set no term but the marked one is
/// along the normal.
pub fn top_lifts(
    alloc: Global,
    items: Vec<Marked>,
    by: &[Marked],
    alone: &[bool],
    normal: &[i128],
) -> Option<Lifts>
    requires marked { HasSomeWeight by.now }
    requires alone { AreAloneWhere normal.now by.now alone.now }
    requires variables { HaveVariables (length normal.now) items.items }
    requires monic { AreMonic items.items }
    requires members { HaveVariables (length normal.now) by.now }
    requires bounded { AreSmall normal.now }
    requires nonzero { HasNonzero normal.now }
    ensures value { IfSome result (λ ls. AreTopLifts by.now normal.now items.items ls.members.items) }
    ensures variables { IfSome result (λ ls. HaveVariables (length normal.now) ls.members.items) }
    ensures copied { IfSome result (λ ls. AreCopies by.now ls.members.items ls.copied.items) }
{
    let pivot = pivot_of(normal);
    let mut all = Lifts {
        members: with_room(alloc, items.len())?,
        copied: with_room(alloc, items.len())?,
    };
    let mut from = 0;
    'members: for member in items {
        let (lift, is_copy, next) = lifted(alloc, member, by, from, alone, normal, pivot)?;
        push(&mut all, lift, is_copy)?;
        from = next;
    }
    Some(all)
}
