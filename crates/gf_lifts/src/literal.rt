//! Lifts: members of the basis of the parts, less their remainders.

ghost use Rattle.std.specs.Prelude.{IfOk, IfErr};
ghost use Rattle.gf_poly.specs.Marking.{HaveVariables};
ghost use Rattle.gf_poly.specs.Polynomial.{HasVariables};
ghost use Rattle.gf_ideal_theory.specs.Marks.{HasPositiveWeight};
ghost use Rattle.gf_initial_theory.specs.Lifts.{IsLift, AreLifts};
ghost use Rattle.gf_lifts.specs.Lifting.{IsLiftable, AreLiftable};
ghost use Rattle.gf_lifts.specs.LiftRefusals.{IsLiftRefusal, IsLiftsRefusal};

use gf_division::{index_of, normal_form};
use gf_poly::{Marked, MarkedSet, PolyError};
use std::alloc::Global;

/// A member less its remainder, marked as it is.
fn lift(alloc: Global, member: &Marked, by: &MarkedSet) -> Result<Marked, PolyError>
    requires marked { HasPositiveWeight by.now.variables by.now.items }
    requires variables { HasVariables by.now.variables member.now.poly }
    requires liftable { IsLiftable by.now.items member.now }
    ensures value { IfOk result (IsLift by.now.items member.now) }
    ensures variables { IfOk result (λ l. HasVariables by.now.variables l.poly) }
    ensures cause { IfErr result (IsLiftRefusal by.now.items member.now) }
{
    // What `head` ensures says that the terms of the member descend, also where the difference is refused.
    let head = member.head();
    let rest = normal_form(alloc, member.poly(), by)?;
    let poly = member.poly().sub(&rest)?;
    let index = index_of(poly.terms(), head);
    Ok(Marked::mark(poly, index))
}

/// The members less their remainders, marked as they are.
///
/// # Errors
///
/// `Overflow` and `Exponent` only at an operation of the reduction of a member or of the difference with its remainder; it holds the operands, which
/// don't fit. `Memory` where there is none.
pub fn literal_lifts(
    alloc: Global,
    items: &[Marked],
    by: &MarkedSet,
) -> Result<Vec<Marked>, PolyError>
    requires marked { HasPositiveWeight by.now.variables by.now.items }
    requires variables { HaveVariables by.now.variables items.now }
    requires liftable { AreLiftable by.now.items items.now }
    ensures value { IfOk result (λ ls. AreLifts by.now.items items.now ls.items) }
    ensures variables { IfOk result (λ ls. HaveVariables by.now.variables ls.items) }
    ensures cause { IfErr result (IsLiftsRefusal by.now.items items.now) }
{
    let mut all = Vec::with_capacity(alloc, items.len())?;
    'members: for i in 0..items.len() {
        let lifted = lift(alloc, &items[i], by)?;
        all.push(lifted)?;
    }
    Ok(all)
}
