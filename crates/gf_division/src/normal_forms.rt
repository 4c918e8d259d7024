//! Normal forms.

ghost use Rattle.std.specs.Prelude.{IfOk, IfErr};
ghost use Rattle.gf_poly.specs.Polynomial.{IsDescending, HasVariables, KeepsVariables};
ghost use Rattle.gf_ideal_theory.specs.Marks.{HasPositiveWeight};
ghost use Rattle.gf_ideal_theory.specs.NormalForms.{IsNormalForm};
ghost use Rattle.gf_division.specs.Steps.{IsReductionRefusal};
ghost use Rattle.gf_division.specs.NormalForms.{HasSomeWeight, HaveSameVariables};

use crate::front::Guide;
use crate::remainders::remainder;
use gf_poly::{Marked, MarkedSet, Poly, PolyError};
use std::alloc::Global;

/// The normal form of `f` by these members, as `normal_form` has it; it is worked out in the place of `f`.
///
/// The members are monic, some weight sets each mark above the rest, and they have the variables of `f`.
///
/// # Errors
///
/// As those of `normal_form`.
pub fn reduced(alloc: Global, f: Poly, by: &[Marked]) -> Result<Poly, PolyError>
    requires marked { HasSomeWeight by.now }
    requires variables { HaveSameVariables f by.now }
    ensures value { IfOk result (IsNormalForm by.now f) }
    ensures descending { IfOk result IsDescending }
    ensures variables { IfOk result (KeepsVariables f) }
    ensures cause { IfErr result (IsReductionRefusal by.now f) }
{
    remainder(alloc, f, by, &mut Guide::unknown(alloc))
}

/// The normal form of `f` by the set: no marked monomial divides a monomial of it.
///
/// Each time the deglex greatest term that a marked monomial divides is taken away, by the first member whose marked
/// monomial divides it. The marked coefficients are 1, and some positive weight sets each marked monomial above the
/// other ones of its polynomial, so that this ends. What it ends with doesn't depend on which terms are taken, so a long reduction
/// takes them in another order (`remainder`).
///
/// # Errors
///
/// `Overflow` and `Exponent` only where two numbers of a step by the set, from a polynomial that such steps lead to,
/// don't fit; it holds them.
pub fn normal_form(alloc: Global, f: &Poly, by: &MarkedSet) -> Result<Poly, PolyError>
    requires marked { HasPositiveWeight by.now.variables by.now.items }
    requires variables { HasVariables by.now.variables f.now }
    ensures value { IfOk result (IsNormalForm by.now.items f.now) }
    ensures descending { IfOk result IsDescending }
    ensures variables { IfOk result (HasVariables by.now.variables) }
    ensures cause { IfErr result (IsReductionRefusal by.now.items f.now) }
{
    reduced(alloc, f.copy()?, by.items())
}
