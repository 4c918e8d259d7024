//! One step of reduction.

ghost use Rattle.std.specs.Prelude.{◌≡◌, length, IfOk, IfErr};
ghost use Rattle.gf_frac.specs.Fraction.{one_ℚ, zero_ℚ};
ghost use Rattle.gf_exponents_theory.specs.Exponents.{Divides};
ghost use Rattle.gf_poly.specs.Polynomial.{coefficient, IsDescending, HasVariables};
ghost use Rattle.gf_ideal_theory.specs.Membership.{HasMonomial};
ghost use Rattle.gf_division.specs.Steps.{StepsTo, IsStepRefusal};

use crate::dividend::Dividend;
use gf_poly::{Marked, Mono, Poly, PolyError};
use std::alloc::Global;

/// `f` after the step that takes its term at `at` away: that term, divided by the marked monomial of `by`, times `by` is
/// subtracted.
///
/// `at` is a monomial of `f`, the marked monomial of `by` divides it, and its coefficient in `by` is 1.
///
/// # Errors
///
/// `Overflow` and `Exponent` only where two numbers of this step don't fit; it holds them.
pub fn reduce_step(alloc: Global, f: &Poly, at: &Mono, by: &Marked) -> Result<Poly, PolyError>
    requires variables { HasVariables (length at.now) f.now }
    requires member { HasVariables (length at.now) by.now.poly }
    requires there { HasMonomial f.now at.now }
    requires divides { Divides by.now.head at.now }
    requires monic { coefficient by.now.poly by.now.head ≡ one_ℚ }
    ensures step { IfOk result (StepsTo f.now by.now at.now) }
    ensures gone { IfOk result (λ g. coefficient g at.now ≡ zero_ℚ) }
    ensures descending { IfOk result IsDescending }
    ensures variables { IfOk result (HasVariables (length at.now)) }
    ensures cause { IfErr result (IsStepRefusal f.now by.now at.now) }
{
    let mut rest = Dividend::new(alloc, f.copy()?);
    let _ = rest.descend(at)?;
    let _ = rest.step(by)?;
    Ok(rest.into_poly()?)
}
