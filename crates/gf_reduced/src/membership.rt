//! Membership in the ideal of a Gröbner basis.
ghost use Rattle.std.specs.Prelude.{◌≡◌, ◌↔◌, IfOk, IfErr, IsTrue};
ghost use Rattle.gf_poly.specs.declared.error.PolyError.TheVariants.{Memory};
ghost use Rattle.gf_poly.specs.Polynomial.{HasVariables};
ghost use Rattle.gf_poly.specs.Marking.{polys};
ghost use Rattle.gf_ideal_theory.specs.Membership.{IsMember};
ghost use Rattle.gf_ideal_theory.specs.Bases.{IsBasis};
ghost use Rattle.gf_division.specs.Steps.{IsReductionRefusal};
ghost use Rattle.gf_reduced.specs.Refusals.{IsReductionWithinLimits};

use gf_division::{Guide, remainder};
use gf_poly::{MarkedSet, Poly, PolyError};
use std::alloc::Global;

/// Whether `f` is in the ideal that the basis generates: whether the product of `f` with some nonzero integer is a sum of multiples of its
/// members by polynomials with integer coefficients. The basis is a Gröbner basis of this ideal for its marking, with marked coefficients
/// 1.
///
/// The answer is yes if and only if the remainder of `f` is zero (Cox, Little, O'Shea, *Ideals, Varieties, and Algorithms*, 2.6).
///
/// # Errors
///
/// `Overflow`, `Exponent`: the operands, which it holds, of a reduction step by the basis don't fit; the step starts from a polynomial to
/// which such steps lead from `f`. `Memory`: memory runs out.
#[tactic(auto, using(crate::proofs::RefusalLaws::reduction_only_memory))]
pub fn contains(alloc: Global, basis: &MarkedSet, f: &Poly) -> Result<bool, PolyError>
    requires basis { IsBasis basis.now.variables (polys basis.now.items) basis.now.items }
    requires variables { HasVariables basis.now.variables f.now }
    ensures ok { IfOk result (λ r. IsTrue r ↔ IsMember basis.now.variables (polys basis.now.items) f.now) }
    ensures cause { IfErr result (IsReductionRefusal basis.now.items f.now) }
    ensures complete { IsReductionWithinLimits basis.now.items f.now → IfErr result (λ e. e ≡ Memory) }
{
    // The members have their variables.
    let _ = basis.items();
    let rest = remainder(alloc, f.copy()?, basis.items(), &mut Guide::unknown(alloc))?;
    Ok(rest.is_zero())
}
