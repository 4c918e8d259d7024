//! The flip back.
ghost use Rattle.std.specs.Prelude.{◌≡◌, List, IfOk, IfErr};
ghost use Rattle.gf_poly.specs.Marking.{MarkedPolynomial};
ghost use Rattle.gf_facets_theory.specs.Rows.{negated};
ghost use Rattle.gf_buchberger.specs.Bases.{IsWantOfMemory};
ghost use Rattle.gf_flip.specs.Operations.{IsFlipRefusal, IsFlipWithinLimits};
ghost use Rattle.gf_back.specs.Back.{IsCrossed};

use gf_buchberger::BasisError;
use gf_flip::{FlipError, flip};
use gf_poly::MarkedSet;
use gf_vec::IntVec;
use std::alloc::Global;

/// The basis at which the flip to this set started, where the flip crossed the facet with this normal; the normal has an entry for each
/// variable.
///
/// For some ideal and some region the set is on the other side of such a facet. The result is equal to each basis from which a flip across
/// a facet with this normal leads to the set: it is the flip of the set along the opposite normal. Each run of it settles at most `pairs`
/// pairs.
///
/// # Errors
///
/// Those of the flip along the opposite normal:
///
/// - `Overflow`, `Exponent`: the operands of an operation of this flip don't fit, even if those of the first flip did.
/// - `PairBudget`: a run has more than `pairs` pairs to settle.
/// - `Memory`: memory runs out. There is no other error if no operation leaves its range and no run has more than `pairs` pairs.
pub fn flip_back(
    alloc: Global,
    set: &MarkedSet,
    normal: &IntVec,
    pairs: u64,
) -> Result<MarkedSet, FlipError>
    requires { (bs : List MarkedPolynomial) × IsCrossed set.now.variables bs normal.now set.now.items }
    ensures value { IfOk result (λ t. (bs : List MarkedPolynomial) → IsCrossed set.now.variables bs normal.now set.now.items → t.items ≡ bs) }
    ensures variables { IfOk result (λ t. t.variables ≡ set.now.variables) }
    ensures cause { IfErr result (IsFlipRefusal set.now.variables set.now.items (negated normal.now) pairs) }
    ensures complete { IsFlipWithinLimits set.now.variables set.now.items (negated normal.now) pairs → IfErr result IsWantOfMemory }
{
    let back = match normal.opposite() {
        Ok(back) => back,
        Err(_) => return Err(BasisError::Memory),
    };
    flip(alloc, set, &back, pairs)
}
