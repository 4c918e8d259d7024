//! The root of the tree of the bases in a region, from generators.
ghost use Rattle.std.specs.Prelude.{◌≡◌, ◌<◌, ◌^◌, ◌<ℤ◌, pos, length, All, IfOk, IfErr};
ghost use Rattle.gf_exponents_theory.specs.Orders.{gains};
ghost use Rattle.gf_exponents_theory.specs.SixOrders.{MonomialOrder};
ghost use Rattle.gf_order.specs.Comparisons.{HasEntries};
ghost use Rattle.gf_order.specs.Weights.{AreBounded};
ghost use Rattle.gf_buchberger.specs.declared.queue.Strategy.TheVariants.{Degree};
ghost use Rattle.gf_buchberger.specs.Ruled.{AreRuledRunsWithinLimits};
ghost use Rattle.gf_buchberger.specs.Bases.{IsArrangedBasis, IsBasisRefusal, AreRunsWithinLimits, IsWantOfMemory};
ghost use Rattle.gf_buchberger.specs.Tasks.{HaveRingVariables};
ghost use Rattle.gf_reverse_theory.specs.Upward.{IsNodeIn, IsNode};
ghost use Rattle.gf_tree.specs.Ideals.{ideal_within};

use crate::several_ways::basis_by_several_ways;
use gf_buchberger::BasisError;
use gf_cone::Region;
use gf_order::Order;
use gf_poly::{MarkedSet, Poly};
use gf_vec::IntVec;
use std::alloc::Global;

/// The order by a positive weight, ties broken by lex.
fn order_by(weight: IntVec) -> Order
    requires few { length weight < 2 ^ 32 }
    requires bounded { AreBounded weight }
    requires positive { All (λ x. pos 0 <ℤ x) weight }
    ensures order { result ≡ MonomialOrder.weighted (gains weight) }
    ensures entries { HasEntries (length weight) result }
{
    match Order::weighted(weight) {
        Ok(order) => order,
        Err(_) => unreachable!(),
    }
}

/// The reduced Gröbner basis of an ideal for the root of a region, ties broken by lex: the root of the tree of the ideal's bases in the
/// region.
///
/// The polynomials of `set` generate the ideal, in `n` variables, and the region's root has `n` entries. The basis is computed by
/// `basis_by_several_ways`; each of its runs and flips may settle `pairs` pairs.
///
/// # Errors
///
/// - `Overflow`, `Exponent`: the operands of an operation of a run of Buchberger's algorithm on the set by this order don't fit.
/// - `PairBudget`: such a run has more than `pairs` pairs to settle.
/// - `Memory`: memory runs out.
///
/// If all operations of the first run by its rule (`IsRuled` of `gf_buchberger`) fit, and `pairs` pairs suffice, the error is `Memory`.
pub fn root_in(
    alloc: Global,
    n: u32,
    set: &[Poly],
    region: &Region,
    pairs: u64,
) -> Result<MarkedSet, BasisError>
    requires ring { HaveRingVariables n set.now }
    requires width { length region.now.root ≡ n }
    ensures node { IfOk result (IsNodeIn (ideal_within n set.now region.now)) }
    ensures own { IfOk result (IsNode region.now) }
    ensures order { IfOk result (IsArrangedBasis (MonomialOrder.weighted (gains region.now.root)) n set.now) }
    ensures err { IfErr result (IsBasisRefusal (MonomialOrder.weighted (gains region.now.root)) n set.now pairs) }
    ensures complete { AreRunsWithinLimits (MonomialOrder.weighted (gains region.now.root)) set.now pairs → IfErr result IsWantOfMemory }
    ensures complete_by_rule { AreRuledRunsWithinLimits Degree (MonomialOrder.weighted (gains region.now.root)) set.now pairs → IfErr result IsWantOfMemory }
{
    let Ok(root) = region.root().copy() else {
        return Err(BasisError::Memory);
    };
    let order = order_by(root);
    basis_by_several_ways(alloc, n, set, &order, pairs)
}
