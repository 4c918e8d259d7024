//! The reduced Gröbner basis, by another way if the numbers of one don't fit.

ghost use Rattle.std.specs.Prelude.{IfOk, IfErr, IfSome, IsTrue};
ghost use Rattle.gf_order.specs.Comparisons.{HasEntries, is_weight_before_lex};
ghost use Rattle.gf_buchberger.specs.declared.queue.Strategy.TheVariants.{Degree};
ghost use Rattle.gf_buchberger.specs.Ruled.{AreRuledRunsWithinLimits};
ghost use Rattle.gf_buchberger.specs.Bases.{IsArrangedBasis, IsBasisRefusal, AreRunsWithinLimits, IsWantOfMemory};
ghost use Rattle.gf_buchberger.specs.Tasks.{HaveRingVariables, IsSuited};

use crate::walk::walked;
use crate::weights::weight_of;
use gf_buchberger::{BasisError, basis, basis_by_second_run, wide_basis};
use gf_order::Order;
use gf_poly::{MarkedSet, Poly};
use std::alloc::Global;

/// The basis at the end of a walk that starts at the basis for deglex; none if numbers don't fit, or if the budget is spent.
fn by_walk(alloc: Global, n: u32, set: &[Poly], order: &Order, pairs: u64) -> Option<MarkedSet>
    requires variables { HaveRingVariables n set.now }
    requires entries { HasEntries n order.now }
    requires by_lex { IsTrue (is_weight_before_lex order.now) }
    ensures { IfSome result (IsArrangedBasis order.now n set.now) }
{
    let weight = match weight_of(alloc, n, order) {
        Ok(weight) => weight,
        Err(_) => return None,
    };
    let deglex = Order::deglex();
    let start = match basis(alloc, n, set, &deglex, pairs) {
        Ok(start) => start,
        Err(_) => return None,
    };
    walked(alloc, start, &weight, pairs)
}

/// The basis by a run that continues in wide numbers, if the narrow ways were refused for numbers that don't fit.
fn by_wide_run(
    alloc: Global,
    n: u32,
    set: &[Poly],
    order: &Order,
    pairs: u64,
    refusal: &BasisError,
) -> Option<MarkedSet>
    requires variables { HaveRingVariables n set.now }
    requires entries { HasEntries n order.now }
    requires suited { IsSuited order.now n set.now }
    ensures { IfSome result (IsArrangedBasis order.now n set.now) }
{
    if !refusal.is_of_numbers() {
        return None;
    }
    match wide_basis(alloc, n, set, order, pairs) {
        Ok(found) => Some(found),
        Err(_) => None,
    }
}

/// The basis by other ways than the first run, which was refused for numbers that don't fit.
fn by_other_ways(
    alloc: Global,
    n: u32,
    set: &[Poly],
    order: &Order,
    pairs: u64,
    first: BasisError,
) -> Result<MarkedSet, BasisError>
    requires variables { HaveRingVariables n set.now }
    requires entries { HasEntries n order.now }
    requires suited { IsSuited order.now n set.now }
    requires first { IsBasisRefusal order.now n set.now pairs first }
    ensures ok { IfOk result (IsArrangedBasis order.now n set.now) }
    ensures err { IfErr result (IsBasisRefusal order.now n set.now pairs) }
{
    if order.is_by_lex() {
        if let Some(found) = by_walk(alloc, n, set, order, pairs) {
            return Ok(found);
        }
    }
    match basis_by_second_run(alloc, n, set, order, pairs, first) {
        Ok(found) => Ok(found),
        Err(refusal) => match by_wide_run(alloc, n, set, order, pairs, &refusal) {
            Some(found) => Ok(found),
            None => Err(refusal),
        },
    }
}

/// The basis by the first way that succeeds.
fn by_ways(
    alloc: Global,
    n: u32,
    set: &[Poly],
    order: &Order,
    pairs: u64,
) -> Result<MarkedSet, BasisError>
    requires variables { HaveRingVariables n set.now }
    requires entries { HasEntries n order.now }
    requires suited { IsSuited order.now n set.now }
    ensures ok { IfOk result (IsArrangedBasis order.now n set.now) }
    ensures err { IfErr result (IsBasisRefusal order.now n set.now pairs) }
    ensures complete_by_rule { AreRuledRunsWithinLimits Degree order.now set.now pairs → IfErr result IsWantOfMemory }
{
    match basis(alloc, n, set, order, pairs) {
        Ok(found) => Ok(found),
        Err(refusal) => {
            if refusal.is_of_numbers() {
                return by_other_ways(alloc, n, set, order, pairs, refusal);
            }
            Err(refusal)
        }
    }
}

/// The reduced Gröbner basis, for an order, of the ideal that polynomials in `n` variables generate. The first of several ways that
/// succeeds computes it, so that there is a basis in many cases in which numbers of a single run don't fit.
///
/// The first way is the run of `basis` of `gf_buchberger`. If two of its numbers don't fit, and the order is lex or a weight with ties
/// broken by lex, the second one is a walk: it starts at the basis for deglex, which a run of its own computes, and crosses one facet after
/// another, each time the one with the least normal of those that are negative at the weight and that a flip may cross. If there is no such
/// normal, the walk has arrived. It takes at most `pairs` steps. Then comes `basis_by_second_run`, and last, if numbers of that don't fit
/// either, `wide_basis`. Each run and each flip may settle `pairs` pairs.
///
/// The conditions are those of `basis` of `gf_buchberger`.
///
/// # Errors
///
/// If no way succeeds, the refusal of the first run, or that of the second one if it spent its budget:
///
/// - `Overflow`, `Exponent`: the operands of an operation of a run of Buchberger's algorithm on these polynomials by this order don't fit.
/// - `PairBudget`: such a run has more than `pairs` pairs to settle.
/// - `Memory`: memory runs out.
///
/// If all operations of the first run by its rule (`IsRuled` of `gf_buchberger`) fit, and `pairs` pairs suffice, the error is `Memory`.
pub fn basis_by_several_ways(
    alloc: Global,
    n: u32,
    set: &[Poly],
    order: &Order,
    pairs: u64,
) -> Result<MarkedSet, BasisError>
    requires variables { HaveRingVariables n set.now }
    requires entries { HasEntries n order.now }
    requires suited { IsSuited order.now n set.now }
    ensures ok { IfOk result (IsArrangedBasis order.now n set.now) }
    ensures err { IfErr result (IsBasisRefusal order.now n set.now pairs) }
    ensures complete { AreRunsWithinLimits order.now set.now pairs → IfErr result IsWantOfMemory }
    ensures complete_by_rule { AreRuledRunsWithinLimits Degree order.now set.now pairs → IfErr result IsWantOfMemory }
{
    by_ways(alloc, n, set, order, pairs)
}
