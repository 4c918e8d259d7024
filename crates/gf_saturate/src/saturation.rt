//! Saturations by the product of the variables.
ghost use Rattle.std.specs.Prelude.{◌<◌, IfOk, IfErr};
ghost use Rattle.gf_buchberger.specs.Bases.{IsWantOfMemory};
ghost use Rattle.gf_buchberger.specs.Tasks.{HaveRingVariables};
ghost use Rattle.gf_saturate.specs.Saturating.{IsOnTheWay, IsStage, IsSaturation, IsSaturateRefusal, AreStepsWithinLimits};

use crate::chain::by_chain;
use crate::graded::by_division;
use crate::inverses::by_inverses;
use crate::stages::{Stage, first_stage, step};
use crate::units::by_units;
use gf_buchberger::{BasisError, basis};
use gf_order::Order;
use gf_poly::{MarkedSet, Poly, ROOM};
use std::alloc::Global;

/// What generates the saturation by the variables one after another, those left out by which nothing is added.
fn last_stage(alloc: Global, n: u32, set: &[Poly], pairs: u64) -> Result<Stage, BasisError>
    requires room { n < ROOM }
    requires variables { HaveRingVariables n set.now }
    ensures way { IfOk result (λ s. IsOnTheWay n set.now n s.polys.items) }
    ensures stage { IfOk result (IsStage n) }
    ensures err { IfErr result (IsSaturateRefusal n set.now pairs) }
{
    let Ok(first) = first_stage(alloc, n, set, pairs) else {
        return Err(BasisError::Memory);
    };
    let mut stage = first;
    'variables: for k in 0..n {
        if stage.marks.exponents()[k as usize] == 0 {
            continue;
        }
        match step(alloc, n, k, &stage.polys, pairs) {
            Ok(next) => stage = next,
            Err(refusal) => return Err(refusal),
        }
    }
    Ok(stage)
}

/// The basis by degree of what generates the saturation.
fn by_degree(alloc: Global, n: u32, set: &[Poly], pairs: u64) -> Result<MarkedSet, BasisError>
    requires room { n < ROOM }
    requires variables { HaveRingVariables n set.now }
    ensures ok { IfOk result (IsSaturation n set.now) }
    ensures err { IfErr result (IsSaturateRefusal n set.now pairs) }
{
    let last = match last_stage(alloc, n, set, pairs) {
        Ok(last) => last,
        Err(refusal) => return Err(refusal),
    };
    let Stage {
        polys,
        basis: known,
        ..
    } = last;
    match known {
        Some(known) => Ok(known),
        None => basis(alloc, n, &polys, &Order::deglex(), pairs),
    }
}

/// The saturation by inverses of one variable after another; where that is refused, by more polynomials of it modulo which each variable is a unit.
fn by_elimination(alloc: Global, n: u32, set: &[Poly], pairs: u64) -> Result<MarkedSet, BasisError>
    requires room { n < ROOM }
    requires variables { HaveRingVariables n set.now }
    ensures ok { IfOk result (IsSaturation n set.now) }
    ensures err { IfErr result (IsSaturateRefusal n set.now pairs) }
{
    match by_degree(alloc, n, set, pairs) {
        Ok(saturation) => Ok(saturation),
        Err(refusal) => match by_inverses(alloc, n, set, pairs) {
            Some(saturation) => Ok(saturation),
            None => Err(refusal),
        },
    }
}

/// The saturation by one variable after another, by elimination by degree; else by the inverses' weight and lex.
fn by_variables(alloc: Global, n: u32, set: &[Poly], pairs: u64) -> Result<MarkedSet, BasisError>
    requires room { n < ROOM }
    requires variables { HaveRingVariables n set.now }
    ensures ok { IfOk result (IsSaturation n set.now) }
    ensures err { IfErr result (IsSaturateRefusal n set.now pairs) }
{
    match by_chain(alloc, n, set, pairs) {
        Some(saturation) => Ok(saturation),
        None => by_elimination(alloc, n, set, pairs),
    }
}

/// The saturation of polynomials that aren't divided: of an ideal modulo which each variable is found to be a unit that is the ideal itself; else it is
/// worked out by inverses.
fn ungraded(alloc: Global, n: u32, set: &[Poly], pairs: u64) -> Result<MarkedSet, BasisError>
    requires room { n < ROOM }
    requires variables { HaveRingVariables n set.now }
    ensures ok { IfOk result (IsSaturation n set.now) }
    ensures err { IfErr result (IsSaturateRefusal n set.now pairs) }
{
    match by_units(alloc, n, set, pairs) {
        Some(saturation) => Ok(saturation),
        None => by_variables(alloc, n, set, pairs),
    }
}

/// The reduced Gröbner basis by deglex of the saturation, by the product of all `n` variables, of the ideal of these
/// polynomials: of the ideal of the f of which some multiple by a power of that product is in theirs. `n` is at most 24, so that
/// a monomial has room for one variable more.
///
/// Where a positive weight that makes the polynomials homogeneous is found, one variable x after another is taken out by a basis by twice
/// this weight, less 1 at x, then revlex: its members are divided by all that their terms share. At the end the basis by deglex is made. A
/// variable that follows from others, by polynomials of two terms among those given, is left out.
///
/// Else, and where one of these runs is refused, it is tested whether each variable is a unit modulo the ideal: whether a run on the polynomials and the
/// variable, with at most 1000 pairs, finds 1. If so, the ideal is its own saturation, and its basis by deglex is made, by a run in wider numbers too.
///
/// Else, and where that is refused, x is taken out so, if it isn't such a unit: with a new last variable t and `t*x - 1` among the generators a basis by
/// degree, in which t counts 1000 times, then revlex, is made, with at most 1000 pairs. If t is in no member without being in its mark, the members without
/// t generate the saturation by x. If a run is refused, it is begun anew with its variable, up to three times. At the end the basis by deglex is made.
///
/// Else, and where that is refused, with such generators a basis by the weight of t, then lex, is made, and its members without t generate the saturation
/// by x. At the end the basis by deglex is made. A
/// variable that occurs in no mark of the basis before, that of the polynomials by deglex at first, is left out: nothing is added by it. So
/// is all the rest where 1 is reached.
///
/// Where that is refused, for one variable x after another that is no unit the members without t of a basis of the polynomials and `t*x - 1` join
/// the polynomials. If each variable is a unit then, the basis by deglex is made. Each run of these ways settles at most `pairs` pairs.
///
/// # Errors
///
/// As those of `basis` of `gf_buchberger`, each of one of the runs that take out x by inverses: `Overflow` and `Exponent` only at an operation that a run
/// of Buchberger's algorithm on one of these sets may have, and whose operands don't fit; `PairBudget` only where a run on one
/// of them would have to settle more pairs. Where on each of these sets the run that takes the pair of least key, and of the members the first
/// that divides, stays within its limits, the error is `Memory`. The first basis by deglex, which has at most
/// 1000 pairs, is left out where it is refused.
pub fn saturate(alloc: Global, n: u32, set: &[Poly], pairs: u64) -> Result<MarkedSet, BasisError>
    requires room { n < ROOM }
    requires variables { HaveRingVariables n set.now }
    ensures ok { IfOk result (IsSaturation n set.now) }
    ensures err { IfErr result (IsSaturateRefusal n set.now pairs) }
    ensures complete { AreStepsWithinLimits n set.now pairs → IfErr result IsWantOfMemory }
{
    match by_division(alloc, n, set, pairs) {
        Some(saturation) => Ok(saturation),
        None => ungraded(alloc, n, set, pairs),
    }
}
