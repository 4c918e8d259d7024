//! Bases by several orders and ways, saturations, and whether polynomials are homogeneous.
ghost use Rattle.std.specs.Prelude.{◌<◌, ◌^◌, length, IfOk, IfErr};
ghost use Rattle.gf_order.specs.Comparisons.{HasEntries};
ghost use Rattle.gf_buchberger.specs.Homogeneity.{IsFirstInhomogeneous};
ghost use Rattle.gf_buchberger.specs.Tasks.{HaveOneDegree, HaveRingVariables, IsSuited};

use crate::answers::outcome;
use crate::orders::order;
use crate::sets::polynomials;
use gf_buchberger::{
    BasisError, NotHomogeneous, basis, basis_by_second_run, homogeneous, wide_basis,
};
use gf_groebner_walk::basis_by_several_ways;
use gf_order::Order;
use gf_poly::{MarkedSet, Poly, ROOM};
use gf_rows::texts;
use gf_saturate::saturate;
use std::alloc::Global;

/// The basis by one run, and by another where that is refused.
fn basis_by_two_runs(
    alloc: Global,
    n: u32,
    set: &[Poly],
    order: &Order,
    pairs: u64,
) -> Result<MarkedSet, BasisError>
    requires variables { HaveRingVariables n set.now }
    requires entries { HasEntries n order.now }
    requires suited { IsSuited order.now n set.now }
{
    match basis(alloc, n, set, order, pairs) {
        Ok(found) => Ok(found),
        Err(first) => basis_by_second_run(alloc, n, set, order, pairs, first),
    }
}

/// The basis by a way of this name.
fn basis_by(
    alloc: Global,
    way: &str,
    n: u32,
    set: &[Poly],
    order: &Order,
    pairs: u64,
) -> Option<Result<MarkedSet, BasisError>>
    requires variables { HaveRingVariables n set.now }
    requires entries { HasEntries n order.now }
    requires suited { IsSuited order.now n set.now }
{
    match way {
        "one_run" => Some(basis(alloc, n, set, order, pairs)),
        "two_runs" => Some(basis_by_two_runs(alloc, n, set, order, pairs)),
        "wide" => Some(wide_basis(alloc, n, set, order, pairs)),
        "several_ways" => Some(basis_by_several_ways(alloc, n, set, order, pairs)),
        _ => None,
    }
}

/// What comes of a basis by an order, of a set in so many variables, with a budget of pairs; the parts that are asked for, where there are some.
pub(crate) fn told(alloc: Global, way: &str, fields: &[&str]) -> Option<String> {
    let [by, n, set, pairs, asked @ ..] = fields else {
        return None;
    };
    let n = n.parse::<u32>().ok()?;
    let set = polynomials(alloc, n, set)?;
    let order = order(alloc, n, by)?;
    let found = basis_by(alloc, way, n, &set, &order, pairs.parse::<u64>().ok()?)?;
    outcome(alloc, &found, asked)
}

/// What comes of the saturation of a set in so many variables.
pub(crate) fn saturation_told(alloc: Global, fields: &[&str]) -> Option<String> {
    let [n, set, pairs, asked @ ..] = fields else {
        return None;
    };
    let n = n.parse::<u32>().ok()?;
    let set = polynomials(alloc, n, set)?;
    if n as usize >= ROOM {
        return None;
    }
    let found = saturate(alloc, n, &set, pairs.parse::<u64>().ok()?);
    outcome(alloc, &found, asked)
}

/// `homogeneous`, with both of its clauses as those of a caller.
fn of_one_degree(set: &[Poly]) -> Result<(), NotHomogeneous>
    requires { length set.now < 2 ^ 32 }
    ensures ok { IfOk result (λ _. HaveOneDegree set.now) }
    ensures err { IfErr result (IsFirstInhomogeneous set.now) }
{
    homogeneous(set)
}

/// Whether the polynomials of a set are homogeneous, or which one isn't, and two of its monomials.
pub(crate) fn homogeneity_told(alloc: Global, fields: &[&str]) -> Option<String> {
    let [n, set] = fields else {
        return None;
    };
    let set = polynomials(alloc, n.parse::<u32>().ok()?, set)?;
    if set.len() >= 1 << 32 {
        return None;
    }
    match of_one_degree(&set) {
        Ok(()) => texts::text(alloc, "homogeneous"),
        Err(refusal) => {
            let index = refusal.polynomial;
            let first = texts::numbers(alloc, refusal.first.exponents())?;
            let second = texts::numbers(alloc, refusal.second.exponents())?;
            format!(in alloc; "{index}: {first} {second}").ok()
        }
    }
}
