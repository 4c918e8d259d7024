//! What the ideal of the extended generators has in the first variables.
ghost use Rattle.std.specs.Prelude.{◌≡◌, ◌<◌, ◌+◌, ◌==◌, IfOk, length};
ghost use Rattle.gf_exponents_theory.specs.Exponents.{entry};
ghost use Rattle.gf_exponents_theory.specs.Orders.{gains};
ghost use Rattle.gf_exponents_theory.specs.SixOrders.{MonomialOrder};
ghost use Rattle.gf_order.specs.Weights.{AreBounded};
ghost use Rattle.gf_buchberger.specs.Tasks.{HaveRingVariables};
ghost use Rattle.gf_saturation_theory.specs.Saturations.{last_weight};
ghost use Rattle.gf_saturate.specs.Widening.{extended_list, left_over};
ghost use Rattle.gf_saturate.specs.Saturating.{IsToEliminate};

use crate::narrowing::narrowed_polynomial;
use crate::relation::inverse_relation;
use crate::widening::widened_polynomial;
use gf_order::Order;
use gf_poly::{Marked, MarkedSet, Mono, Poly, ROOM};
use gf_vec::IntVec;
use std::alloc::{AllocError, Global};

/// The generators in one more variable, then the relation that makes `by` invertible.
pub(crate) fn extended(
    alloc: Global,
    n: u32,
    by: &Mono,
    set: &[Poly],
) -> Result<Vec<Poly>, AllocError>
    requires room { n < ROOM }
    requires by { length by.now ≡ n }
    requires variables { HaveRingVariables n set.now }
    ensures { IfOk result (λ all. all.items ≡ extended_list by.now set.now) }
{
    let mut all = Vec::new(alloc);
    'polynomials: for i in 0..set.len() {
        let f = widened_polynomial(alloc, &set[i])?;
        all.push(f)?;
    }
    let relation = inverse_relation(alloc, by)?;
    all.push(relation)?;
    Ok(all)
}

/// Whether the mark has nothing of the variable after the first `n`.
pub(crate) fn is_free(n: u32, b: &Marked) -> bool
    requires { length b.now.head ≡ n + 1 }
    ensures { result ≡ (entry b.now.head n == 0) }
{
    b.head().exponents()[n as usize] == 0
}

/// The members without the last variable, in the first `n` variables.
pub(crate) fn left_over_of(
    alloc: Global,
    n: u32,
    basis: &MarkedSet,
) -> Result<Vec<Poly>, AllocError>
    requires { IsToEliminate n basis.now.items }
    ensures { IfOk result (λ all. all.items ≡ left_over n basis.now.items) }
{
    let items = basis.items();
    let mut all = Vec::new(alloc);
    'members: for i in 0..items.len() {
        let b = &items[i];
        if is_free(n, b) {
            let f = narrowed_polynomial(alloc, n, b.poly())?;
            all.push(f)?;
        }
    }
    Ok(all)
}

/// Zeros for `n` variables, and a 1 for the next.
fn last_entries(alloc: Global, n: u32) -> Result<IntVec, AllocError>
    requires { n < ROOM }
    ensures gains { IfOk result (λ w. gains w ≡ last_weight n) }
    ensures bounded { IfOk result AreBounded }
    ensures long { IfOk result (λ w. length w ≡ n + 1) }
{
    let mut entries = [0i128; ROOM];
    entries[n as usize] = 1;
    IntVec::from_slice(alloc, &entries[..n as usize + 1])
}

/// The weight of the last of `n + 1` variables, then lex.
pub(crate) fn last_first(alloc: Global, n: u32) -> Result<Order, AllocError>
    requires { n < ROOM }
    ensures { IfOk result (λ o. o ≡ MonomialOrder.weighted (last_weight n)) }
{
    let weight = last_entries(alloc, n)?;
    match Order::weighted(weight) {
        Ok(order) => Ok(order),
        Err(_) => Err(AllocError),
    }
}
