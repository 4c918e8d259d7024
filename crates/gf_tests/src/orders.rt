//! The six orders of monomials.
ghost use Rattle.std.specs.Prelude.{length, IfOk, IfSome};
ghost use Rattle.gf_order.specs.Comparisons.{HasEntries};

use gf_order::{NotTermOrder, Order};
use gf_rows::{fields, texts};
use gf_vec::IntVec;
use std::alloc::Global;

/// The order of this name by a weight, or along the facet with this normal.
fn by_vector(name: &str, vector: IntVec) -> Option<Result<Order, NotTermOrder>>
    ensures { IfSome result (λ o. IfOk o (HasEntries (length vector))) }
{
    if !fields::is_bounded(vector.as_slice()) || vector.as_slice().len() > 64 {
        return None;
    }
    match name {
        "weighted" => Some(Order::weighted(vector)),
        "weighted_revlex" => Some(Order::weighted_revlex(vector)),
        "facet" => Some(Ok(Order::facet(vector))),
        _ => None,
    }
}

/// How two lists of `n` exponents compare by an order.
fn comparison(alloc: Global, n: usize, order: &Order, x: &str, y: &str) -> Option<String>
    requires { HasEntries n order.now }
{
    let (x, y) = (fields::exponents(alloc, x)?, fields::exponents(alloc, y)?);
    if n > 64 || x.len() != n || y.len() != n {
        return None;
    }
    texts::comparison(alloc, order.cmp(&x, &y))
}

/// How they compare by an order with a vector, or why there is no such order.
fn comparison_by(alloc: Global, name: &str, vector: &str, x: &str, y: &str) -> Option<String> {
    let vector = fields::vector(alloc, vector)?;
    let n = vector.as_slice().len();
    match by_vector(name, vector)? {
        Ok(order) => comparison(alloc, n, &order, x, y),
        Err(refusal) => format!(in alloc; "refused at {}", refusal.index).ok(),
    }
}

/// How two lists of three exponents compare by an order, or why there is no such order.
pub(crate) fn told(alloc: Global, call: &str, fields: &[&str]) -> Option<String> {
    match (call, fields) {
        ("lex", [x, y]) => comparison(alloc, 3, &Order::lex(), x, y),
        ("deglex", [x, y]) => comparison(alloc, 3, &Order::deglex(), x, y),
        ("revlex", [x, y]) => comparison(alloc, 3, &Order::revlex(), x, y),
        (name, [vector, x, y]) => comparison_by(alloc, name, vector, x, y),
        _ => None,
    }
}
