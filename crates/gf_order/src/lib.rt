//! The six orders of monomials, as comparisons of exponent lists.
//!
//! A monomial is the list of its exponents; the first variable is the greatest. Start at `Order::cmp`. What each order is
//! stands in `gf_exponents_theory` (`specs/Orders.antt`, `specs/SixOrders.antt`), with its laws.
#![tactic(auto)]

mod comparisons;
mod laws;
mod order;
mod weights;

pub use laws::comparisons_are_total;
pub use order::{NotTermOrder, Order};
