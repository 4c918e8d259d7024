//! The orders.
ghost use Rattle.std.specs.Prelude.{◌≡◌, ◌≤◌, ◌<◌, ◌^◌, ℕ, List, pos, ◌≤ℤ◌, All, IfOk, IfErr, IfSome, IsNone, length};
ghost use Rattle.gf_exponents_theory.specs.Orders.{IsTermOrder, gains, negated_row_of};
ghost use Rattle.gf_exponents_theory.specs.SixOrders.{MonomialOrder, below_of};
ghost use Rattle.gf_order.specs.Weights.{AreBounded, IsFirstBelow};
ghost use Rattle.gf_order.specs.Comparisons.{IsOutcome, HasEntries, level_of, ends_by_revlex, is_weight_before_lex};

use crate::comparisons::{deglex, degree, facet, lex, revlex, weighted, weighted_revlex};
use crate::weights::first_below;
use gf_vec::{IntVec, weight_of};
use std::cmp::Ordering;
use std::marker::Model;

/// A weight with which an order is no term order; `index` is the index, counted from 0, of its first entry that is too
/// small.
#[derive(Clone, Copy, PartialEq, Eq)]
pub struct NotTermOrder {
    pub index: u32,
}

/// Which order it is, with its weight.
#[derive(Drop)]
enum Kind {
    Lex,
    Deglex,
    Revlex,
    Weighted(IntVec),
    WeightedRevlex(IntVec),
    Facet(IntVec),
}

/// An order of monomials.
#[derive(Drop)]
pub struct Order {
    kind: Kind,
}

impl Model for Order {
    ghost use Rattle.gf_exponents_theory.specs.SixOrders.{MonomialOrder};

    ghost Value = { MonomialOrder };

    ghost use Rattle.gf_order.specs.Kinds.{order_of, IsKind};

    ghost view = { λ o. order_of o.kind };

    ghost invariant = { λ o. IsKind o.kind };
}

impl Order {
    /// Lex: the first exponent that differs decides.
    pub fn lex() -> Order
        ensures { result ≡ MonomialOrder.lex }
    {
        Order { kind: Kind::Lex }
    }

    /// Deglex: the total degree decides, then lex.
    pub fn deglex() -> Order
        ensures { result ≡ MonomialOrder.deglex }
    {
        Order { kind: Kind::Deglex }
    }

    /// Revlex: the last exponent that differs decides, and the smaller one is greater. It is no term order; it is for
    /// homogeneous polynomials alone.
    pub fn revlex() -> Order
        ensures { result ≡ MonomialOrder.revlex }
    {
        Order { kind: Kind::Revlex }
    }

    /// The weight decides, then lex. The entries are within `2^63` in absolute value.
    ///
    /// # Errors
    /// Exactly where an entry is negative; the first such entry is named.
    pub fn weighted(weight: IntVec) -> Result<Order, NotTermOrder>
        requires bounded { AreBounded weight }
        requires countable { length weight < 2 ^ 32 }
        ensures order { IfOk result (λ o. o ≡ MonomialOrder.weighted (gains weight)) }
        ensures accepted { IfOk result (λ o. All (λ w. pos 0 ≤ℤ w) weight) }
        ensures term_order { IfOk result (λ o. IsTermOrder (length weight) (below_of o)) }
        ensures entries { IfOk result (HasEntries (length weight)) }
        ensures refused { IfErr result (λ e. IsFirstBelow (pos 0) weight e.index) }
    {
        match first_below(weight.as_slice(), 0) {
            Some(i) => Err(NotTermOrder { index: i as u32 }),
            None => Ok(Order {
                kind: Kind::Weighted(weight),
            }),
        }
    }

    /// The weight decides, then revlex. The entries are within `2^63` in absolute value.
    ///
    /// # Errors
    /// Exactly where an entry is less than 1; the first such entry is named.
    pub fn weighted_revlex(weight: IntVec) -> Result<Order, NotTermOrder>
        requires bounded { AreBounded weight }
        requires countable { length weight < 2 ^ 32 }
        ensures order { IfOk result (λ o. o ≡ MonomialOrder.weighted_revlex (gains weight)) }
        ensures accepted { IfOk result (λ o. All (λ w. pos 1 ≤ℤ w) weight) }
        ensures term_order { IfOk result (λ o. IsTermOrder (length weight) (below_of o)) }
        ensures entries { IfOk result (HasEntries (length weight)) }
        ensures refused { IfErr result (λ e. IsFirstBelow (pos 1) weight e.index) }
    {
        match first_below(weight.as_slice(), 1) {
            Some(i) => Err(NotTermOrder { index: i as u32 }),
            None => Ok(Order {
                kind: Kind::WeightedRevlex(weight),
            }),
        }
    }

    /// The order along a facet with this normal: the weight by the normal decides, the smaller one is greater, then lex.
    /// The entries are within `2^63` in absolute value.
    pub fn facet(normal: IntVec) -> Order
        requires { AreBounded normal }
        ensures order { result ≡ MonomialOrder.facet (negated_row_of normal) }
        ensures entries { HasEntries (length normal) result }
    {
        Order {
            kind: Kind::Facet(normal),
        }
    }

    /// How `x` compares with `y`, exponent lists of one length of at most 64, which is the weight's too. It takes no
    /// memory and is never refused.
    pub fn cmp(&self, x: &[u32], y: &[u32]) -> Ordering
        requires same_length { length x.now ≡ length y.now }
        requires short { length x.now ≤ 64 }
        requires weight { HasEntries (length x.now) self.now }
        ensures { IsOutcome self.now x.now y.now result }
    {
        match &self.kind {
            Kind::Lex => lex(x, y),
            Kind::Deglex => deglex(x, y),
            Kind::Revlex => revlex(x, y),
            Kind::Weighted(weight) => weighted(weight.as_slice(), x, y),
            Kind::WeightedRevlex(weight) => weighted_revlex(weight.as_slice(), x, y),
            Kind::Facet(normal) => facet(normal.as_slice(), x, y),
        }
    }

    /// What the order compares first: of a weight that of the monomial, by a normal the weight turned, by deglex the
    /// total degree; 0 where it is lex or revlex alone.
    ///
    /// A monomial of greater level is greater, and those of one level compare by lex, or by revlex where `is_by_revlex`
    /// says so. `x` has at most 64 exponents, as many as the weight has entries. It takes no memory and is never refused.
    pub fn level(&self, x: &[u32]) -> i128
        requires short { length x.now ≤ 64 }
        requires weight { HasEntries (length x.now) self.now }
        ensures { result ≡ level_of self.now x.now }
    {
        match &self.kind {
            Kind::Lex => 0,
            Kind::Deglex => i128::from(degree(x)),
            Kind::Revlex => 0,
            Kind::Weighted(weight) => weight_of(weight.as_slice(), x),
            Kind::WeightedRevlex(weight) => weight_of(weight.as_slice(), x),
            Kind::Facet(normal) => -weight_of(normal.as_slice(), x),
        }
    }

    /// Whether monomials of one level compare by revlex, and not by lex.
    pub fn is_by_revlex(&self) -> bool
        ensures { result ≡ ends_by_revlex self.now }
    {
        match &self.kind {
            Kind::Revlex => true,
            Kind::WeightedRevlex(_) => true,
            _ => false,
        }
    }

    /// Whether the order is lex, or a weight before lex: such orders are good on all polynomials.
    pub fn is_by_lex(&self) -> bool
        ensures { result ≡ is_weight_before_lex self.now }
    {
        match &self.kind {
            Kind::Lex => true,
            Kind::Weighted(_) => true,
            _ => false,
        }
    }

    /// The weight, where the order is a weight before lex.
    pub fn weight_before_lex(&self) -> Option<&IntVec>
        ensures weight { IfSome result (λ w. self.now ≡ MonomialOrder.weighted (gains w.now)) }
        ensures natural { IfSome result (λ w. All (λ k. pos 0 ≤ℤ k) w.now) }
        ensures none { IsNone result → (w : List ℕ) → (self.now ≡ MonomialOrder.weighted w) → ⊥ }
    {
        match &self.kind {
            Kind::Weighted(weight) => Some(weight),
            _ => None,
        }
    }
}
