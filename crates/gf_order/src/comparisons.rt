//! Comparisons of two exponent lists of one length.
ghost use Rattle.std.specs.Prelude.{◌≡◌, ◌≤◌, pos, ◌≤ℤ◌, All, length};
ghost use Rattle.gf_exponents_theory.specs.Exponents.{degree};
ghost use Rattle.gf_exponents_theory.specs.Orders.{gains, negated_row_of};
ghost use Rattle.gf_exponents_theory.specs.SixOrders.{MonomialOrder};
ghost use Rattle.gf_order.specs.Weights.{AreBounded};
ghost use Rattle.gf_order.specs.Comparisons.{IsOutcome, BreaksTie};

use crate::weights::by_weight;
use std::cmp::Ordering;

/// The first exponent that differs decides.
pub fn lex(x: &[u32], y: &[u32]) -> Ordering
    requires { length x.now ≡ length y.now }
    ensures { IsOutcome MonomialOrder.lex x.now y.now result }
{
    x.cmp(y)
}

/// The last exponent that differs decides: the smaller one is greater.
pub fn revlex(x: &[u32], y: &[u32]) -> Ordering
    requires { length x.now ≡ length y.now }
    ensures { IsOutcome MonomialOrder.revlex x.now y.now result }
{
    let mut i = x.len();
    'entries: while i > 0 {
        i -= 1;
        if x[i] != y[i] {
            return y[i].cmp(&x[i]);
        }
    }
    Ordering::Equal
}

/// The total degree.
pub fn degree(x: &[u32]) -> u64
    requires { length x.now ≤ 64 }
    ensures { result ≡ degree x.now }
{
    let mut sum = 0;
    for e in x {
        sum += *e as u64;
    }
    sum
}

/// What was decided first, or where that is a tie, lex.
fn or_lex(first: Ordering, x: &[u32], y: &[u32]) -> Ordering
    requires { length x.now ≡ length y.now }
    ensures { BreaksTie MonomialOrder.lex x.now y.now first result }
{
    match first {
        Ordering::Equal => lex(x, y),
        decided => decided,
    }
}

/// What was decided first, or where that is a tie, revlex.
fn or_revlex(first: Ordering, x: &[u32], y: &[u32]) -> Ordering
    requires { length x.now ≡ length y.now }
    ensures { BreaksTie MonomialOrder.revlex x.now y.now first result }
{
    match first {
        Ordering::Equal => revlex(x, y),
        decided => decided,
    }
}

/// The total degree decides, then lex.
pub fn deglex(x: &[u32], y: &[u32]) -> Ordering
    requires same_length { length x.now ≡ length y.now }
    requires short { length x.now ≤ 64 }
    ensures { IsOutcome MonomialOrder.deglex x.now y.now result }
{
    or_lex(degree(x).cmp(&degree(y)), x, y)
}

/// The weight, which has no negative entry, decides, then lex.
pub fn weighted(weight: &[i128], x: &[u32], y: &[u32]) -> Ordering
    requires bounded { AreBounded weight.now }
    requires natural { All (λ w. pos 0 ≤ℤ w) weight.now }
    requires short { length weight.now ≤ 64 }
    requires left { length x.now ≡ length weight.now }
    requires right { length y.now ≡ length weight.now }
    ensures { IsOutcome (MonomialOrder.weighted (gains weight.now)) x.now y.now result }
{
    or_lex(by_weight(weight, x, y), x, y)
}

/// The weight, which has no negative entry, decides, then revlex.
pub fn weighted_revlex(weight: &[i128], x: &[u32], y: &[u32]) -> Ordering
    requires bounded { AreBounded weight.now }
    requires natural { All (λ w. pos 0 ≤ℤ w) weight.now }
    requires short { length weight.now ≤ 64 }
    requires left { length x.now ≡ length weight.now }
    requires right { length y.now ≡ length weight.now }
    ensures { IsOutcome (MonomialOrder.weighted_revlex (gains weight.now)) x.now y.now result }
{
    or_revlex(by_weight(weight, x, y), x, y)
}

/// The weight by the normal decides, the smaller one is greater, then lex.
pub fn facet(normal: &[i128], x: &[u32], y: &[u32]) -> Ordering
    requires bounded { AreBounded normal.now }
    requires short { length normal.now ≤ 64 }
    requires left { length x.now ≡ length normal.now }
    requires right { length y.now ≡ length normal.now }
    ensures { IsOutcome (MonomialOrder.facet (negated_row_of normal.now)) x.now y.now result }
{
    or_lex(by_weight(normal, y, x), x, y)
}
