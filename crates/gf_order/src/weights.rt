//! Whole weights of exponent lists compared, without overflow.
//!
//! An entry within `2^63` times a difference of exponents of 32 bits is within `2^95`, and 64 of them are within `2^101`.
ghost use Rattle.std.specs.Prelude.{◌≡◌, ◌≤◌, ◌-ℤ◌, ◌≤ℤ◌, All, MatchOption, length};
ghost use Rattle.gf_exponents_theory.specs.Exponents.{whole_weight};
ghost use Rattle.gf_order.specs.Weights.{AreBounded, IsFirstBelow, CompareSo};

use gf_vec::share;
use std::cmp::Ordering;

/// The index of the first entry that is below the limit.
pub fn first_below(weight: &[i128], limit: i128) -> Option<usize>
    ensures { MatchOption result (All (λ w. limit ≤ℤ w) weight.now) (IsFirstBelow limit weight.now) }
{
    weight.iter().position(|w| *w < limit)
}

/// The weight of `x` less that of `y`.
fn difference(weight: &[i128], x: &[u32], y: &[u32]) -> i128
    requires bounded { AreBounded weight.now }
    requires short { length weight.now ≤ 64 }
    requires left { length x.now ≡ length weight.now }
    requires right { length y.now ≡ length weight.now }
    ensures { result ≡ whole_weight weight.now x.now -ℤ whole_weight weight.now y.now }
{
    let mut sum = 0;
    for (i, w) in weight.iter().enumerate() {
        sum += share(*w, x[i], y[i]);
    }
    sum
}

/// How the weights of `x` and `y` compare.
pub fn by_weight(weight: &[i128], x: &[u32], y: &[u32]) -> Ordering
    requires bounded { AreBounded weight.now }
    requires short { length weight.now ≤ 64 }
    requires left { length x.now ≡ length weight.now }
    requires right { length y.now ≡ length weight.now }
    ensures { CompareSo weight.now x.now y.now result }
{
    difference(weight, x, y).cmp(&0)
}
