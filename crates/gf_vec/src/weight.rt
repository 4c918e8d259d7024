//! Whole weights of exponent lists, without overflow.
//!
//! An entry within `2^63` times a difference of exponents of 32 bits is within `2^95`, and 64 of them are within `2^101`.
ghost use Rattle.std.specs.Prelude.{◌≡◌, ◌≤◌, ◌^◌, pos, ◌-ℤ◌, ◌*ℤ◌, unsigned_abs, All, length};
ghost use Rattle.gf_exponents_theory.specs.Exponents.{whole_weight};

/// An entry of a weight times a difference of exponents.
pub fn share(entry: i128, x: u32, y: u32) -> i128
    requires { unsigned_abs entry ≤ 2 ^ 63 }
    ensures value { result ≡ entry *ℤ (pos x -ℤ pos y) }
    ensures bound { unsigned_abs result ≤ 2 ^ 95 }
{
    entry * (x as i128 - y as i128)
}

/// The weight of a list of exponents: the sum of the entries of the weight, each as often as the exponent says. The
/// weight has at most 64 entries, within `2^63` in absolute value. It takes no memory, and nothing is refused.
pub fn weight_of(weight: &[i128], exponents: &[u32]) -> i128
    requires bounded { All (λ w. unsigned_abs w ≤ 2 ^ 63) weight.now }
    requires short { length weight.now ≤ 64 }
    requires entries { length exponents.now ≡ length weight.now }
    ensures value { result ≡ whole_weight weight.now exponents.now }
    ensures bound { unsigned_abs result ≤ 2 ^ 101 }
{
    let mut sum = 0;
    for (i, w) in weight.iter().enumerate() {
        sum += share(*w, exponents[i], 0);
    }
    sum
}
