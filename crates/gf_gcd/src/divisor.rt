//! The greatest common divisor of two numbers.

ghost use Rattle.std.specs.Prelude.{◌≡◌, ◌≤◌, ◌<◌, ◌%◌, max};
ghost use Rattle.std.specs.Int.{IsGcd};
ghost use Rattle.gf_int_theory.specs.Gcd.{gcd as greatest_common};

/// The greatest common divisor of `a` and `b`, by Euclid's algorithm; of 0 and 0 it is 0.
///
/// Once both numbers are below `2^64` it goes on in 64 bits.
pub fn gcd(a: u128, b: u128) -> u128
    ensures meaning { IsGcd a b result }
    ensures value { result ≡ greatest_common a b }
    ensures bound { result ≤ max a b }
{
    if a == 1 {
        return 1;
    }
    let mut x = a;
    let mut y = b;
    'steps: while y != 0 {
        if let (Ok(narrow), Ok(other)) = (u64::try_from(x), u64::try_from(y)) {
            return u128::from(narrow_gcd(narrow, other));
        }
        let rest = remainder(x, y);
        x = y;
        y = rest;
    }
    x
}

/// The greatest common divisor of numbers of 64 bits.
fn narrow_gcd(a: u64, b: u64) -> u64
    ensures meaning { IsGcd a b result }
    ensures bound { result ≤ max a b }
{
    let mut x = a;
    let mut y = b;
    'steps: while y != 0 {
        let rest = x % y;
        x = y;
        y = rest;
    }
    x
}

/// The remainder of a division.
fn remainder(x: u128, y: u128) -> u128
    requires { 0 < y }
    ensures { result ≡ x % y }
{
    x % y
}
