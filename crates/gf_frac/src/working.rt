//! The working of sums and products on plain numbers.

ghost use Rattle.std.specs.Prelude.{◌≡◌, ◌*◌, ◌/◌, ◌<◌, ◌≤◌, ◌^◌, pos, ◌+ℤ◌, ◌*ℤ◌, neg_ℤ, MatchOption};
ghost use Rattle.std.specs.Int.RustNames.{int_div, unsigned_abs};
ghost use Rattle.gf_int_theory.specs.Range.{InRange};
ghost use Rattle.gf_int_theory.specs.Gcd.{gcd as greatest_common};
ghost use Rattle.gf_frac.specs.Fraction.{signed_as};
ghost use Rattle.gf_frac.specs.Fields.{IsLowest};
ghost use Rattle.gf_frac.specs.Fits.{FitsSum, IsSum, IsSumWorking, FitsProduct, IsProduct, IsReduced};

use gf_gcd::gcd;
use std::cmp::Ordering;

/// The product with a natural number, where it is in range.
fn scaled(a: i128, k: u128) -> Option<i128>
    requires { k < 2 ^ 127 }
    ensures { MatchOption result (¬ (InRange (a *ℤ pos k))) (λ z. (z ≡ a *ℤ pos k) × InRange z) }
{
    product(a, k as i128)
}

/// The product, where it is in range; of numbers of 64 bits it always is.
fn product(a: i128, c: i128) -> Option<i128>
    ensures { MatchOption result (¬ (InRange (a *ℤ c))) (λ z. (z ≡ a *ℤ c) × InRange z) }
{
    if let (Ok(narrow), Ok(other)) = (i64::try_from(a), i64::try_from(c)) {
        return Some(narrow_product(narrow, other));
    }
    let z = a.checked_mul(c)?;
    if z == i128::MIN { None } else { Some(z) }
}

/// The product of numbers of 64 bits.
fn narrow_product(a: i64, c: i64) -> i128
    ensures value { result ≡ a *ℤ c }
    ensures range { InRange result }
{
    i128::from(a) * i128::from(c)
}

/// The sum, where it is in range.
fn total(a: i128, b: i128) -> Option<i128>
    ensures { MatchOption result (¬ (InRange (a +ℤ b))) (λ z. (z ≡ a +ℤ b) × InRange z) }
{
    let z = a.checked_add(b)?;
    if z == i128::MIN { None } else { Some(z) }
}

/// The product of natural numbers, where it is in range.
fn common_multiple(b: u128, k: u128) -> Option<u128>
    ensures { MatchOption result (2 ^ 127 ≤ b * k) (λ z. (z ≡ b * k) × (z < 2 ^ 127)) }
{
    let z = natural_product(b, k)?;
    if z >> 127 == 0 { Some(z) } else { None }
}

/// The product of natural numbers, where it is below 2^128; of numbers of 64 bits it always is.
fn natural_product(b: u128, k: u128) -> Option<u128>
    ensures { MatchOption result (2 ^ 128 ≤ b * k) (λ z. z ≡ b * k) }
{
    if let (Ok(narrow), Ok(other)) = (u64::try_from(b), u64::try_from(k)) {
        return Some(u128::from(narrow) * u128::from(other));
    }
    b.checked_mul(k)
}

/// The greatest common divisor with a positive number.
fn common(a: u128, b: u128) -> u128
    requires { 0 < b }
    ensures value { result ≡ greatest_common a b }
    ensures positive { 0 < result }
    ensures bound { result ≤ b }
{
    if a >> 64 == 0 {
        return gcd(a, b);
    }
    gcd(b, a % b)
}

/// The negative of a number in range.
pub fn negated(z: i128) -> i128
    requires { InRange z }
    ensures { result ≡ neg_ℤ z }
{
    -z
}

/// The denominator `q` with the sign of `p`; zero where `p` is zero.
pub fn signed_like(p: i128, q: u128) -> i128
    requires { q < 2 ^ 127 }
    ensures { result ≡ signed_as p q }
{
    match p.cmp(&0) {
        Ordering::Less => -(q as i128),
        Ordering::Equal => 0,
        Ordering::Greater => q as i128,
    }
}

/// The quotient, rounded toward zero.
fn quotient(a: i128, g: u128) -> i128
    requires positive { 0 < g }
    requires fits { g < 2 ^ 127 }
    ensures { result ≡ int_div a (pos g) }
{
    if g == 1 {
        return a;
    }
    a / g as i128
}

/// The quotient of natural numbers.
fn natural_quotient(q: u128, g: u128) -> u128
    requires { 0 < g }
    ensures { result ≡ q / g }
{
    if g == 1 {
        return q;
    }
    if let (Ok(narrow), Ok(other)) = (u64::try_from(q), u64::try_from(g)) {
        return u128::from(narrow / other);
    }
    q / g
}

/// The numbers of the lowest terms of `p/q`, whose common divisors are those of `p` and `g`.
fn lowest_by(p: i128, q: u128, g: u128) -> (i128, u128)
    requires numerator { InRange p }
    requires positive { 0 < q }
    requires fits { q < 2 ^ 127 }
    requires divisor { 0 < g }
    requires divisor_fits { g < 2 ^ 127 }
    requires common { greatest_common (unsigned_abs p) q ≡ greatest_common (unsigned_abs p) g }
    ensures { IsReduced p q result }
{
    if g == 1 {
        return (p, q);
    }
    let t = common(p.unsigned_abs(), g);
    (quotient(p, t), natural_quotient(q, t))
}

/// The numbers of the lowest terms of `p/q`, which are in range.
pub fn lowest(p: i128, q: u128) -> (i128, u128)
    requires numerator { InRange p }
    requires positive { 0 < q }
    requires fits { q < 2 ^ 127 }
    ensures { IsReduced p q result }
{
    lowest_by(p, q, q)
}

/// The numbers of the sum of `a/b` and `c/d` in lowest terms, where the working stays in range.
pub fn sum_parts(a: i128, b: u128, c: i128, d: u128) -> Option<(i128, u128)>
    requires left { IsLowest a b }
    requires right { IsLowest c d }
    ensures { MatchOption result (¬ (FitsSum a b c d)) (IsSum a b c d) }
{
    if b == 1 && d == 1 {
        return whole_sum(a, c);
    }
    sum_of_quotients(a, b, c, d)
}

/// The sum of the whole numbers `a` and `c`, with the denominator 1; none exactly where it leaves `-(2^127-1)` to `2^127-1`.
fn whole_sum(a: i128, c: i128) -> Option<(i128, u128)>
    requires left { InRange a }
    requires right { InRange c }
    ensures { MatchOption result (¬ (FitsSum a 1 c 1)) (IsSum a 1 c 1) }
{
    let Some(numerator) = total(a, c) else {
        return None;
    };
    Some((numerator, 1))
}

/// The numerator and the denominator, in lowest terms, of the sum of the fractions `a/b` and `c/d`; none exactly where a number of the working leaves
/// `-(2^127-1)` to `2^127-1`. With `g` the greatest common divisor of `b` and `d`, the working is `(a*(d/g) + c*(b/g)) / (b*(d/g))`.
fn sum_of_quotients(a: i128, b: u128, c: i128, d: u128) -> Option<(i128, u128)>
    requires left { IsLowest a b }
    requires right { IsLowest c d }
    ensures { MatchOption result (¬ (FitsSum a b c d)) (IsSum a b c d) }
{
    let Some((numerator, denominator, divisor)) = sum_working(a, b, c, d) else {
        return None;
    };
    Some(lowest_by(numerator, denominator, divisor))
}

/// The numbers of a sum's working, and the common divisor of the denominators, where they are in range.
fn sum_working(a: i128, b: u128, c: i128, d: u128) -> Option<(i128, u128, u128)>
    requires left { IsLowest a b }
    requires right { IsLowest c d }
    ensures { MatchOption result (¬ (FitsSum a b c d)) (IsSumWorking a b c d) }
{
    let g = common(b, d);
    let share = natural_quotient(d, g);
    let Some(left) = scaled(a, share) else {
        return None;
    };
    let Some(right) = scaled(c, natural_quotient(b, g)) else {
        return None;
    };
    let Some(numerator) = total(left, right) else {
        return None;
    };
    let Some(denominator) = common_multiple(b, share) else {
        return None;
    };
    Some((numerator, denominator, g))
}

/// The numbers of the product of `a/b` and `c/d` in lowest terms, where the working stays in range.
pub fn product_parts(a: i128, b: u128, c: i128, d: u128) -> Option<(i128, u128)>
    requires left { IsLowest a b }
    requires right { IsLowest c d }
    ensures { MatchOption result (¬ (FitsProduct a b c d)) (IsProduct a b c d) }
{
    if b == 1 && d == 1 {
        return whole_product(a, c);
    }
    product_of_quotients(a, b, c, d)
}

/// The product of the whole numbers `a` and `c`, with the denominator 1; none exactly where it leaves `-(2^127-1)` to `2^127-1`.
fn whole_product(a: i128, c: i128) -> Option<(i128, u128)>
    ensures { MatchOption result (¬ (FitsProduct a 1 c 1)) (IsProduct a 1 c 1) }
{
    let Some(numerator) = product(a, c) else {
        return None;
    };
    Some((numerator, 1))
}

/// The numerator and the denominator, in lowest terms, of the product of the fractions `a/b` and `c/d`; none exactly where one of them leaves
/// `-(2^127-1)` to `2^127-1`. With `g` the greatest common divisor of `a` and `d`, and `h` that of `c` and `b`, they are `(a/g)*(c/h)` and
/// `(b/h)*(d/g)`.
fn product_of_quotients(a: i128, b: u128, c: i128, d: u128) -> Option<(i128, u128)>
    requires left { IsLowest a b }
    requires right { IsLowest c d }
    ensures { MatchOption result (¬ (FitsProduct a b c d)) (IsProduct a b c d) }
{
    let g = common(a.unsigned_abs(), d);
    let h = common(c.unsigned_abs(), b);
    let Some(numerator) = product(quotient(a, g), quotient(c, h)) else {
        return None;
    };
    let Some(denominator) = common_multiple(natural_quotient(b, h), natural_quotient(d, g)) else {
        return None;
    };
    Some((numerator, denominator))
}
