//! The content of a slice of whole numbers.

ghost use Rattle.std.specs.Prelude.{◌<◌, ◌^◌, All};
ghost use Rattle.gf_int_theory.specs.Range.{InRange};
ghost use Rattle.gf_int_theory.specs.Content.{IsContent, IsGcdOfAll};

use super::divisor::gcd;

/// The content of the entries `xs`, each from `-(2^127-1)` to `2^127-1`: their greatest common divisor, or 1
/// where none is nonzero.
pub fn content(xs: &[i128]) -> u128
    requires range { All InRange xs.now }
    ensures content { IsContent xs.now result }
    ensures bound { result < 2 ^ 127 }
{
    let common = gcd_of_all(xs);
    if common == 0 { 1 } else { common }
}

/// The greatest common divisor of the entries; of zeros alone it is 0.
fn gcd_of_all(xs: &[i128]) -> u128
    requires range { All InRange xs.now }
    ensures common { IsGcdOfAll xs.now result }
    ensures bound { result < 2 ^ 127 }
{
    let mut found = 0;
    'entries: for x in xs {
        found = gcd(found, x.unsigned_abs());
    }
    found
}
