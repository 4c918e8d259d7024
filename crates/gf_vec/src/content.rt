//! Division of a list of entries by its content.
ghost use Rattle.std.specs.Prelude.{◌≡◌, ◌<ℤ◌, ◌↔◌, pos, All, Any, IsTrue, unsigned_abs};
ghost use Rattle.gf_int_theory.specs.Range.{InRange};
ghost use Rattle.gf_int_theory.specs.Content.{quotients};
ghost use Rattle.gf_vec.specs.Primitive.{IsDivided};

use crate::arithmetic::quotient;
use gf_gcd::content;

/// Divides each entry.
fn divide_all(xs: &mut [i128], by: i128)
    requires positive { pos 0 <ℤ by }
    ensures { xs.new ≡ quotients by xs.old }
{
    for x in xs.iter_mut() {
        *x = quotient(*x, by);
    }
}

/// Whether some entry is 1 or -1, so that the content is 1.
fn has_unit(xs: &[i128]) -> bool
    ensures { IsTrue result ↔ Any (λ x. unsigned_abs x ≡ 1) xs.now }
{
    for x in xs {
        if *x == 1 || *x == -1 {
            return true;
        }
    }
    false
}

/// Divides the entries by their content and hands it back: their greatest common divisor, or 1 where all are zero.
///
/// Where an entry is 1 or -1 no divisor is worked out.
pub fn divide_by_content(xs: &mut [i128]) -> i128
    requires { All InRange xs.old }
    ensures divided { IsDivided xs.old result xs.new }
    ensures range { All InRange xs.new }
    ensures content { InRange result }
{
    if has_unit(xs) {
        return 1;
    }
    let by = content(xs) as i128;
    if by != 1 {
        divide_all(xs, by);
    }
    by
}
