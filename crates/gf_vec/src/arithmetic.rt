//! One operation on two entries: the exact outcome, or the refusal that names the operation.
//!
//! Operands of 64 bits take a short way: their product always fits, and their quotient is worked out in 64 bits.
ghost use Rattle.std.specs.Prelude.{◌≡◌, ◌*ℤ◌, ◌<ℤ◌, ◌↔◌, pos, int_div, IsTrue, FitsSigned};
ghost use Rattle.std.specs.Int.{w64};
ghost use Rattle.gf_int_theory.specs.Range.{InRange};
ghost use Rattle.gf_vec.specs.Steps.{Operates};

use crate::error::{VecOp, WideVector};

/// Whether a number has at most 64 bits.
fn is_small(x: i128) -> bool
    ensures { IsTrue result ↔ FitsSigned w64 x }
{
    x >= i64::MIN as i128 && x <= i64::MAX as i128
}

/// The product of two numbers of 64 bits.
fn small_product(x: i64, y: i64) -> i128
    ensures value { result ≡ x *ℤ y }
    ensures range { InRange result }
{
    x as i128 * y as i128
}

/// The product, where it is in range.
///
/// # Errors
/// The operation, exactly where the product leaves the range.
pub fn product(x: i128, y: i128) -> Result<i128, WideVector>
    ensures { Operates VecOp.Mul x y result }
{
    if is_small(x) && is_small(y) {
        return Ok(small_product(x as i64, y as i64));
    }
    match x.checked_mul(y) {
        Some(z) if z != i128::MIN => Ok(z),
        _ => Err(WideVector {
            op: VecOp::Mul,
            left: x,
            right: y,
        }),
    }
}

/// The sum, where it is in range.
///
/// # Errors
/// The operation, exactly where the sum leaves the range.
pub fn total(x: i128, y: i128) -> Result<i128, WideVector>
    ensures { Operates VecOp.Add x y result }
{
    match x.checked_add(y) {
        Some(z) if z != i128::MIN => Ok(z),
        _ => Err(WideVector {
            op: VecOp::Add,
            left: x,
            right: y,
        }),
    }
}

/// The difference, where it is in range.
///
/// # Errors
/// The operation, exactly where the difference leaves the range.
pub fn difference(x: i128, y: i128) -> Result<i128, WideVector>
    ensures { Operates VecOp.Sub x y result }
{
    match x.checked_sub(y) {
        Some(z) if z != i128::MIN => Ok(z),
        _ => Err(WideVector {
            op: VecOp::Sub,
            left: x,
            right: y,
        }),
    }
}

/// The quotient by a positive number, toward zero.
pub fn quotient(x: i128, by: i128) -> i128
    requires { pos 0 <ℤ by }
    ensures { result ≡ int_div x by }
{
    if is_small(x) && is_small(by) {
        return small_quotient(x as i64, by as i64);
    }
    x / by
}

/// The quotient of two numbers of 64 bits, by a positive one, toward zero.
fn small_quotient(x: i64, by: i64) -> i128
    requires { pos 0 <ℤ by }
    ensures { result ≡ int_div x by }
{
    (x / by) as i128
}
