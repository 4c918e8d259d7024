//! The sign of a normal at a weight.

ghost use Rattle.std.specs.Prelude.{◌≡◌, ◌↔◌, length, IfOk, IsTrue};
ghost use Rattle.gf_facets_theory.specs.LexPositive.{IsNegative};

use gf_vec::{IntVec, WideVector, leading_sign};
use std::cmp::Ordering;

/// Whether a normal is negative at a weight: the first nonzero number among their dot product and the entries of the normal is negative.
///
/// # Errors
/// The first product or partial sum of the dot product that leaves the range.
pub(crate) fn is_negative(weight: &IntVec, normal: &IntVec) -> Result<bool, WideVector>
    requires { length normal.now ≡ length weight.now }
    ensures { IfOk result (λ r. IsTrue r ↔ IsNegative weight.now normal.now) }
{
    let value = normal.dot(weight)?;
    if value != 0 {
        return Ok(value < 0);
    }
    Ok(matches!(leading_sign(normal.as_slice()), Ordering::Less))
}
