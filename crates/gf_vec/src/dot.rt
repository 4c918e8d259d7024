//! The dot product of two lists of entries, from the left.
ghost use Rattle.std.specs.Prelude.{◌≡◌, pos, length, IfOk, IfErr};
ghost use Rattle.gf_int_theory.specs.Range.{InRange};
ghost use Rattle.gf_vec.specs.Vector.{dot};
ghost use Rattle.gf_vec.specs.Steps.{NoneWide, IsFirstWide, dot_steps};

use crate::arithmetic::{product, total};
use crate::error::WideVector;

/// The dot product of two slices of one length, each product and each partial sum from the left in range.
///
/// # Errors
/// The first product or partial sum, from the left, that leaves the range.
pub fn dot_slices(xs: &[i128], ys: &[i128]) -> Result<i128, WideVector>
    requires { length xs.now ≡ length ys.now }
    ensures ok { IfOk result (λ d. (d ≡ dot xs.now ys.now) × NoneWide (dot_steps (pos 0) xs.now ys.now)) }
    ensures range { IfOk result InRange }
    ensures wide { IfErr result (λ e. IsFirstWide e (dot_steps (pos 0) xs.now ys.now)) }
{
    let mut sum = 0;
    for (i, x) in xs.iter().enumerate() {
        sum = total(sum, product(*x, ys[i])?)?;
    }
    Ok(sum)
}
