//! Sums and negatives of entries in place.
ghost use Rattle.std.specs.Prelude.{◌≡◌, negsuc, All, OnOk, IfErr, length};
ghost use Rattle.gf_int_theory.specs.Range.{InRange};
ghost use Rattle.gf_vec.specs.Vector.{vector_sum};
ghost use Rattle.gf_int_theory.specs.Content.{scaled};
ghost use Rattle.gf_vec.specs.Steps.{NoneWide, IsFirstWide, sum_steps};

use crate::arithmetic::total;
use crate::error::WideVector;

/// Adds `ys` to `xs`, entry by entry from the left.
///
/// # Errors
/// The first sum that leaves the range; then the entries before it are changed already.
pub(crate) fn add_onto(xs: &mut [i128], ys: &[i128]) -> Result<(), WideVector>
    requires { length xs.old ≡ length ys.now }
    ensures ok { OnOk result (xs.new ≡ vector_sum xs.old ys.now) }
    ensures none { OnOk result (NoneWide (sum_steps xs.old ys.now)) }
    ensures range { OnOk result (All InRange xs.new) }
    ensures wide { IfErr result (λ e. IsFirstWide e (sum_steps xs.old ys.now)) }
{
    for (i, x) in xs.iter_mut().enumerate() {
        *x = total(*x, ys[i])?;
    }
    Ok(())
}

/// Turns each entry's sign.
pub(crate) fn negate_all(xs: &mut [i128])
    requires { All InRange xs.old }
    ensures value { xs.new ≡ scaled (negsuc 0) xs.old }
    ensures range { All InRange xs.new }
{
    for x in xs.iter_mut() {
        *x = -*x;
    }
}
