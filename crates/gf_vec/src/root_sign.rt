//! The sign by which the search over the bases is directed.
ghost use Rattle.std.specs.Prelude.{◌≡◌, ◌≤◌, ◌^◌, All, unsigned_abs};
ghost use Rattle.gf_vec.specs.RootSign.{first_sign, root_sign, total_of};

use crate::vector::IntVec;
use std::cmp::Ordering;

/// The sum of entries within `2^64` in absolute value.
fn sum_of(xs: &[i128]) -> i128
    requires { All (λ x. unsigned_abs x ≤ 2 ^ 64) xs.now }
    ensures { result ≡ total_of xs.now }
{
    let mut sum = 0;
    for x in xs {
        sum += *x;
    }
    sum
}

/// The sign, against zero, of the first entry that isn't zero; `Equal` where all are.
pub fn leading_sign(xs: &[i128]) -> Ordering
    ensures { result ≡ first_sign xs.now }
{
    for x in xs {
        if *x != 0 {
            return x.cmp(&0);
        }
    }
    Ordering::Equal
}

impl IntVec {
    /// The sign, against zero, of the first number that isn't zero among the sum of the entries and the entries in
    /// turn. Each entry is within `2^64` in absolute value. It takes no memory.
    pub fn root_sign(&self) -> Ordering
        requires { All (λ x. unsigned_abs x ≤ 2 ^ 64) self.now }
        ensures { result ≡ root_sign self.now }
    {
        let sum = sum_of(self.as_slice());
        if sum != 0 {
            return sum.cmp(&0);
        }
        leading_sign(self.as_slice())
    }
}
