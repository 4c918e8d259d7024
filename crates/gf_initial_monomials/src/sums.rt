//! The vector that is tested for a face: the sum of its rays.
ghost use Rattle.std.specs.Prelude.{◌≡◌, ◌<◌, All, IfOk, IfErr, length};
ghost use Rattle.gf_vec.specs.Vector.{zeros};
ghost use Rattle.gf_vec.specs.Steps.{IsFirstWide, IfWide};
ghost use Rattle.gf_duality_theory.specs.Faces.{sum_of};
ghost use Rattle.gf_fans_theory.specs.FaceLists.{numbered};
ghost use Rattle.gf_rays.specs.Sums.{adding_steps};

use gf_rays::Rays;
use gf_vec::{IntVec, VecError};
use std::alloc::{AllocError, Global};

/// The zero vector.
fn zero_vector(alloc: Global, n: usize) -> Result<IntVec, AllocError>
    ensures { IfOk result (λ v. v ≡ zeros n) }
{
    Ok(IntVec::from_vec(vec![in alloc; 0i128; n]?))
}

/// The sum, from the left, of the rays of a cone with these numbers.
///
/// # Errors
/// `Wide`: the first partial sum that leaves the range. `Memory`: memory runs out.
pub(crate) fn sum_at(alloc: Global, cone: &Rays, numbers: &[u32]) -> Result<IntVec, VecError>
    requires { All (λ i. i < length cone.now.rays) numbers.now }
    ensures value { IfOk result (λ v. v ≡ sum_of cone.now.ambient (numbered cone.now.rays numbers.now)) }
    ensures long { IfOk result (λ v. length v ≡ cone.now.ambient) }
    ensures wide { IfErr result (IfWide (λ e. IsFirstWide e (adding_steps (zeros cone.now.ambient) (numbered cone.now.rays numbers.now)))) }
{
    let rays = cone.rays();
    let mut so_far = zero_vector(alloc, cone.ambient() as usize)?;
    for i in numbers {
        so_far = so_far.add(&rays[*i as usize])?;
    }
    Ok(so_far)
}
