//! The faces of a cone, one after another.
ghost use Rattle.std.specs.Prelude.{◌≡◌, ◌<◌, IfOk, IfErr};
ghost use Rattle.gf_rays.specs.Cones.{rows_of};
ghost use Rattle.gf_rays.specs.Faces.{AreFaces};
ghost use Rattle.gf_initial_monomials.specs.Outcomes.{IsFirstThatFails, PassesAt, FailsAt};
ghost use Rattle.gf_initial_monomials.specs.Passing.{AreKnownIn, ArePassedIn};
ghost use Rattle.gf_initial_monomials.specs.Refusals.{IsFaceRefusal};

use crate::error::InitialError;
use crate::passed::Passed;
use crate::seen::Seen;
use crate::sums::sum_at;
use crate::vectors::told_at;
use gf_poly::{MarkedSet, ROOM};
use gf_rays::{Face, Rays};
use gf_vec::IntVec;
use std::alloc::Global;

/// The vector of the first of these faces of a cone that fails; none if all pass. Vectors in `passed` are not tested again, and those that
/// pass now are added.
///
/// # Errors
/// `Wide`: the first partial sum of rays that leaves the range. `Entry`, `Saturation`: a refusal at a vector. `Memory`: memory runs out.
pub(crate) fn at_faces(
    alloc: Global,
    basis: &MarkedSet,
    cone: &Rays,
    faces: &[Face],
    pairs: u64,
    seen: &mut Seen,
    passed: &mut Passed,
) -> Result<Option<IntVec>, InitialError>
    requires room { basis.now.variables < ROOM }
    requires ambient { cone.now.ambient ≡ basis.now.variables }
    requires seen { seen.old ≡ basis.now.variables }
    requires faces { AreFaces cone.now faces.now }
    requires known { AreKnownIn basis.now.variables basis.now.items (rows_of cone.now) passed.old }
    ensures seen { seen.new ≡ seen.old }
    ensures passed { IfOk result (λ _. ArePassedIn basis.now.variables basis.now.items (rows_of cone.now) passed.old passed.new) }
    ensures ok { IfOk result (IsFirstThatFails (PassesAt basis.now.items cone.now) (FailsAt basis.now.items cone.now) faces.now) }
    ensures err { IfErr result (IsFaceRefusal basis.now.items cone.now faces.now pairs) }
{
    'faces: for i in 0..faces.len() {
        let v = sum_at(alloc, cone, faces[i].rays.as_slice())?;
        if passed.has(&v) {
            continue;
        }
        let fails = told_at(alloc, basis, &v, pairs, seen)?;
        if fails {
            return Ok(Some(v));
        }
        passed.keep(v)?;
    }
    Ok(None)
}
