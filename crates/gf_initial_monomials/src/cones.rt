//! The intersection of a cone with the closed cone of a basis.
ghost use Rattle.std.specs.Prelude.{◌≡◌, ◌++◌, ◌<◌, List, ℤ, IfOk, IfErr};
ghost use Rattle.gf_gordan.specs.Alternative.{AreRows};
ghost use Rattle.gf_gordan.specs.Steps.{Failed};
ghost use Rattle.gf_duality_theory.specs.Faces.{Rows, cone_of};
ghost use Rattle.gf_rays.specs.Cones.{rows_of};
ghost use Rattle.gf_rays.specs.Reached.{IsRaysStep};
ghost use Rattle.gf_initial_monomials.specs.Outcomes.{IsCutBy, HasOutcome};
ghost use Rattle.gf_initial_monomials.specs.Cuts.{AreCutting, IsPartAs};
ghost use Rattle.gf_initial_monomials.specs.Passing.{AreKnownIn, ArePassedIn};
ghost use Rattle.gf_initial_monomials.specs.Refusals.{IsConeRefusal};
ghost use Rattle.gf_initial_monomials.specs.Limits.{AreFacesWithinLimits, IsMemoryWanted};

use crate::cutting::cutting;
use crate::error::InitialError;
use crate::faces::at_faces;
use crate::passed::Passed;
use crate::seen::Seen;
use gf_gordan::GordanError;
use gf_poly::{MarkedSet, ROOM};
use gf_rays::Rays;
use gf_vec::{IntVec, copied, joined};
use std::alloc::Global;

/// The part of a cone on which none of the rows is negative, by a double description of all rows.
///
/// # Errors
/// `Cone`: an operation of finding its rays leaves its range. `Memory`: memory runs out.
fn cut_anew(alloc: Global, cone: &Rays, rows: &[IntVec]) -> Result<Rays, GordanError>
    requires { AreRows cone.now.ambient rows.now }
    ensures ok { IfOk result (IsCutBy (rows_of cone.now) cone.now.ambient rows.now) }
    ensures err { IfErr result (Failed (IsRaysStep cone.now.ambient (cone.now.inequalities ++ rows.now) cone.now.equations)) }
{
    let inequalities = joined(copied(alloc, cone.inequalities())?, rows)?;
    Rays::of(alloc, cone.ambient(), &inequalities, cone.equations())
}

/// The part of a cone on which none of the rows is negative: by a double description that begins with the rays of the cone, and takes in
/// those rows alone that may cut something off; where that is refused, by one of all rows.
///
/// # Errors
/// `Cone`: an operation of finding its rays by all rows leaves its range. `Memory`: memory runs out.
fn cut_by(alloc: Global, cone: &Rays, rows: &[IntVec], more: &[IntVec]) -> Result<Rays, GordanError>
    requires rows { AreRows cone.now.ambient rows.now }
    requires more { AreCutting cone.now.ambient (rows_of cone.now) rows.now more.now }
    ensures ok { IfOk result (IsPartAs (rows_of cone.now) cone.now.ambient rows.now) }
    ensures err { IfErr result (Failed (IsRaysStep cone.now.ambient (cone.now.inequalities ++ rows.now) cone.now.equations)) }
{
    match cone.with_more(more) {
        Ok(cut) => Ok(cut),
        Err(_) => cut_anew(alloc, cone, rows),
    }
}

/// The first vector that fails of a cone inside the closed cone of the basis, whichever rows the cone is given by.
///
/// # Errors
/// Those of `at_cone` at its faces.
fn at_part(
    alloc: Global,
    basis: &MarkedSet,
    part: &Rays,
    pairs: u64,
    seen: &mut Seen,
    passed: &mut Passed,
) -> Result<Option<IntVec>, InitialError>
    requires room { basis.now.variables < ROOM }
    requires ambient { part.now.ambient ≡ basis.now.variables }
    requires seen { seen.old ≡ basis.now.variables }
    requires known { AreKnownIn basis.now.variables basis.now.items (rows_of part.now) passed.old }
    ensures seen { seen.new ≡ seen.old }
    ensures passed { IfOk result (λ _. ArePassedIn basis.now.variables basis.now.items (rows_of part.now) passed.old passed.new) }
    ensures ok { IfOk result (λ v. (c : Rows) (rows : List (List ℤ)) → IsPartAs c basis.now.variables rows part.now →
        HasOutcome basis.now.variables basis.now.items rows c v) }
    ensures err { IfErr result (λ e. (c : Rows) (rows : List (List ℤ)) → IsPartAs c basis.now.variables rows part.now →
        IsConeRefusal basis.now.variables basis.now.items rows c pairs e) }
{
    part.rays();
    let faces = part.faces()?;
    at_faces(alloc, basis, part, &faces, pairs, seen, passed)
}

/// The first vector that fails of the intersection of the cone with the cone of the rows. Where none of the rows cuts anything off the cone,
/// the intersection is the cone itself, and no double description is needed.
///
/// # Errors
/// Those of `at_cone`.
fn first_failing(
    alloc: Global,
    basis: &MarkedSet,
    normals: &[IntVec],
    cone: &Rays,
    pairs: u64,
    seen: &mut Seen,
    passed: &mut Passed,
) -> Result<Option<IntVec>, InitialError>
    requires room { basis.now.variables < ROOM }
    requires ambient { cone.now.ambient ≡ basis.now.variables }
    requires normals { AreRows basis.now.variables normals.now }
    requires seen { seen.old ≡ basis.now.variables }
    requires known { AreKnownIn basis.now.variables basis.now.items (cone_of normals.now) passed.old }
    ensures seen { seen.new ≡ seen.old }
    ensures passed { IfOk result (λ _. ArePassedIn basis.now.variables basis.now.items (cone_of normals.now) passed.old passed.new) }
    ensures ok { IfOk result (HasOutcome basis.now.variables basis.now.items normals.now (rows_of cone.now)) }
    ensures err { IfErr result (IsConeRefusal basis.now.variables basis.now.items normals.now (rows_of cone.now) pairs) }
{
    let more = cutting(alloc, cone, normals)?;
    if more.is_empty() {
        return at_part(alloc, basis, cone, pairs, seen, passed);
    }
    let cut = cut_by(alloc, cone, normals, &more)?;
    at_part(alloc, basis, &cut, pairs, seen, passed)
}

/// The first vector that fails of a cone and a Gröbner basis, whose `normals` are those of its closed cone; none if all pass. For each face
/// of the intersection of the two cones, by dimension and then by the numbers of its rays, the sum of its rays is tested, a vector with an
/// entry for each variable: it fails if the ideal of the initial forms of the basis at it has a polynomial with a single term. Each run of
/// Buchberger's algorithm settles at most `pairs` pairs. Initial forms in `seen`, those that passed at this basis before, are not tested
/// again, nor are vectors in `passed`, which are known to pass where they are in the closed cone; those that pass now are added to both.
///
/// # Errors
///
/// All faces before an error pass.
///
/// - `Cone`: an operation of finding the rays of the intersection leaves its range.
/// - `Wide`: the first partial sum of the rays of a face that leaves the range.
/// - `Entry`: the first entry of such a sum that is greater than `2^63` in absolute value.
/// - `Saturation`: `has_monomial` is refused for the initial forms at such a sum: operands don't fit, a run has more than `pairs` pairs to
///   settle, or memory runs out.
/// - `Memory`: memory runs out.
pub fn at_cone(
    alloc: Global,
    basis: &MarkedSet,
    normals: &[IntVec],
    cone: &Rays,
    pairs: u64,
    seen: &mut Seen,
    passed: &mut Passed,
) -> Result<Option<IntVec>, InitialError>
    requires room { basis.now.variables < ROOM }
    requires ambient { cone.now.ambient ≡ basis.now.variables }
    requires normals { AreRows basis.now.variables normals.now }
    requires seen { seen.old ≡ basis.now.variables }
    requires known { AreKnownIn basis.now.variables basis.now.items (cone_of normals.now) passed.old }
    ensures seen { seen.new ≡ seen.old }
    ensures passed { IfOk result (λ _. ArePassedIn basis.now.variables basis.now.items (cone_of normals.now) passed.old passed.new) }
    ensures ok { IfOk result (HasOutcome basis.now.variables basis.now.items normals.now (rows_of cone.now)) }
    ensures err { IfErr result (IsConeRefusal basis.now.variables basis.now.items normals.now (rows_of cone.now) pairs) }
    ensures complete { AreFacesWithinLimits basis.now.variables basis.now.items normals.now (rows_of cone.now) pairs → IfErr result IsMemoryWanted }
{
    first_failing(alloc, basis, normals, cone, pairs, seen, passed)
}
