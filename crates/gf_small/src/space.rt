//! The homogeneity space of a set of polynomials.
ghost use Rattle.std.specs.Prelude.{◌≡◌, [], IfOk, IfErr};
ghost use Rattle.gf_poly.specs.Marking.{Each, HaveVariables, HasMarkedTerm};
ghost use Rattle.gf_gordan.specs.declared.error.GordanError.TheVariants.{Memory};
ghost use Rattle.gf_rays.specs.Cones.{AreRaysWithinLimits};
ghost use Rattle.gf_facets_theory.specs.Rows.{rows_of_polynomials};
ghost use Rattle.gf_small.specs.HomogeneitySpace.{IsBasisOfSpace, IsSpaceCause};

use gf_gordan::GordanError;
use gf_poly::{Marked, MarkedSet, copied};
use gf_rays::Rays;
use gf_vec::IntVec;
use std::alloc::{AllocError, Global};

/// The differences of the marked exponent vector of a polynomial and each of its other exponent vectors, of all polynomials.
fn differences(alloc: Global, n: u32, set: &[Marked]) -> Result<Vec<IntVec>, AllocError>
    requires { HaveVariables n set.now }
    ensures value { IfOk result (λ rows. rows.items ≡ rows_of_polynomials set.now) }
    ensures marked { IfOk result (λ _. Each HasMarkedTerm set.now) }
{
    let set = MarkedSet::new(n, copied(alloc, set)?);
    gf_cone::rows(alloc, &set)
}

/// The homogeneity space of polynomials in `n` variables, as a cone without inequalities: the vectors of `n` entries by which each of the
/// polynomials is homogeneous (Fukuda, Jensen, Thomas, *Computing Gröbner fans*, 2). The equations of the cone are the differences of the
/// marked exponent vector of a polynomial and each of its other ones; its lineality basis is a basis of the space. If there are no
/// polynomials, it is the whole space.
///
/// # Errors
///
/// - `Cone`: an operation of computing the space leaves the range from `-(2^127 - 1)` to `2^127 - 1`; it holds the two numbers whose sum,
///   difference or product this is.
/// - `Memory`: memory runs out.
pub fn homogeneity(alloc: Global, n: u32, set: &[Marked]) -> Result<Rays, GordanError>
    requires { HaveVariables n set.now }
    ensures rows { IfOk result (λ c. (c.ambient ≡ n) × (c.inequalities ≡ []) × (c.equations ≡ rows_of_polynomials set.now)) }
    ensures space { IfOk result (λ c. IsBasisOfSpace n set.now c.lineality) }
    ensures err { IfErr result (IsSpaceCause n set.now) }
    ensures complete { AreRaysWithinLimits n [] (rows_of_polynomials set.now) → IfErr result (λ e. e ≡ Memory) }
{
    let rows = differences(alloc, n, set)?;
    let none = Vec::new(alloc);
    Rays::of(alloc, n, none.as_slice(), rows.as_slice())
}
