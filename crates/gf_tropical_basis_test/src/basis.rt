//! One basis: the maximal cones of the prevariety, one after another.
ghost use Rattle.std.specs.Prelude.{◌≡◌, ◌<◌, IfOk, IfErr, length, slice_index_or};
ghost use Rattle.gf_rays.specs.Cones.{rows_of};
ghost use Rattle.gf_facets_theory.specs.Regions.{all_positive};
ghost use Rattle.gf_cone.specs.Cones.{IsConeOf};
ghost use Rattle.gf_tropical_basis_test.specs.Passing.{AreKnownAt, ArePassedAt};
ghost use Rattle.gf_tropical_basis_test.specs.Verdicts.{HasBasisOutcome, maximal_rows};
ghost use Rattle.gf_tropical_basis_test.specs.Refusals.{IsRefusedWithBasis};

use gf_cone::Cone;
use gf_fan::Fan;
use gf_initial_monomials::{InitialError, Passed, Seen, at_cone};
use gf_poly::{MarkedSet, ROOM};
use gf_rays::Rays;
use gf_vec::IntVec;
use std::alloc::Global;

/// The maximal cone of a fan with this index, counted from 0.
fn maximal_cone(fan: &Fan, i: usize) -> &Rays
    requires { i < length fan.now.maximal }
    ensures value { rows_of result.now ≡ slice_index_or (maximal_rows fan.now) i (rows_of result.now) }
    ensures ambient { result.now.ambient ≡ fan.now.ambient }
{
    fan.cones();
    fan.maximal_cone(i)
}

/// The first vector that fails of the maximal cones of a fan and the closed cone of a basis, which is given; none if each passes. Initial
/// forms that passed at one cone are not tried again at another, nor are the vectors in `passed`, to which those that pass now are added.
///
/// # Errors
/// Those of `at_cone` of `gf_initial_monomials`, at the first cone that has one; all cones before it pass.
fn at_cones(
    alloc: Global,
    basis: &MarkedSet,
    cone: &Cone,
    fan: &Fan,
    pairs: u64,
    passed: &mut Passed,
) -> Result<Option<IntVec>, InitialError>
    requires room { basis.now.variables < ROOM }
    requires ambient { fan.now.ambient ≡ basis.now.variables }
    requires known { AreKnownAt basis.now.variables basis.now.items passed.old }
    requires cone { IsConeOf basis.now.variables (all_positive basis.now.variables) basis.now.items cone.now }
    ensures passed { IfOk result (λ _. ArePassedAt basis.now.variables basis.now.items passed.old passed.new) }
    ensures ok { IfOk result (HasBasisOutcome basis.now.variables (maximal_rows fan.now) basis.now.items) }
    ensures err { IfErr result (IsRefusedWithBasis basis.now.variables (maximal_rows fan.now) basis.now.items pairs) }
{
    let mut seen = Seen::new(alloc, basis.variables());
    let indices = fan.maximal();
    'indices: for i in 0..indices.len() {
        let maximal = maximal_cone(fan, i);
        let found = at_cone(
            alloc,
            basis,
            cone.normals(),
            maximal,
            pairs,
            &mut seen,
            passed,
        )?;
        if let Some(v) = found {
            return Ok(Some(v));
        }
    }
    Ok(None)
}

/// The first vector that fails of the maximal cones of a fan and the closed cone of a basis; none if each passes. The vectors in `passed`, which
/// passed at other bases of the ideal, are not tried again; those that pass now are added.
///
/// # Errors
/// Those of `at_cone` of `gf_initial_monomials`, at the first cone that has one; all cones before it pass. `Memory`: memory runs out.
pub(crate) fn at_basis(
    alloc: Global,
    basis: &MarkedSet,
    fan: &Fan,
    pairs: u64,
    passed: &mut Passed,
) -> Result<Option<IntVec>, InitialError>
    requires room { basis.now.variables < ROOM }
    requires ambient { fan.now.ambient ≡ basis.now.variables }
    requires known { AreKnownAt basis.now.variables basis.now.items passed.old }
    ensures passed { IfOk result (λ _. ArePassedAt basis.now.variables basis.now.items passed.old passed.new) }
    ensures ok { IfOk result (HasBasisOutcome basis.now.variables (maximal_rows fan.now) basis.now.items) }
    ensures err { IfErr result (IsRefusedWithBasis basis.now.variables (maximal_rows fan.now) basis.now.items pairs) }
{
    let cone = Cone::of(alloc, basis)?;
    at_cones(alloc, basis, &cone, fan, pairs, passed)
}
