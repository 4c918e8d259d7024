//! `_bases -g`: a marked Gröbner basis in place of generators is checked, reduced, and taken up to the root.
ghost use Rattle.std.specs.Prelude.{IfOk, IfErr};
ghost use Rattle.gf_poly.specs.Marking.{HaveVariables, polys};
ghost use Rattle.gf_reduced.specs.Markings.{IsMarkedGroebnerBasis};
ghost use Rattle.gf_facets_theory.specs.Regions.{all_positive};
ghost use Rattle.gf_reverse_theory.specs.Upward.{IsNodeIn};
ghost use Rattle.gf_tree.specs.Parents.{ideal_of, IsRootFor};
ghost use Rattle.gf_tree.specs.Refusals.{IsWayRefused};
ghost use Rattle.gf_lists_theory.specs.Starts.{StartsAt};
ghost use Rattle.gfan_lists.specs.GivenBasis.{IsReducedFrom, IsReducingRefusal, IsGivenRootRefusal};

use gf_cone::Region;
use gf_division::autoreduce;
use gf_front::Refusal;
use gf_poly::MarkedSet;
use gf_reduced::{CheckError, require_basis};
use gf_tree::{TreeError, to_root};
use gfan_common::refused::{Refused, of_check};
use std::alloc::Global;

/// The root of the tree of a reduced basis, among the bases for all positive weights.
fn root_above(alloc: Global, reduced: MarkedSet, pairs: u64) -> Result<MarkedSet, TreeError>
    requires { IsNodeIn (ideal_of reduced) reduced }
    ensures value { IfOk result (IsRootFor (all_positive reduced.variables) reduced) }
    ensures way { IfErr result (IsWayRefused (all_positive reduced.variables) pairs reduced) }
{
    let region = Region::positive(alloc, reduced.variables())?;
    to_root(alloc, reduced, &region, pairs)
}

/// The reduced basis of the ideal of a marked Gröbner basis, with its marks: the set is checked and reduced. It has fewer than `2^32`
/// members.
pub(crate) fn reduced_of(alloc: Global, marked: &MarkedSet) -> Result<MarkedSet, Refusal>
    ensures variables { IfOk result (λ _. HaveVariables marked.now.variables marked.now.items) }
    ensures basis { IfOk result (λ _. IsMarkedGroebnerBasis marked.now.variables marked.now.items) }
    ensures reduced { IfOk result (IsReducedFrom marked.now) }
    ensures own { IfOk result (λ u. IsNodeIn (ideal_of u) u) }
    ensures err { IfErr result (IsReducingRefusal marked.now) }
{
    if marked.items().len() > u32::MAX as usize {
        return Err(Refusal::Memory);
    }
    let basis = match require_basis(alloc, marked, 0) {
        Ok(basis) => basis,
        Err(error) => return Err(of_check(error)),
    };
    match autoreduce(alloc, &basis) {
        Ok(reduced) => Ok(reduced),
        Err(error) => Err(of_check(CheckError::from(error))),
    }
}

/// The basis, by deglex, of the ideal of a marked Gröbner basis: the set is checked and reduced, and its parents are visited up to the
/// root.
pub(crate) fn root_of(alloc: Global, marked: &MarkedSet, pairs: u64) -> Result<MarkedSet, Refusal>
    ensures basis { IfOk result (λ _. IsMarkedGroebnerBasis marked.now.variables marked.now.items) }
    ensures root { IfOk result (λ root. StartsAt marked.now.variables (polys marked.now.items) root) }
    ensures err { IfErr result (IsGivenRootRefusal marked.now pairs) }
{
    let reduced = reduced_of(alloc, marked)?;
    match root_above(alloc, reduced, pairs) {
        Ok(root) => Ok(root),
        Err(error) => Err(Refused::from(error).refusal),
    }
}
