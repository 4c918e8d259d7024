//! The bases of the ideal, in the order of their paths.
ghost use Rattle.std.specs.Prelude.{◌≡◌, ◌<◌, IfOk, IfErr, List};
ghost use Rattle.gf_poly.specs.Polynomial.{Terms};
ghost use Rattle.gf_facets_theory.specs.Regions.{all_positive};
ghost use Rattle.gf_reverse_theory.specs.Upward.{IsNode, IsNodeIn};
ghost use Rattle.gf_tree.specs.Ideals.{ideal_by};
ghost use Rattle.gf_poly.specs.Marking.{MarkedPolynomials};
ghost use Rattle.gf_tropical_basis_test.specs.Starts.{IsStartOf};
ghost use Rattle.gf_tropical_basis_test.specs.Verdicts.{HaveBasesOutcome, maximal_rows, outcome_of};
ghost use Rattle.gf_tropical_basis_test.specs.Refusals.{AreBasesRefused};

use crate::basis::at_basis;
use crate::error::BasisTestError;
use crate::verdict::Verdict;
use gf_cone::Region;
use gf_fan::Fan;
use gf_initial_monomials::Passed;
use gf_poly::{MarkedSet, ROOM};
use gf_tree::{Walker, to_root};
use std::alloc::Global;

/// The verdict on the bases of an ideal, from the root of their tree.
///
/// # Errors
/// `Search`: a refusal of the search. `Initial`: one at a basis; all bases before it pass. `Memory`: memory runs out.
fn from_root(
    alloc: Global,
    root: MarkedSet,
    region: &Region,
    fan: &Fan,
    pairs: u64,
) -> Result<Verdict, BasisTestError>
    requires room { root.variables < ROOM }
    requires ambient { fan.now.ambient ≡ root.variables }
    requires own { IsNode region.now root }
    ensures ok { IfOk result (λ verdict. (fs : List Terms) (start : MarkedPolynomials) → IsStartOf fs start region.now root →
        HaveBasesOutcome start.variables fs (maximal_rows fan.now) (outcome_of verdict)) }
    ensures err { IfErr result (λ e. (fs : List Terms) (start : MarkedPolynomials) → IsStartOf fs start region.now root →
        AreBasesRefused start.variables fs (maximal_rows fan.now) pairs e) }
{
    let mut passed = Passed::new(alloc);
    let mut walker = Walker::at(alloc, root, region, pairs)?;
    while let Some(basis) = walker.advance()? {
        let found = at_basis(alloc, &basis, fan, pairs, &mut passed)?;
        if let Some(v) = found {
            return Ok(Verdict::No(v));
        }
    }
    Ok(Verdict::Yes)
}

/// The verdict on the bases of an ideal, from any of them.
///
/// # Errors
/// `Search`: a refusal of the search. `Initial`: one at a basis; all bases before it pass. `Memory`: memory runs out.
pub(crate) fn at_bases(
    alloc: Global,
    start: MarkedSet,
    region: &Region,
    fan: &Fan,
    pairs: u64,
) -> Result<Verdict, BasisTestError>
    requires room { start.variables < ROOM }
    requires ambient { fan.now.ambient ≡ start.variables }
    requires region { region.now ≡ all_positive start.variables }
    requires own { IsNode region.now start }
    ensures ok { IfOk result (λ verdict. (fs : List Terms) → IsNodeIn (ideal_by start.variables fs) start →
        HaveBasesOutcome start.variables fs (maximal_rows fan.now) (outcome_of verdict)) }
    ensures err { IfErr result (λ e. (fs : List Terms) → IsNodeIn (ideal_by start.variables fs) start →
        AreBasesRefused start.variables fs (maximal_rows fan.now) pairs e) }
{
    let root = to_root(alloc, start, region, pairs)?;
    from_root(alloc, root, region, fan, pairs)
}
