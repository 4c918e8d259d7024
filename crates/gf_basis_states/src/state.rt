//! A basis as a state.
ghost use Rattle.std.specs.Prelude.{◌≡◌, ℕ, IfOk, IfErr};
ghost use Rattle.gf_facets_theory.specs.Regions.{all_positive};
ghost use Rattle.gf_tree.specs.Refusals.{IsRefusedAtBasis};
ghost use Rattle.gf_basis_states.specs.Crossable.{AreCrossable};

use crate::crossable::crossable_normals;
use gf_cone::Region;
use gf_poly::MarkedSet;
use gf_tree::TreeError;
use gf_vec::IntVec;
use std::alloc::Global;
use std::marker::Model;

/// A marked set with the normals that a flip may cross, for positive weights. States are equal if their sets are.
#[derive(Drop)]
pub struct BasisState {
    basis: MarkedSet,
    crossable: Vec<IntVec>,
}

impl Model for BasisState {
    ghost use Rattle.gf_poly.specs.Marking.{MarkedPolynomials};
    ghost use Rattle.gf_facets_theory.specs.Regions.{all_positive};
    ghost use Rattle.gf_basis_states.specs.Crossable.{AreCrossable};

    ghost Value = { MarkedPolynomials };

    ghost view = { λ p. p.basis };

    ghost invariant = { λ p. AreCrossable p.basis.variables (all_positive p.basis.variables) p.basis.items p.crossable.items };
}

impl BasisState {
    /// The state of a set, which is a marked reduced Gröbner basis.
    ///
    /// # Errors
    ///
    /// - `Cone`: a step of the system that decides whether a flip may cross the facet of a normal of the set leaves its range.
    /// - `Memory`: memory runs out.
    pub fn new(alloc: Global, basis: MarkedSet) -> Result<BasisState, TreeError>
        ensures ok { IfOk result (λ p. p ≡ basis) }
        ensures err { (pairs : ℕ) → IfErr result (IsRefusedAtBasis (all_positive basis.variables) pairs basis) }
    {
        let region = Region::positive(alloc, basis.variables())?;
        let crossable = crossable_normals(alloc, &basis, &region)?;
        Ok(BasisState { basis, crossable })
    }

    /// The set of the state.
    pub fn basis(&self) -> &MarkedSet
        ensures { result.now ≡ self.now }
    {
        &self.basis
    }

    /// The normals that a flip may cross, each once, ascending, with an entry for each variable.
    pub fn crossable(&self) -> &[IntVec]
        ensures { AreCrossable self.now.variables (all_positive self.now.variables) self.now.items result.now }
    {
        self.crossable.as_slice()
    }
}
