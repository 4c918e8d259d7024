//! A node of the tree: a basis with its cone.
ghost use Rattle.std.specs.Prelude.{◌≡◌, length, IfOk};
ghost use Rattle.gf_cone.specs.Cones.{IsConeOf};

use crate::BasisTree;
use gf_cone::{Cone, Region, SpareVectors};
use gf_known_cone::KnownCone;
use gf_poly::MarkedSet;
use gf_vec::IntVec;
use std::alloc::{AllocError, Global};
use std::marker::Model;

/// A basis, and its cone with what is known about it. Nodes are equal if their bases are, whatever is known of the cone. A cone that is
/// missing is computed when it is needed.
#[derive(Drop)]
pub struct Node {
    pub(crate) basis: MarkedSet,
    pub(crate) cone: Option<KnownCone>,
}

impl Model for Node {
    ghost use Rattle.std.specs.Prelude.{IfSome};
    ghost use Rattle.gf_poly.specs.Marking.{MarkedPolynomials};
    ghost use Rattle.gf_tree.specs.Parents.{IsSomeCone};

    ghost Value = { MarkedPolynomials };

    ghost view = { λ n. n.basis };

    ghost invariant = { λ n. IfSome n.cone (IsSomeCone n.basis) };
}

impl Node {
    /// A node of the basis, with its cone; if there isn't memory enough for the cone, without it.
    pub fn of(alloc: Global, basis: MarkedSet, region: &Region) -> Node
        requires { length region.now.root ≡ basis.variables }
        ensures { result ≡ basis }
    {
        match cone_of(alloc, &basis, region) {
            Ok(cone) => Node {
                basis,
                cone: Some(cone),
            },
            Err(_refusal) => Node { basis, cone: None },
        }
    }

    /// The basis.
    pub(crate) fn basis(&self) -> &MarkedSet
        ensures { result.now ≡ self.now }
    {
        &self.basis
    }

    /// The basis of the node, without its cone.
    pub fn into_basis(self) -> MarkedSet
        ensures { result ≡ self }
    {
        self.basis
    }
}

/// The cone of a basis, of which nothing is known yet.
pub(crate) fn cone_of(
    alloc: Global,
    set: &MarkedSet,
    region: &Region,
) -> Result<KnownCone, AllocError>
    requires { length region.now.root ≡ set.now.variables }
    ensures { IfOk result (IsConeOf set.now.variables region.now set.now.items) }
{
    let cone = Cone::within(alloc, set, region)?;
    KnownCone::new(alloc, cone, None)
}

/// The cone of a basis, with a vector in its interior. This vector is sought near a vector in the relative interior of the facet that the
/// cone shares with a neighbour; `normal` is the normal of this facet on the side of the neighbour. The memory of spare vectors is used.
pub(crate) fn cone_near(
    tree: &BasisTree,
    set: &MarkedSet,
    witness: &IntVec,
    normal: &IntVec,
    spare: &mut SpareVectors,
) -> Result<KnownCone, AllocError>
    requires { length tree.now.region.root ≡ set.now.variables }
    ensures { IfOk result (IsConeOf set.now.variables tree.now.region set.now.items) }
{
    let cone = Cone::within_over(tree.alloc, set, &tree.region, spare)?;
    KnownCone::near(tree.alloc, cone, witness, normal)
}

/// A normal, and a vector in the relative interior of its facet.
#[derive(Drop)]
pub(crate) struct Facet {
    pub(crate) normal: IntVec,
    pub(crate) witness: IntVec,
}

impl Model for Facet {
    ghost use Rattle.std.specs.Prelude.{List, ℤ};

    ghost Value = { List ℤ };

    ghost view = { λ f. f.normal };
}

/// A basis across a facet, and a vector in the relative interior of the facet.
#[derive(Drop)]
pub(crate) struct Neighbour {
    pub(crate) basis: MarkedSet,
    pub(crate) witness: IntVec,
}

impl Model for Neighbour {
    ghost use Rattle.gf_poly.specs.Marking.{MarkedPolynomials};

    ghost Value = { MarkedPolynomials };

    ghost view = { λ n. n.basis };
}
