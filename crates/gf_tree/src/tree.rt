//! The tree of the bases of an ideal.
ghost use Rattle.std.specs.Prelude.{◌≡◌};
ghost use Rattle.gf_facets_theory.specs.LexPositive.{IsBefore};
ghost use Rattle.gf_reverse_theory.specs.Upward.{IsNode, IsParent};
ghost use Rattle.gf_tree.specs.FanTree.{before_strict, rank, count, upward_tree, upward_nodes, upward_falls, upward_level, upward_finite};
ghost use Rattle.gf_tree.specs.Refusals.{IsCallRefusal};
ghost use Rattle.gf_flip.specs.declared.error.TreeError.TheVariants.{Memory};

use crate::steps::{arrived, below, downward, led_back, way_up};
use crate::{Node, Store, TreeError};
use gf_cone::Region;
use gf_reverse_search::{FiniteTree, ReusingTree, Tree};
use gf_vec::IntVec;
use std::alloc::Global;
use std::cmp::Ordering;

/// The tree of the marked reduced Gröbner bases of an ideal in a region: the parent of a basis is the neighbour across its way up. The
/// label of a basis is the normal across whose facet its parent reaches it.
#[derive(Drop)]
pub struct BasisTree {
    pub alloc: Global,
    /// The region of weights.
    pub region: Region,
    /// The number of pairs that each flip may settle.
    pub pairs: u64,
}

impl Tree for BasisTree {
    type Node = Node;

    type Label = IntVec;

    type Error = TreeError;

    ghost before = { IsBefore };

    ghost is_node = { λ t v. IsNode t.region v };

    ghost up = { λ t. IsParent t.region };

    ghost is_memory = { λ e. e ≡ Memory };

    ghost refuses = { λ t v e. IsCallRefusal t.region t.pairs v e };

    ghost from_memory = { λ a e h. h };

    ghost memory = { λ t v e h. IsCallRefusal.memory h };

    ghost strict = { before_strict };

    ghost tree = { λ t. upward_tree t.region };

    ghost nodes = { λ t. upward_nodes t.region };

    fn labels(&self, node: &Node) -> Result<Vec<IntVec>, TreeError> {
        self.labels_by(node, &mut BasisTree::store(self.alloc))
    }

    fn precedes(&self, a: &IntVec, b: &IntVec) -> bool {
        matches!(a.lex_cmp(b), Ordering::Less)
    }

    fn child(&self, node: &Node, label: &IntVec) -> Result<Option<Node>, TreeError> {
        self.child_by(node, label, &mut BasisTree::store(self.alloc))
    }

    fn parent(&self, node: &Node) -> Result<Option<(IntVec, Node)>, TreeError> {
        let facet = match way_up(self, node)? {
            Some(facet) => facet,
            None => return Ok(None),
        };
        let above = arrived(self, node, &facet)?;
        let mut label = facet.normal;
        label.negate();
        Ok(Some((label, above)))
    }

    fn copy(&self, node: &Node) -> Result<Node, TreeError> {
        let basis = node.basis.copy()?;
        Ok(Node { basis, cone: None })
    }

    fn again(&self) -> Result<Self, TreeError> {
        Ok(BasisTree {
            alloc: self.alloc,
            region: self.region.copy()?,
            pairs: self.pairs,
        })
    }
}

impl ReusingTree for BasisTree {
    type Store = Store;

    fn store(alloc: Global) -> Store {
        Store::new(alloc)
    }

    fn leave(&self, node: Node, store: &mut Store) {
        store.leave(node.basis, node.cone);
    }

    fn bare(&self, node: Node, store: &mut Store) -> Node {
        let Node { basis, cone } = node;
        store.leave_cone(cone);
        Node { basis, cone: None }
    }

    fn leave_label(&self, label: IntVec, store: &mut Store) {
        store.vectors.keep(label);
    }

    fn labels_by(&self, node: &Node, store: &mut Store) -> Result<Vec<IntVec>, TreeError> {
        let labels = downward(self, node, &mut store.vectors)?;
        Ok(labels)
    }

    fn child_by(
        &self,
        node: &Node,
        label: &IntVec,
        store: &mut Store,
    ) -> Result<Option<Node>, TreeError> {
        let neighbour = match below(self, node, label, &mut store.lists)? {
            Some(neighbour) => neighbour,
            None => return Ok(None),
        };
        let mut back = store.vectors.copy(self.alloc, label)?;
        back.negate();
        let child = led_back(self, neighbour, label, &back, store)?;
        store.vectors.keep(back);
        Ok(child)
    }
}

impl FiniteTree for BasisTree {
    ghost rank = { λ t. rank t.region };

    ghost count = { λ t. count t.region };

    ghost falls = { λ t. upward_falls t.region };

    ghost level = { λ t. upward_level t.region };

    ghost finite = { λ t. upward_finite t.region };
}
