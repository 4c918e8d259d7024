//! Trees that are known by their parents.
//!
//! What the clauses cite is in `specs/Tree.antt` and `specs/Path.antt`.
ghost use Rattle.std.specs.Prelude.{◌≡◌, ◌↔◌, ◌<◌, ℕ, IsTrue, IfOk, IfErr};
ghost use Rattle.gf_reverse_search.specs.Path.{IsStrictOrder, IsTree};
ghost use Rattle.gf_reverse_search.specs.Whole.{IsFinite};
ghost use Rattle.gf_reverse_search.specs.Tree.{RisesBy, HasLabels, IsChildOf, IsParentOf};
ghost use Rattle.std.specs.declared.alloc.AllocError.{AllocError};

use std::alloc::AllocError;

/// A tree whose nodes are given by a way up and by labels to try on the way down.
///
/// Nothing is asked of where its roots are or whether it ends: a walker that is given a node lists that node's subtree. A tree
/// value holds what its calls need beside the node, as a budget. Equal nodes are the same node.
pub trait Tree: Drop {
    /// A node.
    type Node: Drop;

    /// What leads from a node to a child of it.
    type Label: Drop;

    /// What a call may be refused by.
    type Error: Drop + From<AllocError>;

    /// The order of the labels.
    ghost before: { Self.Label → Self.Label → Type 0 };

    /// What is a node of this tree.
    ghost is_node: { Self → Self.Node → Type 0 };

    /// In this tree the parent of the first node is the second, which has it as its child under the label.
    ghost up: { Self → Self.Node → Self.Label → Self.Node → Type 0 };

    /// What stands for want of memory.
    ghost is_memory: { Self.Error → Type 0 };

    /// What a call at a node may be refused by.
    ghost refuses: { Self → Self.Node → Self.Error → Type 0 };

    /// Labels in rising order, those of the node's children among them.
    fn labels(&self, node: &Self::Node) -> Result<Vec<Self::Label>, Self::Error>
        requires { is_node self.now node.now }
        ensures rises { IfOk result (λ v. RisesBy before v.items) }
        ensures all { IfOk result (λ v. HasLabels (up self.now) node.now v.items) }
        ensures err { IfErr result (refuses self.now node.now) };

    /// Whether a label comes before another.
    fn precedes(&self, a: &Self::Label, b: &Self::Label) -> bool
        ensures { IsTrue result ↔ before a.now b.now };

    /// The node's child under a label, if it has one.
    fn child(
        &self,
        node: &Self::Node,
        label: &Self::Label,
    ) -> Result<Option<Self::Node>, Self::Error>
        requires { is_node self.now node.now }
        ensures ok { IfOk result (IsChildOf (up self.now) node.now label.now) }
        ensures err { IfErr result (refuses self.now node.now) };

    /// The node's parent, with the label that leads back; none at a root.
    fn parent(&self, node: &Self::Node) -> Result<Option<(Self::Label, Self::Node)>, Self::Error>
        requires { is_node self.now node.now }
        ensures ok { IfOk result (IsParentOf (up self.now) node.now) }
        ensures err { IfErr result (refuses self.now node.now) };

    /// A copy of the node.
    ///
    /// # Errors
    ///
    /// Want of memory alone.
    fn copy(&self, node: &Self::Node) -> Result<Self::Node, Self::Error>
        ensures ok { IfOk result (λ v. v ≡ node.now) }
        ensures err { IfErr result is_memory };

    /// A copy of the tree.
    ///
    /// # Errors
    ///
    /// Want of memory alone.
    fn again(&self) -> Result<Self, Self::Error>
        ensures ok { IfOk result (λ t. t ≡ self.now) }
        ensures err { IfErr result is_memory };

    /// An error that is made of a refused allocation stands for want of memory.
    ghost from_memory: { (a : AllocError) (e : Self.Error) → Self.Error.from_gives a e → is_memory e };

    /// Any call may be refused by want of memory.
    ghost memory: { (t : Self) (v : Self.Node) (e : Self.Error) → is_memory e → refuses t v e };

    /// Labels are strictly ordered.
    ghost strict: { IsStrictOrder before };

    /// A node has one parent by one label, and a label leads to one child.
    ghost tree: { (t : Self) → IsTree (up t) };

    /// Parents and children are nodes.
    ghost nodes: { (t : Self) (v : Self.Node) (c : Self.Label) (u : Self.Node) → up t v c u → is_node t v × is_node t u };
}

/// A tree in which each node has finitely many nodes below it, and the way up from it ends.
pub trait FiniteTree: Tree {
    /// How far a node is below its root, at most.
    ghost rank: { Self → Self.Node → ℕ };

    /// How many nodes there are below a node, at most; one number for all nodes that hang together.
    ghost count: { Self → Self.Node → ℕ };

    /// The rank falls on the way up.
    ghost falls: { (t : Self) (v : Self.Node) (c : Self.Label) (u : Self.Node) → Self.up t v c u → rank t u < rank t v };

    /// The count stays on the way up.
    ghost level: { (t : Self) (v : Self.Node) (c : Self.Label) (u : Self.Node) → Self.up t v c u → count t v ≡ count t u };

    /// What is below a node can be listed.
    ghost finite: { (t : Self) (top : Self.Node) → Self.is_node t top → IsFinite Self.before (Self.up t) top (count t top) };
}
