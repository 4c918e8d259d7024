//! Trees whose calls use memory again.
ghost use Rattle.std.specs.Prelude.{◌≡◌, IfOk, IfErr};
ghost use Rattle.gf_reverse_search.specs.Tree.{RisesBy, HasLabels, IsChildOf};

use crate::Tree;
use std::alloc::Global;

/// A tree with a store of memory: what a call has no more use for is left there, and serves the next calls. Nothing that is answered rests on what a store
/// holds.
pub trait ReusingTree: Tree {
    /// Memory that was left.
    type Store: Drop;

    /// A store in which nothing is left yet.
    fn store(alloc: Global) -> Self::Store;

    /// Leaves the memory of a node.
    fn leave(&self, node: Self::Node, store: &mut Self::Store);

    /// The node without the data that serve only to find its children; their memory is left in the store. The answer is equal to the node.
    fn bare(&self, node: Self::Node, store: &mut Self::Store) -> Self::Node
        ensures { result ≡ node };

    /// Leaves the memory of a label.
    fn leave_label(&self, label: Self::Label, store: &mut Self::Store);

    /// What `labels` answers.
    fn labels_by(
        &self,
        node: &Self::Node,
        store: &mut Self::Store,
    ) -> Result<Vec<Self::Label>, Self::Error>
        requires { Self.is_node self.now node.now }
        ensures rises { IfOk result (λ v. RisesBy Self.before v.items) }
        ensures all { IfOk result (λ v. HasLabels (Self.up self.now) node.now v.items) }
        ensures err { IfErr result (Self.refuses self.now node.now) };

    /// What `child` answers.
    fn child_by(
        &self,
        node: &Self::Node,
        label: &Self::Label,
        store: &mut Self::Store,
    ) -> Result<Option<Self::Node>, Self::Error>
        requires { Self.is_node self.now node.now }
        ensures ok { IfOk result (IsChildOf (Self.up self.now) node.now label.now) }
        ensures err { IfErr result (Self.refuses self.now node.now) };
}
