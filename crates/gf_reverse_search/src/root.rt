//! The way up from a node to its root.
ghost use Rattle.std.specs.Prelude.{◌≡◌, IfOk, IfErr};
ghost use Rattle.gf_reverse_search.specs.declared.mark.Mark.TheVariants.{Listed};
ghost use Rattle.gf_reverse_search.specs.Walk.{IsRefusedAbove};
ghost use Rattle.gf_reverse_search.specs.Whole.{IsRootOf, IsRootAt, StandsAfter};

use crate::{Depth, FiniteTree, Mark, Walker};
use std::alloc::Global;

/// The root above a node, and how many steps below it the node is.
fn ascend<T: FiniteTree>(
    alloc: Global,
    tree: &T,
    start: T::Node,
) -> Result<(T::Node, Depth), T::Error>
    requires { T.is_node tree.now start }
    ensures ok { IfOk result (λ p. IsRootAt (T.up tree.now) start p.0 p.1) }
    ensures err { IfErr result (IsRefusedAbove (T.up tree.now) (T.refuses tree.now) start) }
{
    let mut node = start;
    let mut depth = Depth::zero(alloc);
    while let Some((_, parent)) = tree.parent(&node)? {
        depth.raise()?;
        node = parent;
    }
    Ok((node, depth))
}

/// The root above a node.
///
/// # Errors
///
/// What a call of the tree was refused by, at the node or above it.
pub fn to_root<T: FiniteTree>(alloc: Global, tree: &T, start: T::Node) -> Result<T::Node, T::Error>
    requires { T.is_node tree.now start }
    ensures root { IfOk result (IsRootOf (T.up tree.now) start) }
    ensures refused { IfErr result (IsRefusedAbove (T.up tree.now) (T.refuses tree.now) start) }
{
    let (root, _) = ascend(alloc, tree, start)?;
    Ok(root)
}

impl<T: FiniteTree> Walker<T> {
    /// A walker that goes on with the list of the whole tree after a node.
    ///
    /// It goes up to the root to count the node's depth.
    ///
    /// # Errors
    ///
    /// What a call of the tree was refused by, at the node or above it.
    pub fn after(alloc: Global, tree: T, node: T::Node) -> Result<Walker<T>, T::Error>
        requires { T.is_node tree node }
        ensures standing { IfOk result (λ w. (w.tree ≡ tree) × (w.here ≡ node) × (w.mark ≡ Listed)) }
        ensures root { IfOk result (λ w. (root : T.Node) × IsRootOf (T.up tree) node root) }
        ensures list { IfOk result (λ w. (root : T.Node) → IsRootOf (T.up tree) node root → StandsAfter T.before T.up node root w) }
        ensures refused { IfErr result (IsRefusedAbove (T.up tree) (T.refuses tree) node) }
    {
        let start = tree.copy(&node)?;
        let (_, depth) = ascend(alloc, &tree, start)?;
        Ok(Walker {
            tree,
            here: node,
            mark: Mark::Listed,
            depth,
        })
    }
}
