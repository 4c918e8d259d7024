//! The whole list of a finite tree.
ghost use Rattle.std.specs.Prelude.{IfOk, IfErr};
ghost use Rattle.gf_reverse_search.specs.Walk.{IsRefusedBelow};
ghost use Rattle.gf_reverse_search.specs.Whole.{IsWholeList};

use crate::{FiniteTree, Walker};
use std::alloc::{AllocError, Global};

/// All nodes below a node, itself the first, each once, in the order of their paths.
///
/// # Errors
///
/// What a call of the tree was refused by, at a node below the top, or want of memory for the list.
pub fn list_all<T: FiniteTree>(
    alloc: Global,
    tree: T,
    top: T::Node,
) -> Result<Vec<T::Node>, T::Error>
    requires { T.is_node tree top }
    ensures whole { IfOk result (λ v. IsWholeList T.before (T.up tree) top v.items) }
    ensures refused { IfErr result (IsRefusedBelow (T.up tree) (T.refuses tree) top) }
{
    let mut walker = Walker::at(alloc, tree, top);
    let mut all = Vec::new(alloc);
    while let Some(node) = walker.advance()? {
        if let Err(refused) = all.push(node) {
            return Err(AllocError::from(refused).into());
        }
    }
    Ok(all)
}
