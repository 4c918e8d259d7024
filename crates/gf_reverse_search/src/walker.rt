//! A walker, which lists a tree with one node at hand.
//!
//! What a walker has left is said in `specs/Left.antt`, as a set of paths, and in `specs/Listing.antt`, as a list of nodes.
ghost use Rattle.std.specs.Prelude.{◌≡◌, ◌↔◌, List, IsTrue, IfOk, IfSome, IfNone, IfErr, OnErr};
ghost use Rattle.gf_reverse_search.specs.declared.mark.Mark.TheVariants.{Before, Listed, Finished};
ghost use Rattle.gf_reverse_search.specs.Listing.{IsLeftAt, IsFirstOf};
ghost use Rattle.gf_reverse_search.specs.Walk.{Advances, IsRefused};

use crate::search::find_next;
use crate::{Depth, Mark, Position, Tree};
use std::alloc::Global;
use std::marker::Model;

/// A walker lists the nodes that are left, in the order of their paths. It holds one node, a mark and a depth.
#[derive(Drop)]
pub struct Walker<T: Tree> {
    pub(crate) tree: T,
    pub(crate) here: T::Node,
    pub(crate) mark: Mark<T::Label>,
    pub(crate) depth: Depth,
}

impl<T: Tree> Model for Walker<T> {
    ghost use Rattle.gf_reverse_search.specs.Standing.{Standing, IsBelowSomeTop};

    ghost Value = { Standing T T.Node T.Label };

    ghost view = { λ w. record { tree = w.tree; here = w.here; mark = w.mark; depth = w.depth } };

    ghost invariant = { λ w. IsBelowSomeTop T.is_node T.up (record { tree = w.tree; here = w.here; mark = w.mark; depth = w.depth }) };
}

impl<T: Tree> Walker<T> {
    /// A walker that lists a node's subtree, the node first.
    pub fn at(alloc: Global, tree: T, here: T::Node) -> Walker<T>
        requires { T.is_node tree here }
        ensures { result ≡ record { tree = tree; here = here; mark = Before; depth = 0 } }
    {
        Walker {
            tree,
            here,
            mark: Mark::Before,
            depth: Depth::zero(alloc),
        }
    }

    /// A walker that lists what is below a node, and not the node.
    pub fn below(alloc: Global, tree: T, here: T::Node) -> Walker<T>
        requires { T.is_node tree here }
        ensures { result ≡ record { tree = tree; here = here; mark = Listed; depth = 0 } }
    {
        Walker {
            tree,
            here,
            mark: Mark::Listed,
            depth: Depth::zero(alloc),
        }
    }

    /// The walker's own node and mark.
    pub fn position(&self) -> Position<'_, T::Node, T::Label>
        ensures here { result.here.now ≡ self.now.here }
        ensures mark { result.mark.now ≡ self.now.mark }
    {
        Position {
            here: &self.here,
            mark: &self.mark,
        }
    }

    /// The walker's tree.
    pub fn tree(&self) -> &T
        ensures { result.now ≡ self.now.tree }
    {
        &self.tree
    }

    /// Whether the walker's node is still to be listed.
    pub fn is_at_start(&self) -> bool
        ensures { IsTrue result ↔ self.now.mark ≡ Before }
    {
        matches!(self.mark, Mark::Before)
    }

    /// The next node; none where nothing is left, and from then on.
    ///
    /// The search goes down to the next child past the mark, or up until a node has one, at most as far as the walker's depth.
    ///
    /// # Errors
    ///
    /// What a call of the tree was refused by, at the walker's node or at one on the way up to its top. The walker is as it was.
    #[tactic(auto, using(crate::proofs::RefusalLaws::refused_here))]
    pub fn advance(&mut self) -> Result<Option<T::Node>, T::Error>
        ensures first { IfOk result (Advances T.before T.up self.old self.new) }
        ensures list { IfOk result (λ o. (nodes : List T.Node) → IsLeftAt T.before T.up self.old nodes → IsFirstOf (IsLeftAt T.before T.up self.new) nodes o) }
        ensures here { IfOk result (λ o. IfSome o (λ v. v ≡ self.new.here)) }
        ensures ended { IfOk result (λ o. IfNone o (self.new ≡ record self.old { mark = Finished })) }
        ensures tree { self.new.tree ≡ self.old.tree }
        ensures unchanged { OnErr result (self.new ≡ self.old) }
        ensures refused { IfErr result (IsRefused (T.up self.old.tree) (T.refuses self.old.tree) self.old.here self.old.depth) }
    {
        if let Mark::Before = self.mark {
            let node = self.tree.copy(&self.here)?;
            self.mark = Mark::Listed;
            return Ok(Some(node));
        }
        match find_next(&self.tree, &self.here, &self.mark, &self.depth)? {
            Some((next, depth)) => {
                let node = self.tree.copy(&next)?;
                self.here = next;
                self.mark = Mark::Listed;
                self.depth = depth;
                Ok(Some(node))
            }
            None => {
                self.mark = Mark::Finished;
                Ok(None)
            }
        }
    }
}
