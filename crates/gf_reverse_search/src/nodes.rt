//! An iterator over what a walker has left.
ghost use Rattle.std.specs.Prelude.{◌≡◌, true, false};
ghost use Rattle.std.specs.Iterator.{at_most};
ghost use Rattle.gf_reverse_search.specs.Nodes.{Gives, items_at_most};

use crate::{Depth, FiniteTree, Walker};
use std::alloc::Global;
use std::marker::Model;

/// The nodes that a walker has left, in order. It ends after the last, and after the first refusal.
#[derive(Drop)]
pub struct Nodes<T: FiniteTree> {
    walker: Walker<T>,
    given: Depth,
    ended: bool,
}

impl<T: FiniteTree> Model for Nodes<T> {
    ghost use Rattle.std.specs.Prelude.{◌≡◌, ◌⊎◌, true};
    ghost use Rattle.gf_reverse_search.specs.Nodes.{Progress, HasFewLeft};

    ghost Value = { Progress T T.Node T.Label };

    ghost view = { λ s. record { standing = s.walker; given = s.given; ended = s.ended } };

    ghost invariant = { λ s. (s.ended ≡ true) ⊎ HasFewLeft T.before T.up T.count s.walker s.given };
}

impl<T: FiniteTree> Nodes<T> {
    /// The nodes that a walker has left.
    pub fn new(alloc: Global, walker: Walker<T>) -> Nodes<T>
        ensures { result ≡ record { standing = walker; given = 0; ended = false } }
    {
        let _here = &walker.here;
        Nodes {
            walker,
            given: Depth::zero(alloc),
            ended: false,
        }
    }

    /// The walker, at the node that was given last.
    pub fn into_walker(self) -> Walker<T>
        ensures { result ≡ self.standing }
    {
        self.walker
    }
}

impl<T: FiniteTree> Iterator for Nodes<T> {
    type Item = Result<T::Node, T::Error>;

    ghost next_gives = { λ s r t. Gives T.before T.up T.refuses s r t };

    ghost remaining = { λ s. at_most (items_at_most T.count s) };

    fn next(&mut self) -> Option<Result<T::Node, T::Error>> {
        if self.ended {
            return None;
        }
        if let Err(error) = self.given.raise() {
            self.ended = true;
            return Some(Err(T::Error::from(error)));
        }
        match self.walker.advance() {
            Ok(Some(node)) => Some(Ok(node)),
            Ok(None) => {
                self.ended = true;
                None
            }
            Err(error) => {
                self.ended = true;
                Some(Err(error))
            }
        }
    }
}
