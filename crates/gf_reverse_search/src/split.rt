//! A walker's work in two parts.
ghost use Rattle.std.specs.Prelude.{◌≡◌, List, IfOk, IfErr};
ghost use Rattle.gf_reverse_search.specs.Listing.{IsLeftAt};
ghost use Rattle.gf_reverse_search.specs.Split.{Splits, IsCutAt, HaveTree};
ghost use Rattle.gf_reverse_search.specs.Walk.{IsRefused};

use crate::{Mark, Tree, Walker};

/// What a walker has left, in two parts.
#[derive(Drop)]
pub enum Split<T: Tree> {
    /// Nothing is left.
    Ended,
    /// `first` lists the next node and its subtree, and `rest` all that follows.
    Parts { first: Walker<T>, rest: Walker<T> },
}

impl<T: Tree> Walker<T> {
    /// The walker in two parts: one that lists the next node and its subtree, and one that lists all that follows.
    ///
    /// # Errors
    ///
    /// As for `advance`. The walker comes back as it was, with the refusal.
    #[tactic(auto, using(crate::proofs::RefusalLaws::refused_here))]
    pub fn split(self) -> Result<Split<T>, (Walker<T>, T::Error)>
        ensures parts { IfOk result (λ s. (nodes : List T.Node) → IsLeftAt T.before T.up self nodes → Splits T.before T.up nodes s) }
        ensures standings { IfOk result (IsCutAt T.before T.up self) }
        ensures trees { IfOk result (HaveTree self.tree) }
        ensures unchanged { IfErr result (λ p. p.0 ≡ self) }
        ensures refused { IfErr result (λ p. IsRefused (T.up self.tree) (T.refuses self.tree) self.here self.depth p.1) }
    {
        let mut rest = self;
        let tree = match rest.tree.again() {
            Ok(tree) => tree,
            Err(error) => return Err((rest, error)),
        };
        match rest.advance() {
            Err(error) => Err((rest, error)),
            Ok(None) => Ok(Split::Ended),
            Ok(Some(next)) => {
                rest.mark = Mark::Finished;
                let first = Walker {
                    tree,
                    here: next,
                    mark: Mark::Before,
                    depth: rest.depth.none(),
                };
                Ok(Split::Parts { first, rest })
            }
        }
    }
}
