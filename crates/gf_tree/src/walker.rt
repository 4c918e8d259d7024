//! A walker, which lists the bases of an ideal while it holds one of them.
ghost use Rattle.std.specs.Prelude.{◌≡◌, IfOk, IfErr, OnErr};
ghost use Rattle.gf_reverse_theory.specs.Upward.{IsNode, fan_of};
ghost use Rattle.gf_tree.specs.Refusals.{IsTreeRefusal, IsTreeWithinLimits};
ghost use Rattle.gf_tree.specs.Steps.{IsAdvance, IsResumed};
ghost use Rattle.gf_tree.specs.Walks.{ideal_at, walk_at, HasListLeft};
ghost use Rattle.gf_flip.specs.declared.error.TreeError.TheVariants.{Memory};

use crate::{BasisTree, Node, TreeError};
use gf_cone::Region;
use gf_poly::MarkedSet;
use gf_reverse_search::Depth;
use gf_vec::IntVec;
use std::alloc::{AllocError, Global};
use std::marker::Model;

/// What of the subtree of its basis a walker has listed: nothing; the basis and the subtrees across the normals up to this one; the basis
/// alone; all of it.
pub type Mark = gf_reverse_search::Mark<IntVec>;

/// The basis at which a walker is, and its mark, by reference.
pub type Position<'a> = gf_reverse_search::Position<'a, MarkedSet, IntVec>;

/// A walker lists the bases that it has left, in the order of their paths. The path of a basis is the list of the normals that are crossed
/// from the root down to it. A walker holds one basis, one normal and a depth, and goes up by flips; it counts the bases that it has given.
#[derive(Drop)]
pub struct Walker {
    pub(crate) inner: gf_reverse_search::Walker<BasisTree>,
    pub(crate) given: Depth,
}

impl Model for Walker {
    ghost use Rattle.gf_tree.specs.Walks.{Walk, HasListLeft};

    ghost Value = { Walk };

    ghost view = { λ w. record {
      here = w.inner.here;
      mark = w.inner.mark;
      depth = w.inner.depth;
      pairs = w.inner.tree.pairs;
      given = w.given;
      region = w.inner.tree.region;
    } };

    ghost invariant = { λ w. HasListLeft (record {
      here = w.inner.here;
      mark = w.inner.mark;
      depth = w.inner.depth;
      pairs = w.inner.tree.pairs;
      given = w.given;
      region = w.inner.tree.region;
    }) };
}

impl Walker {
    /// A walker that lists a basis and the bases below it, before the first of them. The set is the marked reduced Gröbner basis, for some
    /// weight of the region, of the ideal that it generates; each flip may settle `pairs` pairs.
    ///
    /// # Errors
    ///
    /// Only when memory runs out.
    pub fn at(
        alloc: Global,
        basis: MarkedSet,
        region: &Region,
        pairs: u64,
    ) -> Result<Walker, AllocError>
        requires { IsNode region.now basis }
        ensures { IfOk result (λ w. w ≡ walk_at basis region.now pairs) }
    {
        let tree = BasisTree {
            alloc,
            region: region.copy()?,
            pairs,
        };
        Ok(started(tree, basis))
    }

    /// The basis at which the walker is, and its mark.
    pub fn position(&self) -> Position<'_>
        ensures here { result.here.now ≡ self.now.here }
        ensures mark { result.mark.now ≡ self.now.mark }
        ensures list { HasListLeft self.now }
    {
        let index = self.inner.position();
        Position {
            here: index.here.basis(),
            mark: index.mark,
        }
    }

    /// This walker as one over the tree of bases, without the number of the bases that it has given.
    pub fn into_inner(self) -> gf_reverse_search::Walker<BasisTree>
        ensures here { result.here ≡ self.here }
        ensures mark { result.mark ≡ self.mark }
        ensures depth { result.depth ≡ self.depth }
        ensures pairs { result.tree.pairs ≡ self.pairs }
        ensures region { result.tree.region ≡ self.region }
        ensures list { HasListLeft self }
    {
        self.inner
    }

    /// What `advance` returns.
    fn step(&mut self) -> Result<Option<MarkedSet>, TreeError>
        ensures ok { IfOk result (IsAdvance self.old self.new) }
        ensures unchanged { OnErr result (self.new ≡ self.old) }
        ensures cause { IfErr result (IsTreeRefusal (ideal_at self.old) self.old.pairs) }
    {
        self.given.raise()?;
        match self.inner.advance() {
            Ok(Some(node)) => Ok(Some(node.into_basis())),
            Ok(None) => {
                self.given.lower();
                Ok(None)
            }
            Err(refusal) => {
                self.given.lower();
                Err(refusal)
            }
        }
    }

    /// The next basis of those that are left; none if none is left, now and from then on.
    ///
    /// # Errors
    ///
    /// The walker stays as it was:
    ///
    /// - `Overflow`, `Exponent`: the operands of an operation of a flip at a basis of the ideal, across a flippable normal, don't fit.
    /// - `PairBudget`: such a flip has more pairs to settle than the walker allows.
    /// - `Cone`: a step of the system that decides whether a flip may cross a facet of such a basis leaves its range.
    /// - `Memory`: memory runs out.
    #[tactic(auto, using(crate::proofs::RefusalLaws::only_memory))]
    pub fn advance(&mut self) -> Result<Option<MarkedSet>, TreeError>
        ensures ok { IfOk result (IsAdvance self.old self.new) }
        ensures unchanged { OnErr result (self.new ≡ self.old) }
        ensures cause { IfErr result (IsTreeRefusal (ideal_at self.old) self.old.pairs) }
        ensures complete { IsTreeWithinLimits (ideal_at self.old) self.old.pairs → IfErr result (λ e. e ≡ Memory) }
    {
        self.step()
    }

    /// A walker that continues the list of all bases of the ideal after this one. It goes up to the root in order to count the steps. The
    /// set is the marked reduced Gröbner basis, for some weight of the region, of the ideal that it generates; each flip may settle `pairs`
    /// pairs.
    ///
    /// # Errors
    ///
    /// - `Overflow`, `Exponent`: the operands of an operation of a flip at a basis of the ideal, across a flippable normal, don't fit.
    /// - `PairBudget`: such a flip has more than `pairs` pairs to settle.
    /// - `Cone`: a step of the system that decides whether a flip may cross a facet of such a basis leaves its range.
    /// - `Memory`: memory runs out.
    #[tactic(auto, using(crate::proofs::RefusalLaws::only_memory))]
    pub fn after(
        alloc: Global,
        basis: MarkedSet,
        region: &Region,
        pairs: u64,
    ) -> Result<Walker, TreeError>
        requires { IsNode region.now basis }
        ensures ok { IfOk result (IsResumed region.now basis pairs) }
        ensures cause { IfErr result (IsTreeRefusal (fan_of region.now basis) pairs) }
        ensures complete { IsTreeWithinLimits (fan_of region.now basis) pairs → IfErr result (λ e. e ≡ Memory) }
    {
        let tree = BasisTree {
            alloc,
            region: region.copy()?,
            pairs,
        };
        resume(tree, basis)
    }
}

/// What `at` returns.
fn started(tree: BasisTree, basis: MarkedSet) -> Walker
    requires { IsNode tree.region basis }
    ensures { result ≡ walk_at basis tree.region tree.pairs }
{
    let alloc = tree.alloc;
    let node = Node::of(alloc, basis, &tree.region);
    Walker {
        inner: gf_reverse_search::Walker::at(alloc, tree, node),
        given: Depth::zero(alloc),
    }
}

/// What `after` returns.
fn resume(tree: BasisTree, basis: MarkedSet) -> Result<Walker, TreeError>
    requires { IsNode tree.region basis }
    ensures ok { IfOk result (IsResumed tree.region basis tree.pairs) }
    ensures cause { IfErr result (IsTreeRefusal (fan_of tree.region basis) tree.pairs) }
{
    let alloc = tree.alloc;
    let node = Node::of(alloc, basis, &tree.region);
    let inner = gf_reverse_search::Walker::after(alloc, tree, node)?;
    Ok(Walker {
        inner,
        given: Depth::zero(alloc),
    })
}
