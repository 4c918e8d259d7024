//! The list of all bases of an ideal, worked off in waves.
ghost use Rattle.std.specs.Prelude.{◌≡◌, ◌+◌, ◌*◌, ◌≤◌, length, List, IfOk, IfErr, OnErr, count_by};
ghost use Rattle.gf_poly.specs.Marking.{MarkedPolynomials};
ghost use Rattle.gf_reverse_theory.specs.Upward.{IsNode};
ghost use Rattle.gf_waves.specs.Frontier.{AreRefusals, is_ready, is_refused};
ghost use Rattle.gf_waves.specs.Wave.{is_served};
ghost use Rattle.gf_tree.specs.Refusals.{IsTreeRefusal, IsTreeWithinLimits};
ghost use Rattle.gf_tree.specs.Walks.{AreLeft, walk_at};
ghost use Rattle.gf_tree.specs.TreeError.TheVariants.{Memory};
ghost use Rattle.gf_subtree.specs.Rows.{AreLeftIn, HasRowLeft, RefusesWalker, ideal_in, first_row};
ghost use Rattle.gf_subtree.specs.Answers.{IsResumedAs, IsRowAnswer, IsRowCall, IsRowKept, IsRefusedEarly, IsToldInFront};

use gf_cone::Region;
use gf_poly::MarkedSet;
use gf_reverse_search::Depth;
use gf_tree::{BasisTree, Node, TreeError, Walker};
use gf_waves::Gate;
use std::alloc::{AllocError, Global};
use std::marker::Model;
use std::snapshot::Snapshot;
use std::thread::Threads;

/// The bases of an ideal that are left, worked off by several workers. It counts what it gave.
#[derive(Drop)]
pub struct Waves<'g, G: Gate> {
    inner: gf_waves::Waves<'g, BasisTree, G>,
    pairs: u64,
    region: Snapshot<Region>,
    start: Snapshot<MarkedSet>,
    given: Depth,
}

impl<'g, G: Gate> Model for Waves<'g, G> {
    ghost use Rattle.gf_subtree.specs.Rows.{Row, HasRowLeft};

    ghost Value = { Row };

    ghost view = { λ w. record { frontier = w.inner; pairs = w.pairs; region = w.region.value; start = w.start.value; given = w.given } };

    ghost invariant = { λ w. HasRowLeft (record { frontier = w.inner; pairs = w.pairs; region = w.region.value; start = w.start.value; given = w.given }) };
}

impl<'g, G: Gate> Waves<'g, G> {
    /// The list of a basis and of all below it, by so many workers: the basis is ready without a batch. Each flip may settle `pairs` pairs.
    ///
    /// The set is a marked reduced basis, for some weight of the region, of the ideal that it generates. Where it is the basis by the
    /// root of the region and then lex, the list is that of all bases of its ideal in the region. Before each batch the gate is called.
    ///
    /// # Errors
    ///
    /// Want of memory.
    pub fn new(
        alloc: Global,
        root: MarkedSet,
        region: &Region,
        workers: u32,
        pairs: u64,
        gate: &'g G,
    ) -> Result<Self, AllocError>
        requires basis { IsNode region.now root }
        requires some { 1 ≤ workers }
        requires most { workers ≤ 64 }
        ensures start { IfOk result (λ w. w ≡ first_row alloc root region.now workers pairs) }
        ensures list { IfOk result (λ w. (nodes : List MarkedPolynomials) → AreLeft (walk_at root region.now pairs) nodes → AreLeftIn w nodes) }
    {
        let start = Snapshot::of(&root);
        let kept = Snapshot::of(region);
        let tree = BasisTree {
            alloc,
            region: region.copy()?,
            pairs,
        };
        let node = Node::of(alloc, root, region);
        match gf_waves::Waves::new(alloc, tree, node, workers, gate) {
            Ok(inner) => Ok(Waves {
                inner,
                pairs,
                region: kept,
                start,
                given: Depth::zero(alloc),
            }),
            Err(_) => Err(AllocError),
        }
    }

    /// The list that a walker has left, by so many workers; nothing is ready at first. The walker may stand anywhere, after a basis
    /// too, and `pairs` is its budget.
    ///
    /// # Errors
    ///
    /// Want of memory.
    pub fn resume(
        alloc: Global,
        walker: Walker,
        workers: u32,
        pairs: u64,
        gate: &'g G,
    ) -> Result<Self, AllocError>
        requires pairs { walker.pairs ≡ pairs }
        requires some { 1 ≤ workers }
        requires most { workers ≤ 64 }
        ensures { IfOk result (IsResumedAs walker workers) }
    {
        let start = Snapshot::of(walker.position().here);
        let walker = walker.into_inner();
        let region = Snapshot::of(&walker.tree().region);
        match gf_waves::Waves::resume(alloc, walker, workers, gate) {
            Ok(inner) => Ok(Waves {
                inner,
                pairs,
                region,
                start,
                given: Depth::zero(alloc),
            }),
            Err(_) => Err(AllocError),
        }
    }

    /// How many workers there are.
    pub fn workers(&self) -> u32
        ensures { result ≡ self.now.frontier.workers }
    {
        self.inner.workers()
    }

    /// Whether a basis is ready in front, or nothing is left: the next call runs no batch.
    pub fn is_served(&self) -> bool
        ensures { result ≡ is_served self.now.frontier.pieces }
    {
        self.inner.is_served()
    }

    /// How many bases of the row are ready: at most 128 for each worker, and 128 more.
    pub fn ready(&self) -> u64
        ensures sum { result ≡ count_by is_ready self.now.frontier.pieces }
        ensures bound { result ≤ (self.now.frontier.workers + 1) * 128 }
    {
        self.inner.ready()
    }

    /// How many walkers of the row were refused in a wave. Each is tried again in the next, or told once it comes to the front.
    pub fn refused(&self) -> u64
        ensures { result ≡ count_by is_refused self.now.frontier.pieces }
    {
        self.inner.refused()
    }

    /// What `next_written` answers.
    fn next<R: Threads + Sync>(&mut self, rt: &R) -> Result<Option<MarkedSet>, TreeError>
        ensures ok { IfOk result (IsRowAnswer self.old self.new) }
        ensures unchanged { OnErr result (IsRowKept self.old self.new) }
        ensures call { IsRowCall self.old result self.new }
        ensures bound { length self.new.frontier.pieces ≤ (self.new.frontier.workers + 1) * 128 }
        ensures refusals { AreRefusals RefusesWalker self.new.frontier.pieces }
        ensures front { IfErr result (IsToldInFront self.new) }
        ensures early { IfErr result (λ e. (nodes : List MarkedPolynomials) → AreLeftIn self.old nodes
            → IsRefusedEarly (ideal_in self.old) self.old.pairs nodes e) }
        ensures cause { IfErr result (IsTreeRefusal (ideal_in self.old) self.old.pairs) }
    {
        self.given.raise()?;
        match self.inner.next_written(rt) {
            Ok(Some(node)) => Ok(Some(node.into_basis())),
            Ok(None) => {
                self.given.lower();
                Ok(None)
            }
            Err(refusal) => {
                self.given.lower();
                Err(refusal)
            }
        }
    }

    /// The next basis of the list, whichever batch came back first; none where nothing is left, and from then on.
    ///
    /// Where no basis is ready in front and there is room, a wave of batches is run on `rt`, as `gf_waves` says. Where none is ready after
    /// that, the walker in front is asked.
    ///
    /// # Errors
    ///
    /// As for `parent` of `gf_tree`, at bases of this ideal: the first refusal in list order, after all bases before it, of a call at a
    /// basis that is given already or is the next one. What is left is the same, and a later call goes on from there.
    #[tactic(auto, using(gf_tree::proofs::RefusalLaws::only_memory))]
    pub fn next_written<R: Threads + Sync>(
        &mut self,
        rt: &R,
    ) -> Result<Option<MarkedSet>, TreeError>
        ensures ok { IfOk result (IsRowAnswer self.old self.new) }
        ensures unchanged { OnErr result (IsRowKept self.old self.new) }
        ensures call { IsRowCall self.old result self.new }
        ensures bound { length self.new.frontier.pieces ≤ (self.new.frontier.workers + 1) * 128 }
        ensures refusals { AreRefusals RefusesWalker self.new.frontier.pieces }
        ensures front { IfErr result (IsToldInFront self.new) }
        ensures early { IfErr result (λ e. (nodes : List MarkedPolynomials) → AreLeftIn self.old nodes
            → IsRefusedEarly (ideal_in self.old) self.old.pairs nodes e) }
        ensures cause { IfErr result (IsTreeRefusal (ideal_in self.old) self.old.pairs) }
        ensures complete { IsTreeWithinLimits (ideal_in self.old) self.old.pairs → IfErr result (λ e. e ≡ Memory) }
    {
        self.next(rt)
    }
}
