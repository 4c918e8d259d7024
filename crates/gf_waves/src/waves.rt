//! The waves, and the list that they give.
//!
//! What is left of the list is said in `specs/Frontier.antt`, what a call does to it in `specs/Wave.antt`.
ghost use Rattle.std.specs.Prelude.{◌≡◌, ◌+◌, ◌*◌, ◌≤◌, length, List, [], ◌∷◌, IfOk, IfErr, count_by};
ghost use Rattle.gf_reverse_search.specs.declared.mark.Mark.TheVariants.{Before, Listed};
ghost use Rattle.gf_reverse_search.specs.declared.expand.Piece.TheVariants.{Ready, Under};
ghost use Rattle.gf_reverse_search.specs.Pieces.{PiecesLeave, RefusesAt};
ghost use Rattle.gf_reverse_search.specs.Listing.{Leaves, IsLeftAt};
ghost use Rattle.gf_waves.specs.Frontier.{AreRefusals, IsFrontRefused, is_ready, is_refused};
ghost use Rattle.gf_waves.specs.Wave.{IsAfter, IsCall, is_served};

use crate::Gate;
use crate::rows::push;
use crate::serving::{give, is_served, no_memory, work_off};
use gf_reverse_search::{Piece, ReusingTree, Tree, Walker};
use std::alloc::Global;
use std::collections::VecDeque;
use std::marker::Model;
use std::thread::Threads;

/// A list that is worked off in waves.
#[derive(Drop)]
pub struct Waves<'g, T: Tree, G: Gate> {
    row: VecDeque<Piece<T>>,
    workers: u32,
    batches: u64,
    gate: &'g G,
}

impl<'g, T: Tree, G: Gate> Model for Waves<'g, T, G> {
    ghost use Rattle.gf_reverse_search.specs.Pieces.{RefusesAt};
    ghost use Rattle.gf_waves.specs.Frontier.{Frontier, IsHeld};

    ghost Value = { Frontier T T.Node T.Label T.Error };

    ghost view = { λ w. record { workers = w.workers; batches = w.batches; pieces = w.row.items } };

    ghost invariant = { λ w. IsHeld (RefusesAt T.up T.refuses) w.workers w.row.items };
}

impl<'g, T: Tree, G: Gate> Waves<'g, T, G> {
    /// The waves over all that is below a node, itself the first: it is ready without a batch.
    ///
    /// # Errors
    ///
    /// Want of memory.
    pub fn new(
        alloc: Global,
        tree: T,
        root: T::Node,
        workers: u32,
        gate: &'g G,
    ) -> Result<Self, T::Error>
        requires node { T.is_node tree root }
        requires some { 1 ≤ workers }
        requires most { workers ≤ 64 }
        ensures start { IfOk result (λ w. w ≡ record {
          workers = workers;
          batches = 0;
          pieces = Ready root ∷ Under (record { tree = tree; here = root; mark = Listed; depth = 0 }) ∷ [];
        }) }
        ensures list { IfOk result (λ w. (nodes : List T.Node) → Leaves T.before (T.up tree) Before root 0 nodes →
            PiecesLeave (IsLeftAt T.before T.up) w.pieces nodes) }
        ensures memory { IfErr result T.is_memory }
    {
        let first = tree.copy(&root)?;
        let mut row = match VecDeque::with_capacity(alloc, 2) {
            Ok(row) => row,
            Err(refused) => return Err(no_memory::<T>(refused)),
        };
        push(&mut row, Piece::Ready(first));
        push(&mut row, Piece::Under(Walker::below(alloc, tree, root)));
        Ok(Waves {
            row,
            workers,
            batches: 0,
            gate,
        })
    }

    /// The waves over what a walker has left. Nothing is ready at first.
    ///
    /// # Errors
    ///
    /// Want of memory.
    pub fn resume(
        alloc: Global,
        walker: Walker<T>,
        workers: u32,
        gate: &'g G,
    ) -> Result<Self, T::Error>
        requires some { 1 ≤ workers }
        requires most { workers ≤ 64 }
        ensures start { IfOk result (λ w. w ≡ record { workers = workers; batches = 0; pieces = Under walker ∷ [] }) }
        ensures list { IfOk result (λ w. (nodes : List T.Node) → IsLeftAt T.before T.up walker nodes → PiecesLeave (IsLeftAt T.before T.up) w.pieces nodes) }
        ensures memory { IfErr result T.is_memory }
    {
        let mut row = match VecDeque::with_capacity(alloc, 1) {
            Ok(row) => row,
            Err(refused) => return Err(no_memory::<T>(refused)),
        };
        push(&mut row, Piece::Under(walker));
        Ok(Waves {
            row,
            workers,
            batches: 0,
            gate,
        })
    }

    /// How many workers there are.
    pub fn workers(&self) -> u32
        ensures { result ≡ self.now.workers }
    {
        self.workers
    }

    /// Whether a node is ready in front, or nothing is left: the next call runs no batch.
    pub fn is_served(&self) -> bool
        ensures { result ≡ is_served self.now.pieces }
    {
        is_served(&self.row)
    }

    /// How many nodes of the row are ready: at most 128 for each worker, and 128 more.
    pub fn ready(&self) -> u64
        ensures sum { result ≡ count_by is_ready self.now.pieces }
        ensures bound { result ≤ (self.now.workers + 1) * 128 }
    {
        self.row
            .iter()
            .filter(|piece| matches!(piece, Piece::Ready(_)))
            .count() as u64
    }

    /// How many walkers of the row were refused in a wave. Each is tried again in the next, or told once it comes to the front.
    pub fn refused(&self) -> u64
        ensures { result ≡ count_by is_refused self.now.pieces }
    {
        self.row
            .iter()
            .filter(|piece| matches!(piece, Piece::Refused(_, _)))
            .count() as u64
    }
}

impl<'g, T: ReusingTree + Send, G: Gate> Waves<'g, T, G>
where
    T::Node: Send,
    T::Label: Send,
    T::Error: Send,
    T::Store: Send,
{
    /// The next node of the list, whichever batch came back first; none where nothing is left, and from then on.
    ///
    /// Where no node is ready in front and there is room, a wave of batches is run on `rt`. Where none is ready after that, the walker in
    /// front is asked.
    ///
    /// # Errors
    ///
    /// The first refusal in list order. What is left is the same, and a later call goes on from there.
    pub fn next_written<R: Threads + Sync>(&mut self, rt: &R) -> Result<Option<T::Node>, T::Error>
        ensures list { (nodes : List T.Node) → PiecesLeave (IsLeftAt T.before T.up) self.old.pieces nodes →
            IsAfter (IsLeftAt T.before T.up) result nodes self.new.pieces }
        ensures call { IsCall T.before T.up (RefusesAt T.up T.refuses) T.is_memory self.old result self.new }
        ensures refused { IfErr result (IsFrontRefused (RefusesAt T.up T.refuses) self.new.pieces) }
        ensures refusals { AreRefusals (RefusesAt T.up T.refuses) self.new.pieces }
        ensures workers { self.new.workers ≡ self.old.workers }
        ensures bound { length self.new.pieces ≤ (self.new.workers + 1) * 128 }
    {
        if let Err(refused) = work_off(
            rt,
            self.gate,
            &mut self.row,
            self.workers,
            &mut self.batches,
        ) {
            return Err(no_memory::<T>(refused));
        }
        give(&mut self.row)
    }
}
