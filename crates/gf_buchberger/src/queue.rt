//! The pairs that wait to be settled, the pair of least key first.

ghost use Rattle.std.specs.Prelude.{◌≡◌, ◌∷◌, length, OnOk, OnErr, IfSome, IfNone, []};
ghost use Rattle.std.specs.List.Sorted.{IsPermutation};
ghost use Rattle.gf_order.specs.Comparisons.{HasEntries, ends_by_revlex, level_of};
ghost use Rattle.gf_division.specs.Keys.{AreKeyExponents};
ghost use Rattle.gf_buchberger.specs.Keys.{degree_for, IsFirst};

use gf_division::arranged;
use gf_order::Order;
use gf_poly::{Mono, ROOM};
use std::alloc::{AllocError, Global};
use std::cmp::Reverse;
use std::collections::BinaryHeap;
use std::marker::Model;

/// Which pairs are settled first, those of least key.
#[derive(Clone, Copy, Debug, PartialEq, Eq)]
pub enum Strategy {
    /// Those whose least common multiple has the least degree, then those where it is least by the order.
    Degree,
    /// Those whose least common multiple is least by the order.
    Order,
    /// Those of least sugar, then those where the least common multiple is least by the order.
    Sugar,
}

/// What a pair waits by: the least common multiple of its marks, arranged so that keys compare as it is to be.
#[derive(Clone, Copy, Debug, PartialEq, Eq, PartialOrd, Ord)]
pub struct Key {
    pub degree: u64,
    pub level: i128,
    pub exponents: [u32; ROOM],
}

/// A pair of indices, with its key; of pairs with one key the later member decides, then the earlier.
#[derive(Clone, Copy, Debug, PartialEq, Eq, PartialOrd, Ord)]
pub struct Waiting {
    pub key: Key,
    pub second: u32,
    pub first: u32,
}

impl Strategy {
    /// The key of a pair whose marks have this least common multiple; `excess` is by how much the sugar of the pair exceeds the degree of the
    /// multiple.
    pub fn key(self, order: &Order, multiple: &Mono, excess: u64) -> Key
        requires { HasEntries (length multiple.now) order.now }
        ensures degree { result.degree ≡ degree_for self excess multiple.now }
        ensures level { result.level ≡ level_of order.now multiple.now }
        ensures exponents { AreKeyExponents (ends_by_revlex order.now) multiple.now result.exponents }
    {
        let x = multiple.exponents();
        let degree = match self {
            Strategy::Degree => multiple.degree(),
            Strategy::Order => 0,
            Strategy::Sugar => multiple.degree().saturating_add(excess),
        };
        Key {
            degree,
            level: order.level(x),
            exponents: arranged(x, order.is_by_revlex()),
        }
    }
}

/// The pairs that wait.
#[derive(Drop)]
pub struct Queue {
    heap: BinaryHeap<Reverse<Waiting>>,
}

impl Model for Queue {
    ghost use Rattle.std.specs.Prelude.{List, map};
    ghost use Rattle.std.specs.BinaryHeap.{heap_items, IsHeap};
    ghost use Rattle.gf_buchberger.specs.declared.queue.Waiting.{Waiting};
    ghost use Rattle.gf_buchberger.specs.Keys.{waiting_order};

    ghost Value = { List Waiting };

    ghost view = { λ q. map (λ r. r.0) (heap_items q.heap) };

    ghost invariant = { λ q. IsHeap (λ x y. waiting_order y.0 x.0) (heap_items q.heap) };
}

impl Queue {
    /// The queue without pairs.
    pub fn new(alloc: Global) -> Queue
        ensures { result ≡ [] }
    {
        Queue {
            heap: BinaryHeap::new(alloc),
        }
    }

    /// Adds a pair.
    ///
    /// # Errors
    ///
    /// `AllocError` if memory runs out; the queue is unchanged.
    pub fn push(&mut self, pair: Waiting) -> Result<(), AllocError>
        ensures ok { OnOk result (IsPermutation (pair ∷ self.old) self.new) }
        ensures err { OnErr result (self.new ≡ self.old) }
    {
        self.heap.push(Reverse(pair))?;
        Ok(())
    }

    /// Takes the pair of least key out, of those with one key the one whose later member is the least, then the one whose earlier member is.
    pub fn pop(&mut self) -> Option<Waiting>
        ensures some { IfSome result (λ pair. IsPermutation self.old (pair ∷ self.new)) }
        ensures first { IfSome result (IsFirst self.old) }
        ensures none { IfNone result (self.old ≡ []) }
        ensures empty { IfNone result (self.new ≡ []) }
    {
        let top = self.heap.pop()?;
        Some(top.0)
    }
}
