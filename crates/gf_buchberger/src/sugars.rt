//! The sugar of members and of pairs: the degree that they would have if one variable more made the generators homogeneous.
//!
//! Kept only where pairs go by it. What is promised is what is kept of one member and how a pair's key comes of two; that the sugar of what is
//! reduced is that of its pair isn't, and what is proved of a run holds of any choice of pairs.
//!
//! Source: Giovini, Mora, Niesi, Robbiano, Traverso, "One sugar cube, please", or selection strategies in the Buchberger algorithm.

ghost use Rattle.std.specs.Prelude.{◌≡◌, [], IfOk, OnOk, max, slice_index};
ghost use Rattle.gf_buchberger.specs.Keys.{excess_for, kept_excesses};

use crate::queue::Strategy;
use gf_poly::Mono;
use std::alloc::{AllocError, Global};

/// By how much the sugar of each member is more than the degree of its mark, and the sugar of what is reduced now.
#[derive(Drop)]
pub struct Sugars {
    pub excesses: Vec<u64>,
    pub current: u64,
}

impl Sugars {
    /// The sugars of no members.
    pub fn new(alloc: Global) -> Sugars
        ensures { result.excesses.items ≡ [] }
    {
        Sugars {
            excesses: Vec::new(alloc),
            current: 0,
        }
    }

    /// By how much the sugar of a pair exceeds the degree of its least common multiple: the greater of `excess`, that of one member, and the excess
    /// of the member at `i`; the latter is 0 where none is kept.
    pub fn of_pair(&self, i: usize, excess: u64) -> u64
        ensures { result ≡ max excess (slice_index self.now.excesses.items i) }
    {
        match self.excesses.get(i) {
            Some(other) => excess.max(*other),
            None => excess,
        }
    }

    /// Enters what is reduced as a member with the mark `head`, and answers by how much its sugar exceeds the degree of the mark. Where pairs aren't
    /// chosen by sugar, the answer is 0, and nothing is kept.
    ///
    /// # Errors
    ///
    /// `AllocError` if memory runs out, which it can only where pairs are chosen by sugar.
    pub fn add(&mut self, strategy: Strategy, head: &Mono) -> Result<u64, AllocError>
        ensures excess { IfOk result (λ excess. excess ≡ excess_for strategy self.old.current head.now) }
        ensures kept { OnOk result (self.new.excesses.items ≡ kept_excesses strategy self.old.excesses.items (excess_for strategy self.old.current head.now)) }
    {
        match strategy {
            Strategy::Sugar => {
                let excess = self.current.saturating_sub(head.degree());
                self.excesses.push(excess)?;
                Ok(excess)
            }
            Strategy::Degree | Strategy::Order => Ok(0),
        }
    }
}
