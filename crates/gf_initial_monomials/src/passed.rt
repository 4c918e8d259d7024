//! The vectors that were tested and passed.
ghost use Rattle.std.specs.Prelude.{◌≡◌, ◌⊎◌, [], List, ℤ, Contains, IsTrue, IfOk};

use gf_vec::IntVec;
use indexmap::IndexSet;
use std::alloc::{AllocError, Global};
use std::marker::Model;

/// The most vectors that are kept.
const MOST: usize = 1 << 16;

/// Vectors at which the initial ideal of an ideal has no polynomial with a single term: those that were tested at one of its bases and passed,
/// so that no saturation is needed at another basis whose closed cone has them. Its value is the list of them.
#[derive(Drop)]
pub struct Passed {
    vectors: IndexSet<IntVec>,
}

impl Model for Passed {
    ghost use Rattle.std.specs.Prelude.{List, ℤ};

    ghost Value = { List (List ℤ) };

    ghost view = { λ s. s.vectors.keys };
}

impl Passed {
    /// No vector.
    pub fn new(alloc: Global) -> Passed
        ensures { result ≡ [] }
    {
        Passed {
            vectors: IndexSet::new(alloc),
        }
    }

    /// Whether this vector is among them.
    pub(crate) fn has(&self, v: &IntVec) -> bool
        ensures { IsTrue result → Contains self.now v.now }
    {
        self.vectors.contains(v)
    }

    /// Forgets all vectors where there are many.
    fn make_room(&mut self)
        ensures { (u : List ℤ) → Contains self.new u → Contains self.old u }
    {
        if MOST <= self.vectors.len() {
            self.vectors.clear();
        }
    }

    /// Adds a vector that was tested and passed.
    ///
    /// # Errors
    /// Only when memory runs out.
    pub(crate) fn keep(&mut self, v: IntVec) -> Result<(), AllocError>
        ensures { IfOk result (λ _. (u : List ℤ) → Contains self.new u → Contains self.old u ⊎ (u ≡ v)) }
    {
        self.make_room();
        self.vectors.insert(v)?;
        Ok(())
    }
}
