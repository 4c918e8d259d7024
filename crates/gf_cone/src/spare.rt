//! Vectors whose memory serves again.
ghost use Rattle.std.specs.Prelude.{◌≡◌, [], IfOk};

use gf_vec::IntVec;
use std::alloc::{AllocError, Global};

/// Vectors that nobody needs any more. Nothing that is told rests on them.
#[derive(Drop)]
pub struct SpareVectors {
    list: Vec<IntVec>,
}

impl SpareVectors {
    /// No vectors.
    pub fn new(alloc: Global) -> SpareVectors {
        SpareVectors {
            list: Vec::new(alloc),
        }
    }

    /// Keeps a vector's memory, or gives it back where there is no room for it.
    pub fn keep(&mut self, vector: IntVec) {
        let _ = self.list.push(vector);
    }

    /// An empty list: in the memory of the vector that was kept last, which may have room for fewer than `n` numbers, or, where none was kept, in new
    /// memory with room for `n`.
    ///
    /// # Errors
    /// Want of memory.
    pub(crate) fn room(&mut self, alloc: Global, n: usize) -> Result<Vec<i128>, AllocError>
        ensures { IfOk result (λ list. list.items ≡ []) }
    {
        match self.list.pop() {
            Some(old) => {
                let mut list = old.into_vec();
                list.clear();
                Ok(list)
            }
            None => {
                let list = Vec::with_capacity(alloc, n)?;
                Ok(list)
            }
        }
    }

    /// An equal vector, in the memory of a vector that was kept, if there is one, and else in new memory.
    ///
    /// # Errors
    /// Want of memory.
    pub fn copy(&mut self, alloc: Global, vector: &IntVec) -> Result<IntVec, AllocError>
        ensures { IfOk result (λ v. v ≡ vector.now) }
    {
        let entries = vector.as_slice();
        let mut list = self.room(alloc, entries.len())?;
        list.extend_from_slice(entries)?;
        Ok(IntVec::from_vec(list))
    }
}
