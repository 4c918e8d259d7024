//! Polynomials whose memory serves again.

ghost use Rattle.std.specs.Prelude.{◌≡◌, [], IfOk};

use gf_poly::{Marked, MarkedSet, Mono, Poly, Term};
use std::alloc::{AllocError, Global};
use std::mem;

/// Lists of terms, of indices and of monomials that nobody needs any more. Nothing that is told rests on them.
#[derive(Drop)]
pub struct SpareLists {
    lists: Vec<Poly>,
    indices: Vec<usize>,
    marks: Vec<Mono>,
}

/// The memory of a list, emptied; an empty list stays.
fn emptied<T: Drop>(alloc: Global, list: &mut Vec<T>) -> Vec<T>
    ensures { result.items ≡ [] }
{
    let mut old = mem::replace(list, Vec::new(alloc));
    old.clear();
    old
}

impl SpareLists {
    /// None.
    pub fn new(alloc: Global) -> SpareLists {
        SpareLists {
            lists: Vec::new(alloc),
            indices: Vec::new(alloc),
            marks: Vec::new(alloc),
        }
    }

    /// Keeps the memory of a polynomial, or gives it back where there is no room for it.
    fn keep(&mut self, member: Marked) {
        let _ = self.lists.push(member.into_poly());
    }

    /// Keeps the memory of the members of a set, that of the first one on top.
    pub fn keep_all(&mut self, set: MarkedSet) {
        let mut items = set.into_items();
        items.reverse();
        'members: for member in items {
            self.keep(member);
        }
    }

    /// An empty list with room for so many terms: the one on top, if that has it.
    ///
    /// # Errors
    ///
    /// Want of memory.
    pub fn room(&mut self, alloc: Global, n: usize) -> Result<Vec<Term>, AllocError>
        ensures { IfOk result (λ list. list.items ≡ []) }
    {
        if let Some(old) = self.lists.pop() {
            let mut list = old.into_terms();
            if list.capacity() >= n {
                list.clear();
                return Ok(list);
            }
        }
        let list = Vec::with_capacity(alloc, n)?;
        Ok(list)
    }

    /// An empty list of indices, in the memory of an old one.
    pub fn indices(&mut self, alloc: Global) -> Vec<usize>
        ensures { result.items ≡ [] }
    {
        emptied(alloc, &mut self.indices)
    }

    /// An empty list of monomials, in the memory of an old one.
    pub fn marks(&mut self, alloc: Global) -> Vec<Mono>
        ensures { result.items ≡ [] }
    {
        emptied(alloc, &mut self.marks)
    }

    /// Keeps the memory of a list of indices and of one of monomials.
    pub fn leave(&mut self, indices: Vec<usize>, marks: Vec<Mono>) {
        self.indices = indices;
        self.marks = marks;
    }
}
