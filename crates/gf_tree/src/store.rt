//! Memory that one step of the search leaves for the next ones.

use gf_cone::SpareVectors;
use gf_flip::SpareLists;
use gf_known_cone::KnownCone;
use gf_poly::MarkedSet;
use std::alloc::Global;

/// The memory of bases and cones that are no longer needed. No result depends on it.
#[derive(Drop)]
pub struct Store {
    pub(crate) lists: SpareLists,
    pub(crate) vectors: SpareVectors,
}

impl Store {
    /// A store without any memory.
    pub(crate) fn new(alloc: Global) -> Store {
        Store {
            lists: SpareLists::new(alloc),
            vectors: SpareVectors::new(alloc),
        }
    }

    /// Keeps the memory of a basis and of its cone.
    pub(crate) fn leave(&mut self, basis: MarkedSet, cone: Option<KnownCone>) {
        self.lists.keep_all(basis);
        self.leave_cone(cone);
    }

    /// Keeps the memory of a cone.
    pub(crate) fn leave_cone(&mut self, cone: Option<KnownCone>) {
        if let Some(cone) = cone {
            cone.leave(&mut self.vectors);
        }
    }
}
