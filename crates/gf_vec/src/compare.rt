//! Vectors compared: equality, hash and the lexicographic order of the entries.
ghost use Rattle.std.specs.Prelude.{◌≡◌};
ghost use Rattle.std.specs.Ordering.{int_cmp};
ghost use Rattle.std.specs.Cmp.Lexicographic.{slice_cmp};

use crate::vector::IntVec;
use std::cmp::Ordering;
use std::hash::{Hash, Hasher};

impl PartialEq for IntVec {
    ghost use Rattle.std.specs.Ordering.{int_eq};
    ghost use Rattle.std.specs.Cmp.Lexicographic.{pointwise};
    ghost use Rattle.std.specs.Cmp.Rules.{comparing};
    ghost use Rattle.std.proofs.Common.{rules};

    ghost eq = { pointwise int_eq };

    ghost laws = { Prim.search (comparing, rules) };

    fn eq(&self, other: &IntVec) -> bool {
        self.as_slice() == other.as_slice()
    }
}

impl Eq for IntVec {
    ghost use Rattle.std.specs.Cmp.Rules.{comparing};
    ghost use Rattle.std.proofs.Common.{rules};

    ghost laws = { Prim.search (comparing, rules) };
}

impl Hash for IntVec {
    ghost use Rattle.std.specs.Hash as fed;
    ghost use Rattle.std.specs.Cmp.Rules.{hashing};
    ghost use Rattle.std.proofs.Common.{rules};

    ghost hash_input = { fed.slice fed.i128 };

    ghost respects_eq = { Prim.search (hashing, rules) };

    fn hash<H: Hasher>(&self, state: &mut H) {
        self.as_slice().hash(state);
    }
}

impl IntVec {
    /// The lexicographic order of the entries, a prefix first. It takes no memory.
    pub fn lex_cmp(&self, other: &IntVec) -> Ordering
        ensures { result ≡ slice_cmp int_cmp self.now other.now }
    {
        self.as_slice().cmp(other.as_slice())
    }
}
