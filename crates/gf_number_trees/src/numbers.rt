//! The tree of the numbers up to a limit.
ghost use Rattle.std.specs.Prelude.{◌≡◌, ◌<◌, length, IfOk, IfErr, OnErr};
ghost use Rattle.gf_reverse_search.specs.Tree.{RisesBy, HasLabels, IsChildOf, IsParentOf};
ghost use Rattle.gf_number_trees.specs.NumberTree.{IsNumber, IsHalf, IsChosen, IsOutOfMemory, Refuses, memory_refuses, numbers_strict, numbers_tree};
ghost use Rattle.gf_number_trees.specs.NumberTree.{numbers_nodes};
ghost use Rattle.gf_number_trees.specs.Finite.{down_to_one, numbers_fall, numbers_finite};
ghost use Rattle.gf_number_trees.specs.declared.numbers.NumberError.TheVariants.{Memory, Chosen};
ghost use Rattle.std.proofs.Common.{refl, rules};

use gf_reverse_search::{FiniteTree, ReusingTree, Tree};
use std::alloc::{AllocError, Global};

/// What a call of the tree is refused by.
#[derive(Clone, Copy, Debug, Drop, PartialEq)]
pub enum NumberError {
    /// Want of memory.
    Memory,
    /// The number at which the call was made was chosen to refuse.
    Chosen(u64),
}

impl From<AllocError> for NumberError {
    ghost from_gives = { λ _ e. e ≡ Memory };

    fn from(_error: AllocError) -> NumberError {
        NumberError::Memory
    }
}

/// The tree of the numbers from 1 to a limit. `labels`, `child` and `parent` refuse at the two chosen numbers; 0 is no number of the tree.
#[derive(Drop)]
pub struct NumberTree {
    pub limit: u64,
    pub chosen: (u64, u64),
    pub alloc: Global,
}

impl NumberTree {
    /// Refuses at a chosen number, and only there.
    fn ask(&self, node: u64) -> Result<(), NumberError>
        ensures err { IfErr result (Refuses self.now.chosen node) }
        ensures chosen { IsChosen self.now.chosen node → result ≡ Err (Chosen node) }
        ensures only { OnErr result (IsChosen self.now.chosen node) }
    {
        if node == self.chosen.0 || node == self.chosen.1 {
            return Err(NumberError::Chosen(node));
        }
        Ok(())
    }
}

impl Tree for NumberTree {
    type Node = u64;

    type Label = u64;

    type Error = NumberError;

    ghost before = { λ a b. a < b };

    ghost is_node = { λ t v. IsNumber t.limit v };

    ghost up = { λ t. IsHalf t.limit };

    ghost is_memory = { IsOutOfMemory };

    ghost refuses = { λ t v e. Refuses t.chosen v e };

    ghost from_memory = { λ a e h. Prim.search rules };

    ghost memory = { λ t. memory_refuses t.chosen };

    ghost strict = { numbers_strict };

    ghost tree = { λ t. numbers_tree t.limit };

    ghost nodes = { λ t. numbers_nodes t.limit };

    /// The bits, and a label that leads nowhere.
    fn labels(&self, node: &u64) -> Result<Vec<u64>, NumberError>
        requires { IsNumber self.now.limit node.now }
        ensures rises { IfOk result (λ v. RisesBy (λ a b. a < b) v.items) }
        ensures all { IfOk result (λ v. HasLabels (IsHalf self.now.limit) node.now v.items) }
        ensures err { IfErr result (Refuses self.now.chosen node.now) }
        ensures chosen { IsChosen self.now.chosen node.now → result ≡ Err (Chosen node.now) }
    {
        self.ask(*node)?;
        match vec![in self.alloc; 0, 1, 2] {
            Ok(labels) => Ok(labels),
            Err(refused) => Err(AllocError::from(refused).into()),
        }
    }

    fn precedes(&self, a: &u64, b: &u64) -> bool {
        *a < *b
    }

    fn child(&self, node: &u64, label: &u64) -> Result<Option<u64>, NumberError>
        requires { IsNumber self.now.limit node.now }
        ensures ok { IfOk result (IsChildOf (IsHalf self.now.limit) node.now label.now) }
        ensures err { IfErr result (Refuses self.now.chosen node.now) }
        ensures chosen { IsChosen self.now.chosen node.now → result ≡ Err (Chosen node.now) }
        ensures only { OnErr result (IsChosen self.now.chosen node.now) }
    {
        self.ask(*node)?;
        if *label > 1 || *node > self.limit / 2 {
            return Ok(None);
        }
        let double = 2 * *node;
        if *label > self.limit - double {
            return Ok(None);
        }
        Ok(Some(double + *label))
    }

    fn parent(&self, node: &u64) -> Result<Option<(u64, u64)>, NumberError>
        requires { IsNumber self.now.limit node.now }
        ensures ok { IfOk result (IsParentOf (IsHalf self.now.limit) node.now) }
        ensures err { IfErr result (Refuses self.now.chosen node.now) }
        ensures chosen { IsChosen self.now.chosen node.now → result ≡ Err (Chosen node.now) }
        ensures only { OnErr result (IsChosen self.now.chosen node.now) }
    {
        self.ask(*node)?;
        if *node == 1 {
            return Ok(None);
        }
        Ok(Some((*node % 2, *node / 2)))
    }

    fn copy(&self, node: &u64) -> Result<u64, NumberError> {
        Ok(*node)
    }

    fn again(&self) -> Result<Self, NumberError> {
        Ok(NumberTree {
            limit: self.limit,
            chosen: self.chosen,
            alloc: self.alloc,
        })
    }
}

impl ReusingTree for NumberTree {
    type Store = ();

    fn store(_alloc: Global) {}

    fn leave(&self, _node: u64, _store: &mut ()) {}

    fn bare(&self, node: u64, _store: &mut ()) -> u64 {
        node
    }

    fn leave_label(&self, _label: u64, _store: &mut ()) {}

    fn labels_by(&self, node: &u64, _store: &mut ()) -> Result<Vec<u64>, NumberError> {
        self.labels(node)
    }

    fn child_by(
        &self,
        node: &u64,
        label: &u64,
        _store: &mut (),
    ) -> Result<Option<u64>, NumberError> {
        self.child(node, label)
    }
}

impl FiniteTree for NumberTree {
    ghost rank = { λ _ v. v };

    ghost count = { λ t _. length (down_to_one t.limit) };

    ghost falls = { λ t. numbers_fall t.limit };

    ghost level = { λ t v c u h. refl };

    ghost finite = { λ t. numbers_finite t.limit };
}
