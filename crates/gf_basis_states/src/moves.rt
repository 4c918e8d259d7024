//! The bases of an ideal as states.
ghost use Rattle.std.specs.Prelude.{◌≡◌, length};
ghost use Rattle.gf_basis_states.specs.BasisRules.{IsBasisState, IsCrossingStep, IsStateRefusal, basis_rules};

use crate::prompt::push_prompt;
use crate::state::BasisState;
use gf_back::flip_back;
use gf_flip::flip;
use gf_session::Moves;
use gf_text::Ring;
use gf_tree::TreeError;
use gf_vec::IntVec;
use std::alloc::Global;

/// The bases of the ideals in a ring, for positive weights, as states of sessions; each run of a flip settles at most `pairs` pairs.
#[derive(Drop)]
pub struct BasisStates<'r> {
    pub ring: &'r Ring,
    pub pairs: u64,
    pub alloc: Global,
}

/// The number of normals.
fn count_of(normals: &[IntVec]) -> u64
    ensures { result ≡ length normals.now }
{
    normals.len() as u64
}

impl<'r> Moves for BasisStates<'r> {
    type State = BasisState;

    type Step = IntVec;

    type Error = TreeError;

    ghost is_state = { λ t p. IsBasisState (length t.ring.now) p };

    ghost rules = { λ t. basis_rules t.ring.now };

    ghost joins = { λ _. IsCrossingStep };

    ghost refuses = { λ t. IsStateRefusal t.pairs };

    fn cross(
        &self,
        here: &BasisState,
        number: u64,
    ) -> Result<Option<(IntVec, BasisState)>, TreeError> {
        let normals = here.crossable();
        if number >= count_of(normals) {
            return Ok(None);
        }
        let normal = &normals[number as usize];
        let across = flip(self.alloc, here.basis(), normal, self.pairs)?;
        let step = normal.copy()?;
        let there = BasisState::new(self.alloc, across)?;
        Ok(Some((step, there)))
    }

    fn back(&self, here: &BasisState, step: &IntVec) -> Result<BasisState, TreeError> {
        let before = flip_back(self.alloc, here.basis(), step, self.pairs)?;
        BasisState::new(self.alloc, before)
    }

    fn tell(&self, here: &BasisState, behind: usize) -> Result<Vec<u8>, TreeError> {
        let mut text = Vec::new(self.alloc);
        push_prompt(&mut text, self.ring, here.basis(), here.crossable(), behind)?;
        Ok(text)
    }
}
