//! What is known of cones before their pairs are looked at.
ghost use Rattle.std.specs.Prelude.{◌≡◌, All, IfOk, IsTrue};
ghost use Rattle.gf_rays.specs.Cones.{RowsAndRays};
ghost use Rattle.gf_fan.specs.Pairs.{AreOfAmbient};
ghost use Rattle.gf_fan.specs.Tables.{AreOfOneBasis, IsTableOf};

use crate::bits::{ConeBits, MOST_RAYS, bits_by};
use crate::known::have_their_rays;
use crate::numbering::Numbering;
use crate::words::{Words, no_words, words_by};
use gf_rays::Rays;
use gf_vec::{IntVec, same_vectors};
use std::alloc::{AllocError, Global};

/// Whether all cones are known to have one lineality basis, and what is known of their rows at their rays: in the bits of one word
/// where the rays are few, else in those of several.
#[derive(Drop)]
pub(crate) struct Table {
    pub(crate) one: bool,
    pub(crate) bits: Vec<ConeBits>,
    pub(crate) words: Words,
}

/// Whether all cones have this lineality basis.
fn all_have(lineality: &[IntVec], cones: &[Rays]) -> bool
    ensures { IsTrue result → All (λ (c : RowsAndRays). c.lineality ≡ lineality.now) cones.now }
{
    for c in cones {
        if !same_vectors(c.lineality(), lineality) {
            return false;
        }
    }
    true
}

/// Whether all cones are known to have one lineality basis.
fn are_of_one_basis(cones: &[Rays]) -> bool
    ensures { IsTrue result → AreOfOneBasis cones.now }
{
    if cones.len() == 0 {
        return false;
    }
    all_have(cones[0].lineality(), cones)
}

/// What is known of these cones.
pub(crate) fn table_of(alloc: Global, n: u32, cones: &[Rays]) -> Result<Table, AllocError>
    requires { AreOfAmbient n cones.now }
    ensures { IfOk result (IsTableOf cones.now) }
{
    have_their_rays(cones);
    let one = are_of_one_basis(cones);
    let numbering = Numbering::of(alloc, cones)?;
    if numbering.as_slice().len() <= MOST_RAYS {
        let bits = bits_by(alloc, n, &numbering, cones)?;
        return Ok(Table {
            one,
            bits,
            words: no_words(alloc),
        });
    }
    let words = words_by(alloc, n, &numbering, cones)?;
    Ok(Table {
        one,
        bits: Vec::new(alloc),
        words,
    })
}
