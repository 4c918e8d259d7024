//! The output of `_initialforms` for an input.
ghost use Rattle.std.specs.Prelude.{length, None, IfOk, IfErr, [], ◌∷◌};
ghost use Rattle.gf_text.specs.Sets.{AreIn};
ghost use Rattle.gf_text.specs.Vectors.{AreEntriesWithin};
ghost use Rattle.gf_frame.specs.Commands.{IsAnswerFor, IsUnanswered, IsAnswered, IsRefusedOn};
ghost use Rattle.gfan_common.specs.Refused.{IsNamedBy, IsOfSource};
ghost use Rattle.gfan_sets.specs.InitialForms.{initial_forms_command};

use gf_front::Refusal;
use gf_items::{RingSetAndVector, ring_set_and_vector};
use gf_text::{Ring, Written};
use gf_vec::IntVec;
use gfan_common::checks::check_entries;
use gfan_common::printing::printed_set;
use gfan_common::refused::Refused;
use std::alloc::Global;

/// The output for what is read.
fn text_of(alloc: Global, ring: &Ring, set: &[Written], vector: &IntVec) -> Result<Vec<u8>, Refusal>
    requires variables { AreIn (length ring.now) set.now }
    requires within { AreEntriesWithin vector.now }
    ensures ok { IfOk result (λ text. IsAnswerFor initial_forms_command (ring.now, (set.now, vector.now)) text.items) }
    ensures err { IfErr result (IsUnanswered initial_forms_command (ring.now, (set.now, vector.now))) }
    ensures told { IfErr result (IsNamedBy None) }
{
    check_entries(ring.len(), vector)?;
    let forms = gf_small::initial_forms(alloc, set, vector)?;
    let text = printed_set(alloc, ring, &forms)?;
    Ok(text)
}

/// The ring of the source in a line, and the initial forms of the polynomials of its set by the vector that follows the set, in the order
/// in which they were read: of each polynomial the sum of the terms of greatest weight. The mark of an initial form is the marked term of
/// the polynomial if the initial form has it, and else its deglex greatest term. The initial form of zero is zero.
///
/// # Errors
///
/// - `Syntax`, `TooWide`, `UnknownName`, `TooManyVariables` if and only if the source isn't the text of a ring, of a set in it and of a
///   vector: at the first token after which no such text continues.
/// - `Dimensions` if and only if the vector has another number of entries than the ring has variables.
/// - `Overflow`, `ExponentOverflow`: the operands of a sum of the text don't fit.
/// - `Memory`: memory runs out.
pub fn answer(alloc: Global, source: &[u8]) -> Result<Vec<u8>, Refused>
    ensures ok { IfOk result (λ text. IsAnswered initial_forms_command (source.now ∷ []) text.items) }
    ensures err { IfErr result (λ e. IsRefusedOn initial_forms_command (source.now ∷ []) e.refusal) }
    ensures told { IfErr result (IsOfSource source.now) }
{
    let RingSetAndVector { ring, set, vector } = ring_set_and_vector(alloc, source)?;
    let text = text_of(alloc, &ring, &set, &vector)?;
    Ok(text)
}
