//! The output of `_markpolynomialset` for an input.
ghost use Rattle.std.specs.Prelude.{[], length, None, IfOk, IfErr, ◌∷◌};
ghost use Rattle.gf_text.specs.Sets.{AreIn};
ghost use Rattle.gf_text.specs.Vectors.{AreEntriesWithin};
ghost use Rattle.gf_frame.specs.Commands.{IsAnswerFor, IsUnanswered, IsAnswered, IsRefusedOn};
ghost use Rattle.gfan_common.specs.Refused.{IsNamedBy, IsOfSource};
ghost use Rattle.gfan_sets.specs.MarkPolynomialSet.{mark_polynomial_set_command};

use gf_front::Refusal;
use gf_items::{RingSetAndVector, ring_set_and_vector};
use gf_small::mark_set;
use gf_text::{Ring, Written};
use gf_vec::IntVec;
use gfan_common::checks::{check_entries, nonzero};
use gfan_common::marked_sets::polynomials;
use gfan_common::printing::printed;
use gfan_common::refused::Refused;
use std::alloc::Global;

/// The output for what is read.
fn text_of(
    alloc: Global,
    ring: &Ring,
    set: Vec<Written>,
    vector: &IntVec,
) -> Result<Vec<u8>, Refusal>
    requires variables { AreIn (length ring.now) set.items }
    requires within { AreEntriesWithin vector.now }
    ensures ok { IfOk result (λ text. IsAnswerFor mark_polynomial_set_command (ring.now, (set.items, vector.now)) text.items) }
    ensures err { IfErr result (IsUnanswered mark_polynomial_set_command (ring.now, (set.items, vector.now))) }
    ensures told { IfErr result (IsNamedBy None) }
{
    let n = ring.len();
    check_entries(n, vector)?;
    let read = nonzero(alloc, n, set)?;
    let list = polynomials(alloc, &read)?;
    let marked = mark_set(alloc, &list, vector)?;
    let text = printed(alloc, ring, &marked)?;
    Ok(text)
}

/// The ring of the source in a line, and the polynomials of its set in the order in which they were read, each marked at its term of
/// greatest weight by the vector that follows the set, ties broken by lex.
///
/// # Errors
///
/// - `Syntax`, `TooWide`, `UnknownName`, `TooManyVariables` if and only if the source isn't the text of a ring, of a set in it and of a
///   vector: at the first token after which no such text continues.
/// - `Dimensions` if and only if the vector has another number of entries than the ring has variables.
/// - `ZeroPolynomial` if and only if the vector has an entry for each variable and all terms of a polynomial cancel: the index of the first
///   one.
/// - `Overflow`, `ExponentOverflow`: the operands of a sum of the text don't fit.
/// - `Memory`: memory runs out.
pub fn answer(alloc: Global, source: &[u8]) -> Result<Vec<u8>, Refused>
    ensures ok { IfOk result (λ text. IsAnswered mark_polynomial_set_command (source.now ∷ []) text.items) }
    ensures err { IfErr result (λ e. IsRefusedOn mark_polynomial_set_command (source.now ∷ []) e.refusal) }
    ensures told { IfErr result (IsOfSource source.now) }
{
    let RingSetAndVector { ring, set, vector } = ring_set_and_vector(alloc, source)?;
    let text = text_of(alloc, &ring, set, &vector)?;
    Ok(text)
}
