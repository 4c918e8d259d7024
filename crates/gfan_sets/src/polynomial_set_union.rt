//! The output of `_polynomialsetunion` for an input.
ghost use Rattle.std.specs.Prelude.{IfOk, IfErr, [], ◌∷◌};
ghost use Rattle.gf_frame.specs.Commands.{IsAnswered, IsRefusedOn};
ghost use Rattle.gfan_common.specs.Refused.{IsOfSource};
ghost use Rattle.gfan_sets.specs.PolynomialSetUnion.{polynomial_set_union_command};

use gf_items::ring_and_sets;
use gfan_common::printing::printed_set;
use gfan_common::refused::Refused;
use std::alloc::Global;

/// The ring of the source in a line, and the polynomials of all sets of its list in the order in which they were read, but of equal
/// polynomials only the first, with its mark.
///
/// # Errors
///
/// - `Syntax`, `TooWide`, `UnknownName`, `TooManyVariables` if and only if the source isn't the text of a ring and of a list of sets in it:
///   at the first token after which no such text continues.
/// - `Overflow`, `ExponentOverflow`: the operands of a sum of the text don't fit.
/// - `Memory`: memory runs out.
pub fn answer(alloc: Global, source: &[u8]) -> Result<Vec<u8>, Refused>
    ensures ok { IfOk result (λ text. IsAnswered polynomial_set_union_command (source.now ∷ []) text.items) }
    ensures err { IfErr result (λ e. IsRefusedOn polynomial_set_union_command (source.now ∷ []) e.refusal) }
    ensures told { IfErr result (IsOfSource source.now) }
{
    let read = ring_and_sets(alloc, source)?;
    let union = gf_small::union(alloc, &read.sets)?;
    let text = printed_set(alloc, &read.ring, &union)?;
    Ok(text)
}
