//! The output of `_ismarkedgroebnerbasis` for an input.
ghost use Rattle.std.specs.Prelude.{IfOk, IfErr, [], ◌∷◌};
ghost use Rattle.gf_frame.specs.Commands.{IsAnswered, IsRefusedOn};
ghost use Rattle.gfan_common.specs.Refused.{IsOfSource};
ghost use Rattle.gfan_sets.specs.Marked.{marked_command};

use gf_items::ring_and_marked;
use gf_reduced::is_marked_basis;
use gfan_common::printing::verdict;
use gfan_common::refused::Refused;
use std::alloc::Global;

/// `1` and a line end if the marked set of the source is a Gröbner basis of the ideal that it generates, for its marking; `0` and a line
/// end if it isn't. It is one if some positive weight sets each marked monomial above the other ones of its polynomial, and for each member
/// of the ideal each monomial of greatest weight is divisible by a marked monomial.
///
/// # Errors
///
/// - `Syntax`, `TooWide`, `UnknownName`, `TooManyVariables` if and only if the source isn't the text of a ring and of a set in it: at the
///   first token after which no such text continues.
/// - `ZeroPolynomial` if all terms of a polynomial of the set cancel: the index of the first one.
/// - `Overflow`, `ExponentOverflow`: the operands of a sum of the text, or of an operation of the test, don't fit.
/// - `ConeOverflow`: a step of the elimination of the marking's system leaves its range.
/// - `Memory`: memory runs out.
pub fn answer(alloc: Global, source: &[u8]) -> Result<Vec<u8>, Refused>
    ensures ok { IfOk result (λ text. IsAnswered marked_command (source.now ∷ []) text.items) }
    ensures err { IfErr result (λ e. IsRefusedOn marked_command (source.now ∷ []) e.refusal) }
    ensures told { IfErr result (IsOfSource source.now) }
{
    let read = ring_and_marked(alloc, source)?;
    let is_basis = match is_marked_basis(alloc, &read.set) {
        Ok(is_basis) => is_basis,
        Err(error) => return Err(Refused::of_check(error, read.ring)),
    };
    let text = verdict(alloc, is_basis)?;
    Ok(text)
}
