//! The output of `_homogenize` for an input.
ghost use Rattle.std.specs.Prelude.{◌≡◌, true, false, length, None, IfOk, IfErr, [], ◌∷◌};
ghost use Rattle.gf_text.specs.RingText.{is_name, has};
ghost use Rattle.gf_text.specs.Sets.{AreIn};
ghost use Rattle.gf_frame.specs.Commands.{IsAnswerFor, IsUnanswered, IsAnswered, IsRefusedOn};
ghost use Rattle.gfan_common.specs.Refused.{IsNamedBy, IsOfSource};
ghost use Rattle.gfan_sets.specs.Homogenize.{homogenize_command};

use gf_front::Refusal;
use gf_items::{RingSetAndName, ring_set_and_name};
use gf_small::SmallError;
use gf_text::{Ring, Written};
use gfan_common::printing::printed_set;
use gfan_common::refused::Refused;
use std::alloc::Global;

/// The output for what is read.
fn text_of(alloc: Global, ring: &Ring, set: &[Written], name: &[u8]) -> Result<Vec<u8>, Refusal>
    requires variables { AreIn (length ring.now) set.now }
    requires named { is_name name.now ≡ true }
    requires new { has ring.now name.now ≡ false }
    ensures ok { IfOk result (λ text. IsAnswerFor homogenize_command (ring.now, (set.now, name.now)) text.items) }
    ensures err { IfErr result (IsUnanswered homogenize_command (ring.now, (set.now, name.now))) }
    ensures told { IfErr result (IsNamedBy None) }
{
    let (wider, forms) = match gf_small::homogenize(alloc, ring, set, name) {
        Ok(found) => found,
        Err(SmallError::Exponent(o)) => return Err(Refusal::ExponentOverflow(o)),
        Err(SmallError::TooManyVariables { count }) => {
            return Err(Refusal::TooManyVariables { count });
        }
        Err(SmallError::Memory) => return Err(Refusal::Memory),
    };
    let text = printed_set(alloc, &wider, &forms)?;
    Ok(text)
}

/// The ring of the source in a line, with a new last variable whose name follows the set, and the homogenizations of the polynomials of the
/// set, in the order in which they were read: each is made homogeneous of its total degree by powers of the new variable. Its mark is the
/// term that the marked term becomes.
///
/// # Errors
///
/// - `Syntax`, `TooWide`, `UnknownName`, `TooManyVariables` if and only if the source isn't the text of a ring, of a set in it and of a
///   name that the ring doesn't have: at the first token after which no such text continues; a name that the ring has is a repeated one.
/// - `TooManyVariables`, with the new number, also if and only if the source is such a text and the ring has `MOST_VARIABLES` variables.
/// - `Overflow`: the operands of a sum of the text don't fit.
/// - `ExponentOverflow`: the operands of a sum of the text don't fit; or the first power of the new variable that is greater than
///   `2^31 - 1`, with that limit and the difference of the power and the limit.
/// - `Memory`: memory runs out.
pub fn answer(alloc: Global, source: &[u8]) -> Result<Vec<u8>, Refused>
    ensures ok { IfOk result (λ text. IsAnswered homogenize_command (source.now ∷ []) text.items) }
    ensures err { IfErr result (λ e. IsRefusedOn homogenize_command (source.now ∷ []) e.refusal) }
    ensures told { IfErr result (IsOfSource source.now) }
{
    let RingSetAndName { ring, set, name } = ring_set_and_name(alloc, source)?;
    let text = text_of(alloc, &ring, &set, name)?;
    Ok(text)
}
