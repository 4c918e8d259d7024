//! The output of `_saturation` for an input.
ghost use Rattle.std.specs.Prelude.{◌∷◌, [], None, length, IfOk, IfErr};
ghost use Rattle.gf_text.specs.Sets.{AreIn};
ghost use Rattle.gf_frame.specs.Commands.{IsAnswerFor, IsUnanswered, IsAnswered, IsRefusedOn};
ghost use Rattle.gfan_common.specs.Refused.{IsNamedBy, IsOfSource};
ghost use Rattle.gfan_sets.specs.Saturation.{saturation_command};

use gf_front::{Refusal, SaturationOptions};
use gf_items::{RingAndSet, ring_and_set};
use gf_saturate::saturate;
use gf_text::{Ring, Written};
use gfan_common::printing::printed;
use gfan_common::refused::{Refused, of_basis};
use gfan_common::written_sets::polynomials;
use std::alloc::Global;

/// The output for what is read.
fn text_of(
    alloc: Global,
    ring: &Ring,
    set: &[Written],
    options: SaturationOptions,
) -> Result<Vec<u8>, Refusal>
    requires { AreIn (length ring.now) set.now }
    ensures ok { IfOk result (λ text. IsAnswerFor (saturation_command options) (ring.now, (set.now, None)) text.items) }
    ensures err { IfErr result (IsUnanswered (saturation_command options) (ring.now, (set.now, None))) }
    ensures told { IfErr result (IsNamedBy None) }
{
    let generators = polynomials(alloc, set)?;
    let found = match saturate(alloc, ring.len(), &generators, options.pairs) {
        Ok(found) => found,
        Err(error) => return Err(of_basis(error)),
    };
    let text = printed(alloc, ring, &found)?;
    Ok(text)
}

/// The ring of the source in a line, and then the reduced Gröbner basis by deglex of the saturation of the ideal of its set by the product
/// of all variables. Each run of Buchberger's algorithm may settle as many pairs as the options say.
///
/// # Errors
///
/// - `Syntax`, `TooWide`, `UnknownName`, `TooManyVariables` if and only if the source isn't the text of a ring and of a set in it: at the
///   first token after which no such text continues.
/// - `Overflow`, `ExponentOverflow`: the operands of a sum of the text don't fit, or those of an operation of a run of Buchberger's
///   algorithm, on the polynomials from which one of the variables is taken out or, at the end, on those that generate the saturation.
/// - `PairBudget`: such a run has more pairs to settle.
/// - `Memory`: memory runs out.
pub fn answer(alloc: Global, source: &[u8], options: SaturationOptions) -> Result<Vec<u8>, Refused>
    ensures ok { IfOk result (λ text. IsAnswered (saturation_command options) (source.now ∷ []) text.items) }
    ensures err { IfErr result (λ e. IsRefusedOn (saturation_command options) (source.now ∷ []) e.refusal) }
    ensures told { IfErr result (IsOfSource source.now) }
{
    let RingAndSet { ring, set, .. } = ring_and_set(alloc, source, false)?;
    let text = text_of(alloc, &ring, &set, options)?;
    Ok(text)
}
