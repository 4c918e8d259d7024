//! The output of `_leadingterms` for an input.
ghost use Rattle.std.specs.Prelude.{◌≡◌, true, false, map, IfOk, IfErr, [], ◌∷◌};
ghost use Rattle.gf_small.specs.LeadingTerms.{leading_set};
ghost use Rattle.gf_frame.specs.Commands.{IsAnswered, IsRefusedOn};
ghost use Rattle.gfan_sets.specs.LeadingTerms.{leading_command, leading_terms_command};
ghost use Rattle.gfan_common.specs.Refused.{IsOfSource};

use gf_front::LeadingTermsOptions;
use gf_items::{ring_and_marked, ring_and_marked_sets};
use gf_poly::MarkedSet;
use gfan_common::printing::{printed, printed_list};
use gfan_common::refused::Refused;
use std::alloc::{AllocError, Global};

/// The marked terms of each set.
fn leading_sets(alloc: Global, sets: &[MarkedSet]) -> Result<Vec<MarkedSet>, AllocError>
    ensures { IfOk result (λ found. found.items ≡ map leading_set sets.now) }
{
    let mut found = Vec::with_capacity(alloc, sets.len())?;
    'sets: for set in sets {
        let terms = gf_small::leading_terms(alloc, set)?;
        found.push(terms)?;
    }
    Ok(found)
}

/// The output for a source with a single set.
fn of_set(alloc: Global, source: &[u8]) -> Result<Vec<u8>, Refused>
    ensures ok { IfOk result (λ text. IsAnswered (leading_command false) (source.now ∷ []) text.items) }
    ensures err { IfErr result (λ e. IsRefusedOn (leading_command false) (source.now ∷ []) e.refusal) }
    ensures told { IfErr result (IsOfSource source.now) }
{
    let read = ring_and_marked(alloc, source)?;
    let found = gf_small::leading_terms(alloc, &read.set)?;
    let text = printed(alloc, &read.ring, &found)?;
    Ok(text)
}

/// The output for a source with a list of sets.
fn of_list(alloc: Global, source: &[u8]) -> Result<Vec<u8>, Refused>
    ensures ok { IfOk result (λ text. IsAnswered (leading_command true) (source.now ∷ []) text.items) }
    ensures err { IfErr result (λ e. IsRefusedOn (leading_command true) (source.now ∷ []) e.refusal) }
    ensures told { IfErr result (IsOfSource source.now) }
{
    let read = ring_and_marked_sets(alloc, source)?;
    let found = leading_sets(alloc, &read.sets)?;
    let text = printed_list(alloc, &read.ring, &found)?;
    Ok(text)
}

/// The ring of the source in a line, and the marked terms of its marked set, or with the option `listed` of each set of its list, with
/// their coefficients, in the order in which they were read.
///
/// # Errors
///
/// - `Syntax`, `TooWide`, `UnknownName`, `TooManyVariables` if and only if the source isn't the text of a ring and of a set, or a list of
///   sets, in it: at the first token after which no such text continues.
/// - `ZeroPolynomial` if all terms of a polynomial cancel: the number of the first set with such a polynomial, and the index of the first
///   one in it.
/// - `Overflow`, `ExponentOverflow`: the operands of a sum of the text don't fit.
/// - `Memory`: memory runs out.
pub fn answer(
    alloc: Global,
    source: &[u8],
    options: LeadingTermsOptions,
) -> Result<Vec<u8>, Refused>
    ensures ok { IfOk result (λ text. IsAnswered (leading_terms_command options) (source.now ∷ []) text.items) }
    ensures err { IfErr result (λ e. IsRefusedOn (leading_terms_command options) (source.now ∷ []) e.refusal) }
    ensures told { IfErr result (IsOfSource source.now) }
{
    if options.listed {
        of_list(alloc, source)
    } else {
        of_set(alloc, source)
    }
}
