//! The output of `_stats` for an input.
ghost use Rattle.std.specs.Prelude.{◌≡◌, IfOk, IfErr, [], ◌∷◌};
ghost use Rattle.gf_frame.specs.Commands.{IsAnswered, IsRefusedOn};
ghost use Rattle.gfan_common.specs.Refused.{IsOfSource};
ghost use Rattle.gfan_sets.specs.Stats.{stats_text, stats_command};

use gf_items::ring_and_marked_sets;
use gf_small::Stats;
use gfan_common::printing::push_line;
use gfan_common::refused::Refused;
use std::alloc::{AllocError, Global};

/// The seven lines.
fn printed_stats(alloc: Global, stats: &Stats) -> Result<Vec<u8>, AllocError>
    ensures { IfOk result (λ text. text.items ≡ stats_text stats.now) }
{
    let mut text = Vec::new(alloc);
    push_line(
        &mut text,
        "Number of reduced Groebner bases: ",
        u128::from(stats.bases),
    )?;
    push_line(
        &mut text,
        "Number of variables: ",
        u128::from(stats.variables),
    )?;
    push_line(
        &mut text,
        "Dimension of homogeneity space: ",
        u128::from(stats.homogeneity),
    )?;
    push_line(
        &mut text,
        "Maximal total degree of a polynomial: ",
        u128::from(stats.max_degree),
    )?;
    push_line(
        &mut text,
        "Minimal total degree of a basis: ",
        u128::from(stats.min_degree),
    )?;
    push_line(
        &mut text,
        "Maximal number of polynomials in a basis: ",
        u128::from(stats.max_polynomials),
    )?;
    push_line(
        &mut text,
        "Maximal number of terms in a basis: ",
        stats.max_terms,
    )?;
    Ok(text)
}

/// Seven lines with statistics of the list of marked sets of the source.
///
/// # Errors
///
/// - `Syntax`, `TooWide`, `UnknownName`, `TooManyVariables` if and only if the source isn't the text of a ring and of a list of sets in it:
///   at the first token after which no such text continues.
/// - `ZeroPolynomial` if all terms of a polynomial cancel: the number of the first set with such a polynomial, and the index of the first
///   one in it.
/// - `Overflow`, `ExponentOverflow`: the operands of a sum of the text don't fit.
/// - `ConeOverflow`: a step of the elimination that gives the dimension of the homogeneity space leaves its range.
/// - `Memory`: memory runs out.
pub fn answer(alloc: Global, source: &[u8]) -> Result<Vec<u8>, Refused>
    ensures ok { IfOk result (λ text. IsAnswered stats_command (source.now ∷ []) text.items) }
    ensures err { IfErr result (λ e. IsRefusedOn stats_command (source.now ∷ []) e.refusal) }
    ensures told { IfErr result (IsOfSource source.now) }
{
    let read = ring_and_marked_sets(alloc, source)?;
    let stats = gf_small::stats(alloc, read.ring.len(), &read.sets)?;
    let text = printed_stats(alloc, &stats)?;
    Ok(text)
}
