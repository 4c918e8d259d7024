//! The output of `_weightvector` for an input.
ghost use Rattle.std.specs.Prelude.{◌≡◌, ◌⊎◌, ◌++◌, All, Contains, length, flat_map, zip, true, false, IfOk, IfErr, OnOk, [], ◌∷◌};
ghost use Rattle.std.specs.List.{AllZip};
ghost use Rattle.gf_poly.specs.Marking.{MarkedPolynomials};
ghost use Rattle.gf_weights.specs.Weights.{IsPrintedWeight};
ghost use Rattle.gf_weights.specs.Refusals.{IsWeightCause};
ghost use Rattle.gf_frame.specs.Commands.{IsAnswered, IsRefusedOn};
ghost use Rattle.gfan_common.specs.Refused.{IsOfSource};
ghost use Rattle.gfan_sets.specs.WeightVector.{IsWeightOfSet, IsUnweighed, IsWeightsText, weight_item, later_weight_item, weight_items, echoed_ring, enclosed};
ghost use Rattle.gfan_sets.specs.WeightVector.{weights_command, weight_vector_command};

use gf_front::{Refusal, WeightVectorOptions};
use gf_items::{ring_and_marked, ring_and_marked_sets};
use gf_poly::MarkedSet;
use gf_text::{Printer, Ring};
use gf_vec::IntVec;
use gf_weights::{WeightError, weight};
use gfan_common::reduced_sets::reduced_bases;
use gfan_common::refused::{Refused, of_check, of_weight_error};
use std::alloc::{AllocError, Global};
use std::slice::from_ref;

// ---- the weights

/// The weights of the bases.
fn weights_of(alloc: Global, bases: &[MarkedSet]) -> Result<Vec<IntVec>, WeightError>
    ensures ok { IfOk result (λ weights. AllZip (λ t v. IsPrintedWeight t.variables t.items v) bases.now weights.items) }
    ensures err { IfErr result (λ e. ((t : MarkedPolynomials) × Contains bases.now t × IsWeightCause t.variables t.items e)
        ⊎ (e ≡ WeightError.Memory)) }
{
    let mut weights = Vec::new(alloc);
    'bases: for basis in bases {
        let next = weight(alloc, basis)?;
        weights.push(next)?;
    }
    Ok(weights)
}

/// The weights of the sets: first each set is checked, then each weight is computed.
fn weighed(alloc: Global, sets: &[MarkedSet]) -> Result<Vec<IntVec>, Refusal>
    ensures ok { IfOk result (λ weights. AllZip IsWeightOfSet sets.now weights.items) }
    ensures err { IfErr result (IsUnweighed sets.now) }
{
    let bases = match reduced_bases(alloc, sets) {
        Ok(bases) => bases,
        Err(error) => return Err(of_check(error)),
    };
    match weights_of(alloc, &bases) {
        Ok(weights) => Ok(weights),
        Err(error) => Err(of_weight_error(error)),
    }
}

// ---- the text

/// Adds the line of the ring if sets are echoed.
fn push_ring(text: &mut Vec<u8>, ring: &Ring, echoed: bool) -> Result<(), AllocError>
    ensures { OnOk result (text.new.items ≡ text.old.items ++ echoed_ring echoed ring.now) }
{
    if echoed {
        Printer::ring(text, ring)?;
    }
    Ok(())
}

/// Adds a weight, after its set if sets are echoed.
fn push_item(
    text: &mut Vec<u8>,
    ring: &Ring,
    set: &MarkedSet,
    weight: &IntVec,
    echoed: bool,
) -> Result<(), AllocError>
    requires { set.now.variables ≡ length ring.now }
    ensures { OnOk result (text.new.items ≡ text.old.items ++ weight_item echoed ring.now (set.now, weight.now)) }
{
    if echoed {
        Printer::basis(text, ring, set)?;
        text.push(b'\n')?;
    }
    Printer::vector(text, weight)?;
    Ok(())
}

/// Adds items, each after a comma on a line of its own.
fn push_later_items(
    text: &mut Vec<u8>,
    ring: &Ring,
    sets: &[MarkedSet],
    weights: &[IntVec],
    echoed: bool,
) -> Result<(), AllocError>
    requires variables { All (λ s. s.variables ≡ length ring.now) sets.now }
    requires same { length weights.now ≡ length sets.now }
    ensures { OnOk result (text.new.items ≡ text.old.items ++ flat_map (later_weight_item echoed ring.now) (zip sets.now weights.now)) }
{
    'items: for i in 0..sets.len() {
        text.extend_from_slice(b"\n,\n")?;
        push_item(text, ring, &sets[i], &weights[i], echoed)?;
    }
    Ok(())
}

/// Adds items, with a comma on a line of its own between them.
fn push_items(
    text: &mut Vec<u8>,
    ring: &Ring,
    sets: &[MarkedSet],
    weights: &[IntVec],
    echoed: bool,
) -> Result<(), AllocError>
    requires variables { All (λ s. s.variables ≡ length ring.now) sets.now }
    requires same { length weights.now ≡ length sets.now }
    ensures { OnOk result (text.new.items ≡ text.old.items ++ weight_items echoed ring.now (zip sets.now weights.now)) }
{
    if let ([first, later @ ..], [weight, others @ ..]) = (sets, weights) {
        push_item(text, ring, first, weight, echoed)?;
        push_later_items(text, ring, later, others, echoed)?;
    }
    Ok(())
}

/// Adds items and a line end; the items of a list are in braces.
fn push_enclosed(
    text: &mut Vec<u8>,
    ring: &Ring,
    sets: &[MarkedSet],
    weights: &[IntVec],
    listed: bool,
    echoed: bool,
) -> Result<(), AllocError>
    requires variables { All (λ s. s.variables ≡ length ring.now) sets.now }
    requires same { length weights.now ≡ length sets.now }
    ensures { OnOk result (text.new.items ≡ text.old.items ++ enclosed listed (weight_items echoed ring.now (zip sets.now weights.now))) }
{
    if listed {
        text.push(b'{')?;
        push_items(text, ring, sets, weights, echoed)?;
        text.extend_from_slice(b"}\n")?;
    } else {
        push_items(text, ring, sets, weights, echoed)?;
        text.push(b'\n')?;
    }
    Ok(())
}

/// The output for the sets.
fn text_of(
    alloc: Global,
    ring: &Ring,
    sets: &[MarkedSet],
    listed: bool,
    echoed: bool,
) -> Result<Vec<u8>, Refusal>
    requires { All (λ s. s.variables ≡ length ring.now) sets.now }
    ensures ok { IfOk result (λ text. IsWeightsText listed echoed ring.now sets.now text.items) }
    ensures err { IfErr result (IsUnweighed sets.now) }
{
    let weights = match weighed(alloc, sets) {
        Ok(weights) => weights,
        Err(refusal) => return Err(refusal),
    };
    let mut text = Vec::new(alloc);
    push_ring(&mut text, ring, echoed)?;
    push_enclosed(&mut text, ring, sets, &weights, listed, echoed)?;
    Ok(text)
}

/// The output for a source with a single set.
fn of_set(alloc: Global, source: &[u8], echoed: bool) -> Result<Vec<u8>, Refused>
    ensures ok { IfOk result (λ text. IsAnswered (weights_command false echoed) (source.now ∷ []) text.items) }
    ensures err { IfErr result (λ e. IsRefusedOn (weights_command false echoed) (source.now ∷ []) e.refusal) }
    ensures told { IfErr result (IsOfSource source.now) }
{
    let read = ring_and_marked(alloc, source)?;
    match text_of(alloc, &read.ring, from_ref(&read.set), false, echoed) {
        Ok(text) => Ok(text),
        Err(refusal) => Err(Refused {
            refusal,
            ring: Some(read.ring),
        }),
    }
}

/// The output for a source with a list of sets.
fn of_list(alloc: Global, source: &[u8], echoed: bool) -> Result<Vec<u8>, Refused>
    ensures ok { IfOk result (λ text. IsAnswered (weights_command true echoed) (source.now ∷ []) text.items) }
    ensures err { IfErr result (λ e. IsRefusedOn (weights_command true echoed) (source.now ∷ []) e.refusal) }
    ensures told { IfErr result (IsOfSource source.now) }
{
    let read = ring_and_marked_sets(alloc, source)?;
    match text_of(alloc, &read.ring, &read.sets, true, echoed) {
        Ok(text) => Ok(text),
        Err(refusal) => Err(Refused {
            refusal,
            ring: Some(read.ring),
        }),
    }
}

/// The weight of the marked set of the source, or with the option `listed` of each set of its list: the sum of the primitive vectors along
/// the extreme rays of the intersection of its cone with the non-negative orthant. Each set is a reduced Gröbner basis for its marking, up
/// to factors of its members and their order. With the option `echoed` the ring comes first, in a line, and each set, as it was read,
/// before its weight.
///
/// # Errors
///
/// - `Syntax`, `TooWide`, `UnknownName`, `TooManyVariables` if and only if the source isn't the text of a ring and of a set, or a list of
///   sets, in it: at the first token after which no such text continues.
/// - `ZeroPolynomial` if all terms of a polynomial cancel: the number of the first set with such a polynomial, and the index of the first
///   one in it.
/// - Then for the first set that isn't such a basis: `Inconsistent` if and only if no positive weight gives its marking; `NotReduced` if
///   and only if some does, and a mark divides a term other than itself; `NotBasis` if and only if no mark does, and the S-polynomial of
///   two members made monic has a nonzero normal form. Each has the first such place.
/// - `Overflow`, `ExponentOverflow`: the operands of a sum of the text, or of an operation of these checks, don't fit.
/// - `ConeOverflow`: a step of the elimination of a marking's system leaves its range; or all sets are such bases, and an operation of
///   finding the rays of a set's cone does.
/// - `WideVector`: all sets are such bases, and this is the first sum of two entries of a set's rays that leaves the range.
/// - `Memory`: memory runs out.
pub fn answer(
    alloc: Global,
    source: &[u8],
    options: WeightVectorOptions,
) -> Result<Vec<u8>, Refused>
    ensures ok { IfOk result (λ text. IsAnswered (weight_vector_command options) (source.now ∷ []) text.items) }
    ensures err { IfErr result (λ e. IsRefusedOn (weight_vector_command options) (source.now ∷ []) e.refusal) }
    ensures told { IfErr result (IsOfSource source.now) }
{
    if options.listed {
        of_list(alloc, source, options.echoed)
    } else {
        of_set(alloc, source, options.echoed)
    }
}
