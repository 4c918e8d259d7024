//! The output of `_topolyhedralfan` for an input.
ghost use Rattle.std.specs.Prelude.{◌≡◌, ◌⊎◌, ◌≤◌, ℕ, [], All, IfOk, IfErr, OnOk, ◌∷◌};
ghost use Rattle.std.specs.List.{AllZip};
ghost use Rattle.gf_gordan.specs.Steps.{Failed};
ghost use Rattle.gf_text.specs.declared.TheConstants.{MOST_VARIABLES};
ghost use Rattle.gf_frame.specs.Commands.{IsAnswered, IsRefusedOn};
ghost use Rattle.gfan_common.specs.Refused.{IsOfSource};
ghost use Rattle.gfan_common.specs.ReducedSets.{AreReducedAsRead, IsRefusedFrom};
ghost use Rattle.gfan_fans.specs.ToPolyhedralFan.{IsConeOfSet, IsConeStepOfSet, IsConeStepOfSets, IsFanOfSetsText, IsNoFanOfSets, to_polyhedral_fan_command};

use crate::fan_text::fan_text;
use gf_cone::Cone;
use gf_front::{Refusal, ToPolyhedralFanOptions};
use gf_gordan::GordanError;
use gf_items::{RingAndMarkedSets, ring_and_marked_sets};
use gf_poly::MarkedSet;
use gf_rays::Rays;
use gf_reduced::CheckError;
use gfan_common::reduced_sets::reduced_bases;
use gfan_common::refused::{Refused, of_check, of_gordan};
use std::alloc::Global;

/// The closed cone of a marked set.
fn cone_of(alloc: Global, set: &MarkedSet, cut: bool) -> Result<Rays, GordanError>
    ensures ok { IfOk result (IsConeOfSet cut set.now) }
    ensures err { IfErr result (Failed (IsConeStepOfSet cut set.now)) }
{
    let cone = Cone::of(alloc, set)?;
    let vectors = cone.vectors()?;
    let inequalities = if cut {
        vectors.as_slice()
    } else {
        cone.normals()
    };
    Rays::of(alloc, cone.variables(), inequalities, &[])
}

/// The closed cones of marked sets.
fn cones_of(alloc: Global, sets: &[MarkedSet], cut: bool) -> Result<Vec<Rays>, GordanError>
    ensures ok { IfOk result (λ cones. AllZip (IsConeOfSet cut) sets.now cones.items) }
    ensures err { IfErr result (Failed (IsConeStepOfSets cut sets.now)) }
{
    let mut cones = Vec::new(alloc);
    'sets: for set in sets {
        let cone = cone_of(alloc, set, cut)?;
        cones.push(cone)?;
    }
    Ok(cones)
}

/// Refuses marked sets of which one isn't a reduced basis. The bases aren't kept.
fn require_bases(alloc: Global, sets: &[MarkedSet]) -> Result<(), CheckError>
    ensures ok { OnOk result (AreReducedAsRead sets.now) }
    ensures err { IfErr result (λ e. IsRefusedFrom 0 sets.now e ⊎ (e ≡ CheckError.Memory)) }
{
    match reduced_bases(alloc, sets) {
        Ok(_bases) => Ok(()),
        Err(error) => Err(error),
    }
}

/// The closed cones of marked sets, each of which is a reduced basis: first all sets are checked. The cones are those of the sets as they
/// stand, and the sets aren't kept.
fn cones_of_bases(alloc: Global, sets: Vec<MarkedSet>, cut: bool) -> Result<Vec<Rays>, Refusal>
    ensures reduced { IfOk result (λ _. AreReducedAsRead sets.items) }
    ensures cones { IfOk result (λ cones. AllZip (IsConeOfSet cut) sets.items cones.items) }
    ensures err { (n : ℕ) → IfErr result (IsNoFanOfSets cut n sets.items) }
{
    match require_bases(alloc, sets.as_slice()) {
        Ok(()) => {}
        Err(error) => return Err(of_check(error)),
    }
    match cones_of(alloc, sets.as_slice(), cut) {
        Ok(cones) => Ok(cones),
        Err(error) => Err(of_gordan(error)),
    }
}

/// The text of the fan of the cones of marked sets in `n` variables, each of which is a reduced basis.
fn fan_of_sets(alloc: Global, n: u32, sets: Vec<MarkedSet>, cut: bool) -> Result<Vec<u8>, Refusal>
    requires few { n ≤ MOST_VARIABLES }
    requires variables { All (λ s. s.variables ≡ n) sets.items }
    ensures ok { IfOk result (λ text. IsFanOfSetsText cut n sets.items text.items) }
    ensures err { IfErr result (IsNoFanOfSets cut n sets.items) }
{
    let cones = cones_of_bases(alloc, sets, cut)?;
    let text = fan_text(alloc, n, cones)?;
    Ok(text)
}

/// The fan of all faces of the closed cones of the marked sets of the source, as a fan file. Each set is a reduced Gröbner basis for its
/// marking, up to factors of its members and their order. On its cone none of its normals is negative; with the option `restrict` no entry
/// is negative either.
///
/// # Errors
///
/// - `Syntax`, `TooWide`, `UnknownName`, `TooManyVariables` if and only if the source isn't the text of a ring and of a list of sets in it:
///   at the first token after which no such text continues.
/// - `ZeroPolynomial` if all terms of a polynomial cancel: the number of the first set with such a polynomial, and the index of the first
///   one in it.
/// - Then for the first set that isn't such a basis: `Inconsistent` if and only if no positive weight gives its marking; `NotReduced` if
///   and only if some does, and a mark divides a term other than itself; `NotBasis` if and only if no mark does, and the S-polynomial of
///   two members made monic has a nonzero normal form. Each has the first such place.
/// - `NotAFan` if and only if all sets are such bases, and the intersection of two of their cones isn't a face of both: the first such
///   pair.
/// - `Overflow`, `ExponentOverflow`: the operands of a sum of the text, or of an operation of the checks, don't fit.
/// - `ConeOverflow`: a step of the elimination of a marking's system leaves its range; or all sets are such bases, and an operation of
///   finding the rays of a cone, of the intersection of two, or of a face does.
/// - `WideVector`: a sum of the rays of a maximal cone leaves the range.
/// - `Memory`: memory runs out.
pub fn answer(
    alloc: Global,
    source: &[u8],
    options: ToPolyhedralFanOptions,
) -> Result<Vec<u8>, Refused>
    ensures ok { IfOk result (λ text. IsAnswered (to_polyhedral_fan_command options) (source.now ∷ []) text.items) }
    ensures err { IfErr result (λ e. IsRefusedOn (to_polyhedral_fan_command options) (source.now ∷ []) e.refusal) }
    ensures told { IfErr result (IsOfSource source.now) }
{
    let RingAndMarkedSets { ring, sets } = ring_and_marked_sets(alloc, source)?;
    match fan_of_sets(alloc, ring.len(), sets, options.restrict) {
        Ok(text) => Ok(text),
        Err(refusal) => Err(Refused {
            refusal,
            ring: Some(ring),
        }),
    }
}
