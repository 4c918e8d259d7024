//! The output of `_groebnercone` for an input.
ghost use Rattle.std.specs.Prelude.{◌≡◌, ◌≤◌, true, false, IfOk, IfErr, [], ◌∷◌};
ghost use Rattle.gf_cone.specs.Cones.{all_rows};
ghost use Rattle.gf_gordan.specs.Alternative.{AreRows};
ghost use Rattle.gf_text.specs.declared.TheConstants.{MOST_VARIABLES};
ghost use Rattle.gf_frame.specs.Commands.{IsAnswered, IsRefusedOn, IsAnswerFor, IsUnanswered};
ghost use Rattle.gfan_fans.specs.GroebnerCone.{IsBasisConeText, IsBasisConeCause, cone_command, groebner_cone_command};
ghost use Rattle.gfan_common.specs.Refused.{IsNamedBy, IsOfSource};
ghost use Rattle.gfan_fans.specs.ToldCones.{cut_of};

use crate::told_cone::{restricted, told};
use gf_cone::Cone;
use gf_front::{GroebnerConeOptions, Refusal};
use gf_items::{RingAndMarked, dimension_and_lists, ring_and_marked};
use gf_poly::MarkedSet;
use gf_reduced::require_reduced;
use gf_vec::IntVec;
use gfan_common::checks::{check_each, check_space};
use gfan_common::refused::{Refused, of_check};
use std::alloc::Global;

/// The rows of a cone that its description has: its normals, followed by the unit vectors if it is intersected with the non-negative
/// orthant.
fn rows_told<'a>(cone: &'a Cone, vectors: &'a [IntVec], cut: bool) -> &'a [IntVec]
    requires value { vectors.now ≡ all_rows cone.now }
    requires widths { AreRows cone.now.variables vectors.now }
    ensures rows { result.now ≡ cut_of cut cone.now }
    ensures widths { AreRows cone.now.variables result.now }
{
    if cut { vectors } else { cone.normals() }
}

/// The description of the cone of a marked set, if it is the reduced Gröbner basis for its marking. It has fewer than `2^32` members.
fn basis_cone(
    alloc: Global,
    n: u32,
    marked: &MarkedSet,
    options: GroebnerConeOptions,
) -> Result<Vec<u8>, Refusal>
    requires few { n ≤ MOST_VARIABLES }
    requires variables { marked.now.variables ≡ n }
    ensures ok { IfOk result (λ text. IsBasisConeText options marked.now text.items) }
    ensures err { IfErr result (IsBasisConeCause options marked.now) }
{
    if marked.items().len() > u32::MAX as usize {
        return Err(Refusal::Memory);
    }
    // Its normals are those of the set as it stands.
    let _basis = match require_reduced(alloc, marked, 0, &[]) {
        Ok(basis) => basis,
        Err(error) => return Err(of_check(error)),
    };
    let cone = Cone::of(alloc, marked)?;
    let vectors = cone.vectors()?;
    told(
        alloc,
        n,
        rows_told(&cone, vectors.as_slice(), options.restricted),
        &[],
        options,
    )
}

/// The description of the cone of inequalities and equations in `n` variables, each with an entry for each variable.
fn vector_cone(
    alloc: Global,
    n: u32,
    inequalities: Vec<IntVec>,
    equations: &[IntVec],
    options: GroebnerConeOptions,
) -> Result<Vec<u8>, Refusal>
    requires few { n ≤ MOST_VARIABLES }
    ensures ok { IfOk result (λ text. IsAnswerFor (cone_command true options) (n, (inequalities.items, equations.now)) text.items) }
    ensures err { IfErr result (IsUnanswered (cone_command true options) (n, (inequalities.items, equations.now))) }
    ensures told { IfErr result (IsNamedBy None) }
{
    check_space(n)?;
    check_each(n, inequalities.as_slice())?;
    check_each(n, equations)?;
    let rows = restricted(alloc, n, inequalities, options.restricted)?;
    told(alloc, n, rows.as_slice(), equations, options)
}

/// The output for a source with a marked set.
fn of_basis(alloc: Global, source: &[u8], options: GroebnerConeOptions) -> Result<Vec<u8>, Refused>
    ensures ok { IfOk result (λ text. IsAnswered (cone_command false options) (source.now ∷ []) text.items) }
    ensures err { IfErr result (λ e. IsRefusedOn (cone_command false options) (source.now ∷ []) e.refusal) }
    ensures told { IfErr result (IsOfSource source.now) }
{
    let RingAndMarked { ring, set } = ring_and_marked(alloc, source)?;
    match basis_cone(alloc, ring.len(), &set, options) {
        Ok(text) => Ok(text),
        Err(refusal) => Err(Refused {
            refusal,
            ring: Some(ring),
        }),
    }
}

/// The output for a source with inequalities and equations.
fn of_vectors(
    alloc: Global,
    source: &[u8],
    options: GroebnerConeOptions,
) -> Result<Vec<u8>, Refused>
    ensures ok { IfOk result (λ text. IsAnswered (cone_command true options) (source.now ∷ []) text.items) }
    ensures err { IfErr result (λ e. IsRefusedOn (cone_command true options) (source.now ∷ []) e.refusal) }
    ensures told { IfErr result (IsOfSource source.now) }
{
    let read = dimension_and_lists(alloc, source)?;
    let text = vector_cone(
        alloc,
        read.dimension,
        read.inequalities,
        &read.equations,
        options,
    )?;
    Ok(text)
}

/// The sections, as `cone_text` of `gf_sections` has them, of a cone: of the closed cone of the marked set of the source, on which none of
/// the set's normals is negative; or, with vectors as input, of the cone of the inequalities and equations of the source. The marked set is
/// the reduced Gröbner basis for its marking; marked coefficients may be any nonzero fractions. With the option `restricted` the cone is
/// intersected with the non-negative orthant. With `as_fan` the output is the fan of all faces of the cone in place of the sections.
///
/// # Errors
///
/// - `Syntax`, `TooWide`, `UnknownName`, `TooManyVariables` if and only if the source isn't the text of a ring and of a set in it, or with
///   vectors as input of a dimension and of two lists of vectors: at the first token after which no such text continues.
/// - `ZeroPolynomial` if all terms of a polynomial of the set cancel: the index of the first one.
/// - `Dimensions` if and only if the dimension is 0, or a vector has another number of entries: the first such inequality, or if there is
///   none the first such equation.
/// - `Inconsistent` if and only if no positive weight gives the marking, with multipliers that show it.
/// - `NotReduced` if and only if some positive weight does, and a marked monomial divides a term of another polynomial, or an unmarked term
///   of its own: the first such polynomial, and its first such term.
/// - `NotBasis` if and only if there is no such term, and the S-polynomial of two members made monic has a nonzero normal form: the first
///   such pair, with the normal form.
/// - `Overflow`, `ExponentOverflow`: the operands of a sum of the text, or of an operation of the checks, don't fit.
/// - `ConeOverflow`: an operation of the elimination of the marking's system, of finding the rays of the cone, or of the elimination of a
///   system for a combination leaves its range.
/// - `WideVector`: the first sum of rays of a facet, or with `as_fan` of a maximal cone, that leaves its range.
/// - `Memory`: memory runs out.
pub fn answer(
    alloc: Global,
    source: &[u8],
    options: GroebnerConeOptions,
) -> Result<Vec<u8>, Refused>
    ensures ok { IfOk result (λ text. IsAnswered (groebner_cone_command options) (source.now ∷ []) text.items) }
    ensures err { IfErr result (λ e. IsRefusedOn (groebner_cone_command options) (source.now ∷ []) e.refusal) }
    ensures told { IfErr result (IsOfSource source.now) }
{
    if options.vector_input {
        of_vectors(alloc, source, options)
    } else {
        of_basis(alloc, source, options)
    }
}
