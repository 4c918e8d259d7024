//! The output of `_doesidealcontain` for an input.
ghost use Rattle.std.specs.Prelude.{◌↔◌, IfOk, IfErr, IsTrue, [], ◌∷◌};
ghost use Rattle.gf_poly.specs.Marking.{polys};
ghost use Rattle.gf_ideal_theory.specs.Membership.{IsMember};
ghost use Rattle.gf_ideal_theory.specs.Bases.{IsBasis};
ghost use Rattle.gf_division.specs.Steps.{IsReductionRefusal};
ghost use Rattle.gf_reduced.specs.Markings.{IsMarkedGroebnerBasis};
ghost use Rattle.gf_text.specs.Sets.{IsIn, AreIn};
ghost use Rattle.gf_frame.specs.Commands.{IsAnswered, IsRefusedOn};
ghost use Rattle.gfan_common.specs.Forms.{polynomial_of, generators_of};
ghost use Rattle.gfan_sets.specs.Containment.{AllAreMembers, IsContainmentRefusal, containment_command};
ghost use Rattle.gfan_common.specs.CheckedSets.{IsSomeReductionRefusal};
ghost use Rattle.gfan_common.specs.Refused.{IsOfSource};

use gf_items::ring_marked_and_set;
use gf_poly::{MarkedSet, PolyError};
use gf_reduced::{CheckError, contains, require_basis};
use gf_text::Written;
use gfan_common::printing::verdict;
use gfan_common::refused::Refused;
use std::alloc::Global;

/// Whether the ideal of the basis, whose marked coefficients are 1, contains the polynomial.
fn contains_one(alloc: Global, basis: &MarkedSet, read: &Written) -> Result<bool, PolyError>
    requires basis { IsBasis basis.now.variables (polys basis.now.items) basis.now.items }
    requires variables { IsIn basis.now.variables read.now }
    ensures ok { IfOk result (λ r. IsTrue r ↔ IsMember basis.now.variables (polys basis.now.items) (polynomial_of read.now)) }
    ensures cause { IfErr result (IsReductionRefusal basis.now.items (polynomial_of read.now)) }
{
    match read {
        Written::Zero => Ok(true),
        Written::Nonzero(marked) => contains(alloc, basis, marked.poly()),
    }
}

/// Whether the ideal of the basis contains each of the polynomials.
fn contains_all(alloc: Global, basis: &MarkedSet, set: &[Written]) -> Result<bool, PolyError>
    requires basis { IsBasis basis.now.variables (polys basis.now.items) basis.now.items }
    requires variables { AreIn basis.now.variables set.now }
    ensures ok { IfOk result (λ r. IsTrue r ↔ AllAreMembers basis.now.variables (polys basis.now.items) (generators_of set.now)) }
    ensures cause { IfErr result (IsSomeReductionRefusal basis.now.items (generators_of set.now)) }
{
    'polynomials: for i in 0..set.len() {
        let is_member = contains_one(alloc, basis, &set[i])?;
        if !is_member {
            return Ok(false);
        }
    }
    Ok(true)
}

/// Whether the ideal of a marked set contains each of the polynomials, if the set is a Gröbner basis for its marking. It has fewer than
/// `2^32` members.
fn decided(alloc: Global, marked: &MarkedSet, set: &[Written]) -> Result<bool, CheckError>
    requires { AreIn marked.now.variables set.now }
    ensures basis { IfOk result (λ _. IsMarkedGroebnerBasis marked.now.variables marked.now.items) }
    ensures ok { IfOk result (λ r. IsTrue r ↔ AllAreMembers marked.now.variables (polys marked.now.items) (generators_of set.now)) }
    ensures err { IfErr result (IsContainmentRefusal marked.now (generators_of set.now)) }
{
    if marked.items().len() > u32::MAX as usize {
        return Err(CheckError::Memory);
    }
    let basis = require_basis(alloc, marked, 0)?;
    let are = contains_all(alloc, &basis, set)?;
    Ok(are)
}

/// `1` and a line end if the ideal that the marked set of the source generates contains each polynomial of the set that follows it; `0` and
/// a line end if it doesn't. A polynomial is in the ideal if its product with some nonzero integer is a sum of multiples of the members by
/// polynomials with integer coefficients. The marked set is a Gröbner basis for its marking; it need not be reduced.
///
/// # Errors
///
/// - `Syntax`, `TooWide`, `UnknownName`, `TooManyVariables` if and only if the source isn't the text of a ring and of two sets in it: at
///   the first token after which no such text continues.
/// - `ZeroPolynomial` if all terms of a polynomial of the marked set cancel: the index of the first one.
/// - `Inconsistent` if and only if no positive weight gives the marking, with multipliers that show it.
/// - `NotBasis` if and only if some positive weight does, and the S-polynomial of two members made monic has a nonzero normal form: the
///   first such pair, with the normal form.
/// - `Overflow`, `ExponentOverflow`: the operands of a sum of the text, or of an operation of the checks or of the reduction of a
///   polynomial, don't fit.
/// - `ConeOverflow`: a step of the elimination of the marking's system leaves its range.
/// - `Memory`: memory runs out.
pub fn answer(alloc: Global, source: &[u8]) -> Result<Vec<u8>, Refused>
    ensures ok { IfOk result (λ text. IsAnswered containment_command (source.now ∷ []) text.items) }
    ensures err { IfErr result (λ e. IsRefusedOn containment_command (source.now ∷ []) e.refusal) }
    ensures told { IfErr result (IsOfSource source.now) }
{
    let read = ring_marked_and_set(alloc, source)?;
    let are = match decided(alloc, &read.marked, &read.set) {
        Ok(are) => are,
        Err(error) => return Err(Refused::of_check(error, read.ring)),
    };
    let text = verdict(alloc, are)?;
    Ok(text)
}
