//! Marked sets that are read as reduced bases.
ghost use Rattle.std.specs.Prelude.{◌≡◌, ◌⊎◌, IfOk, IfErr};
ghost use Rattle.std.specs.List.{AllZip};
ghost use Rattle.gf_reduced.specs.Refusals.{IsReducedRefusal};
ghost use Rattle.gfan_common.specs.ReducedSets.{IsReducedAsRead, IsRefusedFrom};

use gf_poly::MarkedSet;
use gf_reduced::{CheckError, require_reduced};
use std::alloc::Global;

/// The reduced Gröbner basis that a marked set is, up to factors of its members and their order: its members are made monic and arranged.
/// `place` is the number by which an error names the set.
///
/// # Errors
///
/// In this order:
///
/// - `Overflow`: the quotient of a coefficient by the marked one leaves its range.
/// - `Inconsistent` if and only if no positive weight gives the marking, with multipliers that show it; `Cone` if a step of the elimination
///   of the marking's system leaves its range.
/// - `NotReduced` if and only if a mark divides a term other than itself: the first polynomial with such a term, and its first such term.
/// - `NotBasis` if and only if the S-polynomial of two of the monic members has a nonzero normal form: the first such pair, with the normal
///   form. `Overflow` or `Exponent` if the operands of an operation of these S-polynomials and their reductions don't fit.
///
/// `Memory`, at any time: memory runs out, or the number of the set or of its members is `2^32` or more.
pub fn reduced_basis(alloc: Global, set: &MarkedSet, place: usize) -> Result<MarkedSet, CheckError>
    ensures ok { IfOk result (IsReducedAsRead set.now) }
    ensures err { IfErr result (IsReducedRefusal place set.now) }
{
    if place > u32::MAX as usize || set.items().len() > u32::MAX as usize {
        return Err(CheckError::Memory);
    }
    require_reduced(alloc, set, place as u32, &[])
}

/// The reduced Gröbner bases that marked sets are, up to factors of their members and their order, in the order of the sets; the members of
/// each are made monic and arranged.
///
/// # Errors
///
/// Those of `reduced_basis` for the first set that has one, with its number, counted from 0. `Memory`: memory runs out.
pub fn reduced_bases(alloc: Global, sets: &[MarkedSet]) -> Result<Vec<MarkedSet>, CheckError>
    ensures ok { IfOk result (λ bases. AllZip IsReducedAsRead sets.now bases.items) }
    ensures err { IfErr result (λ e. IsRefusedFrom 0 sets.now e ⊎ (e ≡ CheckError.Memory)) }
{
    let mut bases = Vec::new(alloc);
    'sets: for i in 0..sets.len() {
        let basis = reduced_basis(alloc, &sets[i], i)?;
        bases.push(basis)?;
    }
    Ok(bases)
}
