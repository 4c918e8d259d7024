//! Whether the initial ideal at a vector has a polynomial with a single term.
ghost use Rattle.std.specs.Prelude.{◌≡◌, ◌<◌, IfOk, IfErr, MatchOption, length};
ghost use Rattle.gf_order.specs.Weights.{AreBounded};
ghost use Rattle.gf_initial_monomials.specs.Outcomes.{TellsMonomial};
ghost use Rattle.gf_initial_monomials.specs.Refusals.{IsFirstWideEntry, IsVectorRefusal};

use crate::error::InitialError;
use crate::forms::forms_at;
use crate::seen::Seen;
use gf_poly::{MarkedSet, ROOM};
use gf_saturate::has_monomial;
use gf_vec::IntVec;
use std::alloc::Global;

/// The index of the first entry that is greater than `2^63` in absolute value, if there is one.
fn first_past(v: &IntVec) -> Option<usize>
    ensures { MatchOption result (AreBounded v.now) (IsFirstWideEntry v.now) }
{
    v.as_slice().iter().position(|x| x.unsigned_abs() > 1 << 63)
}

/// Whether the ideal of the initial forms at a vector of the closed cone of a basis has a polynomial with a single term. Initial forms that
/// are known to have none are not tested again.
///
/// # Errors
/// `Entry`: the first entry that is greater than `2^63` in absolute value. `Saturation`: a refusal of the saturation of the ideal.
/// `Memory`: memory runs out.
pub(crate) fn told_at(
    alloc: Global,
    basis: &MarkedSet,
    v: &IntVec,
    pairs: u64,
    seen: &mut Seen,
) -> Result<bool, InitialError>
    requires room { basis.now.variables < ROOM }
    requires long { length v.now ≡ basis.now.variables }
    requires seen { seen.old ≡ basis.now.variables }
    ensures seen { seen.new ≡ seen.old }
    ensures ok { IfOk result (TellsMonomial basis.now.variables basis.now.items v.now) }
    ensures err { IfErr result (IsVectorRefusal basis.now.variables basis.now.items v.now pairs) }
{
    if let Some(index) = first_past(v) {
        return Err(InitialError::Entry {
            index,
            value: v.as_slice()[index],
        });
    }
    let forms = forms_at(alloc, basis, v)?;
    if seen.has(&forms) {
        return Ok(false);
    }
    match has_monomial(alloc, basis.variables(), &forms, pairs) {
        Ok(true) => Ok(true),
        Ok(false) => {
            seen.keep(forms)?;
            Ok(false)
        }
        Err(refusal) => Err(InitialError::Saturation(refusal)),
    }
}
