//! What generates a cone, taken further by more inequalities.
ghost use Rattle.std.specs.Prelude.{ℕ, ◌≤◌, List, ℤ, IfOk, IfErr, length, take, drop};
ghost use Rattle.gf_gordan.specs.Alternative.{AreRows};
ghost use Rattle.gf_gordan.specs.Steps.{Failed};
ghost use Rattle.gf_rays.specs.Further.{IsFurtherState, IsFurtherRowStep};
ghost use Rattle.gf_rays.specs.States.{IsConeState};

use crate::step::{Generators, step};
use gf_gordan::GordanError;
use gf_vec::IntVec;
use std::alloc::Global;

/// What generates the cone of these rows, from what generates that of the first so many of them.
///
/// # Errors
/// An operation of taking in one of the other rows that leaves the range; want of memory.
pub(crate) fn further(
    alloc: Global,
    from: usize,
    rows: &[IntVec],
    start: Generators,
) -> Result<Generators, GordanError>
    requires index { from ≤ length rows.now }
    requires state { (n : ℕ) × (es : List (List ℤ)) × (AreRows n rows.now × IsConeState n (take from rows.now) es start.lineality.items start.rays.items) }
    ensures ok { IfOk result (λ g. (n : ℕ) (es : List (List ℤ)) → AreRows n rows.now →
        IsConeState n (take from rows.now) es start.lineality.items start.rays.items → IsConeState n rows.now es g.lineality.items g.rays.items) }
    ensures reached { IfOk result (λ g. IsFurtherState from start.lineality.items start.rays.items (drop from rows.now) g.lineality.items g.rays.items) }
    ensures err { IfErr result (Failed (IsFurtherRowStep from start.lineality.items start.rays.items (drop from rows.now))) }
{
    let mut cone = start;
    for k in from..rows.len() {
        cone = step(alloc, k as u64, &rows[..k], &rows[k], cone)?;
    }
    Ok(cone)
}
