//! The walk to the basis for a weight, ties broken by lex.

ghost use Rattle.std.specs.Prelude.{◌≡◌, length, IfSome};
ghost use Rattle.gf_groebner_walk.specs.Steps.{IsSomeBasis, IsWalkEnd};

use crate::steps::{Step, next_step};
use gf_poly::MarkedSet;
use gf_vec::IntVec;
use std::alloc::Global;

/// The basis at which a walk towards a weight arrives from a basis of the same ideal, in at most `pairs` steps, each of which may settle
/// `pairs` pairs; none if a step fails, or if the walk needs more steps.
pub(crate) fn walked(
    alloc: Global,
    start: MarkedSet,
    weight: &IntVec,
    pairs: u64,
) -> Option<MarkedSet>
    requires basis { IsSomeBasis start }
    requires width { length weight.now ≡ start.variables }
    ensures { IfSome result (IsWalkEnd weight.now start) }
{
    let mut here = start;
    'steps: for _step in 0..pairs {
        let told = next_step(alloc, &here, weight, pairs)?;
        match told {
            Step::Arrived => return Some(here),
            Step::Across(next) => here = next,
        }
    }
    None
}
