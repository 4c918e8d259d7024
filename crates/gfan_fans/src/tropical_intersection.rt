//! The output of `_tropicalintersection` for an input.
ghost use Rattle.std.specs.Prelude.{◌∷◌, [], IfOk, IfErr};
ghost use Rattle.gf_frame.specs.Commands.{IsAnswered, IsRefusedOn};
ghost use Rattle.gfan_common.specs.Refused.{IsOfSource};
ghost use Rattle.gfan_fans.specs.BasisTest.{intersection_command};

use crate::tropical::TropicalFan;
use crate::{basis_test, tropical};
use gf_front::TropicalIntersectionOptions;
use gfan_common::refused::Refused;
use std::alloc::Global;
use std::thread::Threads;

/// The fan of the tropical prevariety of the source's set, as a fan file; with the option `basis_test` whether the set is a tropical basis
/// of its ideal: `1`, or `0` and in the next line a vector of the prevariety that shows that it isn't.
///
/// # Errors
///
/// Those of `tropical::answer` for the intersection; with `basis_test` those of `basis_test::answer`.
pub fn answer<R: Threads + Sync>(
    rt: &R,
    alloc: Global,
    source: &[u8],
    options: TropicalIntersectionOptions,
) -> Result<Vec<u8>, Refused>
    ensures ok { IfOk result (λ text. IsAnswered (intersection_command options) (source.now ∷ []) text.items) }
    ensures err { IfErr result (λ e. IsRefusedOn (intersection_command options) (source.now ∷ []) e.refusal) }
    ensures told { IfErr result (IsOfSource source.now) }
{
    if options.basis_test {
        basis_test::answer(rt, alloc, source)
    } else {
        tropical::answer(rt, alloc, source, TropicalFan::Intersection)
    }
}
