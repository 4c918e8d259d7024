//! The text of the fan of cones.
ghost use Rattle.std.specs.Prelude.{◌≡◌, ◌≤◌, IfOk, IfErr};
ghost use Rattle.gf_text.specs.declared.TheConstants.{MOST_VARIABLES};
ghost use Rattle.gf_fan.specs.Pairs.{AreOfAmbient};
ghost use Rattle.gf_fan_files.specs.FanTexts.{IsFanText};
ghost use Rattle.gfan_fans.specs.FanTexts.{of_fan, of_writing, IsNoFanText};

use gf_fan::{Fan, FanError};
use gf_fan_files::write;
use gf_front::Refusal;
use gf_rays::Rays;
use gf_vec::VecError;
use std::alloc::Global;

/// The text, as `write` of `gf_fan_files` has it, of the fan of all faces of these cones of vectors of `n` entries. There are fewer than
/// `2^32` cones.
///
/// # Errors
/// Those of `Fan::from_cones`. `WideVector`: the rays of a maximal cone are added from the left, and this is the first sum of two entries
/// that leaves the range.
pub(crate) fn fan_text(alloc: Global, n: u32, cones: Vec<Rays>) -> Result<Vec<u8>, Refusal>
    requires ambient { n ≤ MOST_VARIABLES }
    requires cones { AreOfAmbient n cones.items }
    ensures ok { IfOk result (λ text. IsFanText n cones.items text.items) }
    ensures err { IfErr result (IsNoFanText n cones.items) }
{
    if cones.len() > u32::MAX as usize {
        return Err(Refusal::Memory);
    }
    let fan = match Fan::from_cones(alloc, n, cones) {
        Ok(fan) => fan,
        Err(error) => return Err(of_fan(error)),
    };
    match write(alloc, &fan) {
        Ok(text) => Ok(text),
        Err(error) => Err(of_writing(error)),
    }
}

/// The refusal of a fan of cones, as one of the run.
fn of_fan(error: FanError) -> Refusal
    ensures { result ≡ of_fan error }
{
    match error {
        FanError::Cone(o) => Refusal::ConeOverflow {
            row: o.row,
            op: o.op,
            left: o.left,
            right: o.right,
        },
        FanError::NotAFan { first, second } => Refusal::NotAFan { first, second },
        FanError::Memory => Refusal::Memory,
    }
}

/// The refusal of writing a fan, as one of the run.
pub(crate) fn of_writing(error: VecError) -> Refusal
    ensures { result ≡ of_writing error }
{
    match error {
        VecError::Wide(wide) => Refusal::WideVector(wide),
        VecError::Memory => Refusal::Memory,
    }
}
