//! The output of `_migratefan` for an input.
ghost use Rattle.std.specs.Prelude.{◌∷◌, [], None, IfOk, IfErr};
ghost use Rattle.gf_frame.specs.Commands.{IsAnswered, IsRefusedOn};
ghost use Rattle.gfan_common.specs.Refused.{IsNamedBy, IsOfSource};
ghost use Rattle.gfan_fans.specs.MigrateFan.{migrate_fan_command};

use crate::common_refinement::of_fan_file;
use gf_fan_files::migrate;
use gf_front::Refusal;
use gfan_common::refused::Refused;
use std::alloc::Global;

/// The output for a text.
fn text_of(alloc: Global, source: &[u8]) -> Result<Vec<u8>, Refusal>
    ensures ok { IfOk result (λ text. IsAnswered migrate_fan_command (source.now ∷ []) text.items) }
    ensures err { IfErr result (IsRefusedOn migrate_fan_command (source.now ∷ [])) }
    ensures told { IfErr result (IsNamedBy None) }
{
    match migrate(alloc, source) {
        Ok(text) => Ok(text),
        Err(error) => Err(of_fan_file(error)),
    }
}

/// The fan that the source, a fan file, describes, in the version 2. The fan that is read from this text has the same cones, and migrating
/// it again gives the same text.
///
/// # Errors
///
/// - Those of `read` of `gf_fan_files`. `Syntax`, `TooWide`, `TooManyVariables`, `BadVersion`, `Missing` and `Dimensions` if and only if the
///   source has such a fault.
/// - `WideVector` also if a sum of the rays of a maximal cone leaves the range.
/// - `Memory`: memory runs out.
pub fn answer(alloc: Global, source: &[u8]) -> Result<Vec<u8>, Refused>
    ensures ok { IfOk result (λ text. IsAnswered migrate_fan_command (source.now ∷ []) text.items) }
    ensures err { IfErr result (λ e. IsRefusedOn migrate_fan_command (source.now ∷ []) e.refusal) }
    ensures told { IfErr result (IsOfSource source.now) }
{
    let text = text_of(alloc, source)?;
    Ok(text)
}
