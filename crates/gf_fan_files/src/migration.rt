//! Fan files in the version 2.
ghost use Rattle.std.specs.Prelude.{IfOk, IfErr};
ghost use Rattle.gf_fan_files.specs.Migration.{IsMigratedWhole, MigratedFilesAreWhole, IsMigrationRefusal};

use crate::again::fan_is_read_again;
use crate::error::FanFileError;
use crate::fan::read;
use crate::fan_writer::write;
use std::alloc::Global;

/// What a fan file was migrated to is of the version 2 and says the same cones, and to migrate it once more changes nothing.
pub fn migrated_files_are_whole()
    ensures { MigratedFilesAreWhole }
{}

/// The text of the fan that a fan file says, in the version 2.
///
/// # Errors
/// Those of `read`; and `Wide`: the first sum of two entries that leaves the range, where the rays of a maximal cone are added up from
/// the left.
pub fn migrate(alloc: Global, source: &[u8]) -> Result<Vec<u8>, FanFileError>
    ensures ok { IfOk result (λ text. IsMigratedWhole source.now text.items) }
    ensures err { IfErr result (IsMigrationRefusal source.now) }
{
    migrated_files_are_whole();
    let fan = read(alloc, source)?;
    let text = write(alloc, &fan)?;
    fan_is_read_again(&fan);
    Ok(text)
}
