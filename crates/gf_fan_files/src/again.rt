//! What is written of a fan is read again. But for the last one, the functions here do nothing; their contracts are laws.
ghost use Rattle.std.specs.Prelude.{◌≡◌, ◌<◌, ◌≤◌, All, IfOk, IfErr, length};
ghost use Rattle.gf_gordan.specs.Alternative.{AreRows};
ghost use Rattle.gf_fan.specs.SameCones.{HaveSameCones};
ghost use Rattle.gf_text.specs.declared.TheConstants.{MOST_VARIABLES};
ghost use Rattle.gf_fan_files.specs.ConeText.{most_number};
ghost use Rattle.gf_fan_files.specs.Files.{IsFileOf};
ghost use Rattle.gf_fan_files.specs.FanWords.{fan_text};
ghost use Rattle.gf_fan_files.specs.FansAgain.{IsWritableCone, AreNumbersBelow, IsWritable, file_of, FansAreReadAgain};
ghost use Rattle.gf_fan_files.specs.FanTexts.{listed_cone, listed_cones, parts_of_fan, AreSumsWithin};
ghost use Rattle.gf_fan_files.specs.WrittenFans.{IsAgainLimit, WrittenFansAreSound, WrittenConesAreRead, WrittenFansAreRead};

use crate::error::FanFileError;
use crate::fan::read;
use crate::fan_writer::write;
use crate::limits::rows_are_writable;
use crate::parts::{FanParts, ListedCone};
use gf_fan::{Fan, FanCone};
use gf_vec::IntVec;
use std::alloc::Global;

/// What is written of a fan within the limits of fan files is read again: the ambient dimension, the rays, the basis of the
/// lineality space, and the maximal cones.
pub fn fans_are_read_again()
    ensures { FansAreReadAgain }
{}

/// Vectors in memory are few.
fn vectors_are_few(vectors: &[IntVec])
    ensures { length vectors.now ≤ most_number }
{}

/// Cones in memory are few.
fn cones_are_few(cones: &[ListedCone])
    ensures { length cones.now ≤ most_number }
{}

/// A cone whose numbers are within their limit can be written.
fn cone_is_writable(cone: &ListedCone)
    requires { All (λ k. k ≤ most_number) cone.now.rays }
    ensures { IsWritableCone cone.now }
{
    let _dim = cone.dim;
}

/// Cones of these rays can be written.
fn cones_are_writable(rays: &[IntVec], cones: &[ListedCone])
    requires { AreNumbersBelow (length rays.now) cones.now }
    ensures { All IsWritableCone cones.now }
{
    vectors_are_few(rays);
    'cones: for cone in cones {
        cone_is_writable(cone);
    }
}

/// What is written of a fan is within the limits of fan files, where its ambient dimension is from 1 to `MOST_VARIABLES`, its rows have as
/// many entries, and the numbers in its cones are those of its rays.
pub fn parts_are_writable(parts: &FanParts)
    requires positive { 0 < parts.now.ambient }
    requires dimension { parts.now.ambient ≤ MOST_VARIABLES }
    requires rays { AreRows parts.now.ambient parts.now.rays }
    requires lineality { AreRows parts.now.ambient parts.now.lineality }
    requires orthogonal { AreRows parts.now.ambient parts.now.orthogonal }
    requires interiors { AreRows parts.now.ambient parts.now.interiors }
    requires cones { AreNumbersBelow (length parts.now.rays) parts.now.cones }
    requires maximal { AreNumbersBelow (length parts.now.rays) parts.now.maximal }
    ensures { IsWritable parts.now }
{
    rows_are_writable(parts.ambient, parts.rays);
    rows_are_writable(parts.ambient, parts.lineality);
    rows_are_writable(parts.ambient, parts.orthogonal);
    rows_are_writable(parts.ambient, parts.interiors);
    cones_are_writable(parts.rays, parts.cones);
    cones_are_writable(parts.rays, parts.maximal);
    vectors_are_few(parts.rays);
    vectors_are_few(parts.lineality);
    cones_are_few(parts.cones);
}

/// What is written of a fan is a file whose cones can be built.
pub fn written_fans_are_sound()
    ensures { WrittenFansAreSound }
{}

/// The cones of the file that a fan's text says are its maximal cones.
pub fn written_cones_are_read()
    ensures { WrittenConesAreRead }
{}

/// The text of a fan is read as that fan: refused for memory alone or for an operation that leaves the range, it says a fan that has the
/// same cones, each of them, and is written as the same text.
pub fn written_fans_are_read()
    ensures { WrittenFansAreRead }
{}

/// Numbers of 32 bits are within the limit of ray numbers.
fn numbers_are_within(numbers: &[u32])
    ensures { All (λ k. k ≤ most_number) numbers.now }
{
    'numbers: for number in numbers {
        let _number = *number;
    }
}

/// The dimension and the numbers of a cone of a fan are within their limit.
fn fan_cone_is_writable(cone: &FanCone)
    ensures { IsWritableCone (listed_cone cone.now) }
{
    let _dim = cone.dim;
    numbers_are_within(cone.numbers.as_slice());
}

/// The cones of a fan can be written.
fn fan_cones_are_writable(cones: &[FanCone])
    ensures all { All IsWritableCone (listed_cones cones.now) }
    ensures count { length cones.now ≤ most_number }
{
    'cones: for cone in cones {
        fan_cone_is_writable(cone);
    }
}

/// What is written of a fan is within the limits of fan files, where its ambient dimension is from 1 to `MOST_VARIABLES` and the sums of rays
/// are; and its text says what was written of it.
pub fn fan_is_read_again(fan: &Fan)
    requires positive { 0 < fan.now.ambient }
    requires dimension { fan.now.ambient ≤ MOST_VARIABLES }
    requires sums { AreSumsWithin fan.now }
    ensures writable { IsWritable (parts_of_fan fan.now) }
    ensures file { IsFileOf (fan_text (parts_of_fan fan.now)) (file_of (parts_of_fan fan.now)) }
{
    fans_are_read_again();
    fan_cones_are_writable(fan.cones());
    rows_are_writable(fan.ambient(), fan.rays());
    rows_are_writable(fan.ambient(), fan.lineality());
    rows_are_writable(fan.ambient(), fan.orthogonal());
    vectors_are_few(fan.rays());
    vectors_are_few(fan.lineality());
}

/// The fan that is read of the text of a fan whose ambient dimension is from 1 to `MOST_VARIABLES`: it has the same cones, each of them, and is
/// written as the same text.
///
/// # Errors
/// - `Cone`: an operation that leaves the range, of the test of one of the rays that were written, of finding one of the cones, or of
///   making their fan, as `read` has it;
/// - `Wide`: a sum of entries that leaves the range, as `write` has it, or a product or sum of the test of a row, as `read` has it;
/// - `Memory`.
///
/// There is no other refusal.
pub fn read_again(alloc: Global, fan: &Fan) -> Result<Fan, FanFileError>
    requires positive { 0 < fan.now.ambient }
    requires dimension { fan.now.ambient ≤ MOST_VARIABLES }
    ensures cones { IfOk result (HaveSameCones fan.now) }
    ensures text { IfOk result (λ h. fan_text (parts_of_fan h) ≡ fan_text (parts_of_fan fan.now)) }
    ensures err { IfErr result (IsAgainLimit fan.now) }
{
    written_fans_are_read();
    fan.cones();
    let text = write(alloc, fan)?;
    fan_is_read_again(fan);
    read(alloc, text.as_slice())
}
