//! The output of `_fancommonrefinement` for the texts of its two files.
ghost use Rattle.std.specs.Prelude.{◌≡◌, None, IfOk, IfErr};
ghost use Rattle.gfan_common.specs.Refused.{IsNamedBy, IsUnnamed};
ghost use Rattle.gfan_fans.specs.CommonRefinement.{IsRefinementText, IsRefinementRefused, of_fan_file, of_refine};

use crate::fan_text::of_writing;
use gf_fan_files::{FanFileError, read, write};
use gf_front::Refusal;
use gf_refine::{RefineError, common};
use gfan_common::refused::Refused;
use std::alloc::Global;
use std::thread::Threads;

/// The refusal of a fan file, as one of the run.
pub(crate) fn of_fan_file(error: FanFileError) -> Refusal
    ensures { result ≡ of_fan_file error }
{
    match error {
        FanFileError::Syntax(s) => Refusal::Syntax(s),
        FanFileError::TooWide { at } => Refusal::TooWide { at },
        FanFileError::TooManyVariables { count } => Refusal::TooManyVariables { count },
        FanFileError::Cone(o) => Refusal::ConeOverflow {
            row: o.row,
            op: o.op,
            left: o.left,
            right: o.right,
        },
        FanFileError::NotAFan { first, second } => Refusal::NotAFan { first, second },
        FanFileError::Missing { section } => Refusal::Missing { section },
        FanFileError::BadRay { number } => Refusal::BadRay { number },
        FanFileError::Dimensions { left, right } => Refusal::Dimensions { left, right },
        FanFileError::BadVersion { number } => Refusal::BadVersion { number },
        FanFileError::BadCertificate { cone } => Refusal::BadCertificate { cone },
        FanFileError::Wide(wide) => Refusal::WideVector(wide),
        FanFileError::Memory => Refusal::Memory,
    }
}

/// The refusal of a refinement, as one of the run.
fn of_refine(error: RefineError) -> Refusal
    ensures { result ≡ of_refine error }
{
    match error {
        RefineError::Cone(o) => Refusal::ConeOverflow {
            row: o.row,
            op: o.op,
            left: o.left,
            right: o.right,
        },
        RefineError::Dimensions { left, right } => Refusal::Dimensions { left, right },
        RefineError::Memory => Refusal::Memory,
    }
}

/// The output for two texts.
fn text_of<R: Threads + Sync>(rt: &R, alloc: Global, a: &[u8], b: &[u8]) -> Result<Vec<u8>, Refusal>
    ensures ok { IfOk result (λ text. IsRefinementText a.now b.now text.items) }
    ensures err { IfErr result (IsRefinementRefused a.now b.now) }
    ensures told { IfErr result (IsNamedBy None) }
{
    let first = match read(alloc, a) {
        Ok(fan) => fan,
        Err(error) => return Err(of_fan_file(error)),
    };
    let second = match read(alloc, b) {
        Ok(fan) => fan,
        Err(error) => return Err(of_fan_file(error)),
    };
    let fan = match common(rt, alloc, &first, &second) {
        Ok(fan) => fan,
        Err(error) => return Err(of_refine(error)),
    };
    match write(alloc, &fan) {
        Ok(text) => Ok(text),
        Err(error) => Err(of_writing(error)),
    }
}

/// The text of the common refinement of two fans, the fan of the intersections of a cone of the first fan and one of the second. The first
/// text is checked before the second.
///
/// # Errors
///
/// - Those of `read` of `gf_fan_files`, for the first text and then for the second.
/// - `Dimensions` if and only if both texts describe fans, of vectors of different lengths.
/// - `ConeOverflow`: an operation of finding the refinement leaves its range.
/// - `WideVector`: the sum of the rays of one of its maximal cones leaves the range.
/// - `Memory`: memory runs out.
pub fn answer<R: Threads + Sync>(
    rt: &R,
    alloc: Global,
    a: &[u8],
    b: &[u8],
) -> Result<Vec<u8>, Refused>
    ensures ok { IfOk result (λ text. IsRefinementText a.now b.now text.items) }
    ensures err { IfErr result (λ e. IsRefinementRefused a.now b.now e.refusal) }
    ensures told { IfErr result IsUnnamed }
{
    let text = text_of(rt, alloc, a, b)?;
    Ok(text)
}
