//! The fan that a fan file says.
ghost use Rattle.std.specs.Prelude.{◌≡◌, ◌⊎◌, ◌≤◌, ◌<◌, ◌^◌, length, IfOk, IfErr, OnOk, MatchResult};
ghost use Rattle.gf_gordan.specs.Alternative.{AreRows};
ghost use Rattle.gf_gordan.specs.Steps.{Failed};
ghost use Rattle.gf_fans_theory.specs.FaceLists.{numbered};
ghost use Rattle.gf_text.specs.declared.TheConstants.{MOST_VARIABLES};
ghost use Rattle.gf_fan_files.specs.declared.error.FanFileError.TheVariants.{Memory};
ghost use Rattle.gf_fan_files.specs.Files.{IsFileOf, AreBelow, IsSoundFile, IsOfLimits};
ghost use Rattle.gf_fan_files.specs.Certificates.{AreCertified};
ghost use Rattle.gf_fan_files.specs.FilesFans.{IsGeneratedCone, IsConeOfFile, AreConesOfFile, IsFanOfFile, IsFanOfText, IsGeneratingStep, IsConesStep};
ghost use Rattle.gf_fan_files.specs.FilesFans.{IsFileWithinLimits, IsCertifiedFile, AreFileConesMeeting, IsFanFault, IsFanFileRefusal};

use crate::certificates::check_certificates;
use crate::cones::RayNumbers;
use crate::duals::duals_of_duals;
use crate::error::FanFileError;
use crate::file::{FanFile, read_file};
use gf_fan::Fan;
use gf_gordan::GordanError;
use gf_rays::Rays;
use gf_vec::IntVec;
use std::alloc::{AllocError, Global};

/// The cone that rays and lineality vectors generate: the dual cone of their dual cone.
///
/// # Errors
/// An operation that leaves the range; want of memory.
fn generated_cone(
    alloc: Global,
    n: u32,
    rays: &[IntVec],
    lineality: &[IntVec],
) -> Result<Rays, GordanError>
    requires rays { AreRows n rays.now }
    requires lineality { AreRows n lineality.now }
    ensures ok { IfOk result (IsGeneratedCone n rays.now lineality.now) }
    ensures err { IfErr result (Failed (IsGeneratingStep n rays.now lineality.now)) }
{
    duals_of_duals();
    let dual = Rays::of(alloc, n, rays, lineality)?;
    let cone = Rays::of(alloc, n, dual.rays(), dual.lineality())?;
    Ok(cone)
}

/// The rays with these numbers.
fn rays_at(alloc: Global, rays: &[IntVec], numbers: &[u64]) -> Result<Vec<IntVec>, AllocError>
    requires { AreBelow (length rays.now) numbers.now }
    ensures { IfOk result (λ out. out.items ≡ numbered rays.now numbers.now) }
{
    let mut out = Vec::with_capacity(alloc, numbers.len())?;
    'numbers: for number in numbers {
        out.push(rays[*number as usize].copy()?)?;
    }
    Ok(out)
}

/// The cone of these numbers of rays of a file.
fn cone_of(alloc: Global, file: &FanFile, cone: &RayNumbers) -> Result<Rays, GordanError>
    requires sound { IsSoundFile file.now }
    requires below { AreBelow (length file.now.rays) cone.now }
    ensures ok { IfOk result (IsConeOfFile file.now cone.now) }
    ensures err { IfErr result (Failed (IsGeneratingStep file.now.ambient (numbered file.now.rays cone.now) file.now.lineality)) }
{
    let rays = rays_at(alloc, file.rays.as_slice(), cone.as_slice())?;
    generated_cone(alloc, file.ambient, &rays, file.lineality.as_slice())
}

/// The cones of a file.
fn cones_of(alloc: Global, file: &FanFile) -> Result<Vec<Rays>, GordanError>
    requires { IsSoundFile file.now }
    ensures ok { IfOk result (λ cones. AreConesOfFile file.now cones.items) }
    ensures err { IfErr result (Failed (IsConesStep file.now)) }
{
    let mut cones = Vec::new(alloc);
    let lists = file.cones.as_slice();
    'lists: for list in lists {
        let cone = cone_of(alloc, file, list)?;
        cones.push(cone)?;
    }
    Ok(cones)
}

/// Whether the rows of a file lie inside its cones, where it has such. Cones are counted in 32 bits.
fn check_interiors(file: &FanFile, cones: &[Rays]) -> Result<(), FanFileError>
    requires sound { IsSoundFile file.now }
    requires cones { AreConesOfFile file.now cones.now }
    requires count { length cones.now < 2 ^ 32 }
    ensures ok { OnOk result (AreCertified file.now.ambient cones.now file.now.interiors) }
    ensures err { IfErr result (IsFanFault file.now) }
{
    match &file.interiors {
        None => Ok(()),
        Some(rows) => check_certificates(file.ambient, cones, rows.as_slice()),
    }
}

/// The fan of the cones of a file. Cones are counted in 32 bits.
fn fan_of(alloc: Global, file: &FanFile) -> Result<Fan, FanFileError>
    requires sound { IsSoundFile file.now }
    requires ambient { file.now.ambient ≤ MOST_VARIABLES }
    ensures ok { IfOk result (IsFanOfFile file.now) }
    ensures err { IfErr result (λ e. IsFanFault file.now e ⊎ (e ≡ Memory)) }
{
    let cones = cones_of(alloc, file)?;
    if cones.len() > u32::MAX as usize {
        return Err(FanFileError::Memory);
    }
    check_interiors(file, &cones)?;
    let fan = Fan::from_cones(alloc, file.ambient, cones)?;
    Ok(fan)
}

/// The fan that a fan file says: all faces of its cones. A cone is what the rays with its numbers and the lineality space generate;
/// a ray that isn't one of its extreme rays, the lineality space left out, is none of the fan's rays. The fan's lineality space is that of
/// its cones, which may be greater than what the file says.
///
/// # Errors
/// Those of `read_file`; then
/// - `Cone`: an operation that leaves the range, of finding the rays of the dual cone of one of the cones, whose inequalities are
///   its rays and whose equations are the vectors of the lineality space, or of finding those of the cone itself by the rays and the
///   lineality basis of the dual cone; or, behind `BadCertificate`, one of making their fan, as `Fan::from_cones` has it;
/// - `BadCertificate`, in the version 2: the smaller number, where there aren't as many rows of `MAXIMAL_INTERIORS` as cones; else the first
///   row that isn't inside its cone. `Wide` names the first product or sum of the test of a row, with a row of its cone, that leaves the
///   range, where the rows before it are inside their cones;
/// - `NotAFan`: the first pair of cones, by the first place and then by the second, whose meet isn't a face of both.
///
/// `Memory` may come at any time; there is none for `2^32` cones or more.
pub fn read(alloc: Global, source: &[u8]) -> Result<Fan, FanFileError>
    ensures fan { IfOk result (IsFanOfText source.now) }
    ensures ambient { IfOk result (λ h. h.ambient ≤ MOST_VARIABLES) }
    ensures err { IfErr result (IsFanFileRefusal source.now) }
    ensures complete { (f : FanFile) → IsFileOf source.now f → IsSoundFile f → IsFileWithinLimits f → IsCertifiedFile f → AreFileConesMeeting f →
        MatchResult result (IsFanOfFile f) (λ e. e ≡ Memory) }
    ensures always { (e : FanFileError) → IsFanFileRefusal source.now e → (IsOfLimits e → ⊥) → MatchResult result (λ _. ⊥) (λ d. (d ≡ e) ⊎ IsOfLimits d) }
{
    let file = read_file(alloc, source)?;
    fan_of(alloc, &file)
}
