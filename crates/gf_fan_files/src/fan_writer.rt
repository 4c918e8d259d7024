//! The text of a fan.
ghost use Rattle.std.specs.Prelude.{◌≡◌, ◌<◌, length, All, IfOk, IfErr, slice_index_or};
ghost use Rattle.gf_vec.specs.Vector.{zeros};
ghost use Rattle.gf_vec.specs.Steps.{IsFirstWide, IfWide};
ghost use Rattle.gf_duality_theory.specs.Faces.{sum_of};
ghost use Rattle.gf_rays.specs.Sums.{adding_steps};
ghost use Rattle.gf_fan.specs.MaximalCones.{no_cone, maximal_of};
ghost use Rattle.gf_fan_files.specs.FanWords.{fan_text};
ghost use Rattle.gf_fan_files.specs.FanTexts.{listed_cone, listed_cones, listed_at, interiors_of, parts_of_fan, IsWritingStep, AreSumsWithin};

use crate::cones::RayNumbers;
use crate::limits::rows_are_writable;
use crate::parts::{FanParts, ListedCone};
use crate::writer::write_parts;
use gf_fan::{Fan, FanCone};
use gf_vec::{IntVec, VecError};
use std::alloc::{AllocError, Global};

/// The numbers of the rays of a cone.
fn ray_numbers(alloc: Global, numbers: &[u32]) -> Result<RayNumbers, AllocError>
    ensures { IfOk result (λ out. out ≡ numbers.now) }
{
    let mut out = Vec::with_capacity(alloc, numbers.len())?;
    'numbers: for number in numbers {
        out.push(u64::from(*number))?;
    }
    Ok(RayNumbers::of(out))
}

/// A cone with its dimension and the numbers of its rays.
fn listed_cone(alloc: Global, cone: &FanCone) -> Result<ListedCone, AllocError>
    ensures { IfOk result (λ out. out ≡ listed_cone cone.now) }
{
    let rays = ray_numbers(alloc, cone.numbers.as_slice())?;
    Ok(ListedCone {
        dim: cone.dim,
        rays,
    })
}

/// All cones.
fn listed_cones(alloc: Global, cones: &[FanCone]) -> Result<Vec<ListedCone>, AllocError>
    ensures { IfOk result (λ out. out.items ≡ listed_cones cones.now) }
{
    let mut out = Vec::with_capacity(alloc, cones.len())?;
    'cones: for cone in cones {
        let listed = listed_cone(alloc, cone)?;
        out.push(listed)?;
    }
    Ok(out)
}

/// The cones at these places.
fn listed_at(
    alloc: Global,
    cones: &[FanCone],
    places: &[u32],
) -> Result<Vec<ListedCone>, AllocError>
    requires { All (λ i. i < length cones.now) places.now }
    ensures { IfOk result (λ out. out.items ≡ listed_at cones.now places.now) }
{
    let mut out = Vec::with_capacity(alloc, places.len())?;
    'places: for place in places {
        let listed = listed_cone(alloc, &cones[*place as usize])?;
        out.push(listed)?;
    }
    Ok(out)
}

/// The sum of the rays of the maximal cone with a number, counted from 0.
fn interior_of(fan: &Fan, i: usize) -> Result<IntVec, VecError>
    requires { i < length fan.now.maximal }
    ensures ok { let cone = (slice_index_or (maximal_of fan.now) i no_cone).cone in IfOk result (λ v. v ≡ sum_of cone.ambient cone.rays) }
    ensures wide { let cone = (slice_index_or (maximal_of fan.now) i no_cone).cone in
        IfErr result (IfWide (λ w. IsFirstWide w (adding_steps (zeros cone.ambient) cone.rays))) }
{
    fan.maximal_cone(i).interior()
}

/// The sums of the rays of the maximal cones.
///
/// # Errors
/// The first sum of two entries that leaves the range; want of memory.
fn interiors(alloc: Global, fan: &Fan) -> Result<Vec<IntVec>, VecError>
    ensures ok { IfOk result (λ out. out.items ≡ interiors_of fan.now.ambient fan.now.rays (listed_at fan.now.cones fan.now.maximal)) }
    ensures wide { IfErr result (IfWide (IsWritingStep fan.now)) }
{
    fan.cones();
    let places = fan.maximal();
    let mut out = Vec::with_capacity(alloc, places.len())?;
    'places: for i in 0..places.len() {
        let sum = interior_of(fan, i)?;
        out.push(sum)?;
    }
    Ok(out)
}

/// The text of a fan, as `write_parts` has it, of all its cones, of the maximal ones, and of the sums of the rays of these.
///
/// # Errors
/// - `Wide`: the first sum of two entries that leaves the range, where the rays of a maximal cone are added up from the left;
/// - `Memory`.
pub fn write(alloc: Global, fan: &Fan) -> Result<Vec<u8>, VecError>
    ensures ok { IfOk result (λ text. text.items ≡ fan_text (parts_of_fan fan.now)) }
    ensures within { IfOk result (λ _. AreSumsWithin fan.now) }
    ensures wide { IfErr result (IfWide (IsWritingStep fan.now)) }
{
    let cones = listed_cones(alloc, fan.cones())?;
    let maximal = listed_at(alloc, fan.cones(), fan.maximal())?;
    let interiors = interiors(alloc, fan)?;
    rows_are_writable(fan.ambient(), &interiors);
    let parts = FanParts {
        ambient: fan.ambient(),
        rays: fan.rays(),
        lineality: fan.lineality(),
        orthogonal: fan.orthogonal(),
        cones: &cones,
        maximal: &maximal,
        interiors: &interiors,
    };
    let text = write_parts(alloc, &parts)?;
    Ok(text)
}
