//! What a fan file says: its sections, and what is asked of them before its cones are built.
ghost use Rattle.std.specs.Prelude.{◌≡◌, ◌⊎◌, ◌<◌, ◌≤◌, ◌&&◌, is_none, ℕ, List, [], length, Some, All, IfOk, IfSome, IfErr, MatchBool, MatchOption};
ghost use Rattle.std.specs.Prelude.{MatchResult};
ghost use Rattle.gf_gordan.specs.Alternative.{AreRows};
ghost use Rattle.gf_gordan.specs.Steps.{Failed};
ghost use Rattle.gf_duality_theory.specs.Rays.{Generated};
ghost use Rattle.gf_text.specs.declared.TheConstants.{MOST_VARIABLES};
ghost use Rattle.gf_fan_files.specs.declared.error.FanFileError.TheVariants.{Memory};
ghost use Rattle.gf_fan_files.specs.Contents.{Says};
ghost use Rattle.gf_fan_files.specs.FanText.{is_second, IsKnownVersion};
ghost use Rattle.gf_fan_files.specs.Files.{IsFileOf, IsOutside, AreBelow, interior_rows, IsSoundFile, IsRayTestStep, AreTestsWithin, IsBehind, IsLengthFault};
ghost use Rattle.gf_fan_files.specs.Files.{IsRayFault, IsNumberFault, IsFormFault, IsFileRefused, IsOfLimits};

use crate::cones::{ConeList, RayNumbers};
use crate::error::FanFileError;
use crate::rows::Vectors;
use crate::sections::{Contents, contents_of, is_second};
use gf_gordan::{Answer, GordanError, strict};
use gf_text::Section;
use gf_vec::IntVec;
use std::alloc::Global;

/// What a fan file says.
#[derive(Drop)]
pub struct FanFile {
    /// The ambient dimension.
    pub ambient: u32,
    /// The rays.
    pub rays: Vectors,
    /// Vectors that span the lineality space.
    pub lineality: Vectors,
    /// Cones as lists of numbers of rays.
    pub cones: ConeList,
    /// In a file of version 2 a row for each of these cones, and none in others.
    pub interiors: Option<Vectors>,
}

/// The number of a version that is neither 1 nor 2.
fn unknown(version: Option<u64>) -> Option<u64>
    ensures { MatchOption result (IsKnownVersion version) (λ n. (version ≡ Some n) × ((n ≡ 1 → ⊥) × (n ≡ 2 → ⊥))) }
{
    match version {
        None => None,
        Some(1) => None,
        Some(2) => None,
        Some(number) => Some(number),
    }
}

/// Whether rows for the maximal cones are wanting.
fn lacks_interiors(version: Option<u64>, interiors: &Option<Vectors>) -> bool
    ensures { result ≡ (is_second version && is_none interiors.now) }
{
    is_second(version) && interiors.is_none()
}

/// The file that these contents of a text make, where its version is known and all of its sections are there.
fn whole(contents: Contents) -> Result<FanFile, FanFileError>
    requires { IfSome contents.ambient (λ n. n ≤ MOST_VARIABLES) }
    ensures file { IfOk result (λ f. (source : List ℕ) → Says source contents → IsFileOf source f) }
    ensures missing { IfErr result (λ e. (source : List ℕ) → Says source contents → IsFileRefused source e) }
{
    let Contents {
        version,
        ambient,
        rays,
        lineality,
        cones,
        interiors,
    } = contents;
    if let Some(number) = unknown(version) {
        return Err(FanFileError::BadVersion { number });
    }
    let Some(ambient) = ambient else {
        return Err(missing(Section::AmbientDim));
    };
    let Some(rays) = rays else {
        return Err(missing(Section::Rays));
    };
    let Some(lineality) = lineality else {
        return Err(missing(Section::LinealitySpace));
    };
    let Some(cones) = cones else {
        return Err(missing(Section::MaximalCones));
    };
    if lacks_interiors(version, &interiors) {
        return Err(missing(Section::MaximalInteriors));
    }
    Ok(FanFile {
        ambient: ambient as u32,
        rays,
        lineality,
        cones,
        interiors,
    })
}

/// That a section isn't there.
fn missing(section: Section) -> FanFileError
    ensures { result ≡ FanFileError.Missing section }
{
    FanFileError::Missing { section }
}

/// Whether each row has `n` entries.
///
/// # Errors
/// The length of the first row that hasn't.
fn check_lengths(n: u32, rows: &[IntVec]) -> Result<(), FanFileError>
    ensures { MatchResult result (λ _. AreRows n rows.now) (IsLengthFault n rows.now) }
{
    for row in rows {
        let length = row.as_slice().len();
        if length != n as usize {
            return Err(FanFileError::Dimensions {
                left: length as u64,
                right: u64::from(n),
            });
        }
    }
    Ok(())
}

/// Whether a vector lies in the span of others: no vector that is orthogonal to them is positive on it.
///
/// # Errors
/// An operation that leaves the range; want of memory.
fn is_spanned(alloc: Global, n: u32, vector: &IntVec, span: &[IntVec]) -> Result<bool, GordanError>
    requires vector { length vector.now ≡ n }
    requires span { AreRows n span.now }
    ensures ok { IfOk result (λ b. MatchBool b (Generated n [] span.now vector.now) (IsOutside n span.now vector.now)) }
    ensures err { IfErr result (Failed (IsRayTestStep n span.now vector.now)) }
{
    match strict(alloc, n, std::slice::from_ref(vector), span)? {
        Answer::Point(_) => Ok(false),
        Answer::Farkas { .. } => Ok(true),
    }
}

/// Whether the rays lie outside the lineality space.
///
/// # Errors
/// The number of the first that lies in it; an operation that leaves the range; want of memory.
fn check_rays(
    alloc: Global,
    n: u32,
    rays: &[IntVec],
    lineality: &[IntVec],
) -> Result<(), FanFileError>
    requires rays { AreRows n rays.now }
    requires lineality { AreRows n lineality.now }
    ensures { MatchResult result (λ _. All (IsOutside n lineality.now) rays.now) (λ e. IsRayFault n lineality.now rays.now e ⊎ (e ≡ Memory)) }
{
    for (place, ray) in rays.iter().enumerate() {
        match is_spanned(alloc, n, ray, lineality) {
            Ok(false) => {}
            Ok(true) => {
                return Err(FanFileError::BadRay {
                    number: place as u64,
                });
            }
            Err(GordanError::Cone(step)) => return Err(FanFileError::Cone(step)),
            Err(GordanError::Memory) => return Err(FanFileError::Memory),
        }
    }
    Ok(())
}

/// The first of these numbers that isn't below `count`.
fn first_above(count: usize, numbers: &[u64]) -> Option<u64>
    ensures { MatchOption result (AreBelow count numbers.now) (λ k. (count ≤ k) × ((i : ℕ) × IsBehind (λ j. j < count) numbers.now i k)) }
{
    for k in numbers {
        if *k >= count as u64 {
            return Some(*k);
        }
    }
    None
}

/// Whether the numbers in cones are those of rays.
///
/// # Errors
/// The first number that isn't.
fn check_numbers(count: usize, cones: &[RayNumbers]) -> Result<(), FanFileError>
    ensures { MatchResult result (λ _. All (AreBelow count) cones.now) (IsNumberFault count cones.now) }
{
    for cone in cones {
        if let Some(number) = first_above(count, cone.as_slice()) {
            return Err(FanFileError::BadRay { number });
        }
    }
    Ok(())
}

/// Whether each row for the maximal cones has `n` entries.
///
/// # Errors
/// The length of the first row that hasn't.
fn check_interiors(n: u32, interiors: &Option<Vectors>) -> Result<(), FanFileError>
    ensures { MatchResult result (λ _. AreRows n (interior_rows interiors.now)) (IsLengthFault n (interior_rows interiors.now)) }
{
    match interiors {
        None => Ok(()),
        Some(rows) => check_lengths(n, rows.as_slice()),
    }
}

/// Whether the cones of a file can be built.
///
/// # Errors
/// Those of its form; want of memory.
fn check(alloc: Global, file: &FanFile) -> Result<(), FanFileError>
    ensures { MatchResult result (λ _. IsSoundFile file.now) (λ e. IsFormFault file.now e ⊎ (e ≡ Memory)) }
{
    let n = file.ambient;
    if n == 0 {
        return Err(FanFileError::Dimensions { left: 0, right: 1 });
    }
    let rays = file.rays.as_slice();
    let lineality = file.lineality.as_slice();
    check_lengths(n, rays)?;
    check_lengths(n, lineality)?;
    check_interiors(n, &file.interiors)?;
    check_rays(alloc, n, rays, lineality)?;
    check_numbers(rays.len(), file.cones.as_slice())
}

/// What a fan file says, before its cones are built.
///
/// A `#` begins a comment to the end of its line. A line with the name of a section alone, a capital letter and then capital
/// letters, digits and `_`, begins it. `AMBIENT_DIM` holds a number, `RAYS` and `LINEALITY_SPACE` a row on each line,
/// `MAXIMAL_CONES` a list of numbers between braces on each line. Where the first section is `FILE_VERSION`, it holds the version, a number: 1
/// says nothing, and in the version 2 `MAXIMAL_INTERIORS` holds a row on each line. What other sections hold isn't looked at, nor what
/// stands before the first one.
///
/// # Errors
/// In this order, and the first that holds:
/// - `Syntax`, `TooWide` and `TooManyVariables` at the first place of the text where nothing that is read goes on to a
///   file's section, where a section's name comes a second time, or where the ambient dimension passes `MOST_VARIABLES`;
/// - `BadVersion`: the version is neither 1 nor 2;
/// - `Missing`: the first of the four sections that isn't there, and then `MAXIMAL_INTERIORS` in the version 2;
/// - `Dimensions`: the ambient dimension is 0; the first row of the rays, then of the lineality space, and then of `MAXIMAL_INTERIORS`, that
///   hasn't as many entries;
/// - `BadRay`: the first ray that lies in the lineality space; `Cone` names an operation of the test of a ray that leaves the
///   range, where the rays before it lie outside;
/// - `BadRay`: the first number in a cone that isn't below the number of rays.
///
/// `Memory` may come at any time.
pub fn read_file(alloc: Global, source: &[u8]) -> Result<FanFile, FanFileError>
    ensures file { IfOk result (IsFileOf source.now) }
    ensures sound { IfOk result IsSoundFile }
    ensures err { IfErr result (IsFileRefused source.now) }
    ensures complete { (f : FanFile) → IsFileOf source.now f → IsSoundFile f → AreTestsWithin f → MatchResult result (λ g. g ≡ f) (λ e. e ≡ Memory) }
    ensures always { (e : FanFileError) → IsFileRefused source.now e → (IsOfLimits e → ⊥) → MatchResult result (λ _. ⊥) (λ d. (d ≡ e) ⊎ IsOfLimits d) }
{
    let file = whole(contents_of(alloc, source)?)?;
    check(alloc, &file)?;
    Ok(file)
}
