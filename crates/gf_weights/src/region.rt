//! The region of weights that rows cut out of all positive vectors.
ghost use Rattle.std.specs.Prelude.{◌≡◌, ◌<ℤ◌, ◌^◌, ◌++◌, ℤ, [], List, pos, All, IfOk, IfErr, IfSome, IsNone};
ghost use Rattle.gf_gordan.specs.Alternative.{AreRows, IsFarkas, IsSolvable};
ghost use Rattle.gf_facets_theory.specs.Systems.{units};
ghost use Rattle.gf_weights.specs.Roots.{IsSumOfRays, IsFirstPast, IsSystemRefusal, IsRaySumRefusal, IsRegionOf, IsRegionRefusal, IsRegionWithinLimits};
ghost use Rattle.gf_weights.specs.declared.region.RegionError.TheVariants.{Memory};

use crate::error::WeightError;
use gf_cone::{Region, with_copies, with_units};
use gf_gordan::{Answer, ConeOverflow, strict};
use gf_rays::Rays;
use gf_vec::{IntVec, WideVector};
use std::alloc::{AllocError, Global};

/// The greatest entry that a root may have.
const GREATEST: i128 = 9223372036854775807;

/// Why rows cut out no region of weights with a root.
#[derive(Drop)]
pub enum RegionError {
    /// No positive vector is positive on each row. The multipliers, first of the rows and then of the unit vectors, show it: none is
    /// negative, not all are zero, and the combination is the zero vector.
    Empty { multipliers: IntVec },
    /// The first entry of the root that is greater than `2^63 - 1`, and its index, counted from 0.
    WideRoot { index: u32, value: i128 },
    /// An operation of the system, or of finding the rays, leaves its range.
    Cone(ConeOverflow),
    /// The sum of an entry of a partial sum of rays and one of the next ray leaves the range.
    Wide(WideVector),
    /// Memory runs out.
    Memory,
}

impl From<AllocError> for RegionError {
    ghost from_gives = { λ _ e. e ≡ Memory };

    fn from(_: AllocError) -> RegionError {
        RegionError::Memory
    }
}

impl From<WeightError> for RegionError {
    ghost use Rattle.gf_weights.specs.Roots.{region_of_weight};

    ghost from_gives = { λ w e. e ≡ region_of_weight w };

    fn from(error: WeightError) -> RegionError {
        match error {
            WeightError::Cone(o) => RegionError::Cone(o),
            WeightError::Wide(wide) => RegionError::Wide(wide),
            WeightError::Memory => RegionError::Memory,
        }
    }
}

/// The rows of the closed region: copies of the given ones, and then the unit vectors.
///
/// # Errors
/// Only when memory runs out.
fn closed_rows(alloc: Global, n: u32, rows: &[IntVec]) -> Result<Vec<IntVec>, AllocError>
    ensures { IfOk result (λ all. all.items ≡ rows.now ++ units n n) }
{
    let copies = with_copies(Vec::with_capacity(alloc, rows.len())?, rows)?;
    with_units(alloc, copies, n as usize)
}

/// Multipliers of the rows, which show that no vector is positive on each of them; none if some vector is.
///
/// # Errors
/// `Cone`: a step of the system of these rows leaves its range. `Memory`: memory runs out.
fn multipliers_of(alloc: Global, n: u32, all: &[IntVec]) -> Result<Option<IntVec>, WeightError>
    requires { AreRows n all.now }
    ensures some { IfOk result (λ o. IfSome o (λ ms. IsFarkas n all.now [] ms [])) }
    ensures none { IfOk result (λ o. IsNone o → IsSolvable n all.now []) }
    ensures err { IfErr result (IsSystemRefusal n all.now) }
{
    let answer = strict(alloc, n, all, &[])?;
    match answer {
        Answer::Point(_) => Ok(None),
        Answer::Farkas {
            rows: multipliers,
            equations: _none,
        } => Ok(Some(multipliers)),
    }
}

/// The sum of the primitive vectors along the extreme rays of a closed region, whose rows are the given ones, the unit vectors last.
///
/// # Errors
/// `Cone`: an operation of finding the rays leaves its range. `Wide`: the first sum that leaves the range. `Memory`: memory runs out.
fn sum_of_rays(alloc: Global, n: u32, all: &[IntVec]) -> Result<IntVec, WeightError>
    requires wide { AreRows n all.now }
    requires closed { (rows : List (List ℤ)) × (all.now ≡ rows ++ units n n) }
    ensures value { IfOk result (IsSumOfRays n all.now) }
    ensures err { IfErr result (IsRaySumRefusal n all.now) }
{
    let none = Vec::new(alloc);
    let rays = Rays::of(alloc, n, all, none.as_slice())?;
    let sum = rays.interior()?;
    Ok(sum)
}

/// The index of the first entry that is greater than `2^63 - 1`.
fn first_past(xs: &[i128]) -> Option<usize>
    ensures some { IfSome result (IsFirstPast xs.now) }
    ensures none { IsNone result → All (λ x. x <ℤ pos (2 ^ 63)) xs.now }
{
    'entries: for i in 0..xs.len() {
        if xs[i] > GREATEST {
            return Some(i);
        }
    }
    None
}

/// The region that the rows cut out, if no operation leaves its limits.
fn worked_out(alloc: Global, n: u32, rows: &[IntVec]) -> Result<Region, RegionError>
    requires { AreRows n rows.now }
    ensures value { IfOk result (IsRegionOf n rows.now) }
    ensures err { IfErr result (IsRegionRefusal n rows.now) }
{
    let all = closed_rows(alloc, n, rows)?;
    let refuted = multipliers_of(alloc, n, &all)?;
    if let Some(multipliers) = refuted {
        return Err(RegionError::Empty { multipliers });
    }
    let root = sum_of_rays(alloc, n, &all)?;
    if let Some(index) = first_past(root.as_slice()) {
        return Err(RegionError::WideRoot {
            index: index as u32,
            value: root.as_slice()[index],
        });
    }
    let region = Region::new(alloc, n, rows, root)?;
    Ok(region)
}

/// The region of the positive vectors of `n` entries on which each row is positive; each row has `n` entries. Its root is the sum of the
/// primitive vectors along the extreme rays of its closure; without rows it is (1, .., 1).
///
/// # Errors
///
/// - `Empty` if and only if there is no such vector, unless a step of the system leaves its range. It has multipliers of the rows and then
///   of the unit vectors that show it: none is negative, not all are zero, the combination is the zero vector, and their content is 1
///   (Gordan's alternative).
/// - `Cone`: a step of the system of the rows and the unit vectors, or of their double description, leaves the range from `-(2^127 - 1)` to
///   `2^127 - 1`.
/// - `Wide`: the region isn't empty, its rays are added in ascending order, and this is the first sum of an entry of a partial sum and one
///   of the next ray that leaves that range.
/// - `WideRoot`: the region isn't empty, and this is the first entry of its root that is greater than `2^63 - 1`.
/// - `Memory`: memory runs out.
pub fn region_of(alloc: Global, n: u32, rows: &[IntVec]) -> Result<Region, RegionError>
    requires { AreRows n rows.now }
    ensures value { IfOk result (IsRegionOf n rows.now) }
    ensures err { IfErr result (IsRegionRefusal n rows.now) }
    ensures complete { IsRegionWithinLimits n rows.now → IfErr result (λ e. e ≡ Memory) }
{
    worked_out(alloc, n, rows)
}
