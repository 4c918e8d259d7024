//! The fan of polynomials a level at a time: cones are cut by one polynomial after the other, and their faces are found once.
ghost use Rattle.std.specs.Prelude.{◌≡◌, ◌≢◌, ◌++◌, ◌<◌, ◌^◌, [], ◌∷◌, List, ℤ, All, Contains, IfOk, map};
ghost use Rattle.gf_poly.specs.Polynomial.{HasVariables};
ghost use Rattle.gf_rays.specs.Cones.{rows_of};
ghost use Rattle.gf_fan.specs.Pairs.{AreOfAmbient};
ghost use Rattle.gf_patterns_theory.specs.Patterns.{points, HavePoints};
ghost use Rattle.gf_patterns_theory.specs.PatternFans.{whole_space, IsFanOfPatterns};
ghost use Rattle.gf_patterns_theory.specs.Refinements.{HaveEntries};
ghost use Rattle.gf_tropical.specs.DifferenceRows.{HaveDifferenceRows, IsByDifferences};
ghost use Rattle.gf_tropical.specs.Kinds.{IsAdmittedBy, members_by};
ghost use Rattle.gf_tropical.specs.Making.{IsFanBy};
ghost use Rattle.gf_tropical.specs.Refusals.{NoneIsZero};

use crate::corners::vertex_points;
use crate::kind::Kind;
use gf_cuts::{CutError, level};
use gf_fan::Fan;
use gf_levels_theory::{Members, levels_are_of_patterns};
use gf_poly::Poly;
use gf_rays::Rays;
use gf_refine::fans_are_cone_lists;
use std::alloc::Global;

/// How many exponents of each polynomial a cone of this fan is of.
fn members(kind: Kind) -> Members
    ensures { result ≡ members_by kind }
{
    match kind {
        Kind::Prevariety => Members::Two,
        Kind::Minkowski => Members::One,
    }
}

/// The rows of these cones have `n` entries. Nothing is worked out.
fn have_entries(n: u32, cones: &[Rays])
    requires { AreOfAmbient n cones.now }
    ensures { HaveEntries n (map rows_of cones.now) }
{
    for c in cones {
        c.inequalities();
        c.equations();
    }
}

/// The whole space, alone.
fn whole(alloc: Global, n: u32) -> Result<Vec<Rays>, CutError>
    ensures ambient { IfOk result (λ out. AreOfAmbient n out.items) }
    ensures rows { IfOk result (λ out. map rows_of out.items ≡ whole_space ∷ []) }
{
    let space = Rays::of(alloc, n, &[], &[])?;
    let mut out = Vec::with_capacity(alloc, 1)?;
    out.push(space)?;
    Ok(out)
}

/// The cones for the fan of some polynomials, cut by one more.
fn cut(kind: Kind, alloc: Global, n: u32, f: &Poly, cones: Vec<Rays>) -> Result<Vec<Rays>, CutError>
    requires variables { HasVariables n f.now }
    requires not_zero { f.now ≢ [] }
    requires ambient { AreOfAmbient n cones.items }
    ensures ambient { IfOk result (λ out. AreOfAmbient n out.items) }
    ensures fan { IfOk result (λ out. (As : List (List (List ℤ))) → HavePoints As → IsFanOfPatterns (IsAdmittedBy kind) n As (map rows_of cones.items) →
        IsFanOfPatterns (IsAdmittedBy kind) n (As ++ points f.now ∷ []) (map rows_of out.items)) }
    ensures rows { IfOk result (λ out. (As : List (List (List ℤ))) → Contains As (points f.now) → HaveDifferenceRows As (map rows_of cones.items) →
        HaveDifferenceRows As (map rows_of out.items)) }
{
    levels_are_of_patterns();
    let tops = vertex_points(alloc, n, f.terms())?;
    let out = level(members(kind), alloc, n, &tops, cones)?;
    have_entries(n, &out);
    Ok(out)
}

/// Cones that meet in faces, and whose faces are the fan of polynomials none of which is zero.
fn all_cut(kind: Kind, alloc: Global, n: u32, set: &[Poly]) -> Result<Vec<Rays>, CutError>
    requires variables { All (HasVariables n) set.now }
    requires not_zero { NoneIsZero set.now }
    ensures ambient { IfOk result (λ out. AreOfAmbient n out.items) }
    ensures fan { IfOk result (λ out. IsFanOfPatterns (IsAdmittedBy kind) n (map points set.now) (map rows_of out.items)) }
    ensures rows { IfOk result (λ out. HaveDifferenceRows (map points set.now) (map rows_of out.items)) }
{
    let mut cones = whole(alloc, n)?;
    'cutting: for i in 0..set.len() {
        cones = cut(kind, alloc, n, &set[i], cones)?;
    }
    Ok(cones)
}

/// The fan of polynomials none of which is zero. Each cone is cut by all exponents of a polynomial at once, the first polynomial first, and only
/// parts that lie inside no other one are cut by the next one; the faces are found at the end.
///
/// # Errors
/// `Wide`: an operation that leaves the range. `Memory`: want of memory, which `2^32` cones or more are, too.
pub(crate) fn fan_by_levels(
    kind: Kind,
    alloc: Global,
    n: u32,
    set: &[Poly],
) -> Result<Fan, CutError>
    requires ambient { n < 2 ^ 31 }
    requires variables { All (HasVariables n) set.now }
    requires not_zero { NoneIsZero set.now }
    ensures fan { IfOk result (IsFanBy kind n (map points set.now)) }
    ensures rows { IfOk result (IsByDifferences (map points set.now)) }
{
    fans_are_cone_lists();
    let cones = all_cut(kind, alloc, n, set)?;
    if cones.len() > u32::MAX as usize {
        return Err(CutError::Memory);
    }
    let fan = Fan::of_meeting(alloc, n, cones)?;
    Ok(fan)
}
