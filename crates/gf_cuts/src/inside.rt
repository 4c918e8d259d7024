//! Cones that lie inside another one, by their rays.
ghost use Rattle.std.specs.Prelude.{◌≡◌, ◌++◌, List, ℤ, All, Contains, IfOk, IsTrue, map};
ghost use Rattle.gf_rays.specs.Cones.{RowsAndRays, rows_of};
ghost use Rattle.gf_patterns_theory.specs.Cuts.{IsHeldBy};
ghost use Rattle.gf_levels_theory.specs.Generators.{AreOuter};

use crate::sharing::Sharing;
use gf_rays::Rays;
use gf_vec::{IntVec, is_one_of, same_vectors};
use std::alloc::{AllocError, Global};

/// These cones, and then others.
///
/// # Errors
/// Want of memory alone.
pub(crate) fn joined(cones: Vec<Rays>, more: Vec<Rays>) -> Result<Vec<Rays>, AllocError>
    ensures { IfOk result (λ out. out.items ≡ cones.items ++ more.items) }
{
    let mut out = cones;
    for cone in more {
        out.push(cone)?;
    }
    Ok(out)
}

/// Whether each of the vectors is one of the others.
fn are_some(xs: &[IntVec], ys: &[IntVec]) -> bool
    ensures { IsTrue result → ((x : List ℤ) → Contains xs.now x → Contains ys.now x) }
{
    for x in xs {
        if !is_one_of(x, ys) {
            return false;
        }
    }
    true
}

/// Whether the rays and the lineality bases show that the cone `c` lies inside `d`: there is one basis, and the rays of `c` are some of those of `d`.
fn is_inside(c: &Rays, d: &Rays) -> bool
    requires { d.now.ambient ≡ c.now.ambient }
    ensures { IsTrue result → IsHeldBy c.now.ambient (rows_of c.now) (rows_of d.now) }
{
    same_vectors(c.lineality(), d.lineality()) && are_some(c.rays(), d.rays())
}

/// Whether the cone lies inside one of those at these indices, as their rays show.
fn is_inside_some(cone: &Rays, cones: &[Rays], indices: &[usize]) -> bool
    requires { All (λ (d : RowsAndRays). d.ambient ≡ cone.now.ambient) cones.now }
    ensures { IsTrue result → (d : RowsAndRays) × (Contains cones.now d × IsHeldBy cone.now.ambient (rows_of cone.now) (rows_of d)) }
{
    for index in indices {
        let Some(d) = cones.get(*index) else {
            continue;
        };
        if is_inside(cone, d) {
            return true;
        }
    }
    false
}

/// The cones, but for those that lie inside one before them that is kept.
fn outer_once(alloc: Global, n: u32, cones: Vec<Rays>) -> Result<Vec<Rays>, AllocError>
    requires { All (λ (c : RowsAndRays). c.ambient ≡ n) cones.items }
    ensures ambient { IfOk result (λ out. All (λ (c : RowsAndRays). c.ambient ≡ n) out.items) }
    ensures outer { IfOk result (λ out. AreOuter n (map rows_of cones.items) (map rows_of out.items)) }
{
    let mut kept = Vec::new(alloc);
    let mut sharing = Sharing::none(alloc, cones.len())?;
    for cone in cones {
        if !is_inside_some(&cone, &kept, sharing.near(&cone)) {
            sharing.add(kept.len(), &cone)?;
            kept.push(cone)?;
        }
    }
    Ok(kept)
}

/// The cones, but for those that lie inside another one, as their rays show: both have one lineality basis, and the rays of the one are some of those of
/// the other. Of cones that are the same one is kept.
///
/// # Errors
/// Want of memory alone.
pub(crate) fn outer(alloc: Global, n: u32, cones: Vec<Rays>) -> Result<Vec<Rays>, AllocError>
    requires { All (λ (c : RowsAndRays). c.ambient ≡ n) cones.items }
    ensures ambient { IfOk result (λ out. All (λ (c : RowsAndRays). c.ambient ≡ n) out.items) }
    ensures outer { IfOk result (λ out. AreOuter n (map rows_of cones.items) (map rows_of out.items)) }
{
    let mut kept = outer_once(alloc, n, cones)?;
    kept.reverse();
    outer_once(alloc, n, kept)
}
