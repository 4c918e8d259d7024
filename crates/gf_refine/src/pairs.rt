//! The pairs of maximal cones of two fans whose meets are worked out: where a cone lies inside one of the other fan, what it shares with any
//! other one lies inside what it shares with that.
ghost use Rattle.std.specs.Prelude.{◌≡◌, ◌*◌, ◌≤◌, ◌<◌, ◌↔◌, None, IfOk, IfSome, IsTrue, length, slice_index_or};
ghost use Rattle.gf_rays.specs.Cones.{rows_of};
ghost use Rattle.gf_fan.specs.MaximalCones.{no_cone, maximal_of};
ghost use Rattle.gf_refine.specs.Inside.{IsHolder, AreHolders, IsMet, AreMetPairs};

use crate::inside::lies_inside;
use gf_fan::Fan;
use gf_rays::Rays;
use std::alloc::{AllocError, Global};

/// The maximal cone with a number, counted from 0.
pub(crate) fn maximal_cone(fan: &Fan, i: usize) -> &Rays
    requires { i < length fan.now.maximal }
    ensures rows { rows_of result.now ≡ rows_of (slice_index_or (maximal_of fan.now) i no_cone).cone }
    ensures ambient { result.now.ambient ≡ fan.now.ambient }
{
    fan.cones();
    fan.maximal_cone(i)
}

/// The number of the first maximal cone of a fan that holds a cone and that none holds itself, as `held` tells.
fn holder(cone: &Rays, fan: &Fan, held: &[Option<usize>]) -> Option<usize>
    requires ambient { cone.now.ambient ≡ fan.now.ambient }
    requires held { length held.now ≡ length fan.now.maximal }
    ensures { IfSome result (IsHolder fan.now.ambient (rows_of cone.now) (maximal_of fan.now) held.now) }
{
    for j in 0..fan.maximal().len() {
        if held[j].is_none() && lies_inside(cone, maximal_cone(fan, j)) {
            return Some(j);
        }
    }
    None
}

/// For each maximal cone of the one fan the first one of the other that holds it and that none holds itself, or none.
fn holders(
    alloc: Global,
    fan: &Fan,
    other: &Fan,
    held: &[Option<usize>],
) -> Result<Vec<Option<usize>>, AllocError>
    requires ambient { fan.now.ambient ≡ other.now.ambient }
    requires held { length held.now ≡ length other.now.maximal }
    ensures { IfOk result (λ out. AreHolders other.now.ambient (maximal_of fan.now) (maximal_of other.now) held.now out.items) }
{
    let mut out = Vec::with_capacity(alloc, fan.maximal().len())?;
    for i in 0..fan.maximal().len() {
        out.push(holder(maximal_cone(fan, i), other, held))?;
    }
    Ok(out)
}

/// So many times none.
fn no_holders(alloc: Global, count: usize) -> Result<Vec<Option<usize>>, AllocError>
    ensures long { IfOk result (λ out. length out.items ≡ count) }
{
    let mut out = Vec::with_capacity(alloc, count)?;
    for _i in 0..count {
        out.push(None)?;
    }
    Ok(out)
}

/// Whether the pair of these two cones is met.
fn is_met(held: &[Option<usize>], others: &[Option<usize>], i: usize, j: usize) -> bool
    requires first { i < length held.now }
    requires second { j < length others.now }
    ensures { IsTrue result ↔ IsMet held.now others.now i j }
{
    match held[i] {
        Some(o) => o == j,
        None => match others[j] {
            Some(o) => o == i,
            None => true,
        },
    }
}

/// The numbers of the pairs whose meets are worked out, of `count` in all; the pairs of the first cone come first.
pub(crate) fn met_pairs(
    alloc: Global,
    first: &Fan,
    second: &Fan,
    count: usize,
) -> Result<Vec<usize>, AllocError>
    requires ambient { second.now.ambient ≡ first.now.ambient }
    requires count { count ≡ length first.now.maximal * length second.now.maximal }
    ensures pairs { IfOk result (λ out. AreMetPairs first.now.ambient (maximal_of first.now) (maximal_of second.now) out.items) }
    ensures long { IfOk result (λ out. length out.items ≤ count) }
{
    let width = second.maximal().len();
    let none = no_holders(alloc, width)?;
    let held = holders(alloc, first, second, &none)?;
    let others = holders(alloc, second, first, &held)?;
    let mut out = Vec::new(alloc);
    for k in 0..count {
        if is_met(&held, &others, k / width, k % width) {
            out.push(k)?;
        }
    }
    Ok(out)
}
