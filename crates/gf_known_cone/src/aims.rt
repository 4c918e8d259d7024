//! Shots that are turned from what they hit, until they hit what they are aimed at.
//!
//! What is found here is a guess; `checks` of `gf_cone` judges it.

use crate::shots::{Hit, first_hit, point_hit, point_of, vector_of};
use gf_cone::Cone;
use gf_cone::narrow::dot_of;
use gf_vec::{IntVec, VecError};
use std::alloc::{AllocError, Global};

/// How many shots there are.
const SHOTS: u32 = 5;

/// A direction less what is along a row: on the way the row's value stays.
///
/// # Errors
/// An operation that leaves the range; want of memory.
fn without(alloc: Global, direction: &[i128], row: &[i128]) -> Result<Option<IntVec>, VecError> {
    if direction.len() != row.len() {
        return Ok(None);
    }
    if let Some(own) = dot_of(row, row)
        && let Some(along) = dot_of(row, direction)
    {
        return point_of(alloc, own, direction, along, row);
    }
    Ok(None)
}

/// A direction with an entry that is 0.
///
/// # Errors
/// Want of memory.
fn without_entry(
    alloc: Global,
    direction: &[i128],
    at: usize,
) -> Result<Option<IntVec>, AllocError> {
    let mut entries = Vec::with_capacity(alloc, direction.len())?;
    for (i, x) in direction.iter().enumerate() {
        entries.push(if i == at { 0 } else { *x })?;
    }
    Ok(vector_of(entries))
}

/// A direction turned, so that on the way the value of the vector at an index stays.
///
/// # Errors
/// An operation that leaves the range; want of memory.
fn turned(
    alloc: Global,
    cone: &Cone,
    direction: &[i128],
    index: usize,
) -> Result<Option<IntVec>, VecError> {
    let normals = cone.normals();
    if let Some(normal) = normals.get(index) {
        return without(alloc, direction, normal.as_slice());
    }
    let rows = cone.rows();
    let behind = index.saturating_sub(normals.len());
    if let Some(row) = rows.get(behind) {
        return without(alloc, direction, row.as_slice());
    }
    let turned = without_entry(alloc, direction, behind.saturating_sub(rows.len()))?;
    Ok(turned)
}

/// The index that is to be gone round, where a shot doesn't hit that at `index` alone.
fn in_the_way(hit: &Hit, index: usize) -> Option<usize> {
    if hit.index != index {
        return Some(hit.index);
    }
    hit.tied
}

/// The point of one of a few shots that hits the normal at an index first, and alone: the first is against the normal, and each other one is turned
/// from what the one before hit.
///
/// # Errors
/// An operation that leaves the range; want of memory.
pub(crate) fn aimed(
    alloc: Global,
    cone: &Cone,
    values: &[i64],
    inner: &[i128],
    index: usize,
) -> Result<Option<IntVec>, VecError> {
    let normals = cone.normals();
    if index >= normals.len() {
        return Ok(None);
    }
    let mut direction = normals[index].copy()?;
    for _ in 0..SHOTS {
        let along = direction.as_slice();
        if along.len() != cone.variables() as usize {
            return Ok(None);
        }
        let Some(hit) = first_hit(cone, values, along) else {
            return Ok(None);
        };
        let next = match in_the_way(&hit, index) {
            Some(other) => turned(alloc, cone, along, other)?,
            None => return point_hit(alloc, &hit, inner, along),
        };
        match next {
            Some(turned) => direction = turned,
            None => return Ok(None),
        }
    }
    Ok(None)
}
