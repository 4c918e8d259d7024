//! What is written of a fan.
ghost use Rattle.std.specs.Prelude.{◌≡◌, ◌==◌, IfOk};
ghost use Rattle.std.specs.List.{list_all};
ghost use Rattle.gf_fan_files.specs.FanWords.{greatest_dim, count_of, f_vector, is_simplicial, is_pure};

use crate::cones::RayNumbers;
use gf_vec::IntVec;
use std::alloc::{AllocError, Global};
use std::marker::Model;

/// A cone as the text of a fan lists it: its dimension, and the numbers of its rays.
#[derive(Drop)]
pub struct ListedCone {
    pub dim: u32,
    pub rays: RayNumbers,
}

/// What is written of a fan.
///
/// Cones are listed by their dimensions; the first of each dimension tells it.
#[derive(Drop)]
pub struct FanParts<'a> {
    /// The ambient dimension.
    pub ambient: u32,
    /// The rays, whose numbers count from 0.
    pub rays: &'a [IntVec],
    /// A basis of the lineality space.
    pub lineality: &'a [IntVec],
    /// A basis of its orthogonal complement.
    pub orthogonal: &'a [IntVec],
    /// All cones.
    pub cones: &'a [ListedCone],
    /// The maximal cones.
    pub maximal: &'a [ListedCone],
    /// A vector for each of them, inside it.
    pub interiors: &'a [IntVec],
}

impl<'a> Model for FanParts<'a> {
    ghost use Rattle.gf_fan_files.specs.FanWords.{FanWords};

    ghost Value = { FanWords };

    ghost view = { λ p. record {
      ambient = p.ambient;
      rays = p.rays.now;
      lineality = p.lineality.now;
      orthogonal = p.orthogonal.now;
      cones = p.cones.now;
      maximal = p.maximal.now;
      interiors = p.interiors.now;
    } };
}

/// The greatest dimension of these cones, and 0 where there is none.
pub(crate) fn greatest_dim(cones: &[ListedCone]) -> u32
    ensures { result ≡ greatest_dim cones.now }
{
    let mut dim = 0;
    for cone in cones {
        dim = dim.max(cone.dim);
    }
    dim
}

/// How many of these cones have this dimension.
fn count_of(cones: &[ListedCone], dim: usize) -> usize
    ensures { result ≡ count_of cones.now dim }
{
    cones.iter().filter(|c| c.dim as usize == dim).count()
}

/// How many of these cones have each dimension from this one to the greatest.
pub(crate) fn f_vector(
    alloc: Global,
    low: usize,
    cones: &[ListedCone],
) -> Result<Vec<u64>, AllocError>
    ensures { IfOk result (λ v. v.items ≡ f_vector low cones.now) }
{
    let mut counts = Vec::new(alloc);
    if cones.is_empty() {
        return Ok(counts);
    }
    let end = (greatest_dim(cones) as usize + 1).max(low);
    for dim in low..end {
        counts.push(count_of(cones, dim) as u64)?;
    }
    Ok(counts)
}

/// Whether each of these cones has as many rays as its dimension is above this one.
pub(crate) fn is_simplicial(low: usize, cones: &[ListedCone]) -> bool
    ensures { result ≡ is_simplicial low cones.now }
{
    cones.iter().all(|c| c.rays.as_slice().len() as u128 + low as u128 == u128::from(c.dim))
}

/// Whether these cones have this dimension.
fn have_dim(dim: u32, cones: &[ListedCone]) -> bool
    ensures { result ≡ list_all (λ (c : ListedCone). c.dim == dim) cones.now }
{
    cones.iter().all(|c| c.dim == dim)
}

/// Whether these cones have one dimension.
pub(crate) fn is_pure(cones: &[ListedCone]) -> bool
    ensures { result ≡ is_pure cones.now }
{
    let [first, later @ ..] = cones else {
        return true;
    };
    have_dim(first.dim, later)
}
