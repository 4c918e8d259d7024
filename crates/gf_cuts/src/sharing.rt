//! Guesses at the cones that may hold another one, by the rays that they have. They are hints alone: whoever takes one compares the rays.

use gf_rays::Rays;
use gf_vec::IntVec;
use std::alloc::{AllocError, Global};

/// An odd number whose bits are mixed: the golden ratio of 2^64.
const MULTIPLIER: u64 = 0x9e37_79b9_7f4a_7c15;

/// The fewest cones that are worth buckets.
const FEWEST: usize = 16;

/// The indices of some cones, and for each bucket of rays the indices of those that have a ray in it.
#[derive(Drop)]
pub(crate) struct Sharing {
    all: Vec<usize>,
    buckets: Vec<Vec<usize>>,
}

/// A number that is mixed of the entries of a ray.
fn mixed(ray: &IntVec) -> u64 {
    let mut sum = 0_u64;
    for entry in ray.as_slice() {
        let low = (entry.cast_unsigned() & 0xffff_ffff) as u64;
        sum = (sum ^ low).wrapping_mul(MULTIPLIER);
        sum ^= sum >> 32;
    }
    sum
}

/// The bucket of a ray, where there are so many; none where there are none.
fn bucket(ray: &IntVec, count: usize) -> Option<usize> {
    if count == 0 {
        return None;
    }
    Some(mixed(ray) as usize % count)
}

impl Sharing {
    /// No cones, and buckets for as many as this: none where they are few.
    ///
    /// # Errors
    /// Want of memory alone.
    pub(crate) fn none(alloc: Global, cones: usize) -> Result<Sharing, AllocError> {
        let count = if cones < FEWEST { 0 } else { cones };
        let mut buckets = Vec::with_capacity(alloc, count)?;
        for _ in 0..count {
            buckets.push(Vec::new(alloc))?;
        }
        Ok(Sharing {
            all: Vec::new(alloc),
            buckets,
        })
    }

    /// One cone more, at an index.
    ///
    /// # Errors
    /// Want of memory alone.
    pub(crate) fn add(&mut self, index: usize, cone: &Rays) -> Result<(), AllocError> {
        self.all.push(index)?;
        let count = self.buckets.len();
        for ray in cone.rays() {
            let Some(k) = bucket(ray, count) else {
                continue;
            };
            if let Some(indices) = self.buckets.get_mut(k) {
                indices.push(index)?;
            }
        }
        Ok(())
    }

    /// The indices of the cones that may have all rays of this one: those in the smallest of the buckets of its rays.
    pub(crate) fn near(&self, cone: &Rays) -> &[usize] {
        let count = self.buckets.len();
        let mut best = &self.all;
        for ray in cone.rays() {
            let Some(k) = bucket(ray, count) else {
                continue;
            };
            if let Some(indices) = self.buckets.get(k) {
                if indices.len() < best.len() {
                    best = indices;
                }
            }
        }
        best.as_slice()
    }
}
