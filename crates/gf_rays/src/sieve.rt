//! Guesses by words of bits at rays that have all of some flags; whoever takes a guess looks at the flags.

use crate::flags::Flags;
use crate::ray::Ray;
use std::alloc::{AllocError, Global};

/// Rays in blocks of 64: each block has a word for each flag, whose bits tell which of its rays have it.
#[derive(Drop)]
pub(crate) struct Sieve {
    alloc: Global,
    count: usize,
    blocks: Vec<Vec<u64>>,
    indices: Vec<usize>,
}

/// The bits of a block's words at these indices that all of them have, of those at the start.
fn narrowed(start: u64, block: &[u64], indices: &[usize]) -> u64 {
    let mut left = start;
    for index in indices {
        if left == 0 {
            return 0;
        }
        if let Some(word) = block.get(*index) {
            left &= *word;
        }
    }
    left
}

impl Sieve {
    /// No rays.
    fn none(alloc: Global) -> Sieve {
        Sieve {
            alloc,
            count: 0,
            blocks: Vec::new(alloc),
            indices: Vec::new(alloc),
        }
    }

    /// These rays.
    pub(crate) fn of(alloc: Global, rays: &[Ray]) -> Result<Sieve, AllocError> {
        let mut sieve = Sieve::none(alloc);
        for ray in rays {
            sieve.add(&ray.zero)?;
        }
        Ok(sieve)
    }

    /// Takes the indices of the flags that both have, behind those taken.
    fn take_indices(&mut self, p: &Flags, q: &Flags) -> Result<(), AllocError> {
        let others = q.words();
        for (k, x) in p.words().iter().enumerate() {
            let mut word = match others.get(k) {
                Some(y) => *x & *y,
                None => 0,
            };
            for _i in 0..word.count_ones() {
                let bit = word.trailing_zeros() as usize;
                self.indices.push(k.wrapping_mul(64).wrapping_add(bit))?;
                word &= word.wrapping_sub(1);
            }
        }
        Ok(())
    }

    /// One ray more, with these flags.
    pub(crate) fn add(&mut self, zero: &Flags) -> Result<(), AllocError> {
        let bit = self.count % 64;
        if bit == 0 {
            let width = zero.words().len().saturating_mul(64);
            self.blocks.push(vec![in self.alloc; 0u64; width]?)?;
        }
        self.indices.clear();
        self.take_indices(zero, zero)?;
        if let Some(block) = self.blocks.last_mut() {
            for index in &self.indices {
                if let Some(word) = block.get_mut(*index) {
                    *word |= 1u64 << bit;
                }
            }
        }
        self.count = self.count.wrapping_add(1);
        Ok(())
    }

    /// The number, from this one on, of the first ray that has the flags taken; the greatest number where there is none.
    fn first_from(&self, from: usize) -> usize {
        let begin = from / 64;
        for b in begin..self.blocks.len() {
            let start = if b == begin {
                u64::MAX << (from % 64)
            } else {
                u64::MAX
            };
            let left = match self.blocks.get(b) {
                Some(block) => narrowed(start, block.as_slice(), self.indices.as_slice()),
                None => 0,
            };
            if left != 0 {
                return b
                    .wrapping_mul(64)
                    .wrapping_add(left.trailing_zeros() as usize);
            }
        }
        usize::MAX
    }

    /// The number of a ray that has the flags that both have, and the one behind them; the greatest number where there is none.
    pub(crate) fn shared(&mut self, p: &Flags, q: &Flags) -> Result<usize, AllocError> {
        self.indices.clear();
        self.indices.push(p.len())?;
        self.take_indices(p, q)?;
        Ok(self.first_from(0))
    }

    /// The number, behind `i`, of a ray that has the flags of the one at `index`; the greatest number where there is none.
    pub(crate) fn later(
        &mut self,
        rays: &[Ray],
        index: usize,
        i: usize,
    ) -> Result<usize, AllocError> {
        if let Some(ray) = rays.get(index) {
            self.indices.clear();
            self.take_indices(&ray.zero, &ray.zero)?;
            return Ok(self.first_from(i.wrapping_add(1)));
        }
        Ok(usize::MAX)
    }
}
