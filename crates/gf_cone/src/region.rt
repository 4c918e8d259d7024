//! A region of weights: the positive vectors on which each of some rows is positive, with one of them as the root.
ghost use Rattle.std.specs.Prelude.{◌≡◌, ◌↔◌, ◌<◌, ◌≤◌, ◌^◌, ◌*◌, ◌*ℤ◌, pos, length, replicate, unsigned_abs, All, IsTrue, IfOk};
ghost use Rattle.gf_vec.specs.Vector.{dot};
ghost use Rattle.gf_vec.specs.RootSign.{first_sign};
ghost use Rattle.gf_gordan.specs.Alternative.{AreRows};
ghost use Rattle.gf_facets_theory.specs.LexPositive.{rooted, IsNegative};
ghost use Rattle.gf_facets_theory.specs.Regions.{IsRegion, all_positive};
ghost use Rattle.gf_cone.specs.Weights.{IsForSign};
ghost use Rattle.std.specs.declared.cmp.Ordering.TheVariants.{Less};

use crate::systems::with_copies;
use gf_vec::{IntVec, leading_sign};
use std::alloc::{AllocError, Global};
use std::cmp::Ordering;
use std::marker::Model;

/// The positive vectors on which each of some rows is positive, with one of them as the root. Without rows they are all positive
/// vectors.
#[derive(Drop)]
pub struct Region {
    rows: Vec<IntVec>,
    root: IntVec,
    plain: bool,
}

impl Model for Region {
    ghost use Rattle.gf_facets_theory.specs.Regions as regions;
    ghost use Rattle.gf_cone.specs.Weights.{IsRegionKept};

    ghost Value = { regions.Region };

    ghost view = { λ r. record { rows = r.rows.items; root = r.root } };

    ghost invariant = { λ r. IsRegionKept (record { rows = r.rows.items; root = r.root }) r.plain };
}

/// So many ones.
///
/// # Errors
/// Want of memory.
fn ones(alloc: Global, n: u32) -> Result<IntVec, AllocError>
    ensures { IfOk result (λ v. v ≡ replicate n (pos 1)) }
{
    let entries = vec![in alloc; 1; n as usize]?;
    Ok(IntVec::from_vec(entries))
}

/// Whether each entry is 1.
fn are_ones(xs: &[i128]) -> bool
    ensures { IsTrue result → xs.now ≡ replicate (length xs.now) (pos 1) }
{
    'entries: for i in 0..xs.len() {
        if xs[i] != 1 {
            return false;
        }
    }
    true
}

/// The product of two numbers, at most 2^32 and below 2^63 in absolute value.
fn product(x: i128, y: i128) -> i128
    requires left { unsigned_abs x ≤ 2 ^ 32 }
    requires right { unsigned_abs y < 2 ^ 63 }
    ensures value { result ≡ x *ℤ y }
    ensures small { unsigned_abs result ≤ 2 ^ 95 }
{
    x * y
}

/// The dot product of fewer than 2^32 such numbers.
fn dot_of(xs: &[i128], ys: &[i128]) -> i128
    requires width { length xs.now ≡ length ys.now }
    requires few { length ys.now < 2 ^ 32 }
    requires left { IsForSign xs.now }
    requires right { All (λ y. unsigned_abs y < 2 ^ 63) ys.now }
    ensures { result ≡ dot xs.now ys.now }
{
    let mut sum = 0i128;
    'entries: for i in 0..xs.len() {
        sum += product(xs[i], ys[i]);
    }
    sum
}

impl Region {
    /// All positive vectors of `n` entries, with the root (1, .., 1).
    ///
    /// # Errors
    /// Want of memory.
    pub fn positive(alloc: Global, n: u32) -> Result<Region, AllocError>
        ensures { IfOk result (λ k. k ≡ all_positive n) }
    {
        let root = ones(alloc, n)?;
        Ok(Region {
            rows: Vec::new(alloc),
            root,
            plain: true,
        })
    }

    /// The positive vectors of `n` entries on which each of the rows is positive, with this root.
    ///
    /// # Errors
    /// Want of memory.
    pub fn new(alloc: Global, n: u32, rows: &[IntVec], root: IntVec) -> Result<Region, AllocError>
        requires region { IsRegion n (record { rows = rows.now; root = root }) }
        requires small { All (λ x. unsigned_abs x < 2 ^ 63) root }
        ensures { IfOk result (λ k. k ≡ record { rows = rows.now; root = root }) }
    {
        let rows = with_copies(Vec::with_capacity(alloc, rows.len())?, rows)?;
        let plain = are_ones(root.as_slice());
        Ok(Region { rows, root, plain })
    }

    /// An equal region.
    ///
    /// # Errors
    /// Want of memory.
    pub fn copy(&self) -> Result<Region, AllocError>
        ensures { IfOk result (λ k. k ≡ self.now) }
    {
        let alloc = *self.rows.allocator();
        let rows = with_copies(
            Vec::with_capacity(alloc, self.rows.len())?,
            self.rows.as_slice(),
        )?;
        let root = self.root.copy()?;
        Ok(Region {
            rows,
            root,
            plain: self.plain,
        })
    }

    /// The rows.
    pub fn rows(&self) -> &[IntVec]
        ensures value { result.now ≡ self.now.rows }
        ensures widths { AreRows (length self.now.root) result.now }
    {
        self.rows.as_slice()
    }

    /// The root.
    pub fn root(&self) -> &IntVec
        ensures value { result.now ≡ self.now.root }
        ensures region { IsRegion (length self.now.root) self.now }
        ensures small { All (λ x. unsigned_abs x < 2 ^ 63) result.now }
    {
        &self.root
    }

    /// The sign, against zero, of the first number that isn't zero among what a vector gives on the root, and its entries in turn.
    /// Each entry is at most 2^32 in absolute value. It takes no memory.
    pub fn sign(&self, a: &IntVec) -> Ordering
        requires width { length a.now ≡ length self.now.root }
        requires small { IsForSign a.now }
        ensures value { result ≡ first_sign (rooted self.now.root a.now) }
        ensures negative { (result ≡ Less) ↔ IsNegative self.now.root a.now }
    {
        if self.plain {
            return a.root_sign();
        }
        let value = dot_of(a.as_slice(), self.root.as_slice());
        if value != 0 {
            return value.cmp(&0);
        }
        leading_sign(a.as_slice())
    }
}
