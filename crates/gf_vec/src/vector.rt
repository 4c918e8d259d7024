//! The vector, and the calls that make, read or change one.
ghost use Rattle.std.specs.Prelude.{◌≡◌, pos, All, IfOk, IfErr, length};
ghost use Rattle.gf_int_theory.specs.Range.{InRange};
ghost use Rattle.gf_vec.specs.Vector.{dot, vector_sum, opposite};
ghost use Rattle.gf_int_theory.specs.Content.{scaled};
ghost use Rattle.gf_vec.specs.Steps.{NoneWide, IsFirstWide, IfWide, dot_steps, sum_steps};
ghost use Rattle.std.specs.Prelude.{negsuc};
ghost use Rattle.gf_vec.specs.Primitive.{IsPrimitivePart};

use crate::content::divide_by_content;
use crate::dot::dot_slices;
use crate::error::{VecError, WideVector};
use crate::sum::{add_onto, negate_all};
use std::alloc::{AllocError, Global};
use std::marker::Model;

/// A vector of whole numbers from `-(2^127 - 1)` to `2^127 - 1`, of any length.
#[derive(Drop, Debug)]
pub struct IntVec {
    entries: Vec<i128>,
}

impl Model for IntVec {
    ghost use Rattle.std.specs.Prelude.{List, ℤ, All};
    ghost use Rattle.gf_int_theory.specs.Range.{InRange};

    ghost Value = { List ℤ };

    ghost view = { λ v. v.entries.items };

    ghost invariant = { λ v. All InRange v.entries.items };
}

impl IntVec {
    /// The vector with these entries.
    ///
    /// # Errors
    /// Want of memory alone.
    pub fn from_slice(alloc: Global, entries: &[i128]) -> Result<IntVec, AllocError>
        requires { All InRange entries.now }
        ensures { IfOk result (λ v. v ≡ entries.now) }
    {
        Ok(IntVec {
            entries: entries.to_vec(alloc)?,
        })
    }

    /// The vector with these entries, which it keeps.
    pub fn from_vec(entries: Vec<i128>) -> IntVec
        requires { All InRange entries.items }
        ensures { result ≡ entries.items }
    {
        IntVec { entries }
    }

    /// The entries, and the room that they are in.
    pub fn into_vec(self) -> Vec<i128>
        ensures value { result.items ≡ self }
        ensures range { All InRange result.items }
    {
        let IntVec { entries } = self;
        entries
    }

    /// An equal vector.
    ///
    /// # Errors
    /// Want of memory alone.
    pub fn copy(&self) -> Result<IntVec, AllocError>
        ensures { IfOk result (λ v. v ≡ self.now) }
    {
        Ok(IntVec {
            entries: self.entries.clone()?,
        })
    }

    /// The vector with each entry's sign turned.
    ///
    /// # Errors
    /// Want of memory alone.
    pub fn opposite(&self) -> Result<IntVec, AllocError>
        ensures { IfOk result (λ v. v ≡ opposite self.now) }
    {
        let mut v = self.copy()?;
        v.negate();
        Ok(v)
    }

    /// The entries.
    pub fn as_slice(&self) -> &[i128]
        ensures value { result.now ≡ self.now }
        ensures range { All InRange result.now }
    {
        self.entries.as_slice()
    }

    /// The dot product of two vectors of one length. It takes no memory.
    ///
    /// # Errors
    /// The first product or partial sum, from the left, that leaves the range.
    pub fn dot(&self, other: &IntVec) -> Result<i128, WideVector>
        requires { length self.now ≡ length other.now }
        ensures ok { IfOk result (λ d. (d ≡ dot self.now other.now) × NoneWide (dot_steps (pos 0) self.now other.now)) }
        ensures range { IfOk result InRange }
        ensures wide { IfErr result (λ e. IsFirstWide e (dot_steps (pos 0) self.now other.now)) }
    {
        dot_slices(&self.entries, &other.entries)
    }

    /// The sum of two vectors of one length, entry by entry.
    ///
    /// # Errors
    /// The first sum of two entries, from the left, that leaves the range; want of memory.
    pub fn add(&self, other: &IntVec) -> Result<IntVec, VecError>
        requires { length self.now ≡ length other.now }
        ensures ok { IfOk result (λ v. (v ≡ vector_sum self.now other.now) × NoneWide (sum_steps self.now other.now)) }
        ensures wide { IfErr result (IfWide (λ e. IsFirstWide e (sum_steps self.now other.now))) }
    {
        let IntVec { mut entries } = self.copy()?;
        add_onto(entries.as_mut_slice(), &other.entries)?;
        Ok(IntVec { entries })
    }

    /// Turns each entry's sign. It takes no memory.
    pub fn negate(&mut self)
        ensures { self.new ≡ scaled (negsuc 0) self.old }
    {
        negate_all(self.entries.as_mut_slice());
    }

    /// Divides the entries by their greatest common divisor; the zero vector stays. It takes no memory.
    pub fn primitive(&mut self)
        ensures { IsPrimitivePart self.old self.new }
    {
        divide_by_content(self.entries.as_mut_slice());
    }
}
