//! Depths, which never wrap.
//!
//! A depth is stored as counts whose sum it is: a full last count is followed by a new one, and an empty one is taken away.
ghost use Rattle.std.specs.Prelude.{◌≡◌, ◌↔◌, ◌+◌, ◌<◌, ℕ, IsTrue, IfOk, OnOk, OnErr, sum};
ghost use Rattle.gf_reverse_search.specs.Depth.{IsCounted};

use std::alloc::{AllocError, Global};
use std::marker::Model;

/// How many steps a node is below another; a natural number of any size.
#[derive(Drop)]
pub struct Depth {
    full: Vec<u64>,
    last: u64,
}

impl Model for Depth {
    ghost Value = { ℕ };

    ghost view = { λ d. sum d.full.items + d.last };

    ghost invariant = { λ d. IsCounted d.full.items d.last };
}

impl Depth {
    /// The depth 0.
    pub fn zero(alloc: Global) -> Depth
        ensures { result ≡ 0 }
    {
        Depth {
            full: Vec::new(alloc),
            last: 0,
        }
    }

    /// The depth 0, with the allocator of this one.
    pub fn none(&self) -> Depth
        ensures { result ≡ 0 }
    {
        Depth::zero(*self.full.allocator())
    }

    /// Whether the depth is 0.
    pub fn is_zero(&self) -> bool
        ensures { IsTrue result ↔ self.now ≡ 0 }
    {
        self.last == 0
    }

    /// Increases the depth by 1.
    ///
    /// # Errors
    ///
    /// `AllocError` if memory runs out; the depth is unchanged.
    pub fn raise(&mut self) -> Result<(), AllocError>
        ensures ok { OnOk result (self.new ≡ self.old + 1) }
        ensures err { OnErr result (self.new ≡ self.old) }
    {
        if self.last < u64::MAX {
            self.last += 1;
            return Ok(());
        }
        self.full.push(self.last)?;
        self.last = 1;
        Ok(())
    }

    /// Decreases the depth, which is positive, by 1.
    pub fn lower(&mut self)
        requires { 0 < self.old }
        ensures { self.new + 1 ≡ self.old }
    {
        if self.last > 1 {
            self.last -= 1;
            return;
        }
        self.last = match self.full.pop() {
            Some(last) => last,
            None => 0,
        };
    }

    /// A copy of the depth.
    ///
    /// # Errors
    ///
    /// `AllocError` if memory runs out.
    pub fn copy(&self) -> Result<Depth, AllocError>
        ensures { IfOk result (λ d. d ≡ self.now) }
    {
        Ok(Depth {
            full: self.full.clone()?,
            last: self.last,
        })
    }
}
