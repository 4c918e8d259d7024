//! Operations on entries, and why a call on vectors has no answer.
ghost use Rattle.std.specs.Prelude.{◌≡◌};
ghost use Rattle.gf_vec.specs.declared.error.VecError.TheVariants.{Memory, Wide};

use std::alloc::{AllocError, AllocFailed};

/// An operation on two whole numbers.
#[derive(Clone, Copy, Debug, PartialEq, Eq)]
pub enum VecOp {
    Add,
    Sub,
    Mul,
}

/// An operation whose outcome leaves the range from `-(2^127 - 1)` to `2^127 - 1`, with its operands.
#[derive(Clone, Copy, Debug, PartialEq, Eq)]
pub struct WideVector {
    pub op: VecOp,
    pub left: i128,
    pub right: i128,
}

/// Why a call on vectors that takes memory has no answer.
#[derive(Clone, Copy, Debug, PartialEq, Eq)]
pub enum VecError {
    /// An operation leaves the range.
    Wide(WideVector),
    /// There is no memory left.
    Memory,
}

impl From<WideVector> for VecError {
    ghost from_gives = { λ wide e. e ≡ Wide wide };

    fn from(wide: WideVector) -> VecError {
        VecError::Wide(wide)
    }
}

impl From<AllocError> for VecError {
    ghost from_gives = { λ _ e. e ≡ Memory };

    fn from(_error: AllocError) -> VecError {
        VecError::Memory
    }
}

impl<T: Drop> From<AllocFailed<T>> for VecError {
    ghost from_gives = { λ _ e. e ≡ Memory };

    fn from(_failed: AllocFailed<T>) -> VecError {
        VecError::Memory
    }
}
