//! Why cones aren't cut.

use gf_gordan::GordanError;
use gf_vec::VecError;
use std::alloc::{AllocError, AllocFailed};

/// Why cones aren't cut.
#[derive(Clone, Copy, Debug, PartialEq, Eq)]
pub enum CutError {
    /// An operation leaves the range.
    Wide,
    /// There is no memory left.
    Memory,
}

impl From<VecError> for CutError {
    fn from(error: VecError) -> CutError {
        match error {
            VecError::Wide(_) => CutError::Wide,
            VecError::Memory => CutError::Memory,
        }
    }
}

impl From<GordanError> for CutError {
    fn from(error: GordanError) -> CutError {
        match error {
            GordanError::Cone(_) => CutError::Wide,
            GordanError::Memory => CutError::Memory,
        }
    }
}

impl From<AllocError> for CutError {
    fn from(_error: AllocError) -> CutError {
        CutError::Memory
    }
}

impl<T: Drop> From<AllocFailed<T>> for CutError {
    fn from(_failed: AllocFailed<T>) -> CutError {
        CutError::Memory
    }
}
