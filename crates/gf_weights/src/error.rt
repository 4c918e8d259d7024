//! Why a weight can't be computed.
ghost use Rattle.std.specs.Prelude.{◌≡◌};
ghost use Rattle.gf_weights.specs.declared.error.WeightError.TheVariants.{Memory};

use gf_gordan::{ConeOverflow, GordanError};
use gf_vec::{VecError, WideVector};
use std::alloc::{AllocError, AllocFailed};

/// Why a weight, or the witnesses of facets, can't be computed.
#[derive(Debug, Drop, PartialEq, Eq)]
pub enum WeightError {
    /// An operation of finding the rays leaves its range.
    Cone(ConeOverflow),
    /// The sum of an entry of a partial sum of rays and one of the next ray leaves the range.
    Wide(WideVector),
    /// Memory runs out.
    Memory,
}

impl From<AllocError> for WeightError {
    ghost from_gives = { λ _ e. e ≡ Memory };

    fn from(_: AllocError) -> WeightError {
        WeightError::Memory
    }
}

impl<T: Drop> From<AllocFailed<T>> for WeightError {
    ghost from_gives = { λ _ e. e ≡ Memory };

    fn from(_failed: AllocFailed<T>) -> WeightError {
        WeightError::Memory
    }
}

impl From<GordanError> for WeightError {
    ghost use Rattle.gf_weights.specs.Refusals.{weight_of_gordan};

    ghost from_gives = { λ g e. e ≡ weight_of_gordan g };

    fn from(error: GordanError) -> WeightError {
        match error {
            GordanError::Cone(o) => WeightError::Cone(o),
            GordanError::Memory => WeightError::Memory,
        }
    }
}

impl From<VecError> for WeightError {
    ghost use Rattle.gf_weights.specs.Refusals.{of_vector};

    ghost from_gives = { λ v e. e ≡ of_vector v };

    fn from(error: VecError) -> WeightError {
        match error {
            VecError::Wide(wide) => WeightError::Wide(wide),
            VecError::Memory => WeightError::Memory,
        }
    }
}
