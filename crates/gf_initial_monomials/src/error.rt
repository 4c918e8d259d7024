//! Why it isn't decided whether an initial ideal has a polynomial with a single term.
ghost use Rattle.std.specs.Prelude.{◌≡◌};
ghost use Rattle.gf_initial_monomials.specs.declared.error.InitialError.TheVariants.{Memory};

use gf_gordan::{ConeOverflow, GordanError};
use gf_saturate::BasisError;
use gf_vec::{VecError, WideVector};
use std::alloc::{AllocError, AllocFailed};

/// Why it isn't decided whether an initial ideal has a polynomial with a single term.
#[derive(Drop)]
pub enum InitialError {
    /// An operation of finding the rays of the intersection of two cones leaves its range.
    Cone(ConeOverflow),
    /// The sum of an entry of a partial sum of rays and one of the next ray leaves the range.
    Wide(WideVector),
    /// The first entry of a tested vector that is greater than `2^63` in absolute value, and its index, counted from 0.
    Entry { index: usize, value: i128 },
    /// The saturation of an ideal of initial forms is refused: operands don't fit, the budget of pairs is spent, or memory runs out.
    Saturation(BasisError),
    /// Memory runs out.
    Memory,
}

impl From<AllocError> for InitialError {
    ghost from_gives = { λ _ e. e ≡ Memory };

    fn from(_error: AllocError) -> InitialError {
        InitialError::Memory
    }
}

impl<T: Drop> From<AllocFailed<T>> for InitialError {
    ghost from_gives = { λ _ e. e ≡ Memory };

    fn from(_failed: AllocFailed<T>) -> InitialError {
        InitialError::Memory
    }
}

impl From<GordanError> for InitialError {
    ghost use Rattle.gf_initial_monomials.specs.Refusals.{of_cone_refusal};

    ghost from_gives = { λ g e. e ≡ of_cone_refusal g };

    fn from(error: GordanError) -> InitialError {
        match error {
            GordanError::Cone(step) => InitialError::Cone(step),
            GordanError::Memory => InitialError::Memory,
        }
    }
}

impl From<VecError> for InitialError {
    ghost use Rattle.gf_initial_monomials.specs.Refusals.{of_vector_refusal};

    ghost from_gives = { λ v e. e ≡ of_vector_refusal v };

    fn from(error: VecError) -> InitialError {
        match error {
            VecError::Wide(wide) => InitialError::Wide(wide),
            VecError::Memory => InitialError::Memory,
        }
    }
}
