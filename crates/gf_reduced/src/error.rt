//! Why a marked set is refused, or can't be tested.
ghost use Rattle.std.specs.Prelude.{◌≡◌};
ghost use Rattle.gf_reduced.specs.declared.error.CheckError.TheVariants.{Memory};

use gf_frac::Overflow;
use gf_gordan::{ConeOverflow, GordanError};
use gf_poly::{ExponentOverflow, Mono, Poly, PolyError};
use gf_vec::IntVec;
use std::alloc::{AllocError, AllocFailed};

/// Why a marked set is refused, or can't be tested. `set` is the number of the set that the caller gave.
#[derive(Drop)]
pub enum CheckError {
    /// An operation on two fractions leaves its range.
    Overflow(Overflow),
    /// A sum of two exponents leaves its range.
    Exponent(ExponentOverflow),
    /// The first polynomial with a term that is divisible by a marked monomial, and its first such term, the marked one first.
    NotReduced {
        set: u32,
        polynomial: u32,
        term: Mono,
    },
    /// The first pair of polynomials, by their indices counted from 0, whose S-polynomial has a nonzero normal form, and that normal form.
    NotBasis {
        set: u32,
        first: u32,
        second: u32,
        remainder: Poly,
    },
    /// No positive weight gives the marking. The multipliers of its rows, of given rows if there are any, and of the unit vectors show it:
    /// none is negative, not all are zero, and the combination is the zero vector.
    Inconsistent {
        set: u32,
        multipliers: IntVec,
    },
    /// An operation of the elimination of the marking's system leaves its range.
    Cone(ConeOverflow),
    /// Memory runs out.
    Memory,
}

impl From<AllocError> for CheckError {
    ghost from_gives = { λ _ e. e ≡ Memory };

    fn from(_error: AllocError) -> CheckError {
        CheckError::Memory
    }
}

impl<T: Drop> From<AllocFailed<T>> for CheckError {
    ghost from_gives = { λ _ e. e ≡ Memory };

    fn from(_failed: AllocFailed<T>) -> CheckError {
        CheckError::Memory
    }
}

impl From<GordanError> for CheckError {
    ghost use Rattle.gf_reduced.specs.Refusals.{check_of_gordan};

    ghost from_gives = { λ e r. r ≡ check_of_gordan e };

    fn from(error: GordanError) -> CheckError {
        match error {
            GordanError::Cone(step) => CheckError::Cone(step),
            GordanError::Memory => CheckError::Memory,
        }
    }
}

impl From<PolyError> for CheckError {
    ghost use Rattle.gf_reduced.specs.Refusals.{of_poly};

    ghost from_gives = { λ e r. r ≡ of_poly e };

    fn from(error: PolyError) -> CheckError {
        match error {
            PolyError::Overflow(o) => CheckError::Overflow(o),
            PolyError::Exponent(o) => CheckError::Exponent(o),
            PolyError::Memory => CheckError::Memory,
        }
    }
}
