//! Why a call on polynomials is refused.

ghost use Rattle.std.specs.Prelude.{◌≡◌};
ghost use Rattle.gf_poly.specs.declared.error.PolyError.TheVariants.{Overflow as Overflows, Exponent, Memory};

use super::monomial::ExponentOverflow;
use gf_frac::Overflow;
use std::alloc::{AllocError, AllocFailed};

/// Why a call on polynomials is refused: a coefficient or an exponent leaves its range, or there is no memory.
#[derive(Clone, Copy, Debug, Drop)]
pub enum PolyError {
    Overflow(Overflow),
    Exponent(ExponentOverflow),
    Memory,
}

impl From<Overflow> for PolyError {
    ghost from_gives = { λ o e. e ≡ Overflows o };

    fn from(o: Overflow) -> PolyError {
        PolyError::Overflow(o)
    }
}

impl From<ExponentOverflow> for PolyError {
    ghost from_gives = { λ o e. e ≡ Exponent o };

    fn from(o: ExponentOverflow) -> PolyError {
        PolyError::Exponent(o)
    }
}

impl From<AllocError> for PolyError {
    ghost from_gives = { λ _ e. e ≡ Memory };

    fn from(_e: AllocError) -> PolyError {
        PolyError::Memory
    }
}

impl<T: Drop> From<AllocFailed<T>> for PolyError {
    ghost from_gives = { λ _ e. e ≡ Memory };

    fn from(_e: AllocFailed<T>) -> PolyError {
        PolyError::Memory
    }
}
