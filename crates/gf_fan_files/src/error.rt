//! Why a fan file isn't read.
ghost use Rattle.std.specs.Prelude.{◌≡◌};
ghost use Rattle.gf_fan_files.specs.declared.error.FanFileError.TheVariants.{Memory};
ghost use Rattle.gf_fan_files.specs.Refused.{refused_before, cause_of};

use gf_fan::FanError;
use gf_gordan::{ConeOverflow, GordanError};
use gf_text::{Kind, Section, Syntax};
use gf_vec::{VecError, WideVector};
use std::alloc::{AllocError, AllocFailed};

/// Why a fan file isn't read.
#[derive(Clone, Copy, Debug, PartialEq, Eq)]
pub enum FanFileError {
    /// The text has a fault.
    Syntax(Syntax),
    /// The number that begins there passes its limit.
    TooWide { at: u64 },
    /// The ambient dimension is above `MOST_VARIABLES`.
    TooManyVariables { count: u64 },
    /// A step of a system of inequalities and equations leaves the range of 128 bits.
    Cone(ConeOverflow),
    /// The meet of these two cones isn't a face of both.
    NotAFan { first: u32, second: u32 },
    /// The section isn't there.
    Missing { section: Section },
    /// The ray lies in the lineality space, or no ray has this number.
    BadRay { number: u64 },
    /// A length, where another is needed.
    Dimensions { left: u64, right: u64 },
    /// The version is neither 1 nor 2.
    BadVersion { number: u64 },
    /// The row of this listed cone isn't inside it, or there is no such row or cone.
    BadCertificate { cone: u32 },
    /// A product or a sum of the test whether a row is inside its cone leaves the range.
    Wide(WideVector),
    Memory,
}

/// Why a token can't be taken.
#[derive(Clone, Copy)]
pub(crate) enum Reason {
    /// It can't stand there.
    Unexpected,
    /// The number passes its limit.
    TooWide,
}

/// The refusal of what begins at a place of a text of this length; at its end the text has ended.
pub(crate) fn refused(length: usize, at: usize, reason: Reason) -> FanFileError
    ensures { result ≡ refused_before length (record { at = at; cause = cause_of reason }) }
{
    if at == length {
        return fault_of(at as u64, Kind::Ended);
    }
    match reason {
        Reason::Unexpected => fault_of(at as u64, Kind::Unexpected),
        Reason::TooWide => FanFileError::TooWide { at: at as u64 },
    }
}

/// A fault of this kind.
pub(crate) fn fault_of(at: u64, kind: Kind) -> FanFileError
    ensures { result ≡ FanFileError.Syntax (record { at = at; kind = kind }) }
{
    FanFileError::Syntax(Syntax { at, kind })
}

impl From<AllocError> for FanFileError {
    ghost from_gives = { λ _ e. e ≡ Memory };

    fn from(_: AllocError) -> FanFileError {
        FanFileError::Memory
    }
}

impl<T: Drop> From<AllocFailed<T>> for FanFileError {
    ghost from_gives = { λ _ e. e ≡ Memory };

    fn from(_: AllocFailed<T>) -> FanFileError {
        FanFileError::Memory
    }
}

impl From<GordanError> for FanFileError {
    ghost use Rattle.gf_fan_files.specs.FilesFans.{refusal_of_gordan};

    ghost from_gives = { λ error e. e ≡ refusal_of_gordan error };

    fn from(error: GordanError) -> FanFileError {
        match error {
            GordanError::Cone(step) => FanFileError::Cone(step),
            GordanError::Memory => FanFileError::Memory,
        }
    }
}

impl From<VecError> for FanFileError {
    ghost use Rattle.gf_fan_files.specs.FilesFans.{refusal_of_vectors};

    ghost from_gives = { λ error e. e ≡ refusal_of_vectors error };

    fn from(error: VecError) -> FanFileError {
        match error {
            VecError::Wide(wide) => FanFileError::Wide(wide),
            VecError::Memory => FanFileError::Memory,
        }
    }
}

impl From<FanError> for FanFileError {
    ghost use Rattle.gf_fan_files.specs.FilesFans.{refusal_of_fan};

    ghost from_gives = { λ error e. e ≡ refusal_of_fan error };

    fn from(error: FanError) -> FanFileError {
        match error {
            FanError::Cone(step) => FanFileError::Cone(step),
            FanError::NotAFan { first, second } => FanFileError::NotAFan { first, second },
            FanError::Memory => FanFileError::Memory,
        }
    }
}
