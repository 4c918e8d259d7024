//! Why a text isn't read.
ghost use Rattle.std.specs.Prelude.{◌≡◌};
ghost use Rattle.gf_text.specs.declared.error.TextError.TheVariants.{Memory};
ghost use Rattle.gf_text.specs.Refusing.{refusal_at};

use gf_frac::Overflow;
use gf_poly::ExponentOverflow;
use std::alloc::{AllocError, AllocFailed};

/// What is wrong at a place of a text.
#[derive(Clone, Copy, Debug, PartialEq, Eq)]
pub enum Kind {
    /// The text ends before the item does.
    Ended,
    /// What stands there can't stand there.
    Unexpected,
    /// The name was there already.
    RepeatedName,
    /// The denominator is zero.
    ZeroDenominator,
}

/// The sections that a fan file has to have, the last of them in its version 2 alone.
#[derive(Clone, Copy, Debug, PartialEq, Eq)]
pub enum Section {
    AmbientDim,
    Rays,
    LinealitySpace,
    MaximalCones,
    MaximalInteriors,
}

/// Why a machine can't take a token, or the end of the text.
#[derive(Clone, Copy, Debug, PartialEq, Eq)]
pub enum Cause {
    /// The text ends before the item does.
    Ended,
    /// What stands there can't stand there.
    Unexpected,
    /// The name was there already.
    RepeatedName,
    /// The denominator is zero.
    ZeroDenominator,
    /// The number passes its limit.
    TooWide,
    /// A letter stands where a name may stand, and no name of the ring does.
    UnknownName,
}

/// A fault of a text, and the place of its first byte.
#[derive(Clone, Copy, Debug, PartialEq, Eq)]
pub struct Syntax {
    pub at: u64,
    pub kind: Kind,
}

/// Why a text isn't read.
#[derive(Clone, Copy, Debug, PartialEq, Eq)]
pub enum TextError {
    /// The sum of two coefficients of like terms leaves its range.
    Overflow(Overflow),
    /// An exponent passes its limit.
    Exponent(ExponentOverflow),
    /// The text has a fault.
    Syntax(Syntax),
    /// The number that begins there passes its limit.
    TooWide { at: u64 },
    /// No name of the ring stands there, where one may stand and a letter does.
    UnknownName { at: u64 },
    /// The ring has more than `MOST_VARIABLES` variables, or the dimension is above that.
    TooManyVariables { count: u64 },
    /// The polynomial of a marked set is zero.
    ZeroPolynomial { set: u32, index: u32 },
    Memory,
}

/// The refusal of what begins at a place of the source.
pub(crate) fn refused_at(at: usize, cause: Cause) -> TextError
    ensures { result ≡ refusal_at at cause }
{
    let at = at as u64;
    match cause {
        Cause::Ended => fault_of(at, Kind::Ended),
        Cause::Unexpected => fault_of(at, Kind::Unexpected),
        Cause::RepeatedName => fault_of(at, Kind::RepeatedName),
        Cause::ZeroDenominator => fault_of(at, Kind::ZeroDenominator),
        Cause::TooWide => TextError::TooWide { at },
        Cause::UnknownName => TextError::UnknownName { at },
    }
}

/// A fault of this kind.
fn fault_of(at: u64, kind: Kind) -> TextError
    ensures { result ≡ TextError.Syntax (record { at = at; kind = kind }) }
{
    TextError::Syntax(Syntax { at, kind })
}

impl From<Syntax> for TextError {
    ghost use Rattle.gf_text.specs.declared.error.TextError.TheVariants as errors;

    ghost from_gives = { λ s e. e ≡ errors.Syntax s };

    fn from(syntax: Syntax) -> TextError {
        TextError::Syntax(syntax)
    }
}

impl From<ExponentOverflow> for TextError {
    ghost use Rattle.gf_text.specs.declared.error.TextError.TheVariants as errors;

    ghost from_gives = { λ o e. e ≡ errors.Exponent o };

    fn from(overflow: ExponentOverflow) -> TextError {
        TextError::Exponent(overflow)
    }
}

impl From<AllocError> for TextError {
    ghost from_gives = { λ _ e. e ≡ Memory };

    fn from(_: AllocError) -> TextError {
        TextError::Memory
    }
}

impl<T: Drop> From<AllocFailed<T>> for TextError {
    ghost from_gives = { λ _ e. e ≡ Memory };

    fn from(_: AllocFailed<T>) -> TextError {
        TextError::Memory
    }
}
