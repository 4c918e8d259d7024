//! Fractions of 128 bits, exact or refused.
//!
//! A `Frac` is a fraction in lowest terms whose two numbers are from `-(2^127-1)` to `2^127-1`. Its contracts
//! see it as a `Fraction` of any size (`specs/Fraction.antt`). Each operation gives the exact result, or is
//! refused with its operands exactly where a number of its working leaves that range (`specs/Fits.antt`).
#![tactic(auto)]

mod fractions;
mod laws;
mod refusal;
mod working;

pub use fractions::Frac;
pub use laws::{constants, equality, field, school_arithmetic};
pub use refusal::{Op, Overflow};
