//! The greatest common divisor of two numbers of 128 bits, and the content of a slice of them.
//!
//! What both are is `IsGcd` of std and `gf_int_theory/specs/Content.antt`; the laws of them are `gf_int_theory`'s.
#![tactic(auto)]

mod divisor;
mod entries;

pub use divisor::gcd;
pub use entries::content;
