//! Ideals that a number stands for: three differences of two monomials in four variables, with small exponents.
//!
//! `specs/Generated.antt` says which; `generators` makes them.
#![tactic(auto)]

mod differences;
mod laws;

pub use differences::generators;
pub use laws::generators_are_binomials;
