//! The saturation of an ideal by the product of all variables.
//!
//! Start at `saturate`. Where a positive weight makes the polynomials homogeneous, one variable after another is taken out by a basis whose
//! members are divided, if it doesn't follow from others; else, and where a run of this way is refused, by Rabinowitsch's trick and elimination, by degree
//! first and then by lex.
//! At the end the reduced Gröbner basis by degree is made. What a saturation is stands in `gf_saturation_theory` (`specs/Saturations.antt`), what is
//! answered here in `specs/Saturating.antt`. By its saturation `has_monomial` tells whether an ideal has a polynomial of one term.
#![tactic(auto)]

mod chain;
mod choice;
mod elimination;
mod graded;
mod grades;
mod inverses;
mod marks;
mod monomials;
mod narrowing;
mod proposals;
mod relation;
mod saturation;
mod stages;
mod units;
mod vectors;
mod widening;

pub use gf_buchberger::BasisError;
pub use monomials::has_monomial;
pub use saturation::saturate;
