//! Whether polynomials are a tropical basis: whether at each vector of their prevariety the initial ideal has no polynomial with a single term.
//!
//! Start at `tropical_basis`. `specs/Verdicts.antt` has the meaning of a verdict, `specs/TropicalBases.antt` the theorems by which it is right.
#![tactic(auto)]

mod bases;
mod basis;
mod error;
mod laws;
mod test;
mod tropical_bases;
mod verdict;

pub use error::BasisTestError;
pub use laws::tests_of_monomials_stay_within_limits;
pub use test::tropical_basis;
pub use tropical_bases::{
    monomials_decide, tropical_bases_are_tested, tropical_varieties_are_inside,
};
pub use verdict::Verdict;
