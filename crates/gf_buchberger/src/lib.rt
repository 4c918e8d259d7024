//! Buchberger's algorithm: the reduced Gröbner basis of an ideal for an order of monomials.
//!
//! Start at `basis`; `basis_by_second_run` is another run for where numbers don't fit, `wide_basis` makes runs that go on in wide
//! numbers. What a Gröbner basis is, and why the algorithm is right, stands in `gf_ideal_theory`
//! (`specs/Bases.antt`, `specs/LawsOfBases.antt`); what a run may have on its way in `specs/WorkLists.antt` there.
//! What the runs of this crate have, by the rule that they follow, stands in `specs/Ruled.antt` here.
#![tactic(auto)]

mod bases;
mod covered;
mod generators;
mod guides;
mod homogeneity;
mod laws;
mod leading;
mod left;
mod members;
mod pairs;
mod queue;
mod runs;
mod second_run;
mod sugars;
mod wide_run;

pub use bases::{BasisError, basis, refused};
pub use homogeneity::{NotHomogeneous, homogeneous};
pub use laws::{monomials_stay_within_limits, orders_that_suit};
pub use leading::leading as leading_index;
pub use runs::{are_coprime, is_single};
pub use second_run::basis_by_second_run;
pub use wide_run::wide_basis;
