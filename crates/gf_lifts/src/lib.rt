//! Lifts: members of the basis of the parts become members of the ideal, and their tails are reduced.
//!
//! Start at `top_lift`, a lift that ends early, and `reduced_tails`; at `literal_lifts`, the lifts by remainders; and at `wide_crossed`, the lifts in
//! wide numbers.
#![tactic(auto)]

mod literal;
mod tails;
mod tops;
mod weights;
mod wide;

pub use literal::literal_lifts;
pub use tails::reduced_tails;
pub use tops::{Lifts, divided_at, index_at, index_of_mark, push, top_lift};
pub use weights::Facet;
pub use wide::wide_crossed;
