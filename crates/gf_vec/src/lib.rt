//! Vectors of whole numbers with entries of 128 bits, and the arithmetic of their entries.
//!
//! A vector is seen as the list of its entries, each from `-(2^127 - 1)` to `2^127 - 1`. No call wraps or stops: a
//! product or a sum that leaves this range is handed back as the refusal, with its operands.
#![tactic(auto)]

mod arithmetic;
mod compare;
mod content;
mod dot;
mod error;
mod lists;
mod root_sign;
mod sum;
mod vector;
mod weight;

pub use arithmetic::{difference, product, quotient, total};
pub use content::divide_by_content;
pub use dot::dot_slices;
pub use error::{VecError, VecOp, WideVector};
pub use lists::{copied, is_one_of, is_same, joined, same_vectors};
pub use root_sign::leading_sign;
pub use vector::IntVec;
pub use weight::{share, weight_of};
