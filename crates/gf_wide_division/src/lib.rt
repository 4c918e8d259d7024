//! Reductions with numbers of 512 bits on the way: exact, or none.
//!
//! A `WideDividend` is a polynomial under reduction whose coefficients are `WideFrac`s. It starts from narrow polynomials, narrow
//! members reduce it, and what is left of it, a `WidePoly`, is narrowed at its end, or made monic before. Each call answers what the
//! narrow call of `gf_division` answers, by the same definitions, or `Beyond`: where a number of the working reaches 2^512, where
//! what is answered doesn't fit 127 bits, where an exponent doesn't fit, or for want of memory. It is for where the narrow call is
//! refused.
#![tactic(auto)]

mod autoreduction;
mod dividend;
mod polynomial;
mod precedence;
mod reducers;
mod remainders;
mod terms;

pub use autoreduction::wide_autoreduce;
pub use dividend::WideDividend;
pub use polynomial::WidePoly;
pub use precedence::Precedence;
pub use remainders::{wide_remainder, wide_remainder_again, wide_remainder_of_pair, wide_tail};
pub use terms::{Beyond, WideTerm};
