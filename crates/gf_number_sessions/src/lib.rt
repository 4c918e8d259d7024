//! NumberMoves up to a limit, over which sessions are tried.
//!
//! From a number p each number n leads to p + n + 1. At one number of one's choice the calls refuse.
#![tactic(auto)]

mod numbers;

pub use numbers::{NumberError, NumberMoves};
