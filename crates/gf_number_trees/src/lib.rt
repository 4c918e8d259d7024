//! Trees of numbers, on which reverse search and its waves are tried.
//!
//! The nodes are the numbers from 1 to a limit, and below k are 2k and 2k + 1. At numbers of one's choice the calls refuse.
#![tactic(auto)]

mod numbers;

pub use numbers::{NumberError, NumberTree};
