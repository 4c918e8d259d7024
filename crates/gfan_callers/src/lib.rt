//! Callers of `run` and of the list by several workers, each in one situation.
//!
//! What a caller ensures follows from the clauses of what it calls, and a wrong program would violate it; so a weaker clause there leaves the caller
//! without a proof. No program calls these functions.
#![tactic(auto)]

mod lists;
mod runs;
mod texts;

pub use lists::{listed_by_workers, workers_of_list};
pub use runs::{asks_for_a_job, code_of_run, refined_in_order};
pub use texts::written_twice;
