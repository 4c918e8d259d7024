//! What the fields of rows say, and how values are told, for the programs that read tests row by row.
#![tactic(auto)]

pub mod fields;
pub mod texts;
