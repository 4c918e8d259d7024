//! What several commands use: a refusal with the ring whose names its message uses, checks of the input, and texts.
#![tactic(auto)]

pub mod checks;
pub mod marked_sets;
pub mod printing;
pub mod reduced_sets;
pub mod refused;
pub mod written_sets;
