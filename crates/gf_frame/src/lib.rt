//! A command as one record, whatever it reads, and what a run of it does (`specs/Commands.antt`, `specs/Runs.antt`).
#![tactic(auto)]

mod loading;

pub use loading::{LoadFrom, load_all, load_one};
