//! The command that takes turns with its input: a session over the bases of an ideal, line by line.
//!
//! `specs/Interactive.antt` defines its course, and when it is cut off.
#![tactic(auto)]

pub mod interactive;
