//! Sessions: a sequence of states that keeps where it has been, told to a person line by line.
//!
//! Lines are read one byte a call, and each is answered before the next is read. Nothing is known of the states but their `Moves`. Start at
//! `converse`; what a line is and asks for stands in `specs/Lines.antt` and `specs/Choices.antt`, what a session is in `specs/Sessions.antt`.
#![tactic(auto)]

mod choice;
mod laws;
mod line;
mod moves;
mod session;

pub use choice::Choice;
pub use laws::{transcripts_are_determined, transcripts_exist};
pub use moves::Moves;
pub use session::{SessionError, converse};
