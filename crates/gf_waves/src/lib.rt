//! A walker's list worked off in waves, by several workers.
//!
//! The rest of the list is a row of pieces in list order: ready nodes, and walkers for what is between and behind them. A wave works on
//! the first walkers of the row side by side. Start at `Waves::next_written`; the words of its contract are in `specs/Frontier.antt` and
//! `specs/Wave.antt`.
#![tactic(auto)]

mod batch;
mod gate;
mod planning;
mod rows;
mod serving;
mod wave;
mod waves;

pub use gate::{FreeGate, Gate};
pub use waves::Waves;
