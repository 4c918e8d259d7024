//! Cones cut by all points of a polynomial at once: the parts on which one of the points is highest, or two of them are.
//!
//! Read `specs/Heights.antt` first; start at `level`.
#![tactic(auto)]

mod above;
mod error;
mod generators;
mod heights;
mod highest;
mod inside;
mod levels;
mod marks;
mod parts;
mod sharing;
mod thinning;
mod ties;

pub use error::CutError;
pub use levels::level;
