//! A cone that remembers what was found out about its normals, and looks for it by guesses before it solves a system.
#![tactic(auto)]

mod aims;
mod deciding;
mod known;
mod near;
mod planar;
mod shots;
mod sums;
mod ways;

pub use known::KnownCone;
pub use near::interior_near;
pub use ways::Way;
