//! The rays and the lineality space of a cone that is given by inequalities and equations, and what is read from them.
//!
//! One inequality after another is taken in (the double description of Motzkin, Raiffa, Thompson and Thrall). Read
//! `gf_duality_theory/specs/Rays.antt` first, then `specs/Cones.antt`.
#![tactic(auto)]

mod combine;
mod describe;
mod eliminate;
mod equations;
mod face_lists;
mod faces;
mod facets;
mod finish;
mod flags;
mod further;
mod implied;
mod laws;
mod level;
mod numbers;
mod part;
mod parts;
mod pick;
mod project;
mod prune;
mod ray;
mod rays;
mod shared;
mod sieve;
mod split;
mod step;
mod straight;
mod sum;
mod zeros;

pub use faces::{Face, is_within};
pub use facets::listed;
pub use laws::{
    further_rows_stay_within_limits, small_systems_stay_within_limits,
    systems_with_room_stay_within_limits,
};
pub use numbers::RayNumbers;
pub use rays::Rays;
