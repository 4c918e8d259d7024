//! The way back across a facet: a flip along the opposite normal returns the basis at which the first flip started.
//!
//! Start at `flip_back`. `gf_flip` has the conditions and the result of a flip, `gf_facets_theory` the definition of neighbours, and `gf_initial_theory`
//! the theorem that there is at most one.
#![tactic(auto)]

mod back;
mod laws;

pub use back::flip_back;
pub use laws::flips_lead_back;
