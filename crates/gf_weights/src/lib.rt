//! The weight that is printed for a marked reduced Gröbner basis, and a vector in the relative interior of each of its flippable facets:
//! sums of the primitive vectors along the extreme rays of the intersection of its cone with a closed region, by default the non-negative
//! orthant.
//!
//! Start at `specs/Weights.antt`; `specs/Laws.antt` has the theorems.
#![tactic(auto)]

mod certificates;
mod cut;
mod error;
mod laws;
mod region;

pub use certificates::{BasisCertificates, FacetWitness, certify, certify_in, weight};
pub use error::WeightError;
pub use laws::{
    a_region_is_within_limits, certificates_are_unique, certificates_exist, regions_are_one,
    weights_give_bases, witnesses_are_inside,
};
pub use region::{RegionError, region_of};
