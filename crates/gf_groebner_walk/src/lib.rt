//! The reduced Gröbner basis for an order, by several ways: by runs of Buchberger's algorithm, and for lex and for a weight with ties
//! broken by lex also by a walk from the basis for deglex, across one facet after another.
//!
//! Start at `basis_by_several_ways`, and for the root of a search tree at `root_in`. A walk crosses facets with normals that are negative
//! at the weight. If none of these can be crossed, the walk has reached the basis for the weight, ties broken by lex: that is a theorem of
//! `gf_reverse_theory`. Source: Fukuda, Jensen, Thomas, *Computing Gröbner fans*, 3; Collart, Kalkbrener, Mall, *Converting bases with the Gröbner
//! walk*.
#![tactic(auto)]

mod root;
mod several_ways;
mod signs;
mod steps;
mod walk;
mod weights;

pub use root::root_in;
pub use several_ways::basis_by_several_ways;
