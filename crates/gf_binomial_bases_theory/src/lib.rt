//! Gröbner bases of ideals that pure difference binomials generate: definitions and laws.
//!
//! The words are those of `gf_binomials_theory`, `gf_facets_theory` and `gf_initial_theory`; `specs/Laws.antt` has the theorems. The functions compute
//! nothing: each one's contract is a theorem, so that the check proves it.
#![tactic(auto)]

ghost use Rattle.gf_binomial_bases_theory.specs.Laws.{BasesAreOfBinomials, InitialFormsAreOfBinomials, MonomialIdealsHaveMonomialBases};

/// The marked reduced Gröbner bases of an ideal that pure difference binomials generate are of such (Eisenbud, Sturmfels,
/// *Binomial ideals*, 1.1).
pub fn bases_are_of_binomials()
    ensures { BasesAreOfBinomials }
{}

/// So are their initial forms at the vectors of their closed cones.
pub fn initial_forms_are_of_binomials()
    ensures { InitialFormsAreOfBinomials }
{}

/// The marked reduced Gröbner bases of an ideal that monomials generate are of monomials.
pub fn monomial_ideals_have_monomial_bases()
    ensures { MonomialIdealsHaveMonomialBases }
{}
