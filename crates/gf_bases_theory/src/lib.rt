//! The set of reduced Gröbner bases of an ideal: each order has one, and they are finitely many.
//!
//! `specs/Laws.antt` has the theorems; the words are those of `gf_facets_theory` and `gf_ideal_theory`. Numbers are of any size here, and no function
//! computes anything: each one's contract is a theorem, so that the check proves it.
#![tactic(auto)]

ghost use Rattle.gf_bases_theory.specs.Laws.{DicksonsLemma, MarkedBasesAreReduced, OnlyIdealsCount, BasesAreToldByMarks, HomogeneousBases, ReducedBasesExist};
ghost use Rattle.gf_bases_theory.specs.Laws.{WeightsHaveBases, VectorsHaveBases, BasesAreFinite};

/// In each sequence of monomials one divides a later one (Dickson 1913).
pub fn dicksons_lemma()
    ensures { DicksonsLemma }
{}

/// A marked reduced basis is the reduced one for exactly the weights and orders that give its marks.
pub fn marked_bases_are_reduced()
    ensures { MarkedBasesAreReduced }
{}

/// Generators of one ideal have the same marked reduced bases, and each of these generates the ideal.
pub fn only_ideals_count()
    ensures { OnlyIdealsCount }
{}

/// Two marked reduced bases are one as soon as the marks of the first are multiples of marks of the second.
pub fn bases_are_told_by_marks()
    ensures { BasesAreToldByMarks }
{}

/// Homogeneous generators have homogeneous marked reduced bases.
pub fn homogeneous_bases()
    ensures { HomogeneousBases }
{}

/// Each order that suits the generators has a reduced Gröbner basis (Buchberger 1965), and one alone.
pub fn reduced_bases_exist()
    ensures { ReducedBasesExist }
{}

/// Each vector of a region lies in the closed cone of a basis of the region.
pub fn weights_have_bases()
    ensures { WeightsHaveBases }
{}

/// Any whole vector lies in the closed cone of a basis, where the generators are homogeneous by a positive grade.
pub fn vectors_have_bases()
    ensures { VectorsHaveBases }
{}

/// An ideal has finitely many marked reduced bases (Mora, Robbiano 1988).
pub fn bases_are_finite()
    ensures { BasesAreFinite }
{}
