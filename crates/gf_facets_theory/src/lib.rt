//! Cones of marked lists of polynomials: rows, normals, facets, flippable facets, regions, neighbours. Definitions and laws.
//!
//! Start at `specs/Rows.antt` and read on as `specs/Lib.antt` lists the files; `specs/Laws.antt` has the theorems.
//! The functions compute nothing: each one's contract is a theorem, so that the check proves it.
#![tactic(auto)]

ghost use Rattle.gf_facets_theory.specs.Laws.{LexPositiveVectors, VectorsAreOrdered, LinearMapsGivePoints, NormalsDefineCones, FacetsDefineCones};
ghost use Rattle.gf_facets_theory.specs.Laws.{WeightsAreSolutions, FacetsAreTold, FlippableNormalsAreTold};

/// A vector is zero, or its first nonzero entry is positive, or that of its negative is; vectors of the second kind are
/// closed under sums and positive multiples.
pub fn lex_positive_vectors()
    ensures { LexPositiveVectors }
{}

/// The order of vectors by their first different entry is strict and total, and is that of `IntVec::lex_cmp`;
/// `IntVec::root_sign` tells the negative vectors at the root (1, .., 1).
pub fn vectors_are_ordered()
    ensures { VectorsAreOrdered }
{}

/// Where a linear map has lex-positive values on the rows of a system and is zero on its equations, the system has a
/// solution.
pub fn linear_maps_give_points()
    ensures { LinearMapsGivePoints }
{}

/// The closed and the open cone of a marked list are told by its normals (Fukuda, Jensen, Thomas, *Computing Gröbner
/// fans*, 2).
pub fn normals_define_cones()
    ensures { NormalsDefineCones }
{}

/// Where the open cone has a vector, the normals of the facets alone define the closed and the open cone (Schrijver,
/// *Theory of Linear and Integer Programming*, 8.4).
pub fn facets_define_cones()
    ensures { FacetsDefineCones }
{}

/// The positive weights that set each mark above the rest are the solutions of the system of rows and unit vectors
/// (Sturmfels, *Gröbner Bases and Convex Polytopes*, 2).
pub fn weights_are_solutions()
    ensures { WeightsAreSolutions }
{}

/// A normal is one of a facet, or a multiple of it is a combination of the other normals; never both (Farkas' lemma).
pub fn facets_are_told()
    ensures { FacetsAreTold }
{}

/// A facet may be crossed inside a region, or a multiple of its normal is a combination of the other normals, the region's
/// rows and the unit vectors; never both.
pub fn flippable_normals_are_told()
    ensures { FlippableNormalsAreTold }
{}
