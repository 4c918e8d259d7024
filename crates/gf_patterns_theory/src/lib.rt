//! Common refinements of fans, and the cones of patterns of polynomials: hypersurfaces, prevarieties, Minkowski fans.
//! Definitions and laws.
//!
//! Read `specs/Lib.antt` for the definitions in order; `specs/Laws.antt` has the theorems. The functions compute nothing:
//! each one's contract is a theorem, so that the check proves it.
#![tactic(auto)]

ghost use Rattle.gf_patterns_theory.specs.Laws.{MeetsAreRefinements, CutsAreRefinements, ConesHaveInteriors, FacesOfFacesAreFaces, MaximalConesSuffice};
ghost use Rattle.gf_patterns_theory.specs.Laws.{PatternsAreOfInitialForms, PatternsHaveCones, VerticesSuffice, PatternsAreRefined, VectorsAreInOneCone};

use gf_gordan::gordans_alternative;

/// The meets of the cones of two fans are a fan again, and its cones are exactly what a cone of the one and a cone of the
/// other share (Ziegler, *Lectures on Polytopes*, 7.1).
pub fn meets_are_refinements()
    ensures { MeetsAreRefinements }
{}

/// Parts that cover what the cones of two fans share meet in faces, and their faces are the common refinement.
pub fn cuts_are_refinements()
    ensures { CutsAreRefinements }
{
    gordans_alternative();
}

/// Each cone has a vector of its relative interior, by Gordan's alternative.
pub fn cones_have_interiors()
    ensures { ConesHaveInteriors }
{
    gordans_alternative();
}

/// The faces of a cone don't depend on the rows by which it is given, and faces of faces are faces.
pub fn faces_are_of_cones()
    ensures { FacesOfFacesAreFaces }
{}

/// Cones, and those of them that hold the others, have the same faces; of what cones a fan has nothing more is needed.
pub fn maximal_cones_suffice()
    ensures { MaximalConesSuffice }
{
    gordans_alternative();
}

/// The pattern of a polynomial at a vector is the list of the exponents of its initial form by it.
pub fn patterns_are_of_initial_forms()
    ensures { PatternsAreOfInitialForms }
{}

/// The cones of single exponents of a polynomial are its Minkowski fan, and those of pairs are its tropical hypersurface
/// (Maclagan, Sturmfels, *Introduction to Tropical Geometry*, 3.1).
pub fn patterns_have_cones()
    ensures { PatternsHaveCones }
{
    gordans_alternative();
}

/// The cones of the vertices of its Newton polytope suffice for the Minkowski fan of a polynomial, and those of pairs of vertices for
/// its tropical hypersurface (Ziegler, *Lectures on Polytopes*, 7.1).
pub fn vertices_suffice()
    ensures { VerticesSuffice }
{
    gordans_alternative();
}

/// The prevariety of several polynomials is the common refinement of their hypersurfaces, and their Minkowski fan that of
/// their fans.
pub fn patterns_are_refined()
    ensures { PatternsAreRefined }
{
    gordans_alternative();
}

/// Each vector that the fan has lies in the relative interior of exactly one of its cones, the closed cone of its own pattern.
pub fn vectors_are_in_one_cone()
    ensures { VectorsAreInOneCone }
{}
