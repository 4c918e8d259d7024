//! Faces of cones by the lists of their rays, dimensions of faces, and fans. Definitions and laws.
//!
//! Read `specs/Lib.antt` for the definitions in order; `specs/Laws.antt` has the theorems. The functions compute nothing:
//! each one's contract is a theorem, so that the check proves it.
#![tactic(auto)]

ghost use Rattle.gf_fans_theory.specs.Laws.{FacesAreRayLists, FacetsHaveOneLess, FansAreTestedByPairs, FacesAreOfCones, SeparatedConesMeetInFaces};

/// A face of a cone is its list of rays (Ziegler, *Lectures on Polytopes*, 2).
pub fn faces_are_ray_lists()
    ensures { FacesAreRayLists }
{}

/// The greatest proper faces of a cone have one dimension less, so dimensions need no arithmetic.
pub fn facets_have_one_less()
    ensures { FacetsHaveOneLess }
{}

/// Where the meet of any two cones is a face of both, the meet of any two of their faces is one of both, and no cone has a
/// lineality space of its own.
pub fn fans_are_tested_by_pairs()
    ensures { FansAreTestedByPairs }
{}

/// A face of a cone is one whatever rows the cone is given by, and so it is with cones that meet in a face of both.
pub fn faces_are_of_cones()
    ensures { FacesAreOfCones }
{}

/// Rows of two cones that keep them apart, but for the rays that they share, show that they meet in a face of both.
pub fn separated_cones_meet_in_faces()
    ensures { SeparatedConesMeetInFaces }
{}
