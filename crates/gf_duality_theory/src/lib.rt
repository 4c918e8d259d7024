//! Cones by rows and by what generates them: lineality spaces, rays, echelon bases, faces. Definitions and laws.
//!
//! Start at `specs/Rays.antt` and read on as `specs/Lib.antt` lists the files; `specs/Laws.antt` has the theorems. The
//! functions compute nothing: each one's contract is a theorem, so that the check proves it.
#![tactic(auto)]

ghost use Rattle.gf_duality_theory.specs.Laws.{RaysAreUnique, SumsOfRaysAreInside, FacetsHaveWitnesses};

/// A cone has one lineality basis and one list of rays, whatever inequalities and equations it is given by (Ziegler,
/// *Lectures on Polytopes*, 1 and 2).
pub fn rays_are_unique()
    ensures { RaysAreUnique }
{}

/// The sum of the rays lies in the interior, and where a row has a witness, the sum of the rays on which it is zero is one.
pub fn sums_of_rays_are_inside()
    ensures { SumsOfRaysAreInside }
{}

/// The inequalities of the facets of a cone of full dimension are those with a witness: a vector on which all others are
/// positive, and they zero.
pub fn facets_have_witnesses()
    ensures { FacetsHaveWitnesses }
{}
