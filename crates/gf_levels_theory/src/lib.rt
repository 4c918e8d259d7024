//! Cones cut by all points of a polynomial at once: the parts on which one of the points is highest, or two of them are. Definitions and laws.
//!
//! Read `specs/Lib.antt` for the definitions in order; `specs/Laws.antt` has the theorems. The functions compute nothing: each one's contract is a
//! theorem, so that the check proves it.
#![tactic(auto)]

mod members;

ghost use Rattle.gf_levels_theory.specs.Laws.{LevelsAreOfParts, ProductsTellParts, LevelsAreOfPatterns};

use gf_gordan::gordans_alternative;
pub use members::Members;

/// The parts of a cone on which each of some points is highest are its level, where each point is nowhere above one of those; levels of two lists are
/// joined, parts inside another one aren't needed, and a level is the cuts of the cones by those of all points, or of all pairs.
pub fn levels_are_of_parts()
    ensures { LevelsAreOfParts }
{}

/// What the products of points with the rays and the lineality vectors of a cone say of its parts: that a point is nowhere above another one, that one is
/// as high as the highest one wherever another one is, and that a cone lies inside another one.
pub fn products_tell_parts()
    ensures { ProductsTellParts }
{}

/// The cones of a prevariety or a Minkowski fan, cut by one polynomial more, by its vertices alone, are cones for the fan of all of the polynomials.
pub fn levels_are_of_patterns()
    ensures { LevelsAreOfPatterns }
{
    gordans_alternative();
}
