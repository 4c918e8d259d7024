//! Initial forms of Gröbner bases, the two sides of a facet, and what a flip leads to: definitions and laws.
//!
//! Start at `specs/Parts.antt`; `specs/Laws.antt` has the theorems. The functions compute nothing: each one's contract
//! is a theorem, so that the check proves it.
#![tactic(auto)]

ghost use Rattle.gf_initial_theory.specs.Laws.{InitialFormsOfBases, PartsAreInitialForms, MonomialIdealsAreOfBases, NeighboursExist, NeighboursAreUnique};
ghost use Rattle.gf_initial_theory.specs.Laws.{NeighboursHaveParts, FlipsGiveNeighbours};

/// In the closed cone of a marked reduced Gröbner basis the initial forms of its members are the marked reduced basis of
/// the initial ideal (Sturmfels, *Gröbner Bases and Convex Polytopes*, 1 and 2).
pub fn initial_forms_of_bases()
    ensures { InitialFormsOfBases }
{}

/// The parts of a basis along the normal of a facet are its initial forms by each vector inside the facet.
pub fn parts_are_initial_forms()
    ensures { PartsAreInitialForms }
{}

/// Monomials generate the initial ideal at a vector of a region exactly where a basis of the region is the reduced one for it.
pub fn monomial_ideals_are_of_bases()
    ensures { MonomialIdealsAreOfBases }
{}

/// Across each flippable facet there is a neighbour (Mora, Robbiano 1988).
pub fn neighbours_exist()
    ensures { NeighboursExist }
{}

/// A basis has one neighbour at most across a facet, and crossing back gives the basis one came from (Fukuda, Jensen,
/// Thomas, *Computing Gröbner fans*, 4).
pub fn neighbours_are_unique()
    ensures { NeighboursAreUnique }
{}

/// What the leading monomials of two neighbours have to do with the normal between them.
pub fn neighbours_have_parts()
    ensures { NeighboursHaveParts }
{}

/// A flip gives the neighbour (Fukuda, Jensen, Thomas, *Computing Gröbner fans*, 4.2).
pub fn flips_give_neighbours()
    ensures { FlipsGiveNeighbours }
{}
