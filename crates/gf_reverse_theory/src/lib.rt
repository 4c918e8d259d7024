//! Reverse search over the marked reduced Gröbner bases of an ideal in a region: definitions and laws.
//!
//! Start at `specs/Upward.antt`; `specs/Laws.antt` has the theorems. The functions compute nothing: each one's contract
//! is a theorem, so that the check proves it.
#![tactic(auto)]

ghost use Rattle.gf_reverse_theory.specs.TermOrders.{TermOrdersHaveBases};
ghost use Rattle.gf_reverse_theory.specs.Laws.{BasesAreListed, WeightsAreListed, NegativeNormalsCanBeCrossed, RootHasNoWayUp, CrossingsFall, NoCycles};
ghost use Rattle.gf_reverse_theory.specs.Laws.{BasesMakeATree, TheTreeIsFinite, BasesHavePaths, IdealsHaveOneList, WhatIsLeft};

/// The list of all bases holds exactly the marked reduced Gröbner bases of the ideal in the region (Mora, Robbiano 1988).
pub fn bases_are_listed()
    ensures { BasesAreListed }
{}

/// Each vector of the region lies in the closed cone of a listed basis; where monomials generate the initial ideal, one of
/// them is the reduced one for the vector.
pub fn weights_are_listed()
    ensures { WeightsAreListed }
{}

/// A basis of a region with a normal that is negative at a root weight has a flippable one (Fukuda, Jensen, Thomas, *Computing
/// Gröbner fans*, 3). The weight's entries are at least 0.
pub fn negative_normals_can_be_crossed()
    ensures { NegativeNormalsCanBeCrossed }
{}

/// No flippable normal is negative exactly at the reduced basis for the order of the root weight, then lex.
pub fn root_has_no_way_up()
    ensures { RootHasNoWayUp }
{}

/// Where a facet is crossed, something enters the initial ideal; where its normal is negative, what enters pulls out something
/// smaller, so that a natural number falls.
pub fn crossings_fall()
    ensures { CrossingsFall }
{}

/// No way along parents leads back to where it began.
pub fn no_cycles()
    ensures { NoCycles }
{}

/// Parents make a tree, whose root is the reduced basis for the order of the region's root.
pub fn bases_make_a_tree()
    ensures { BasesMakeATree }
{}

/// Below each basis are not more than there are bases of its ideal in the region.
pub fn the_tree_is_finite()
    ensures { TheTreeIsFinite }
{}

/// Each basis has one path from the root, and the whole list below the root holds exactly the bases of the ideal.
pub fn bases_have_paths()
    ensures { BasesHavePaths }
{}

/// In each region an ideal has exactly one list of its bases: each of them once, in the order of their paths.
pub fn ideals_have_one_list()
    ensures { IdealsHaveOneList }
{}

/// A walker's step answers the first of the bases that were left and leaves the others.
pub fn what_is_left()
    ensures { WhatIsLeft }
{}

/// For each term order an ideal has one reduced basis, and some positive weight gives it: of the comparisons of finitely many monomials, each
/// is one of a positive weight (Sturmfels, *Gröbner Bases and Convex Polytopes*, 1).
pub fn term_orders_have_bases()
    ensures { TermOrdersHaveBases }
{}
