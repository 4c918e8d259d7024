//! The list of all reduced Gröbner bases of an ideal, in the order of their paths: definitions and laws. The functions compute nothing: the contract of each is
//! a law.
//!
//! Start at `specs/BasesList.antt`, which says what such a list is.
#![tactic(auto)]

ghost use Rattle.gf_lists_theory.specs.BasesList.{WeightsAreServed, RegionsAreServed};
ghost use Rattle.gf_lists_theory.specs.OneList.{ListsExist, ListsAreOne, RegionListsAreOne};

/// The ideal of a set has a list of all its bases in the order of their paths.
pub fn lists_exist()
    ensures { ListsExist }
{}

/// The ideal of a set has at most one list of all bases in the order of their paths, so that `_bases` writes at most one text for a ring
/// and a set; and at most one of its bases in a region.
pub fn lists_are_one()
    ensures everywhere { ListsAreOne }
    ensures regions { RegionListsAreOne }
{}

/// A basis is in the list that `_bases` writes if and only if some positive weight gives it. For each positive weight for which monomials
/// generate the initial ideal, and for each term order, exactly one basis of the list is the reduced basis. Each positive weight is in the
/// closed cone of a basis of the list (Fukuda, Jensen, Thomas, *Computing Gröbner fans*, 2).
pub fn weights_are_served()
    ensures { WeightsAreServed }
{}

/// A basis is in the list of a region if and only if some weight of the region gives it. For each weight of the region for which monomials
/// generate the initial ideal exactly one basis of the list is the reduced basis. Each weight of the region is in the closed cone of a
/// basis of the list (Fukuda, Jensen, Thomas, *Computing Gröbner fans*, 2).
pub fn regions_are_served()
    ensures { RegionsAreServed }
{}
