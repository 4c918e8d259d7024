//! Ideals of polynomials over the rational numbers, reduction, Gröbner bases: definitions and laws.
//!
//! Start at `specs/Membership.antt` and read on as `specs/Lib.antt` lists the files; `specs/Laws.antt` and
//! `specs/LawsOfBases.antt` have the theorems.
//! The functions compute nothing: each one's contract is a theorem, so that the check proves it.
#![tactic(auto)]

ghost use Rattle.gf_ideal_theory.specs.LawsOfBases.{BuchbergersCriterion, PairsAreSettled, BasesGoByTheirMarks, MembershipIsDecided, NormalFormsAreUnique};
ghost use Rattle.gf_ideal_theory.specs.LawsOfBases.{BasesMayBeInterreduced, BasesMayBeArranged, ReducedBasesAreUnique, RunsEndWithABasis};
ghost use Rattle.gf_ideal_theory.specs.LawsOfBases.{SmallIdealsHaveBases};
ghost use Rattle.gf_ideal_theory.specs.OrderTable.{OrderTable, MultiplesAreHomogeneous};
ghost use Rattle.gf_ideal_theory.specs.Laws.{MembersAreSpanned, IdealsAreClosed, StepsKeepTheIdeal, GeneratorsMayBeExchanged, StepsLeaveLessWork};
ghost use Rattle.gf_ideal_theory.specs.Laws.{OrdersAreWeights, MarksHaveWeights};

/// The members of an ideal, in whole numbers and in the ring's own variables, are the polynomials in these variables
/// that are sums of multiples of the generators.
pub fn members_are_spanned()
    ensures { MembersAreSpanned }
{}

/// An ideal holds its generators and is closed under sums, differences and multiples.
pub fn ideals_are_closed()
    ensures { IdealsAreClosed }
{}

/// Reduction by members of an ideal, S-polynomials and monic forms stay in the ideal.
pub fn steps_keep_the_ideal()
    ensures { StepsKeepTheIdeal }
{}

/// Generators may be dropped, reduced and made monic without a change of the ideal.
pub fn generators_may_be_exchanged()
    ensures { GeneratorsMayBeExchanged }
{}

/// A step of reduction leaves less work, so that division ends.
pub fn steps_leave_less_work()
    ensures { StepsLeaveLessWork }
{}

/// On finitely many comparisons an order is a positive weight (Sturmfels, *Gröbner Bases and Convex Polytopes*, 1).
pub fn orders_are_weights()
    ensures { OrdersAreWeights }
{}

/// Order by order, on which monomials finitely many comparisons are made by one positive weight.
pub fn order_table()
    ensures { OrderTable }
{}

/// Polynomials that an order along a facet is good on: exponents that are multiples of the normal apart make a
/// polynomial homogeneous by each weight that is orthogonal to the normal.
pub fn multiples_are_homogeneous()
    ensures { MultiplesAreHomogeneous }
{}

/// Marks that an order gives are given by a positive weight.
pub fn marks_have_weights()
    ensures { MarksHaveWeights }
{}

/// Buchberger's criterion, for a weight and for an order: a marked list is a Gröbner basis of the ideal that it
/// generates exactly where the S-polynomial of each pair is a sum of multiples below the least common multiple of the
/// marks; it is one where all S-polynomials reduce to zero (Becker, Weispfenning, *Gröbner Bases*).
pub fn buchberger_criterion()
    ensures { BuchbergersCriterion }
{}

/// Buchberger's first and second criterion, pairs of monomials, and reduction: what settles a pair.
pub fn pairs_are_settled()
    ensures { PairsAreSettled }
{}

/// A Gröbner basis is one for each weight and each order that gives its marks (Fukuda, Jensen, Thomas, section 2).
pub fn bases_go_by_their_marks()
    ensures { BasesGoByTheirMarks }
{}

/// With a Gröbner basis a polynomial is in the ideal exactly where its remainder is zero.
pub fn membership_is_decided()
    ensures { MembershipIsDecided }
{}

/// The normal form by the rule "greatest divisible monomial, first divisor" is a remainder, and the only one.
pub fn normal_forms_are_unique()
    ensures { NormalFormsAreUnique }
{}

/// A Gröbner basis becomes the reduced one by dropping members and reducing tails.
pub fn bases_may_be_interreduced()
    ensures { BasesMayBeInterreduced }
{}

/// The order in which the members of a basis are listed makes no difference.
pub fn bases_may_be_arranged()
    ensures { BasesMayBeArranged }
{}

/// The reduced Gröbner basis is unique, for a weight and for an order (Buchberger 1976).
pub fn reduced_basis_is_unique()
    ensures { ReducedBasesAreUnique }
{}

/// Buchberger's algorithm is right: a list that it ends with is a Gröbner basis of the generators' ideal.
pub fn runs_end_with_a_basis()
    ensures { RunsEndWithABasis }
{}

/// The zero ideal has the empty basis, and an ideal with one generator has the generator as its basis.
pub fn small_ideals_have_bases()
    ensures { SmallIdealsHaveBases }
{}
