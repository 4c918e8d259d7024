//! What holds of the answers of `gfan _bases`, whatever way the list is asked for: definitions and laws.
//!
//! Start at `specs/Answers.antt`, which says what the jobs of `_bases` are, what they read, and what an answer is. The functions
//! compute nothing: each one's contract is a theorem, so that the check proves it.
#![tactic(auto)]

ghost use Rattle.gfan_theory.specs.Answers.{AnswersAreLists};
ghost use Rattle.gfan_theory.specs.OneText.{AllTextsAreOne, OneIdealHasOneText};
ghost use Rattle.gfan_theory.specs.Served.{AnswersServe};
ghost use Rattle.gfan_theory.specs.Certified.{AnswersAreCertified};
ghost use Rattle.gfan_theory.specs.Joined.{RunsAreJoined};
ghost use Rattle.gfan_theory.specs.Differences.{RegionsOfDifferencesFit, CertificatesOfDifferencesFit};
ghost use Rattle.gfan_theory.specs.Linear.{LinearRunsStayWithinLimits, LinearRuledRunsStayWithinLimits};
ghost use Rattle.gfan_theory.specs.Linear.{LinearIdealsStayWithinLimits, LinearWeightsStayWithinLimits, LinearSessionsStayWithinLimits};
ghost use Rattle.gfan_theory.specs.Continued.{GivenListsStayWithinLimits, ContinuationsStayWithinLimits, ContinuationsWithinStayWithinLimits};
ghost use Rattle.gfan_theory.specs.Summaries.{SummariesStayWithinLimits};
ghost use Rattle.gfan_theory.specs.Tested.{LinearTestsStayWithinLimits};
ghost use Rattle.gfan_theory.specs.SmallSets.{StatisticsOfSmallSetsFit, SpacesOfSmallSetsFit};
ghost use Rattle.gfan_theory.specs.Everyday.{RegionsOfBinomialsStayWithinLimits, CertificatesOfVariablesStayWithinLimits};
ghost use Rattle.gfan_theory.specs.Everyday.{SaturationsOfVariablesStayWithinLimits};
ghost use Rattle.gfan_theory.specs.SmallCones.{ConesOfFewRowsFit, FewRowsHaveRoom, ConesOfLinearSetsFit};
ghost use Rattle.gfan_theory.specs.LinearFans.{FansOfLinearSetsFit};
ghost use Rattle.gfan_theory.specs.PlaneFans.{MigrationsOfPlaneFansFit, RefinementsOfPlaneFansFit};
ghost use Rattle.gfan_theory.specs.TropicalFans.{TropicalFansFit};
ghost use Rattle.gfan_theory.specs.BasisTests.{BasisTestsOfDifferencesStayWithinLimits};
ghost use Rattle.gfan_theory.specs.Dimensions.{DimensionsAgree};
ghost use Rattle.gfan_theory.specs.Homogenizations.{HomogenizationsFit};

pub mod laws;

use gf_tropical::small_polynomials_stay_within_limits;

/// Each answer of `_bases` is the text of the list of all bases of an ideal in a region, or of the part of that list that follows a basis: the ideal
/// and the ring are those of the input, the region is that of the file of `--within`, and the basis is that of the file of `--after`.
pub fn answers_are_lists()
    ensures { AnswersAreLists }
{}

/// Two runs of `_bases` that succeed on the same bytes, both with or both without `--within`, `--after`, `-g` and `--certificates`, write the same
/// bytes, whatever their files are called, and whatever their limits, budgets and numbers of workers are.
pub fn all_texts_are_one()
    ensures { AllTextsAreOne }
{}

/// Two runs of `_bases` on rings with the same names and generators of one ideal write the same bytes, also if one of them reads generators and
/// the other a marked Gröbner basis with `-g`.
pub fn one_ideal_has_one_text()
    ensures { OneIdealHasOneText }
{}

/// For each weight of the region for which monomials generate the initial ideal, its reduced basis is among the bases that an answer consists of
/// and those up to the basis of the file of `--after`, once; and each weight of the region lies in the closed cone of one of them (Fukuda, Jensen, Thomas,
/// *Computing Gröbner fans*, 2).
pub fn answers_serve()
    ensures { AnswersServe }
{}

/// In each answer with certificates, also in a region or after a basis, each basis is the reduced one for the weight that is printed after it; and
/// exactly the facets that a flip may cross are printed, each with a vector of the region inside it (Fukuda, Jensen, Thomas,
/// *Computing Gröbner fans*, 2 and 4).
pub fn answers_are_certified()
    ensures { AnswersAreCertified }
{}

/// A list that was cut and then continued is the list of one run: if one run stops at its limit, and another continues after the last basis that the
/// first one wrote, read from its printed form, then the two texts, joined, are the answer of a run without a limit.
pub fn runs_are_joined()
    ensures { RunsAreJoined }
{}

/// In at most four variables, at most three rows that are differences of two entries, such as (1,-1,0), cut out a region whose root is worked out within all
/// limits, if some positive vector makes them positive; and the certificates of a marked list whose normals, with the rows of the region, are at most three
/// such rows, are worked out within all limits.
pub fn differences_fit()
    ensures regions { RegionsOfDifferencesFit }
    ensures certificates { CertificatesOfDifferencesFit }
{}

/// The premise of completeness of `_bases --within` is met by the difference of two monomials, neither of which divides the other, in at most three variables
/// and with exponents up to 500, in the region of at most two rows that are differences of two entries.
pub fn regions_of_binomials_stay_within_limits()
    ensures { RegionsOfBinomialsStayWithinLimits }
{}

/// The premises of completeness of `_bases` and `_bases --within` are met, with certificates too, by the difference of two of at most three variables, in the
/// region of at most one row that is a difference of two entries.
pub fn certificates_of_variables_stay_within_limits()
    ensures { CertificatesOfVariablesStayWithinLimits }
{}

/// The premises of completeness of `_buchberger`, of `_bases`, with certificates too, and of `_bases --within` are met by variables and differences of
/// variables, as `a-b, b-c`: that of `_buchberger` in any number of variables, by each order but a weight that isn't positive before reverse lex, and the
/// others in at most four. The budget of pairs is at least that of a list with as many members as there are variables.
pub fn linear_ideals_stay_within_limits()
    ensures runs { LinearRunsStayWithinLimits }
    ensures ruled { LinearRuledRunsStayWithinLimits }
    ensures ideals { LinearIdealsStayWithinLimits }
{}

/// In at most four variables, the checks of a marked set of variables and differences of variables stay within their limits, and the premise of completeness
/// of `_weightvector` is met if such a set is a reduced Gröbner basis for its marking.
pub fn linear_weights_stay_within_limits()
    ensures { LinearWeightsStayWithinLimits }
{}

/// The premises of completeness of `_ismarkedgroebnerbasis` and `_doesidealcontain` are met by marked sets of variables and differences of variables, in at
/// most four variables; that of the latter if the set is a Gröbner basis for its marking, and the other polynomials are of this kind too.
pub fn linear_tests_stay_within_limits()
    ensures { LinearTestsStayWithinLimits }
{}

/// The premises of completeness of `_bases -g`, with certificates too, and of `_bases -g --within` are met by a marked set of variables and differences of
/// variables, in at most four variables, that is a Gröbner basis for its marking.
pub fn given_lists_stay_within_limits()
    ensures { GivenListsStayWithinLimits }
{}

/// The premise of completeness of `_bases --after`, with certificates and with `-g` too, is met by variables and differences of variables, as `a-b, b-c`, in
/// at most four variables, if the marked set of the file is of such polynomials and stands for a basis of their ideal; and that of `_bases --after --within`,
/// with `-g` too, in the region of at most three rows that are differences of two entries, if it stands for a basis in the region.
pub fn continuations_stay_within_limits()
    ensures everywhere { ContinuationsStayWithinLimits }
    ensures within { ContinuationsWithinStayWithinLimits }
{}

/// The premise of completeness of `_generated` is met by the number 0, and by each number whose generators are `a-b`, `b-c` and `c-d`, with a limit up to
/// 10^12. The budget of pairs is at least that of a list with four members.
pub fn summaries_stay_within_limits()
    ensures { SummariesStayWithinLimits }
{}

/// The premise of completeness of `_interactive` is met by a marked set of variables and differences of variables, in at most four variables, that is a
/// reduced Gröbner basis for its marking.
pub fn linear_sessions_stay_within_limits()
    ensures { LinearSessionsStayWithinLimits }
{}

/// The premise of completeness of `_saturation` is met by differences of variables, as `a-b, b-c`, in any number of variables. The budget of pairs is at least
/// that of a list with one member more than there are variables.
pub fn saturations_of_variables_stay_within_limits()
    ensures { SaturationsOfVariablesStayWithinLimits }
{}

/// The premises of completeness of `_stats` and `_homogeneityspace` are met by polynomials in at most three variables in which no exponent is greater
/// than 3.
pub fn spaces_of_small_sets_stay_within_limits()
    ensures statistics { StatisticsOfSmallSetsFit }
    ensures spaces { SpacesOfSmallSetsFit }
{}

/// The premise of completeness of `_groebnercone --vectorinput` is met by few inequalities and equations with small entries, in sections without certificates
/// and as a fan, also in the non-negative orthant, and in sections with certificates by inequalities that some vector makes positive: in three variables by two
/// rows with entries up to 1, in two variables by four rows with entries up to 1, three up to 4 or two up to 50, where an equation counts as two rows and the
/// orthant as one for each variable.
pub fn cones_of_few_rows_fit()
    ensures cones { ConesOfFewRowsFit }
    ensures room { FewRowsHaveRoom }
{}

/// The premise of completeness of `_groebnercone` is met by a reduced basis of variables and differences of variables, in at most three variables: in sections,
/// also with certificates and in the non-negative orthant; and as a fan, in the non-negative orthant if there are at most two variables.
pub fn cones_of_linear_sets_fit()
    ensures { ConesOfLinearSetsFit }
{}

/// The premise of completeness of `_topolyhedralfan` is met by one reduced basis of variables and differences of variables in at most three variables, and by
/// several whose cones meet in faces of both, in two variables, or in three if each has one member.
pub fn fans_of_linear_sets_fit()
    ensures { FansOfLinearSetsFit }
{}

/// The premises of completeness of `_migratefan` and `_fancommonrefinement` are met by fans in the plane whose rays and lineality vectors have no entries but
/// 0, 1 and -1, however many cones they have.
pub fn plane_fans_fit()
    ensures migrations { MigrationsOfPlaneFansFit }
    ensures refinements { RefinementsOfPlaneFansFit }
{}

/// The premises of completeness of `_tropicalhypersurface`, `_tropicalintersection` and `_minkowskisum` are met by polynomials in at most three variables with
/// few terms and small exponents, as three terms in three variables with exponents up to 2.
pub fn tropical_fans_fit()
    ensures { TropicalFansFit }
{
    small_polynomials_stay_within_limits();
}

/// The premise of completeness of `_tropicalintersection --basistest` is met by differences of variables, such as `a-b, b-c`, in at most three variables.
pub fn basis_tests_of_differences_stay_within_limits()
    ensures { BasisTestsOfDifferencesStayWithinLimits }
{
    small_polynomials_stay_within_limits();
}

/// The premise of completeness of `_homogenize` is met by polynomials of total degrees below 2^31, in any number of variables.
pub fn homogenizations_fit()
    ensures { HomogenizationsFit }
{}

/// The dimension that `_groebnercone` prints of a cone in sections, which is the number of variables less the number of implied equations, is the dimension of
/// what its rays and lineality vectors span, which is the one that a fan file lists it with.
pub fn dimensions_agree()
    ensures { DimensionsAgree }
{}
