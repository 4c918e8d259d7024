//! A theorem on the test. The function computes nothing: its contract is the theorem.
ghost use Rattle.gf_tropical_basis_test.specs.Laws.{TestsOfMonomialsStayWithinLimits};

use gf_binomial_calls_theory::limits_are_met;
use gf_tropical::small_polynomials_stay_within_limits;

/// The test of a single monomial in at least one variable stays within its limits, if its exponents are below `2^31` and there is room for a
/// system without inequalities. So the premise of the clause `complete` of `tropical_basis` can be met.
pub fn tests_of_monomials_stay_within_limits()
    ensures { TestsOfMonomialsStayWithinLimits }
{
    small_polynomials_stay_within_limits();
    limits_are_met();
}
