//! Pure difference binomials, `x^u - x^v` and monomials: what steps of reduction and runs of Buchberger's algorithm make of
//! them, and that no coefficient on the way is large.
//!
//! Start at `specs/Binomials.antt`; `specs/Laws.antt` has the theorems. The functions compute nothing: each one's contract is a
//! theorem, so that the check proves it.
#![tactic(auto)]

ghost use Rattle.gf_binomials_theory.specs.Laws.{BinomialsStayBinomials, OperationsOnBinomialsFit, PrincipalRunsAreShort, PrincipalBasesAreForms};

/// Reductions, S-polynomials, monic forms, runs of Buchberger's algorithm and tails lead from pure difference binomials to such
/// (Eisenbud, Sturmfels, *Binomial ideals*, 1.1).
pub fn binomials_stay_binomials()
    ensures { BinomialsStayBinomials }
{}

/// No operation on coefficients of a run on pure difference binomials leaves the range of 128 bits.
pub fn operations_on_binomials_fit()
    ensures { OperationsOnBinomialsFit }
{}

/// A run on one polynomial none of whose monomials divides another has one member, and its sums of exponents are exponents of the
/// polynomial.
pub fn principal_runs_are_short()
    ensures { PrincipalRunsAreShort }
{}

/// A reduced Gröbner basis of an ideal with one generator is the generator, divided by one of its coefficients.
pub fn principal_bases_are_forms()
    ensures { PrincipalBasesAreForms }
{}
