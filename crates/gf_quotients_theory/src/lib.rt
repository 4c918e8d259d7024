//! Saturations by division: of a Gröbner basis whose members have of a variable no less than their marks, the quotients by its
//! powers are a basis of the saturation. Definitions and laws.
//!
//! Start at `specs/Quotients.antt` and `specs/Ways.antt`; `specs/Laws.antt` has the theorems. The functions compute nothing: each
//! one's contract is a theorem, so that the check proves it.
#![tactic(auto)]

ghost use Rattle.gf_quotients_theory.specs.Laws.{QuotientsSaturate, MarksHaveLeast, WaysAreKept, StepsSaturate};
ghost use Rattle.gf_quotients_theory.specs.Laws.{BinomialsMayBeDivided, SaturationsMayBeDivided, SaturationsAreIdeals};

/// The quotients are a basis of the saturation by the variable (Sturmfels, *Gröbner Bases and Convex Polytopes*, 12.1).
pub fn quotients_saturate()
    ensures { QuotientsSaturate }
{}

/// Of homogeneous polynomials, marked by an order by which less of the variable is more, the marks have least of it.
pub fn marks_have_least()
    ensures { MarksHaveLeast }
{}

/// On the way to the saturation by all variables generators may be divided by any monomials, and variables may be left out.
pub fn ways_are_kept()
    ensures { WaysAreKept }
{}

/// Divided by a monomial, a difference of two monomials stays one.
pub fn binomials_may_be_divided()
    ensures { BinomialsMayBeDivided }
{}

/// One step on the way: a basis whose members are divided.
pub fn steps_saturate()
    ensures { StepsSaturate }
{}

/// What is in a saturation may be divided by monomials.
pub fn saturations_may_be_divided()
    ensures { SaturationsMayBeDivided }
{}

/// A saturation is an ideal, in which differences of monomials are added as vectors.
pub fn saturations_are_ideals()
    ensures { SaturationsAreIdeals }
{}
