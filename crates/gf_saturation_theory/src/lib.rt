//! Saturations of ideals by monomials and by the product of the variables, and how Gröbner bases in one more variable give them:
//! definitions and laws.
//!
//! Start at `specs/Saturations.antt`; `specs/Laws.antt` has the theorems. The functions compute nothing: each one's contract
//! is a theorem, so that the check proves it.
#![tactic(auto)]

ghost use Rattle.gf_saturation_theory.specs.Laws.{SaturationsAreEliminations, SaturationsCompose, VariablesOneByOne, BasesEliminate, SaturationsAreWorkedOut};
ghost use Rattle.gf_saturation_theory.specs.Laws.{MonomialsAreTold};

/// Rabinowitsch's trick for any monomial u: with `u*t - 1` and one more variable t among the generators, what the ideal has
/// without t is the saturation by u (Cox, Little, O'Shea, *Ideals, Varieties, and Algorithms*, 4.4).
pub fn saturations_are_eliminations()
    ensures { SaturationsAreEliminations }
{}

/// Saturating by one monomial after another is saturating by their product.
pub fn saturations_compose()
    ensures { SaturationsCompose }
{}

/// Saturating by one variable after another is saturating by the product of all, and 1 ends it early.
pub fn variables_one_by_one()
    ensures { VariablesOneByOne }
{}

/// Of a Gröbner basis for the weight of the last variable before lex, the members without this variable generate what the ideal
/// has without it (Cox, Little, O'Shea, *Ideals, Varieties, and Algorithms*, 3.1).
pub fn bases_eliminate()
    ensures { BasesEliminate }
{}

/// So the saturation by a monomial is worked out by one basis in one more variable.
pub fn saturations_are_worked_out()
    ensures { SaturationsAreWorkedOut }
{}

/// An ideal has a polynomial of one term exactly where 1 is in its saturation, and a basis tells by its marks whether it is.
pub fn monomials_are_told()
    ensures { MonomialsAreTold }
{}
