//! Monomials as exponent vectors, and the orders of them: definitions and laws.
//!
//! A monomial is the list of its exponents, the first variable first. Start at `specs/Exponents.antt`; what holds of
//! its words is in `proofs/ExponentsLaws.antt`, and the orders are in `specs/Orders.antt`. The functions compute
//! nothing: each one's contract is a law, so that the check proves it.
#![tactic(auto)]

ghost use Rattle.gf_exponents_theory.specs.Laws.{ProductsOfMonomials, LeastCommonMultiples, MonomialOrders, TermOrders, RowsAreWholeWeights};
ghost use Rattle.gf_exponents_theory.specs.Laws.{ComparisonsAreOrders};

/// Monomials are a commutative monoid in which a common factor cancels.
pub fn products_of_monomials()
    ensures { ProductsOfMonomials }
{}

/// Any two monomials have a least common multiple.
pub fn least_common_multiples()
    ensures { LeastCommonMultiples }
{}

/// Lex, deglex, revlex, the two weighted orders and the order of a facet are total and transitive, and products keep
/// them.
pub fn monomial_orders()
    ensures { MonomialOrders }
{}

/// Lex, deglex, weighted orders by natural weights and weighted revlex by positive ones are term orders: 1 is the least
/// monomial. Revlex is none, and the order of a facet only where no entry of the normal is positive.
pub fn term_orders()
    ensures { TermOrders }
{}

/// What counts for an exponent and what counts against it are a weight by whole numbers.
pub fn rows_are_whole_weights()
    ensures { RowsAreWholeWeights }
{}

/// What code compares on exponent lists of one length are lex and deglex.
pub fn comparisons_are_orders()
    ensures { ComparisonsAreOrders }
{}
