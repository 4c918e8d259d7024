//! Polynomials, marked polynomials and sets.
ghost use Rattle.std.specs.Prelude.{length};
ghost use Rattle.gf_order.specs.Weights.{AreBounded};
ghost use Rattle.gf_poly.specs.Polynomial.{HasVariables};

use gf_frac::Frac;
use gf_poly::{Marked, MarkedSet, Pairs, Poly, Polys, Term, descend};
use gf_rows::fields::fraction;
use gf_rows::{fields, texts};
use gf_vec::IntVec;
use std::alloc::Global;

/// What a call on terms in three variables, apart, gives.
pub(crate) fn terms_told(alloc: Global, call: &str, fields: &[&str]) -> Option<String> {
    let [text] = fields else {
        return None;
    };
    let terms = fields::terms(alloc, 3, text)?;
    match call {
        "sum" => texts::outcome(alloc, Poly::from_terms(terms)),
        "descend" => texts::text(alloc, descend(&terms)),
        _ => None,
    }
}

/// What a call on a polynomial and a term in the same variables gives.
fn with_term(alloc: Global, call: &str, f: &Poly, term: &Term) -> Option<String>
    requires { HasVariables (length term.now.mono) f.now }
{
    match call {
        "coefficient" => texts::fraction(alloc, &f.coefficient(&term.mono)),
        "product" => texts::outcome(alloc, f.mul_term(term.coef, &term.mono)),
        _ => None,
    }
}

/// The quotient by a number.
fn quotient(alloc: Global, f: &Poly, by: &Frac) -> Option<String> {
    if by.is_zero() {
        return None;
    }
    texts::outcome(alloc, f.divided(by))
}

/// The initial form by a weight.
fn initial_form(alloc: Global, f: &Poly, weight: &IntVec) -> Option<String>
    requires variables { HasVariables (length weight.now) f.now }
    requires bounded { AreBounded weight.now }
{
    texts::polynomial(alloc, &f.initial_form(weight).ok()?)
}

/// What a call on a polynomial in `n` variables and something else gives.
fn with(alloc: Global, call: &str, n: u32, f: &Poly, other: &str) -> Option<String>
    requires { HasVariables n f.now }
{
    match call {
        "multiple" => texts::outcome(alloc, f.scale(fraction(other)?)),
        "quotient" => quotient(alloc, f, &fraction(other)?),
        "initial_form" => initial_form(alloc, f, &fields::weight(alloc, n, other)?),
        _ => with_term(alloc, call, f, &fields::term(alloc, n, other)?),
    }
}

/// What a call on the polynomials of a set gives.
fn among(alloc: Global, call: &str, set: Vec<Poly>) -> Option<String> {
    match (call, set.as_slice()) {
        ("sum", [f, g]) => texts::outcome(alloc, f.add(g)),
        ("difference", [f, g]) => texts::outcome(alloc, f.sub(g)),
        ("copy", [f]) => texts::polynomial(alloc, &f.copy().ok()?),
        ("is_zero", [f]) => texts::text(alloc, f.is_zero()),
        ("count", _) => texts::text(alloc, Polys::new(set).items().len()),
        _ => None,
    }
}

/// What a call on polynomials in so many variables gives.
pub(crate) fn told(alloc: Global, call: &str, fields: &[&str]) -> Option<String> {
    match fields {
        [n, set] => among(
            alloc,
            call,
            fields::polynomials(alloc, n.parse().ok()?, set)?,
        ),
        [n, f, other] => {
            let n = n.parse::<u32>().ok()?;
            with(alloc, call, n, &fields::polynomial(alloc, n, f)?, other)
        }
        _ => None,
    }
}

/// A marked polynomial made monic: itself, its mark, the index of that, and its coefficient.
fn monic(alloc: Global, b: &Marked) -> Option<String> {
    let b = b.monic().ok()?;
    let member = texts::member(alloc, &b)?;
    let head = texts::numbers(alloc, b.head().exponents())?;
    let coefficient = texts::fraction(alloc, &b.copy().ok()?.coefficient())?;
    format!(in alloc; "{member}: {head} at {} with {coefficient}", b.index()).ok()
}

/// What a call on a marked set gives.
fn of_set(alloc: Global, call: &str, set: MarkedSet) -> Option<String> {
    match (call, set.items()) {
        ("variables", _) => texts::text(alloc, set.variables()),
        ("copy", _) => texts::set(alloc, &set.copy().ok()?),
        ("arranged", _) => texts::set(alloc, &set.arrange().ok()?),
        ("monic", [b]) => monic(alloc, b),
        _ => None,
    }
}

/// What a call on a marked set in so many variables gives.
pub(crate) fn set_told(alloc: Global, call: &str, fields: &[&str]) -> Option<String> {
    let [n, set] = fields else {
        return None;
    };
    of_set(alloc, call, fields::marked(alloc, n.parse().ok()?, set)?)
}

/// How many pairs, each a vector of two, a list holds.
pub(crate) fn pairs_told(alloc: Global, call: &str, fields: &[&str]) -> Option<String> {
    let ("count", [text]) = (call, fields) else {
        return None;
    };
    let mut pairs = Vec::new(alloc);
    for word in text.split_whitespace() {
        let pair = fields::exponents(alloc, word)?;
        let [i, j] = pair.as_slice() else {
            return None;
        };
        pairs.push((*i, *j)).ok()?;
    }
    texts::text(alloc, Pairs::new(pairs).items().len())
}
