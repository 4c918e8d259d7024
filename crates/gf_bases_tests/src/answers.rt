//! What comes of a basis: the whole, parts of it, or why there is none.
use gf_buchberger::BasisError;
use gf_frac::{Frac, Overflow};
use gf_poly::{MarkedSet, Pairs, Term};
use gf_rows::texts;
use std::alloc::Global;

/// Adds an answer behind others.
pub(crate) fn add(text: &mut String, answer: &str) -> Option<()> {
    if !text.is_empty() {
        text.push_str("; ").ok()?;
    }
    text.push_str(answer).ok()
}

/// A number without its sign.
fn unsigned(x: Frac) -> Frac {
    if x.numer() < 0 { x.neg() } else { x }
}

/// The members of a run whose budget is spent, and the pairs that aren't settled.
fn spent(alloc: Global, basis: &MarkedSet, unsettled: &Pairs) -> Option<String> {
    let basis = texts::set(alloc, basis)?;
    let mut text = format!(in alloc; "spent {basis}:").ok()?;
    for (i, j) in unsettled.items() {
        write!(text, " ({i},{j})").ok()?;
    }
    Some(text)
}

/// Why there is no basis. Numbers are told without their signs, which depend on the way.
fn refusal(alloc: Global, refusal: &BasisError) -> Option<String> {
    match refusal {
        BasisError::Overflow(o) => texts::operation(
            alloc,
            &Overflow {
                op: o.op,
                left: unsigned(o.left),
                right: unsigned(o.right),
            },
        ),
        BasisError::Exponent(o) => texts::exponents(alloc, o),
        BasisError::PairBudget { basis, unsettled } => spent(alloc, basis, unsettled),
        BasisError::Memory => None,
    }
}

/// The kind of a refusal.
fn kind(refusal: &BasisError) -> &'static str {
    match refusal {
        BasisError::Overflow(_) => "numbers",
        BasisError::Exponent(_) => "exponents",
        BasisError::PairBudget { .. } => "spent",
        BasisError::Memory => "memory",
    }
}

/// What is asked of a term.
fn of_term(alloc: Global, asked: &str, term: &Term) -> Option<String> {
    match asked {
        "coefficient" => texts::fraction(alloc, &term.coef),
        "numerator" => texts::text(alloc, term.coef.numer()),
        "exponents" => texts::numbers(alloc, term.mono.exponents()),
        _ => None,
    }
}

/// A part of a basis: `members`, their number; `terms 0`, the number of terms of the first; `coefficient 0 1`, `numerator 0 1` or
/// `exponents 0 1`, of the second of these.
fn part(alloc: Global, basis: &MarkedSet, words: &str) -> Option<String> {
    let words: Vec<&str> = words.split_whitespace().collect(alloc).ok()?;
    let [asked, indices @ ..] = words.as_slice() else {
        return None;
    };
    let members = basis.items();
    match (*asked, indices) {
        ("members", []) => texts::text(alloc, members.len()),
        ("terms", [i]) => {
            let member = members.get(i.parse::<usize>().ok()?)?;
            texts::text(alloc, member.poly().terms().len())
        }
        (asked, [i, k]) => {
            let member = members.get(i.parse::<usize>().ok()?)?;
            let terms = member.poly().terms();
            of_term(alloc, asked, terms.get(k.parse::<usize>().ok()?)?)
        }
        _ => None,
    }
}

/// Parts of a basis.
fn parts(alloc: Global, basis: &MarkedSet, asked: &str) -> Option<String> {
    let mut text = String::new(alloc);
    for words in asked.split(';') {
        add(&mut text, &part(alloc, basis, words)?)?;
    }
    Some(text)
}

/// A basis, or why there is none; where parts are asked for, these, or the kind of the refusal.
pub(crate) fn outcome(
    alloc: Global,
    found: &Result<MarkedSet, BasisError>,
    asked: &[&str],
) -> Option<String> {
    match (found, asked) {
        (Ok(basis), []) => texts::set(alloc, basis),
        (Ok(basis), [asked]) => parts(alloc, basis, asked),
        (Err(error), []) => refusal(alloc, error),
        (Err(error), [_]) => texts::text(alloc, kind(error)),
        _ => None,
    }
}
