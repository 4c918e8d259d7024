//! Numbers of 512 bits, and fractions of them, by expressions in which each operation stands behind what it takes: `1 2 +`.
use gf_rows::fields::fraction;
use gf_rows::texts;
use gf_wide::{Natural, WideFrac};
use std::alloc::Global;

/// What an operation on two numbers gives.
fn of_naturals(word: &str, x: &Natural, y: &Natural) -> Option<Natural> {
    match word {
        "+" => x.plus(y),
        "-" => x.minus(y),
        "*" => x.times(y),
        _ => None,
    }
}

/// The number that an expression comes to; within it none where an operation has none.
fn natural(alloc: Global, text: &str) -> Option<Option<Natural>> {
    let mut stack = Vec::new(alloc);
    for word in text.split_whitespace() {
        if let Ok(n) = word.parse::<u128>() {
            stack.push(Natural::new(n)).ok()?;
            continue;
        }
        let (y, x) = (stack.pop()?, stack.pop()?);
        match of_naturals(word, &x, &y) {
            Some(n) => stack.push(n).ok()?,
            None => return Some(None),
        }
    }
    let n = stack.pop()?;
    Some(Some(n))
}

/// What an operation on two fractions gives.
fn of_fractions(word: &str, x: &WideFrac, y: &WideFrac) -> Option<WideFrac> {
    match word {
        "+" => x.plus(y),
        "-" => x.minus(y),
        "*" => x.times(y),
        ":" if !y.is_zero() => x.over(y),
        _ => None,
    }
}

/// The fraction that an expression comes to, likewise.
fn wide_fraction(alloc: Global, text: &str) -> Option<Option<WideFrac>> {
    let mut stack = Vec::new(alloc);
    for word in text.split_whitespace() {
        if let Some(x) = fraction(word) {
            stack.push(WideFrac::new(&x)).ok()?;
            continue;
        }
        let (y, x) = (stack.pop()?, stack.pop()?);
        match of_fractions(word, &x, &y) {
            Some(z) => stack.push(z).ok()?,
            None => return Some(None),
        }
    }
    let x = stack.pop()?;
    Some(Some(x))
}

/// What a fraction comes to in 128 bits.
fn narrowed(alloc: Global, x: &WideFrac) -> Option<String> {
    match x.narrowed() {
        Some(x) => texts::fraction(alloc, &x),
        None => texts::text(alloc, "wide"),
    }
}

/// A number, `wide` where it passes 128 bits.
fn natural_told(alloc: Global, n: Option<Natural>) -> Option<String> {
    match n {
        None => texts::text(alloc, "none"),
        Some(n) => match n.to_u128() {
            Some(k) => texts::text(alloc, k),
            None => texts::text(alloc, "wide"),
        },
    }
}

/// What a call on such numbers gives.
pub(crate) fn told(alloc: Global, call: &str, fields: &[&str]) -> Option<String> {
    match (call, fields) {
        ("number", [n]) => natural_told(alloc, natural(alloc, n)?),
        ("order", [m, n]) => texts::comparison(
            alloc,
            natural(alloc, m)??.compare(&natural(alloc, n)??),
        ),
        ("number_is_zero", [n]) => texts::text(alloc, natural(alloc, n)??.is_zero()),
        ("fraction", [x]) => match wide_fraction(alloc, x)? {
            Some(x) => narrowed(alloc, &x),
            None => texts::text(alloc, "none"),
        },
        ("opposite", [x]) => narrowed(alloc, &wide_fraction(alloc, x)??.neg()),
        ("fraction_is_zero", [x]) => texts::text(alloc, wide_fraction(alloc, x)??.is_zero()),
        _ => None,
    }
}
