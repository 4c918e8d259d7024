//! Whole numbers, and fractions.
use gf_frac::{Frac, Overflow};
use gf_gcd::{content, gcd};
use gf_rows::{fields, texts};
use std::alloc::Global;

/// What a call on whole numbers gives.
pub(crate) fn told(alloc: Global, call: &str, fields: &[&str]) -> Option<String> {
    match (call, fields) {
        ("gcd", [a, b]) => texts::text(alloc, gcd(a.parse().ok()?, b.parse().ok()?)),
        ("content", [v]) => texts::text(alloc, content(fields::vector(alloc, v)?.as_slice())),
        _ => None,
    }
}

/// A fraction, or the operation that is refused.
fn outcome(alloc: Global, found: Result<Frac, Overflow>) -> Option<String> {
    match found {
        Ok(x) => texts::fraction(alloc, &x),
        Err(o) => texts::overflow(alloc, &o),
    }
}

/// What an operation on two fractions gives.
fn operation(alloc: Global, call: &str, x: &Frac, y: &Frac) -> Option<String> {
    match call {
        "sum" => outcome(alloc, x.add(y)),
        "difference" => outcome(alloc, x.sub(y)),
        "product" => outcome(alloc, x.mul(y)),
        "quotient" if !y.is_zero() => outcome(alloc, x.div(y)),
        "equality" => texts::text(alloc, x == y),
        _ => None,
    }
}

/// What a call on fractions gives.
pub(crate) fn fraction_told(alloc: Global, call: &str, fields: &[&str]) -> Option<String> {
    match (call, fields) {
        ("parts", [x]) => {
            let x = fields::fraction(x)?;
            format!(in alloc; "{} {}", x.numer(), x.denom()).ok()
        }
        ("sign", [x]) => texts::comparison(alloc, fields::fraction(x)?.sign()),
        ("is_zero", [x]) => texts::text(alloc, fields::fraction(x)?.is_zero()),
        ("opposite", [x]) => texts::fraction(alloc, &fields::fraction(x)?.neg()),
        (call, [x, y]) => operation(alloc, call, &fields::fraction(x)?, &fields::fraction(y)?),
        _ => None,
    }
}
