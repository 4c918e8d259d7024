//! Monomials.
use gf_poly::Mono;
use gf_rows::{fields, texts};
use std::alloc::Global;

/// The exponents of a monomial.
fn exponents(alloc: Global, mono: &Mono) -> Option<String> {
    texts::numbers(alloc, mono.exponents())
}

/// What a call on two monomials in the same variables gives.
fn of_two(alloc: Global, call: &str, x: &Mono, y: &Mono) -> Option<String> {
    if x.exponents().len() != y.exponents().len() {
        return None;
    }
    match call {
        "lcm" => exponents(alloc, &x.lcm(y)),
        "divides" => texts::text(alloc, x.divides(y)),
        "quotient" if y.divides(x) => exponents(alloc, &x.quotient(y)),
        "product" => match x.mul(y) {
            Ok(mono) => exponents(alloc, &mono),
            Err(o) => texts::exponents(alloc, &o),
        },
        _ => None,
    }
}

/// 1, raised in turn by powers `(variable,exponent)`; each refusal stands in front.
fn raised(alloc: Global, n: usize, powers: &str) -> Option<String> {
    if n > 25 {
        return None;
    }
    let mut mono = Mono::one(alloc, n);
    let mut text = String::new(alloc);
    for power in powers.split_whitespace() {
        let power = fields::exponents(alloc, power)?;
        let [variable, by] = power.as_slice() else {
            return None;
        };
        let (variable, by) = (*variable as usize, *by);
        if variable >= mono.exponents().len() || by >= 1 << 31 {
            return None;
        }
        if let Err(o) = mono.raise(variable, by) {
            text.push_str(&texts::exponents(alloc, &o)?).ok()?;
            text.push(' ').ok()?;
        }
    }
    text.push_str(&exponents(alloc, &mono)?).ok()?;
    Some(text)
}

/// What a call on monomials gives.
pub(crate) fn told(alloc: Global, call: &str, fields: &[&str]) -> Option<String> {
    match (call, fields) {
        ("raised", [n, powers]) => raised(alloc, n.parse().ok()?, powers),
        ("degree", [x]) => texts::text(alloc, fields::monomial(alloc, x)?.degree()),
        (call, [x, y]) => of_two(
            alloc,
            call,
            &fields::monomial(alloc, x)?,
            &fields::monomial(alloc, y)?,
        ),
        _ => None,
    }
}
