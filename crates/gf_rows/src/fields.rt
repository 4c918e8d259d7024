//! What the fields of a row say: vectors `(1,-2)`, polynomials `3*a^2 -b +1`, and sets of them.
ghost use Rattle.std.specs.Prelude.{◌≡◌, ◌<◌, length, IfSome, IsTrue, OnSome};
ghost use Rattle.gf_gordan.specs.Alternative.{AreRows};
ghost use Rattle.gf_order.specs.Weights.{AreBounded};
ghost use Rattle.gf_poly.specs.Monomial.{IsMonomial};
ghost use Rattle.gf_poly.specs.Marking.{Each};
ghost use Rattle.gf_poly.specs.Polynomial.{HasVariables};

use gf_frac::Frac;
use gf_poly::{Marked, MarkedSet, Mono, Poly, ROOM, Term};
use gf_vec::IntVec;
use std::alloc::Global;

/// The entries between commas.
fn entries(alloc: Global, text: &str) -> Option<IntVec> {
    let mut entries = Vec::new(alloc);
    for word in text.split(',') {
        if word.is_empty() {
            continue;
        }
        let entry = word.parse::<i128>().ok()?;
        if entry == i128::MIN {
            return None;
        }
        entries.push(entry).ok()?;
    }
    Some(IntVec::from_vec(entries))
}

/// The vector between parentheses.
pub fn vector(alloc: Global, text: &str) -> Option<IntVec> {
    entries(alloc, text.strip_prefix('(')?.strip_suffix(')')?)
}

/// The vector between parentheses, which has `n` entries.
pub fn row(alloc: Global, n: u32, text: &str) -> Option<IntVec>
    ensures { IfSome result (λ v. length v ≡ n) }
{
    let vector = vector(alloc, text)?;
    if vector.as_slice().len() != n as usize {
        return None;
    }
    Some(vector)
}

/// Whether no entry passes 2^63.
pub fn is_bounded(entries: &[i128]) -> bool
    ensures { IsTrue result → AreBounded entries.now }
{
    entries.iter().all(|x| x.unsigned_abs() <= 1 << 63)
}

/// The vector between parentheses, which has `n` entries, none of which passes 2^63.
pub fn weight(alloc: Global, n: u32, text: &str) -> Option<IntVec>
    ensures entries { IfSome result (λ v. length v ≡ n) }
    ensures bounded { IfSome result AreBounded }
{
    let weight = row(alloc, n, text)?;
    if !is_bounded(weight.as_slice()) {
        return None;
    }
    Some(weight)
}

/// Vectors of `n` entries, apart.
pub fn rows(alloc: Global, n: u32, text: &str) -> Option<Vec<IntVec>>
    ensures { IfSome result (λ vs. AreRows n vs.items) }
{
    let mut rows = Vec::new(alloc);
    for word in text.split_whitespace() {
        let found = row(alloc, n, word)?;
        rows.push(found).ok()?;
    }
    Some(rows)
}

/// The exponents that a vector has; none where one of them passes `2^32 - 1`.
pub fn exponents(alloc: Global, text: &str) -> Option<Vec<u32>> {
    let mut exponents = Vec::new(alloc);
    for entry in vector(alloc, text)?.as_slice() {
        exponents.push(u32::try_from(*entry).ok()?).ok()?;
    }
    Some(exponents)
}

/// The monomial with these exponents.
pub fn monomial(alloc: Global, text: &str) -> Option<Mono> {
    let exponents = exponents(alloc, text)?;
    if exponents.len() > ROOM || !exponents.iter().all(|k| *k < 1 << 31) {
        return None;
    }
    Some(Mono::new(alloc, &exponents))
}

/// The fraction `2/6`, or `2`.
pub fn fraction(text: &str) -> Option<Frac> {
    let (p, q) = text.split_once('/').unwrap_or((text, "1"));
    let (p, q) = (p.parse::<i128>().ok()?, q.parse::<i128>().ok()?);
    if p == i128::MIN || q <= 0 {
        return None;
    }
    Some(Frac::new(p, q))
}

/// The names of the variables.
pub const NAMES: [&str; 6] = ["a", "b", "c", "d", "e", "f"];

/// Raises a monomial by the power `b^2`, or `b`.
fn raise(mono: &mut Mono, power: &str) -> Option<()>
    ensures { OnSome result (length mono.new ≡ length mono.old) }
{
    let (name, exponent) = power.split_once('^').unwrap_or((power, "1"));
    let variable = NAMES.iter().position(|other| *other == name)?;
    let by = exponent.parse::<u32>().ok()?;
    if variable >= mono.exponents().len() || by >= 1 << 31 {
        return None;
    }
    mono.raise(variable, by).ok()
}

/// The term `-3/2*a^2*b`, or `+a`, in `n` variables.
pub fn term(alloc: Global, n: u32, text: &str) -> Option<Term>
    ensures { IfSome result (λ t. length t.mono ≡ n) }
{
    if n > 6 {
        return None;
    }
    let text = text.strip_prefix('+').unwrap_or(text);
    let without_sign = text.strip_prefix('-');
    let mut coef = Frac::ONE;
    let mut mono = Mono::one(alloc, n as usize);
    for factor in without_sign.unwrap_or(text).split('*') {
        match fraction(factor) {
            Some(number) => coef = number,
            None => raise(&mut mono, factor)?,
        }
    }
    if without_sign.is_some() {
        coef = coef.neg();
    }
    Some(Term { coef, mono })
}

/// Terms, apart.
#[tactic(auto, using(crate::proofs::PushLaws::terms_push))]
pub fn terms(alloc: Global, n: u32, text: &str) -> Option<Vec<Term>>
    ensures { IfSome result (λ ts. HasVariables n ts.items) }
{
    let mut terms = Vec::new(alloc);
    for word in text.split_whitespace() {
        let term = term(alloc, n, word)?;
        terms.push(term).ok()?;
    }
    Some(terms)
}

/// The sum of terms, apart.
pub fn polynomial(alloc: Global, n: u32, text: &str) -> Option<Poly>
    ensures { IfSome result (HasVariables n) }
{
    Poly::from_terms(terms(alloc, n, text)?).ok()
}

/// What stands between braces.
fn inner(text: &str) -> Option<&str> {
    text.strip_prefix('{')?.strip_suffix('}')
}

/// The polynomials of a set.
#[tactic(auto, using(crate::proofs::PushLaws::polys_push))]
pub fn polynomials(alloc: Global, n: u32, text: &str) -> Option<Vec<Poly>>
    ensures { IfSome result (λ fs. Each (HasVariables n) fs.items) }
{
    let mut found = Vec::new(alloc);
    for part in inner(text)?.split(',') {
        if part.is_empty() {
            continue;
        }
        let f = polynomial(alloc, n, part)?;
        found.push(f).ok()?;
    }
    Some(found)
}

/// The index of a monomial among terms.
fn index_of(terms: &[Term], mono: &Mono) -> Option<usize>
    ensures { IfSome result (λ i. i < length terms.now) }
{
    terms
        .iter()
        .position(|t| t.mono.exponents() == mono.exponents())
}

/// The sum of terms, marked at the first of them.
fn member(alloc: Global, n: u32, text: &str) -> Option<Marked>
    ensures { IfSome result (λ b. HasVariables n b.poly) }
{
    let first = term(alloc, n, text.split_whitespace().next()?)?;
    let f = polynomial(alloc, n, text)?;
    let index = index_of(f.terms(), &first.mono)?;
    Some(Marked::mark(f, index))
}

/// The marked set.
#[tactic(auto, using(crate::proofs::PushLaws::members_push))]
pub fn marked(alloc: Global, n: u32, text: &str) -> Option<MarkedSet>
    ensures { IfSome result (λ s. s.variables ≡ n) }
{
    let mut items = Vec::new(alloc);
    for part in inner(text)?.split(',') {
        if part.is_empty() {
            continue;
        }
        let member = member(alloc, n, part)?;
        items.push(member).ok()?;
    }
    Some(MarkedSet::new(n, items))
}
