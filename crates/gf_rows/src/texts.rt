//! How values are told.
use crate::fields::NAMES;
use gf_frac::{Frac, Op, Overflow};
use gf_poly::{ExponentOverflow, Marked, MarkedSet, Poly, PolyError, Term};
use gf_vec::{IntVec, VecOp, WideVector};
use std::alloc::Global;
use std::cmp::Ordering;
use std::fmt::Display;

/// Whatever prints.
pub fn text<T: Display + Drop>(alloc: Global, value: T) -> Option<String> {
    format!(in alloc; "{value}").ok()
}

/// How two things compare.
pub fn comparison(alloc: Global, order: Ordering) -> Option<String> {
    let sign = match order {
        Ordering::Less => "<",
        Ordering::Equal => "=",
        Ordering::Greater => ">",
    };
    text(alloc, sign)
}

/// Numbers, as a vector.
pub fn numbers<T: Display>(alloc: Global, items: &[T]) -> Option<String> {
    let mut text = String::new(alloc);
    for item in items {
        let mark = if text.is_empty() { "(" } else { "," };
        write!(text, "{mark}{item}").ok()?;
    }
    let mark = if text.is_empty() { "()" } else { ")" };
    text.push_str(mark).ok()?;
    Some(text)
}

/// A vector.
pub fn vector(alloc: Global, v: &IntVec) -> Option<String> {
    numbers(alloc, v.as_slice())
}

/// Vectors, apart.
pub fn vectors(alloc: Global, vs: &[IntVec]) -> Option<String> {
    let mut text = String::new(alloc);
    for v in vs {
        if !text.is_empty() {
            text.push(' ').ok()?;
        }
        text.push_str(&vector(alloc, v)?).ok()?;
    }
    Some(text)
}

/// A fraction, its denominator where it isn't 1.
pub fn fraction(alloc: Global, x: &Frac) -> Option<String> {
    let p = x.numer();
    match x.denom() {
        1 => text(alloc, p),
        q => format!(in alloc; "{p}/{q}").ok(),
    }
}

/// An operation on fractions that is refused, with its operands.
pub fn overflow(alloc: Global, o: &Overflow) -> Option<String> {
    let op = match o.op {
        Op::Add => "+",
        Op::Sub => "-",
        Op::Mul => "*",
        Op::Div => ":",
    };
    let left = fraction(alloc, &o.left)?;
    let right = fraction(alloc, &o.right)?;
    format!(in alloc; "refused {left} {op} {right}").ok()
}

/// An operation on entries that is refused, with its operands.
pub fn wide(alloc: Global, wide: &WideVector) -> Option<String> {
    operands(alloc, wide.op, wide.left, wide.right)
}

/// An operation that is refused.
pub fn operands(alloc: Global, op: VecOp, left: i128, right: i128) -> Option<String> {
    let op = match op {
        VecOp::Add => "+",
        VecOp::Sub => "-",
        VecOp::Mul => "*",
    };
    format!(in alloc; "refused {left} {op} {right}").ok()
}

/// An operation that is refused, of which a clause says the operands alone: those of a product, which may come in either order,
/// with the greater numerator first.
pub fn operation(alloc: Global, o: &Overflow) -> Option<String> {
    let is_turned = o.op == Op::Mul
        && o.left.numer().unsigned_abs() < o.right.numer().unsigned_abs();
    if is_turned {
        return overflow(
            alloc,
            &Overflow {
                op: o.op,
                left: o.right,
                right: o.left,
            },
        );
    }
    overflow(alloc, o)
}

/// A sum of exponents that is refused.
pub fn exponents(alloc: Global, o: &ExponentOverflow) -> Option<String> {
    format!(in alloc; "refused exponents {} + {}", o.left, o.right).ok()
}

/// Why there is no polynomial; none where memory ran out.
pub fn refusal(alloc: Global, refusal: PolyError) -> Option<String> {
    match refusal {
        PolyError::Overflow(o) => operation(alloc, &o),
        PolyError::Exponent(o) => exponents(alloc, &o),
        PolyError::Memory => None,
    }
}

/// Adds a term, apart from what there is: its sign, but for a plus in front, its coefficient, but for 1 before a monomial, and its powers.
fn add(text: &mut String, term: &Term) -> Option<()> {
    let (p, q) = (term.coef.numer(), term.coef.denom());
    let sign = match (p < 0, text.is_empty()) {
        (true, true) => "-",
        (true, false) => " -",
        (false, true) => "",
        (false, false) => " +",
    };
    text.push_str(sign).ok()?;
    let is_plain = p.unsigned_abs() == 1 && q == 1 && term.mono.degree() != 0;
    if !is_plain {
        write!(text, "{}", p.unsigned_abs()).ok()?;
    }
    if q != 1 {
        write!(text, "/{q}").ok()?;
    }
    let mut is_bare = is_plain;
    for (name, exponent) in NAMES.iter().zip(term.mono.exponents()) {
        if *exponent != 0 {
            if !is_bare {
                text.push('*').ok()?;
            }
            text.push_str(name).ok()?;
            is_bare = false;
        }
        if *exponent > 1 {
            write!(text, "^{exponent}").ok()?;
        }
    }
    Some(())
}

/// A polynomial, its terms in the order in which they are kept.
pub fn polynomial(alloc: Global, f: &Poly) -> Option<String> {
    let mut text = String::new(alloc);
    for term in f.terms() {
        add(&mut text, term)?;
    }
    if text.is_empty() {
        text.push('0').ok()?;
    }
    Some(text)
}

/// The text of a polynomial, or of the reason why there is none; `None` where that is want of memory, or memory runs out.
pub fn outcome(alloc: Global, found: Result<Poly, PolyError>) -> Option<String> {
    match found {
        Ok(f) => polynomial(alloc, &f),
        Err(e) => refusal(alloc, e),
    }
}

/// A marked polynomial, the marked term first.
pub fn member(alloc: Global, b: &Marked) -> Option<String> {
    let mut text = String::new(alloc);
    let index = b.index();
    add(&mut text, b.poly().terms().get(index)?)?;
    for (i, term) in b.poly().terms().iter().enumerate() {
        if i != index {
            add(&mut text, term)?;
        }
    }
    Some(text)
}

/// A marked set.
pub fn set(alloc: Global, set: &MarkedSet) -> Option<String> {
    let mut text = String::new(alloc);
    for b in set.items() {
        let mark = if text.is_empty() { "{" } else { ", " };
        let member = member(alloc, b)?;
        write!(text, "{mark}{member}").ok()?;
    }
    let mark = if text.is_empty() { "{}" } else { "}" };
    text.push_str(mark).ok()?;
    Some(text)
}
