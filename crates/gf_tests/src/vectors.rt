//! Vectors, and the arithmetic of their entries.
ghost use Rattle.std.specs.Prelude.{◌≤◌, ◌^◌, All, IsTrue, unsigned_abs};

use gf_rows::{fields, texts};
use gf_vec::{IntVec, VecError, WideVector, difference, product, quotient};
use std::alloc::Global;
use std::hash::{DefaultHasher, Hash, Hasher};

/// A number, or the operation that is refused.
fn outcome(alloc: Global, found: Result<i128, WideVector>) -> Option<String> {
    match found {
        Ok(x) => texts::text(alloc, x),
        Err(wide) => texts::wide(alloc, &wide),
    }
}

/// A sum of vectors, or the operation that is refused.
fn sum(alloc: Global, x: &IntVec, y: &IntVec) -> Option<String> {
    if x.as_slice().len() != y.as_slice().len() {
        return None;
    }
    match x.add(y) {
        Ok(v) => texts::vector(alloc, &v),
        Err(VecError::Wide(wide)) => texts::wide(alloc, &wide),
        Err(VecError::Memory) => None,
    }
}

/// A product of vectors, or the operation that is refused.
fn dot(alloc: Global, x: &IntVec, y: &IntVec) -> Option<String> {
    if x.as_slice().len() != y.as_slice().len() {
        return None;
    }
    outcome(alloc, x.dot(y))
}

/// Whether no entry passes 2^64.
fn is_narrow(entries: &[i128]) -> bool
    ensures { IsTrue result → All (λ x. unsigned_abs x ≤ 2 ^ 64) entries.now }
{
    entries.iter().all(|x| x.unsigned_abs() <= 1 << 64)
}

/// The sign of a vector by which roots are chosen.
fn root_sign(alloc: Global, v: &IntVec) -> Option<String> {
    if !is_narrow(v.as_slice()) {
        return None;
    }
    texts::comparison(alloc, v.root_sign())
}

/// The hash of a value.
fn hash_of<T: Hash>(value: &T) -> u64 {
    let mut state = DefaultHasher::new();
    value.hash(&mut state);
    state.finish()
}

/// What a call on vectors gives.
pub(crate) fn told(alloc: Global, call: &str, fields: &[&str]) -> Option<String> {
    let [first, others @ ..] = fields else {
        return None;
    };
    let mut first = fields::vector(alloc, first)?;
    match (call, others) {
        ("dot", [v]) => dot(alloc, &first, &fields::vector(alloc, v)?),
        ("sum", [v]) => sum(alloc, &first, &fields::vector(alloc, v)?),
        ("order", [v]) => texts::comparison(alloc, first.lex_cmp(&fields::vector(alloc, v)?)),
        ("copy_is_equal", []) => texts::text(alloc, first.copy().ok()? == first),
        ("copy_hashes_alike", []) => texts::text(
            alloc,
            hash_of(&first.copy().ok()?) == hash_of(&first),
        ),
        ("root_sign", []) => root_sign(alloc, &first),
        ("opposite", []) => {
            first.negate();
            texts::vector(alloc, &first)
        }
        ("primitive", []) => {
            first.primitive();
            texts::vector(alloc, &first)
        }
        _ => None,
    }
}

/// What an operation on two entries gives.
pub(crate) fn entry_told(alloc: Global, call: &str, fields: &[&str]) -> Option<String> {
    let [x, y] = fields else {
        return None;
    };
    let (x, y) = (x.parse::<i128>().ok()?, y.parse::<i128>().ok()?);
    match call {
        "product" => outcome(alloc, product(x, y)),
        "difference" => outcome(alloc, difference(x, y)),
        "quotient" if y > 0 => texts::text(alloc, quotient(x, y)),
        _ => None,
    }
}
