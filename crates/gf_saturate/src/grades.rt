//! Positive weights by which polynomials are homogeneous.
//!
//! No clause says that what is found is one: the saturation doesn't rest on it.
ghost use Rattle.std.specs.Prelude.{◌≡◌, ◌≤◌, ◌<◌, ◌-ℤ◌, pos, IfOk, All, length, slice_set};
ghost use Rattle.gf_int_theory.specs.Range.{InRange};
ghost use Rattle.gf_vec.specs.Vector.{zeros};
ghost use Rattle.gf_poly.specs.Polynomial.{HasVariables};
ghost use Rattle.gf_gordan.specs.Alternative.{AreRows};
ghost use Rattle.gf_buchberger.specs.Tasks.{HaveRingVariables};

use gf_buchberger::homogeneous;
use gf_gordan::{Answer, strict};
use gf_poly::{Mono, Poly, ROOM, Term};
use gf_vec::IntVec;
use std::alloc::{AllocError, Global};

/// Sets one entry to 1.
fn set_one(entries: &mut [i128], at: usize)
    requires { at < length entries.old }
    ensures { entries.new ≡ slice_set entries.old at (pos 1) }
{
    entries[at] = 1;
}

/// The entries of the unit vector of the variable `at`.
fn unit_entries(alloc: Global, n: usize, at: usize) -> Result<Vec<i128>, AllocError>
    requires { at < n }
    ensures value { IfOk result (λ entries. entries.items ≡ slice_set (zeros n) at (pos 1)) }
    ensures range { IfOk result (λ entries. All InRange entries.items) }
{
    let mut entries = vec![in alloc; 0; n]?;
    set_one(entries.as_mut_slice(), at);
    Ok(entries)
}

/// The unit vector of the variable `at`.
fn unit(alloc: Global, n: usize, at: usize) -> Result<IntVec, AllocError>
    requires { at < n }
    ensures { IfOk result (λ v. length v ≡ n) }
{
    let entries = unit_entries(alloc, n, at)?;
    Ok(IntVec::from_vec(entries))
}

/// The unit vectors of `n` variables.
fn unit_vectors(alloc: Global, n: u32) -> Result<Vec<IntVec>, AllocError>
    ensures { IfOk result (λ rows. AreRows n rows.items) }
{
    let mut rows = Vec::with_capacity(alloc, n as usize)?;
    'variables: for k in 0..n {
        let row = unit(alloc, n as usize, k as usize)?;
        rows.push(row)?;
    }
    Ok(rows)
}

/// One exponent less another.
fn entry_of(x: u32, y: u32) -> i128
    ensures { result ≡ pos x -ℤ pos y }
{
    i128::from(x) - i128::from(y)
}

/// The exponents of `x` less those of `y`.
fn difference(alloc: Global, n: u32, x: &Mono, y: &Mono) -> Result<IntVec, AllocError>
    requires left { length x.now ≡ n }
    requires right { length y.now ≡ n }
    ensures { IfOk result (λ v. length v ≡ n) }
{
    let left = x.exponents();
    let right = y.exponents();
    let mut entries = Vec::with_capacity(alloc, left.len())?;
    'entries: for i in 0..left.len() {
        entries.push(entry_of(left[i], right[i]))?;
    }
    Ok(IntVec::from_vec(entries))
}

/// These rows, and the exponents of each of the terms less those of `first`.
fn with_differences(
    alloc: Global,
    n: u32,
    rows: Vec<IntVec>,
    first: &Mono,
    terms: &[Term],
) -> Result<Vec<IntVec>, AllocError>
    requires rows { AreRows n rows.items }
    requires first { length first.now ≡ n }
    requires variables { HasVariables n terms.now }
    ensures { IfOk result (λ more. AreRows n more.items) }
{
    let mut more = rows;
    'terms: for i in 0..terms.len() {
        let t = &terms[i];
        let row = difference(alloc, n, &t.mono, first)?;
        more.push(row)?;
    }
    Ok(more)
}

/// These rows, and the differences of the polynomial: it is homogeneous by the weights that are orthogonal to them.
fn with_polynomial(
    alloc: Global,
    n: u32,
    rows: Vec<IntVec>,
    f: &Poly,
) -> Result<Vec<IntVec>, AllocError>
    requires rows { AreRows n rows.items }
    requires variables { HasVariables n f.now }
    ensures { IfOk result (λ more. AreRows n more.items) }
{
    let terms = f.terms();
    if terms.is_empty() {
        return Ok(rows);
    }
    let first = &terms[0];
    with_differences(alloc, n, rows, &first.mono, terms)
}

/// The differences of each polynomial.
fn differences(alloc: Global, n: u32, set: &[Poly]) -> Result<Vec<IntVec>, AllocError>
    requires { HaveRingVariables n set.now }
    ensures { IfOk result (λ rows. AreRows n rows.items) }
{
    let mut rows = Vec::new(alloc);
    'polynomials: for i in 0..set.len() {
        let f = &set[i];
        rows = with_polynomial(alloc, n, rows, f)?;
    }
    Ok(rows)
}

/// A positive vector that is orthogonal to these differences, if one is found.
fn orthogonal(alloc: Global, n: u32, set: &[Poly]) -> Option<IntVec>
    requires { HaveRingVariables n set.now }
{
    let Ok(units) = unit_vectors(alloc, n) else {
        return None;
    };
    let Ok(differences) = differences(alloc, n, set) else {
        return None;
    };
    let rows = units.as_slice();
    let equations = differences.as_slice();
    match strict(alloc, n, rows, equations) {
        Ok(Answer::Point(point)) => Some(point),
        _ => None,
    }
}

/// The weight 1 of each of `n` variables.
fn ones(alloc: Global, n: u32) -> Option<IntVec>
    requires { n ≤ ROOM }
{
    let entries = [1i128; ROOM];
    match IntVec::from_slice(alloc, &entries[..n as usize]) {
        Ok(weight) => Some(weight),
        Err(_) => None,
    }
}

/// A positive weight by which the polynomials are homogeneous, if one is found: the degree where they are so by it.
pub(crate) fn grade_of(alloc: Global, n: u32, set: &[Poly]) -> Option<IntVec>
    requires room { n ≤ ROOM }
    requires variables { HaveRingVariables n set.now }
{
    if set.len() < 4_294_967_296 && homogeneous(set).is_ok() {
        return ones(alloc, n);
    }
    orthogonal(alloc, n, set)
}
