//! The rows of a marked set, and the unit vectors.
ghost use Rattle.std.specs.Prelude.{◌≡◌, ◌++◌, ◌<◌, ◌-ℤ◌, ℕ, [], pos, length, slice_set, All, IfOk};
ghost use Rattle.gf_int_theory.specs.Range.{InRange};
ghost use Rattle.gf_vec.specs.Vector.{zeros};
ghost use Rattle.gf_poly.specs.Marking.{Each, HaveVariables, HasMarkedTerm};
ghost use Rattle.gf_poly.specs.Polynomial.{HasVariables};
ghost use Rattle.gf_facets_theory.specs.Rows.{differences, row_between, rows_of_terms, rows_of_polynomials};
ghost use Rattle.gf_facets_theory.specs.Systems.{unit, units};
ghost use Rattle.gf_cone.specs.Small.{IsSmall};

use gf_poly::{Marked, MarkedSet, Mono};
use gf_vec::IntVec;
use std::alloc::{AllocError, Global};

/// One exponent less another.
fn entry_of(x: u32, y: u32) -> i128
    ensures { result ≡ pos x -ℤ pos y }
{
    i128::from(x) - i128::from(y)
}

/// The exponents of `x` less those of `y`, in an empty list.
///
/// # Errors
/// Want of memory.
pub(crate) fn difference(list: Vec<i128>, x: &Mono, y: &Mono) -> Result<IntVec, AllocError>
    requires empty { list.items ≡ [] }
    requires widths { length x.now ≡ length y.now }
    ensures value { IfOk result (λ v. v ≡ differences x.now y.now) }
    ensures small { IfOk result IsSmall }
{
    let left = x.exponents();
    let right = y.exponents();
    let mut entries = list;
    'entries: for i in 0..left.len() {
        entries.push(entry_of(left[i], right[i]))?;
    }
    Ok(IntVec::from_vec(entries))
}

/// These rows, and one more unless the two monomials are the same.
///
/// # Errors
/// Want of memory.
fn with_row(alloc: Global, rows: Vec<IntVec>, x: &Mono, y: &Mono) -> Result<Vec<IntVec>, AllocError>
    requires widths { length x.now ≡ length y.now }
    requires small { All IsSmall rows.items }
    ensures rows { IfOk result (λ more. more.items ≡ rows.items ++ row_between x.now y.now) }
    ensures small { IfOk result (λ more. All IsSmall more.items) }
{
    if x.is_same(y) {
        return Ok(rows);
    }
    let mut more = rows;
    let list = Vec::with_capacity(alloc, x.exponents().len())?;
    more.push(difference(list, x, y)?)?;
    Ok(more)
}

/// These rows, and those of a member.
///
/// # Errors
/// Want of memory.
fn with_member(alloc: Global, rows: Vec<IntVec>, b: &Marked) -> Result<Vec<IntVec>, AllocError>
    requires variables { (n : ℕ) × HasVariables n b.now.poly }
    requires small { All IsSmall rows.items }
    ensures rows { IfOk result (λ more. more.items ≡ rows.items ++ rows_of_terms b.now.head b.now.poly) }
    ensures small { IfOk result (λ more. All IsSmall more.items) }
    ensures marked { HasMarkedTerm b.now }
{
    let head = b.head();
    let terms = b.poly().terms();
    let mut more = rows;
    'terms: for i in 0..terms.len() {
        let t = &terms[i];
        more = with_row(alloc, more, head, &t.mono)?;
    }
    Ok(more)
}

/// Sets one entry to 1.
fn set_one(entries: &mut [i128], at: usize)
    requires { at < length entries.old }
    ensures { entries.new ≡ slice_set entries.old at (pos 1) }
{
    entries[at] = 1;
}

/// The entries of the unit vector of the variable `at`.
///
/// # Errors
/// Want of memory.
fn unit_entries(alloc: Global, n: usize, at: usize) -> Result<Vec<i128>, AllocError>
    requires { at < n }
    ensures value { IfOk result (λ entries. entries.items ≡ slice_set (zeros n) at (pos 1)) }
    ensures range { IfOk result (λ entries. All InRange entries.items) }
{
    let mut entries = vec![in alloc; 0; n]?;
    set_one(entries.as_mut_slice(), at);
    Ok(entries)
}

/// The unit vector of the variable `at`.
///
/// # Errors
/// Want of memory.
fn unit_vector(alloc: Global, n: usize, at: usize) -> Result<IntVec, AllocError>
    requires { at < n }
    ensures { IfOk result (λ v. v ≡ unit n at) }
{
    let entries = unit_entries(alloc, n, at)?;
    Ok(IntVec::from_vec(entries))
}

/// These rows, and then the `n` unit vectors of `n` variables.
///
/// # Errors
/// Want of memory.
pub fn with_units(alloc: Global, rows: Vec<IntVec>, n: usize) -> Result<Vec<IntVec>, AllocError>
    ensures { IfOk result (λ more. more.items ≡ rows.items ++ units n n) }
{
    let mut more = rows;
    'variables: for i in 0..n {
        more.push(unit_vector(alloc, n, i)?)?;
    }
    Ok(more)
}

/// The rows of the marking, polynomial by polynomial, and within one in the order of its unmarked terms.
///
/// Each is the exponents of the marked term less those of an unmarked one (Sturmfels, *Gröbner Bases and Convex
/// Polytopes*, 2). Exponents are below 2^31, so the entries are, too, in absolute value.
///
/// # Errors
/// Want of memory.
pub fn rows(alloc: Global, set: &MarkedSet) -> Result<Vec<IntVec>, AllocError>
    ensures rows { IfOk result (λ rows. rows.items ≡ rows_of_polynomials set.now.items) }
    ensures small { IfOk result (λ rows. All IsSmall rows.items) }
    ensures marked { IfOk result (λ _. Each HasMarkedTerm set.now.items) }
    ensures variables { IfOk result (λ _. HaveVariables set.now.variables set.now.items) }
{
    let items = set.items();
    let mut rows = Vec::new(alloc);
    'members: for i in 0..items.len() {
        rows = with_member(alloc, rows, &items[i])?;
    }
    Ok(rows)
}
