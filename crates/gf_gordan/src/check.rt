//! Candidates judged by exact arithmetic: whether a vector is a solution, and whether multipliers refute.
ghost use Rattle.std.specs.Prelude.{◌≡◌, ◌↔◌, pos, All, Any, IfOk, IfErr, OnOk, IsTrue, length, ◌<ℤ◌, ◌≤ℤ◌, ◌++◌, ◌⊎◌};
ghost use Rattle.gf_int_theory.specs.Content.{IsContent, scaled};
ghost use Rattle.gf_vec.specs.Vector.{dot, vector_sum, zeros, combined};
ghost use Rattle.gf_vec.specs.Steps.{IsWide, IfWide, IsFirstWide, dot_steps};
ghost use Rattle.gf_gordan.specs.Alternative.{AreRows, IsSolution, IsFarkas};

use gf_vec::{IntVec, VecError, WideVector, dot_slices, product, total};
use std::alloc::Global;

/// Whether every row is positive on `v`.
///
/// # Errors
/// The first product or partial sum of a row with `v`, from the left, that leaves the range.
fn all_positive(rows: &[IntVec], v: &[i128]) -> Result<bool, WideVector>
    requires { AreRows (length v.now) rows.now }
    ensures ok { IfOk result (λ b. IsTrue b ↔ All (λ t. pos 0 <ℤ dot t v.now) rows.now) }
    ensures wide { IfErr result (λ e. Any (λ t. IsFirstWide e (dot_steps (pos 0) t v.now)) rows.now) }
{
    for row in rows {
        if dot_slices(row.as_slice(), v)? <= 0 {
            return Ok(false);
        }
    }
    Ok(true)
}

/// Whether every equation is zero on `v`.
///
/// # Errors
/// The first product or partial sum of an equation with `v`, from the left, that leaves the range.
fn all_zero(equations: &[IntVec], v: &[i128]) -> Result<bool, WideVector>
    requires { AreRows (length v.now) equations.now }
    ensures ok { IfOk result (λ b. IsTrue b ↔ All (λ t. dot t v.now ≡ pos 0) equations.now) }
    ensures wide { IfErr result (λ e. Any (λ t. IsFirstWide e (dot_steps (pos 0) t v.now)) equations.now) }
{
    for equation in equations {
        if dot_slices(equation.as_slice(), v)? != 0 {
            return Ok(false);
        }
    }
    Ok(true)
}

/// Whether `v` is a solution of the rows and equations.
///
/// # Errors
/// The first product or partial sum of a row or an equation with `v`, from the left, that leaves the range.
pub fn is_solution(rows: &[IntVec], equations: &[IntVec], v: &[i128]) -> Result<bool, WideVector>
    requires rows { AreRows (length v.now) rows.now }
    requires equations { AreRows (length v.now) equations.now }
    ensures ok { IfOk result (λ b. IsTrue b ↔ IsSolution (length v.now) rows.now equations.now v.now) }
    ensures wide { IfErr result (λ e. Any (λ t. IsFirstWide e (dot_steps (pos 0) t v.now)) rows.now
        ⊎ Any (λ t. IsFirstWide e (dot_steps (pos 0) t v.now)) equations.now) }
{
    if all_positive(rows, v)? {
        all_zero(equations, v)
    } else {
        Ok(false)
    }
}

/// Adds so many times `xs`.
///
/// # Errors
/// A product or sum that leaves the range.
fn add_multiple(sum: &mut [i128], m: i128, xs: &[i128]) -> Result<(), WideVector>
    requires { length sum.old ≡ length xs.now }
    ensures ok { OnOk result (sum.new ≡ vector_sum sum.old (scaled m xs.now)) }
    ensures wide { IfErr result IsWide }
{
    for (i, s) in sum.iter_mut().enumerate() {
        *s = total(*s, product(m, xs[i])?)?;
    }
    Ok(())
}

/// Adds each vector as often as its multiplier says.
///
/// # Errors
/// A product or sum that leaves the range.
fn add_combination(
    sum: &mut [i128],
    multipliers: &[i128],
    vectors: &[IntVec],
) -> Result<(), WideVector>
    requires each { length multipliers.now ≡ length vectors.now }
    requires width { AreRows (length sum.old) vectors.now }
    ensures ok { OnOk result (sum.new ≡ vector_sum sum.old (combined (length sum.old) multipliers.now vectors.now)) }
    ensures wide { IfErr result IsWide }
{
    for (i, m) in multipliers.iter().enumerate() {
        if *m != 0 {
            add_multiple(sum, *m, vectors[i].as_slice())?;
        }
    }
    Ok(())
}

/// Whether all entries are zero.
fn is_zero(xs: &[i128]) -> bool
    ensures { IsTrue result ↔ All (λ x. x ≡ pos 0) xs.now }
{
    for x in xs {
        if *x != 0 {
            return false;
        }
    }
    true
}

/// Whether no entry is negative.
fn none_negative(xs: &[i128]) -> bool
    ensures { IsTrue result ↔ All (λ x. pos 0 ≤ℤ x) xs.now }
{
    for x in xs {
        if *x < 0 {
            return false;
        }
    }
    true
}

/// Whether the combination of the rows and equations, which is added to zeros, is the zero vector.
///
/// # Errors
/// A product or sum that leaves the range.
fn sums_to_zero(
    sum: &mut [i128],
    rows: &[IntVec],
    equations: &[IntVec],
    ms: &[i128],
    es: &[i128],
) -> Result<bool, WideVector>
    requires zero { sum.old ≡ zeros (length sum.old) }
    requires rows { AreRows (length sum.old) rows.now }
    requires equations { AreRows (length sum.old) equations.now }
    requires rows_len { length ms.now ≡ length rows.now }
    requires equations_len { length es.now ≡ length equations.now }
    ensures ok { IfOk result (λ b. IsTrue b ↔ vector_sum (combined (length sum.old) ms.now rows.now) (combined (length sum.old) es.now equations.now) ≡
        zeros (length sum.old)) }
    ensures wide { IfErr result IsWide }
{
    add_combination(sum, ms, rows)?;
    add_combination(sum, es, equations)?;
    Ok(is_zero(sum))
}

/// Whether multipliers, which are divided by their content, refute the rows and equations.
///
/// # Errors
/// A product or sum that leaves the range; want of memory.
pub(crate) fn is_refutation(
    alloc: Global,
    n: usize,
    rows: &[IntVec],
    equations: &[IntVec],
    ms: &[i128],
    es: &[i128],
) -> Result<bool, VecError>
    requires rows { AreRows n rows.now }
    requires equations { AreRows n equations.now }
    requires rows_len { length ms.now ≡ length rows.now }
    requires equations_len { length es.now ≡ length equations.now }
    requires divided { IsContent (ms.now ++ es.now) 1 }
    ensures ok { IfOk result (λ b. IsTrue b ↔ IsFarkas n rows.now equations.now ms.now es.now) }
    ensures wide { IfErr result (IfWide IsWide) }
{
    if !none_negative(ms) {
        return Ok(false);
    }
    if is_zero(ms) {
        return Ok(false);
    }
    let mut sum = vec![in alloc; 0; n]?;
    Ok(sums_to_zero(sum.as_mut_slice(), rows, equations, ms, es)?)
}
