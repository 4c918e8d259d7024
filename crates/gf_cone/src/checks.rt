//! Guesses judged by exact arithmetic.
ghost use Rattle.std.specs.Prelude.{◌≡◌, ◌<◌, ◌<ℤ◌, ◌≤ℤ◌, ◌+ℤ◌, ◌∷◌, [], ℕ, pos, IsTrue, IsFalse, All, length, slice_index_or};
ghost use Rattle.gf_vec.specs.Vector.{dot, vector_sum};
ghost use Rattle.gf_gordan.specs.Alternative.{AreRows, IsSolution};
ghost use Rattle.gf_cone.specs.Small.{IsSmall, IsShort};
ghost use Rattle.gf_cone.specs.Cones.{all_rows, normal_at, other_rows, HasInterior};
ghost use Rattle.gf_facets_theory.specs.Systems.{unit};
ghost use Rattle.gf_cone.specs.Crossing.{IsShownBy, IsCrossable};

use crate::cone::Cone;
use crate::narrow::{dot_of, dot_of_small, is_short};
use gf_vec::IntVec;

/// Whether a normal is zero on `w`, where it is to be zero, or positive, where it isn't. False where a product or sum leaves
/// the range.
fn is_as_asked(normal: &IntVec, zero: bool, w: &[i128], short: bool) -> bool
    requires width { length normal.now ≡ length w.now }
    requires small { IsSmall normal.now }
    requires short { IsTrue short → IsShort w.now }
    ensures zero { IsTrue result → IsTrue zero → dot normal.now w.now ≡ pos 0 }
    ensures positive { IsTrue result → IsFalse zero → pos 0 <ℤ dot normal.now w.now }
{
    match dot_of_small(normal.as_slice(), w, short) {
        Some(value) => { if zero { value == 0 } else { value > 0 } }
        None => false,
    }
}

/// Whether the normal at an index is zero on `w`, and all others are positive. False where a product or sum leaves the range.
fn normals_show(normals: &[IntVec], index: usize, w: &[i128], short: bool) -> bool
    requires widths { AreRows (length w.now) normals.now }
    requires small { All IsSmall normals.now }
    requires short { IsTrue short → IsShort w.now }
    ensures { IsTrue result → (k : ℕ) → k < length normals.now → IsShownBy normals.now index w.now k }
{
    for k in 0..normals.len() {
        if !is_as_asked(&normals[k], k == index, w, short) {
            return false;
        }
    }
    true
}

/// Whether all normals are positive on `w`. False where a product or sum leaves the range.
fn normals_are_positive(normals: &[IntVec], w: &[i128], short: bool) -> bool
    requires widths { AreRows (length w.now) normals.now }
    requires small { All IsSmall normals.now }
    requires short { IsTrue short → IsShort w.now }
    ensures { IsTrue result → All (λ t. pos 0 <ℤ dot t w.now) normals.now }
{
    for k in 0..normals.len() {
        if !is_as_asked(&normals[k], false, w, short) {
            return false;
        }
    }
    true
}

/// Whether a row of a region is positive on `w`. False where a product or sum leaves the range.
fn is_positive(row: &IntVec, w: &[i128]) -> bool
    requires { length row.now ≡ length w.now }
    ensures { IsTrue result → pos 0 <ℤ dot row.now w.now }
{
    match dot_of(row.as_slice(), w) {
        Some(value) => value > 0,
        None => false,
    }
}

/// Whether all rows of a region are positive on `w`. False where a product or sum leaves the range.
fn rows_are_positive(rows: &[IntVec], w: &[i128]) -> bool
    requires { AreRows (length w.now) rows.now }
    ensures { IsTrue result → All (λ t. pos 0 <ℤ dot t w.now) rows.now }
{
    for k in 0..rows.len() {
        if !is_positive(&rows[k], w) {
            return false;
        }
    }
    true
}

/// Whether all entries are positive.
fn all_positive(w: &[i128]) -> bool
    ensures { IsTrue result → All (λ x. pos 0 <ℤ x) w.now }
{
    for x in w {
        if *x <= 0 {
            return false;
        }
    }
    true
}

/// Whether all rows beside the normals are positive on `w`: the entries of `w` are what the unit vectors give. False where a product
/// or sum leaves the range.
pub fn is_positive_beside(cone: &Cone, w: &[i128]) -> bool
    requires { length w.now ≡ cone.now.variables }
    ensures { IsTrue result → All (λ t. pos 0 <ℤ dot t w.now) cone.now.beside }
{
    all_positive(w) && rows_are_positive(cone.rows(), w)
}

/// Whether the normal at an index is zero on `w`, and all other rows are positive. False where a product or sum leaves the range.
pub fn shows(cone: &Cone, index: usize, w: &[i128]) -> bool
    requires index { index < length cone.now.normals }
    requires width { length w.now ≡ cone.now.variables }
    ensures { IsTrue result → IsSolution cone.now.variables (other_rows cone.now index) (normal_at cone.now index ∷ []) w.now }
{
    is_positive_beside(cone, w) && normals_show(cone.normals(), index, w, is_short(w))
}

/// Whether all rows are positive on `w`. False where a product or sum leaves the range.
fn all_positive_on(cone: &Cone, w: &[i128]) -> bool
    requires { length w.now ≡ cone.now.variables }
    ensures { IsTrue result → IsSolution cone.now.variables (all_rows cone.now) [] w.now }
{
    is_positive_beside(cone, w) && normals_are_positive(cone.normals(), w, is_short(w))
}

/// Whether a vector is seen to be in the inside of a cone: all its normals and the unit vectors are positive on it. False
/// also where a product or sum leaves the range.
pub fn is_inside(cone: &Cone, v: &IntVec) -> bool
    ensures solution { IsTrue result → IsSolution cone.now.variables (all_rows cone.now) [] v.now }
    ensures interior { IsTrue result → HasInterior cone.now }
{
    let entries = v.as_slice();
    if entries.len() != cone.variables() as usize {
        return false;
    }
    all_positive_on(cone, entries)
}

/// The sum of two numbers of 32 bits.
fn small_sum(x: i32, y: i32) -> i64
    ensures { result ≡ x +ℤ y }
{
    i64::from(x) + i64::from(y)
}

/// Whether `a` is the sum of `b` and `c`. False where `b` or `c` has more than 32 bits.
fn is_total(a: i128, b: i128, c: i128) -> bool
    ensures { IsTrue result → a ≡ b +ℤ c }
{
    match (i32::try_from(b), i32::try_from(c)) {
        (Ok(x), Ok(y)) => a == i128::from(small_sum(x, y)),
        _ => false,
    }
}

/// Whether `a` is the sum of `b` and `c`. False where one of these has an entry of more than 32 bits.
fn is_sum(a: &[i128], b: &[i128], c: &[i128]) -> bool
    requires second { length b.now ≡ length a.now }
    requires third { length c.now ≡ length a.now }
    ensures { IsTrue result → a.now ≡ vector_sum b.now c.now }
{
    for i in 0..a.len() {
        if !is_total(a[i], b[i], c[i]) {
            return false;
        }
    }
    true
}

/// Whether no entry is negative.
fn none_negative(a: &[i128]) -> bool
    ensures { IsTrue result → All (λ x. pos 0 ≤ℤ x) a.now }
{
    for x in a {
        if *x < 0 {
            return false;
        }
    }
    true
}

/// Whether some entry is positive.
fn some_positive(a: &[i128]) -> bool
    ensures { IsTrue result → (i : ℕ) × (i < length a.now) × (pos 0 <ℤ slice_index_or a.now i (pos 0)) }
{
    for x in a {
        if *x > 0 {
            return true;
        }
    }
    false
}

/// Whether the normal at an index is seen to be a sum of unit vectors.
pub fn is_above_zero(cone: &Cone, index: usize) -> bool
    requires { index < length cone.now.normals }
    ensures { IsTrue result → IsCrossable cone.now index → ⊥ }
{
    let normal = cone.kept()[index].as_slice();
    none_negative(normal) && some_positive(normal)
}

/// The entry at an index of the unit vector of the variable `at`, of `n`.
pub(crate) fn unit_entry(n: usize, at: usize, index: usize) -> i128
    requires { index < n }
    ensures { result ≡ slice_index_or (unit n at) index (pos 0) }
{
    if index == at { 1 } else { 0 }
}

/// Whether `a` is the sum of `b` and the unit vector of the variable `at`. False where `b` has an entry of more than 32 bits.
fn is_raised(a: &[i128], b: &[i128], at: usize) -> bool
    requires { length b.now ≡ length a.now }
    ensures { IsTrue result → a.now ≡ vector_sum b.now (unit (length a.now) at) }
{
    let n = a.len();
    for i in 0..n {
        if !is_total(a[i], b[i], unit_entry(n, at, i)) {
            return false;
        }
    }
    true
}

/// Whether the normal at an index is the sum of the kept vector at another index and the unit vector of the variable `at`. False where
/// an entry has more than 32 bits.
fn is_raised_to(cone: &Cone, index: usize, other: usize, at: usize) -> bool
    requires { index < length cone.now.normals }
    ensures { IsTrue result → IsCrossable cone.now index → ⊥ }
{
    let kept = cone.kept();
    if other >= kept.len() || other == index || at >= cone.variables() as usize {
        return false;
    }
    is_raised(kept[index].as_slice(), kept[other].as_slice(), at)
}

/// Whether the normal at an index is the sum of the vectors at two other indices, which aren't both unit vectors. False where one of these has
/// an entry of more than 32 bits.
pub fn is_sum_of(cone: &Cone, index: usize, b: usize, c: usize) -> bool
    requires { index < length cone.now.normals }
    ensures { IsTrue result → IsCrossable cone.now index → ⊥ }
{
    let kept = cone.kept();
    if b >= kept.len() {
        return is_raised_to(cone, index, c, b - kept.len());
    }
    if c >= kept.len() {
        return is_raised_to(cone, index, b, c - kept.len());
    }
    if b == index || c == index {
        return false;
    }
    is_sum(
        kept[index].as_slice(),
        kept[b].as_slice(),
        kept[c].as_slice(),
    )
}
