//! What is known of the rows of cones at few rays, in the bits of words: where a row may be positive, and where it isn't zero.
ghost use Rattle.std.specs.Prelude.{◌≡◌, ◌≤◌, ◌<◌, ◌↔◌, ◌⊎◌, ℕ, All, Contains, IfOk, IsTrue, length};
ghost use Rattle.std.specs.Int.{bit_at};
ghost use Rattle.gf_gordan.specs.Alternative.{AreRows};
ghost use Rattle.gf_fan.specs.Pairs.{AreOfAmbient};
ghost use Rattle.gf_fan.specs.Parts.{HasItsRays};
ghost use Rattle.gf_fan.specs.FansOfCones.{AreCommonRays};
ghost use Rattle.gf_fan.specs.Bits.{AreBitsOfRow, AreBitsOfRows, AreBitsOfCone, AreBitsOfFirst, AreToldByBits, IsExcludedBy, IsLowOn};

use crate::numbering::{Numbering, insert_all};
use crate::signs::{Sign, sign_at};
use gf_rays::Rays;
use gf_vec::IntVec;
use indexmap::IndexSet;
use std::alloc::{AllocError, Global};

/// The most rays that have a bit each.
pub(crate) const MOST_RAYS: usize = 128;

/// What is known of a row at some rays: a bit where it may be positive, and one where it is known not to be zero.
#[derive(Clone, Copy)]
pub(crate) struct RowBits {
    pub(crate) high: u128,
    pub(crate) cut: u128,
}

/// Which of some rays are a cone's, and what is known of each of its inequalities at all of them.
#[derive(Drop)]
pub(crate) struct ConeBits {
    pub(crate) own: u128,
    pub(crate) rows: Vec<RowBits>,
}

/// The word with the bit at `i` set.
pub(crate) fn with_bit(word: u128, i: usize) -> u128
    requires { i < 128 }
    ensures set { bit_at result i ≡ 1 }
    ensures others { (j : ℕ) → (j ≡ i → ⊥) → bit_at result j ≡ bit_at word j }
{
    word | 1u128 << i
}

/// The word with the bit at `i` set, unless the sign is known not to be positive.
fn high_with(word: u128, i: usize, sign: Sign) -> u128
    requires { i < 128 }
    ensures told { bit_at result i ≡ 0 → IsTrue sign.not_positive }
    ensures others { (j : ℕ) → (j ≡ i → ⊥) → bit_at result j ≡ bit_at word j }
{
    if sign.not_positive {
        return word;
    }
    with_bit(word, i)
}

/// The word with the bit at `i` set, which was clear, if the sign is known not to be zero.
fn cut_with(word: u128, i: usize, sign: Sign) -> u128
    requires index { i < 128 }
    requires clear { bit_at word i ≡ 0 }
    ensures told { bit_at result i ≡ 1 → IsTrue sign.not_zero }
    ensures others { (j : ℕ) → (j ≡ i → ⊥) → bit_at result j ≡ bit_at word j }
{
    if sign.not_zero {
        return with_bit(word, i);
    }
    word
}

/// What is known of a row at each of the rays.
pub(crate) fn bits_of_row(h: &IntVec, rays: &[IntVec]) -> RowBits
    requires count { length rays.now ≤ 128 }
    requires width { AreRows (length h.now) rays.now }
    ensures { AreBitsOfRow rays.now h.now result }
{
    let mut high = 0;
    let mut cut = 0;
    for (i, v) in rays.iter().enumerate() {
        let sign = sign_at(h, v);
        high = high_with(high, i, sign);
        cut = cut_with(cut, i, sign);
    }
    RowBits { high, cut }
}

/// The word with the bits at these numbers.
fn own_bits(numbers: &[u32]) -> u128
    requires { All (λ i. i < 128) numbers.now }
    ensures { (i : ℕ) → (bit_at result i ≡ 1) ↔ Contains numbers.now i }
{
    let mut own = 0;
    for i in numbers {
        own = with_bit(own, *i as usize);
    }
    own
}

/// The inequalities of all cones, each once.
pub(crate) fn distinct_rows(
    alloc: Global,
    n: u32,
    cones: &[Rays],
) -> Result<IndexSet<IntVec>, AllocError>
    requires { AreOfAmbient n cones.now }
    ensures { IfOk result (λ items. AreRows n items.keys) }
{
    let mut items = IndexSet::new(alloc);
    for c in cones {
        insert_all(&mut items, c.inequalities())?;
    }
    Ok(items)
}

/// What is known of each of the rows at each of the rays.
fn bits_of_each(alloc: Global, rows: &[IntVec], rays: &[IntVec]) -> Result<Vec<RowBits>, AllocError>
    requires count { length rays.now ≤ 128 }
    requires width { (n : ℕ) × (AreRows n rows.now × AreRows n rays.now) }
    ensures { IfOk result (λ out. AreBitsOfRows rays.now rows.now out.items) }
{
    let mut out = Vec::with_capacity(alloc, rows.len())?;
    for h in rows {
        out.push(bits_of_row(h, rays))?;
    }
    Ok(out)
}

/// What is known of a row at each of the rays: from the table, if the row is there.
fn bits_at(h: &IntVec, rays: &[IntVec], items: &IndexSet<IntVec>, table: &[RowBits]) -> RowBits
    requires count { length rays.now ≤ 128 }
    requires width { AreRows (length h.now) rays.now }
    requires table { AreBitsOfRows rays.now items.now.keys table.now }
    ensures { AreBitsOfRow rays.now h.now result }
{
    match items.get_index_of(h) {
        Some(k) => table[k],
        None => bits_of_row(h, rays),
    }
}

/// What is known of each of the rows at each of the rays, from the table.
fn bits_of_rows(
    alloc: Global,
    rows: &[IntVec],
    rays: &[IntVec],
    items: &IndexSet<IntVec>,
    table: &[RowBits],
) -> Result<Vec<RowBits>, AllocError>
    requires count { length rays.now ≤ 128 }
    requires width { (n : ℕ) × (AreRows n rows.now × AreRows n rays.now) }
    requires table { AreBitsOfRows rays.now items.now.keys table.now }
    ensures { IfOk result (λ out. AreBitsOfRows rays.now rows.now out.items) }
{
    let mut out = Vec::with_capacity(alloc, rows.len())?;
    for h in rows {
        out.push(bits_at(h, rays, items, table))?;
    }
    Ok(out)
}

/// What is known of a cone at the rays of several.
fn bits_of_cone(
    alloc: Global,
    numbering: &Numbering,
    items: &IndexSet<IntVec>,
    table: &[RowBits],
    c: &Rays,
) -> Result<ConeBits, AllocError>
    requires count { length numbering.now ≤ 128 }
    requires listed { All (Contains numbering.now) c.now.rays }
    requires width { AreRows c.now.ambient numbering.now }
    requires table { AreBitsOfRows numbering.now items.now.keys table.now }
    ensures { IfOk result (AreBitsOfCone numbering.now c.now) }
{
    let numbers = numbering.numbers(alloc, c.rays())?;
    let rows = bits_of_rows(alloc, c.inequalities(), numbering.as_slice(), items, table)?;
    Ok(ConeBits {
        own: own_bits(numbers.as_slice()),
        rows,
    })
}

/// What is known of these cones at the rays of all.
pub(crate) fn bits_by(
    alloc: Global,
    n: u32,
    numbering: &Numbering,
    cones: &[Rays],
) -> Result<Vec<ConeBits>, AllocError>
    requires count { length numbering.now ≤ 128 }
    requires ambient { AreOfAmbient n cones.now }
    requires own { All HasItsRays cones.now }
    requires rays { AreCommonRays cones.now numbering.now }
    ensures { IfOk result (λ out. AreBitsOfFirst cones.now out.items) }
{
    let items = distinct_rows(alloc, n, cones)?;
    let table = bits_of_each(alloc, items.as_slice(), numbering.as_slice())?;
    let mut out = Vec::with_capacity(alloc, cones.len())?;
    for c in cones {
        out.push(bits_of_cone(alloc, numbering, &items, table.as_slice(), c)?)?;
    }
    Ok(out)
}

/// The bits of `cut`, and those where a row isn't zero, if it is positive at none of the bits of `own`.
fn with_cut(cut: u128, row: RowBits, own: u128) -> u128
    ensures { (i : ℕ) → bit_at result i ≡ 1 → (bit_at cut i ≡ 1) ⊎ (IsLowOn row own × (bit_at row.cut i ≡ 1)) }
{
    if row.high & own == 0 {
        return cut | row.cut;
    }
    cut
}

/// Bits where one of the rows isn't zero that are positive at none of the bits of `own`; no further row is looked at once they have all
/// of `wanted`.
fn cut_by(rows: &[RowBits], own: u128, wanted: u128) -> u128
    ensures { (i : ℕ) → bit_at result i ≡ 1 → IsExcludedBy rows.now own i }
{
    let mut cut = 0;
    for row in rows {
        if is_word_below(wanted, cut) {
            return cut;
        }
        cut = with_cut(cut, *row, own);
    }
    cut
}

/// Whether each bit of `x` is one of `y`.
pub(crate) fn is_word_below(x: u128, y: u128) -> bool
    ensures { IsTrue result → (i : ℕ) → bit_at x i ≤ bit_at y i }
{
    x & y == x
}

/// Whether rows of two cones are told to keep them apart, but for the rays that they share.
pub(crate) fn are_told_by_bits(s: &ConeBits, t: &ConeBits) -> bool
    ensures { IsTrue result → AreToldByBits s.now t.now }
{
    let differing = s.own ^ t.own;
    let first = cut_by(s.rows.as_slice(), t.own, differing);
    let second = cut_by(t.rows.as_slice(), s.own, differing & !first);
    is_word_below(differing, first | second)
}
