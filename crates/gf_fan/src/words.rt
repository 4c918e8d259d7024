//! What is known of the rows of cones at any number of rays, in the bits of words, one word for each 128 rays.
ghost use Rattle.std.specs.Prelude.{◌≡◌, ◌≢◌, ◌↔◌, ◌≤◌, ◌<◌, ◌+◌, ℕ, List, All, Contains, IfOk, IsTrue, length, take, drop, slice_index_or};
ghost use Rattle.std.specs.Int.{bit_at};
ghost use Rattle.gf_gordan.specs.Alternative.{AreRows};
ghost use Rattle.gf_fan.specs.declared.bits.RowBits.{RowBits};
ghost use Rattle.gf_fan.specs.Pairs.{AreOfAmbient};
ghost use Rattle.gf_fan.specs.Parts.{HasItsRays};
ghost use Rattle.gf_fan.specs.FansOfCones.{AreCommonRays};
ghost use Rattle.gf_fan.specs.Bits.{IsLowOn};
ghost use Rattle.gf_fan.specs.Words.{AreWordsOfRow, AreWordsOfRows, AreOwnWords, AreIndicesOf, AreWordsOfCone, AreWordsOfFirst};
ghost use Rattle.gf_fan.specs.Words.{IsLowInWords, AreLowIndices, IsCutIn, IsToldAt, AreToldByWords};

use crate::bits::{RowBits, bits_of_row, distinct_rows, is_word_below, with_bit};
use crate::numbering::Numbering;
use gf_rays::Rays;
use gf_vec::IntVec;
use indexmap::IndexSet;
use std::alloc::{AllocError, Global};
use std::marker::Model;

/// How many pairs of words are kept at most, of all rows together.
const MOST_PAIRS: usize = 1 << 22;

/// What is known of a row at some rays, in the bits of words, seen as the list of it.
#[derive(Drop)]
pub(crate) struct RowWords {
    items: Vec<RowBits>,
}

impl Model for RowWords {
    ghost use Rattle.std.specs.Prelude.{List};
    ghost use Rattle.gf_fan.specs.declared.bits.RowBits.{RowBits};

    ghost Value = { List RowBits };

    ghost view = { λ s. s.items.items };
}

impl RowWords {
    /// What is known.
    fn as_slice(&self) -> &[RowBits]
        ensures { result.now ≡ self.now }
    {
        self.items.as_slice()
    }
}

/// Which of some rays are a cone's, and the indices of its inequalities among different rows.
#[derive(Drop)]
pub(crate) struct ConeWords {
    pub(crate) own: Vec<u128>,
    pub(crate) rows: Vec<usize>,
}

/// What is known of different rows at some rays, and of cones that have these rows.
#[derive(Drop)]
pub(crate) struct Words {
    pub(crate) known: Vec<RowWords>,
    pub(crate) cones: Vec<ConeWords>,
}

/// The rays from `start` on, 128 of them at most.
fn block(rays: &[IntVec], start: usize) -> &[IntVec]
    requires { start ≤ length rays.now }
    ensures { result.now ≡ take 128 (drop start rays.now) }
{
    let rest = &rays[start..];
    if rest.len() < 128 {
        return rest;
    }
    &rest[..128]
}

/// What is known of a row at each of the rays.
fn words_of_row(alloc: Global, h: &IntVec, rays: &[IntVec]) -> Result<RowWords, AllocError>
    requires { AreRows (length h.now) rays.now }
    ensures { IfOk result (AreWordsOfRow rays.now h.now) }
{
    let count = rays.len() / 128 + 1;
    let mut out = Vec::with_capacity(alloc, count)?;
    for b in 0..count {
        out.push(bits_of_row(h, block(rays, b * 128)))?;
    }
    Ok(RowWords { items: out })
}

/// What is known of each of the rows at each of the rays.
fn words_of_rows(
    alloc: Global,
    rows: &[IntVec],
    rays: &[IntVec],
) -> Result<Vec<RowWords>, AllocError>
    requires { (n : ℕ) × (AreRows n rows.now × AreRows n rays.now) }
    ensures { IfOk result (λ out. AreWordsOfRows rays.now rows.now out.items) }
{
    let mut out = Vec::with_capacity(alloc, rows.len())?;
    for h in rows {
        out.push(words_of_row(alloc, h, rays)?)?;
    }
    Ok(out)
}

/// The word with the bit for `i` set, where that for `start` is its first.
fn with_bit_from(word: u128, start: usize, i: usize) -> u128
    ensures set { (j : ℕ) → j < 128 → start + j ≡ i → bit_at result j ≡ 1 }
    ensures others { (j : ℕ) → j < 128 → start + j ≢ i → bit_at result j ≡ bit_at word j }
{
    if i < start {
        return word;
    }
    let j = i - start;
    if j < 128 {
        return with_bit(word, j);
    }
    word
}

/// The word with the bits for these numbers, where that for `start` is its first.
fn own_word(numbers: &[u32], start: usize) -> u128
    ensures { (j : ℕ) → j < 128 → (bit_at result j ≡ 1) ↔ Contains numbers.now (start + j) }
{
    let mut own = 0;
    for i in numbers {
        own = with_bit_from(own, start, *i as usize);
    }
    own
}

/// The words with the bits for these numbers of `len` rays.
fn own_words(alloc: Global, numbers: &[u32], len: usize) -> Result<Vec<u128>, AllocError>
    ensures { IfOk result (λ out. AreOwnWords len numbers.now out.items) }
{
    let count = len / 128 + 1;
    let mut out = Vec::with_capacity(alloc, count)?;
    for b in 0..count {
        out.push(own_word(numbers, b * 128))?;
    }
    Ok(out)
}

/// The indices of the rows that are among those known.
fn indices_of(
    alloc: Global,
    rows: &[IntVec],
    rays: &[IntVec],
    items: &IndexSet<IntVec>,
    known: &[RowWords],
) -> Result<Vec<usize>, AllocError>
    requires { AreWordsOfRows rays.now items.now.keys known.now }
    ensures { IfOk result (λ out. AreIndicesOf rays.now known.now rows.now out.items) }
{
    let mut out = Vec::with_capacity(alloc, rows.len())?;
    for h in rows {
        if let Some(k) = items.get_index_of(h) {
            out.push(k)?;
        }
    }
    Ok(out)
}

/// What is known of a cone at the rays of several.
fn words_of_cone(
    alloc: Global,
    numbering: &Numbering,
    items: &IndexSet<IntVec>,
    known: &[RowWords],
    c: &Rays,
) -> Result<ConeWords, AllocError>
    requires listed { All (Contains numbering.now) c.now.rays }
    requires known { AreWordsOfRows numbering.now items.now.keys known.now }
    ensures { IfOk result (AreWordsOfCone numbering.now known.now c.now) }
{
    let rays = numbering.as_slice();
    let numbers = numbering.numbers(alloc, c.rays())?;
    let own = own_words(alloc, numbers.as_slice(), rays.len())?;
    let rows = indices_of(alloc, c.inequalities(), rays, items, known)?;
    Ok(ConeWords { own, rows })
}

/// What is known of these cones, with that of their rows.
fn words_of_cones(
    alloc: Global,
    numbering: &Numbering,
    items: &IndexSet<IntVec>,
    known: Vec<RowWords>,
    cones: &[Rays],
) -> Result<Words, AllocError>
    requires rays { AreCommonRays cones.now numbering.now }
    requires known { AreWordsOfRows numbering.now items.now.keys known.items }
    ensures { IfOk result (λ w. AreWordsOfFirst cones.now w.known.items w.cones.items) }
{
    let mut out = Vec::with_capacity(alloc, cones.len())?;
    for c in cones {
        out.push(words_of_cone(alloc, numbering, items, known.as_slice(), c)?)?;
    }
    Ok(Words { known, cones: out })
}

/// That nothing is known of any cone.
pub(crate) fn no_words(alloc: Global) -> Words
    ensures known { length result.known.items ≡ 0 }
    ensures cones { length result.cones.items ≡ 0 }
{
    Words {
        known: Vec::new(alloc),
        cones: Vec::new(alloc),
    }
}

/// What is known of these cones at the rays of all; of none, where their rows would take more than `MOST_PAIRS` words.
pub(crate) fn words_by(
    alloc: Global,
    n: u32,
    numbering: &Numbering,
    cones: &[Rays],
) -> Result<Words, AllocError>
    requires ambient { AreOfAmbient n cones.now }
    requires own { All HasItsRays cones.now }
    requires rays { AreCommonRays cones.now numbering.now }
    ensures { IfOk result (λ w. AreWordsOfFirst cones.now w.known.items w.cones.items) }
{
    let items = distinct_rows(alloc, n, cones)?;
    let rays = numbering.as_slice();
    let rows = items.as_slice();
    if rows.len().saturating_mul(rays.len() / 128 + 1) > MOST_PAIRS {
        return Ok(no_words(alloc));
    }
    let known = words_of_rows(alloc, rows, rays)?;
    words_of_cones(alloc, numbering, &items, known, cones)
}

/// Whether a row may be positive at none of the bits of a word.
fn is_low_on(row: RowBits, own: u128) -> bool
    ensures { IsTrue result → IsLowOn row own }
{
    row.high & own == 0
}

/// Whether a row is told to be positive at none of the bits of these words.
fn is_low(row: &[RowBits], own: &[u128]) -> bool
    requires { length row.now ≡ length own.now }
    ensures { IsTrue result → IsLowInWords row.now own.now }
{
    for b in 0..own.len() {
        if !is_low_on(row[b], own[b]) {
            return false;
        }
    }
    true
}

/// Those of the indices whose rows are told to be positive at none of the bits of these words.
fn low_indices(
    alloc: Global,
    known: &[RowWords],
    indices: &[usize],
    own: &[u128],
) -> Result<Vec<usize>, AllocError>
    requires indices { All (λ p. p < length known.now) indices.now }
    requires wide { (p : ℕ) (d : List RowBits) → p < length known.now → length (slice_index_or known.now p d) ≡ length own.now }
    ensures { IfOk result (λ out. AreLowIndices known.now indices.now own.now out.items) }
{
    let mut out = Vec::with_capacity(alloc, indices.len())?;
    for p in indices {
        if is_low(known[*p].as_slice(), own) {
            out.push(*p)?;
        }
    }
    Ok(out)
}

/// The bits of the word at `b` where one of the rows at these indices isn't zero.
fn cut_at(known: &[RowWords], indices: &[usize], b: usize) -> u128
    requires indices { All (λ p. p < length known.now) indices.now }
    requires inside { (p : ℕ) (d : List RowBits) → p < length known.now → b < length (slice_index_or known.now p d) }
    ensures { (i : ℕ) → bit_at result i ≡ 1 → IsCutIn known.now indices.now b i }
{
    let mut cut = 0;
    for p in indices {
        cut |= known[*p].as_slice()[b].cut;
    }
    cut
}

/// Whether each bit of the word at `b` is one of both cones or of none, or one of the rows at these indices is told not to be zero there.
fn is_told_at(
    known: &[RowWords],
    left: &[usize],
    right: &[usize],
    x: u128,
    y: u128,
    b: usize,
) -> bool
    requires left { All (λ p. p < length known.now) left.now }
    requires right { All (λ p. p < length known.now) right.now }
    requires inside { (p : ℕ) (d : List RowBits) → p < length known.now → b < length (slice_index_or known.now p d) }
    ensures { IsTrue result → IsToldAt known.now left.now right.now x y b }
{
    let differing = x ^ y;
    if differing == 0 {
        return true;
    }
    let cut = cut_at(known, left, b) | cut_at(known, right, b);
    is_word_below(differing, cut)
}

/// Whether each bit of the words of two cones is one of both or of none, or one of the rows at these indices is told not to be zero there.
fn are_told_at(
    known: &[RowWords],
    left: &[usize],
    right: &[usize],
    own: &[u128],
    others: &[u128],
) -> bool
    requires left { All (λ p. p < length known.now) left.now }
    requires right { All (λ p. p < length known.now) right.now }
    requires long { length others.now ≡ length own.now }
    requires wide { (p : ℕ) (d : List RowBits) → p < length known.now → length (slice_index_or known.now p d) ≡ length own.now }
    ensures { IsTrue result → (b : ℕ) → b < length own.now → IsToldAt known.now left.now right.now (slice_index_or own.now b 0)
        (slice_index_or others.now b 0) b }
{
    for b in 0..own.len() {
        if !is_told_at(known, left, right, own[b], others[b], b) {
            return false;
        }
    }
    true
}

/// Whether rows of two cones are told to keep them apart, but for the rays that they share: those of the first one alone, or those of both.
pub(crate) fn are_told_by_words(
    alloc: Global,
    known: &[RowWords],
    s: &ConeWords,
    t: &ConeWords,
) -> Result<bool, AllocError>
    requires wide { (p : ℕ) (d : List RowBits) → p < length known.now → length (slice_index_or known.now p d) ≡ length s.now.own.items }
    requires long { length t.now.own.items ≡ length s.now.own.items }
    requires left { All (λ p. p < length known.now) s.now.rows.items }
    requires right { All (λ p. p < length known.now) t.now.rows.items }
    ensures { IfOk result (λ yes. IsTrue yes → AreToldByWords known.now s.now t.now) }
{
    let left = low_indices(alloc, known, s.rows.as_slice(), t.own.as_slice())?;
    if are_told_at(
        known,
        left.as_slice(),
        &[],
        s.own.as_slice(),
        t.own.as_slice(),
    ) {
        return Ok(true);
    }
    let right = low_indices(alloc, known, t.rows.as_slice(), s.own.as_slice())?;
    Ok(are_told_at(
        known,
        left.as_slice(),
        right.as_slice(),
        s.own.as_slice(),
        t.own.as_slice(),
    ))
}
