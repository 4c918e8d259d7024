//! A weight by which the marks of lifts are heavier than their other terms, as an order in which terms are reduced. Nothing is
//! asked of it: reductions end by any.

ghost use Rattle.std.specs.Prelude.{◌<◌};

use gf_poly::Marked;
use std::alloc::Global;

/// How many entries of differences are gone through at most, after a first round.
const MOST_ENTRIES: u64 = 1 << 20;

/// Each entry at first: many, so that small steps turn the weight.
const START: i64 = 1_024;

/// How heavy a monomial is.
pub fn heft_of(weight: &[i64], x: &[u32]) -> i128 {
    let mut sum = 0i128;
    'entries: for (w, e) in weight.iter().zip(x) {
        sum = sum.wrapping_add(i128::from(*w).wrapping_mul(i128::from(*e)));
    }
    sum
}

/// Whether some entry of `x` is greater than that of `y`.
fn exceeds(x: &[u32], y: &[u32]) -> bool {
    'entries: for (a, b) in x.iter().zip(y) {
        if a > b {
            return true;
        }
    }
    false
}

/// Adds the entries of `x` less those of `y`.
fn add_difference(rows: &mut Vec<i64>, x: &[u32], y: &[u32]) -> Option<()> {
    'entries: for (a, b) in x.iter().zip(y) {
        match rows.push(i64::from(*a) - i64::from(*b)) {
            Ok(()) => {}
            Err(_) => return None,
        }
    }
    Some(())
}

/// Adds the differences of the mark and the other terms, but those that are positive by each positive weight.
fn add_lift(rows: &mut Vec<i64>, lift: &Marked) -> Option<()> {
    let head = lift.head().exponents();
    let terms = lift.poly().terms();
    'terms: for k in 0..terms.len() {
        let x = terms[k].mono.exponents();
        if exceeds(x, head) {
            add_difference(rows, head, x)?;
        }
    }
    Some(())
}

/// The differences of marks and other terms, one after another.
fn differences(alloc: Global, lifts: &[Marked]) -> Option<Vec<i64>> {
    let mut rows = Vec::new(alloc);
    'lifts: for i in 0..lifts.len() {
        add_lift(&mut rows, &lifts[i])?;
    }
    Some(rows)
}

/// How heavy a difference is.
fn gain_of(weight: &[i64], row: &[i64]) -> i64 {
    let mut sum = 0i64;
    'entries: for (w, d) in weight.iter().zip(row) {
        sum = sum.wrapping_add(w.wrapping_mul(*d));
    }
    sum
}

/// How often a difference is added that is so heavy, which isn't positive: half as often again as makes it weigh nothing.
fn times_of(gain: i64, row: &[i64]) -> i64 {
    let size = gain_of(row, row);
    if size < 1 {
        return 1;
    }
    (gain.wrapping_mul(-3) / size / 2).wrapping_add(1)
}

/// Adds the difference so often.
fn lean(weight: &mut [i64], row: &[i64], times: i64) {
    'entries: for i in 0..weight.len() {
        if i < row.len() {
            weight[i] = weight[i].wrapping_add(row[i].wrapping_mul(times));
        }
    }
}

/// Sets each entry to 1 that isn't positive; whether there was none.
fn is_positive(weight: &mut [i64]) -> bool {
    let mut fits = true;
    'entries: for i in 0..weight.len() {
        if weight[i] < 1 {
            weight[i] = 1;
            fits = false;
        }
    }
    fits
}

/// Adds each difference that isn't positive, some times; whether nothing was added.
fn fits_all(weight: &mut [i64], rows: &[i64], n: usize) -> bool
    requires { 0 < n }
{
    let mut fits = true;
    'rows: for row in rows.chunks_exact(n) {
        let gain = gain_of(weight, row);
        if gain < 1 {
            lean(weight, row, times_of(gain, row));
            fits = false;
        }
    }
    is_positive(weight) && fits
}

/// How many rounds there are at most, each of which goes through so many entries.
fn rounds_of(most: u64, entries: usize) -> u64 {
    if entries == 0 {
        return most;
    }
    most.min(MOST_ENTRIES / entries as u64 + 1)
}

/// A weight by which each mark is heavier than the other terms, from equal entries on (Agmon, Motzkin, Schoenberg), and that it is so; or
/// what is reached after so many rounds, or fewer where there are many terms, and that it may not be so.
pub fn weight_of(alloc: Global, lifts: &[Marked], most: u64) -> Option<(Vec<i64>, bool)> {
    let mut weight = Vec::new(alloc);
    if lifts.is_empty() {
        return Some((weight, true));
    }
    let n = lifts[0].head().exponents().len();
    if n == 0 {
        return Some((weight, true));
    }
    'entries: for _ in 0..n {
        match weight.push(START) {
            Ok(()) => {}
            Err(_) => return None,
        }
    }
    let rows = differences(alloc, lifts)?;
    'rounds: for _ in 0..rounds_of(most, rows.len()) {
        if fits_all(&mut weight, &rows, n) {
            return Some((weight, true));
        }
    }
    Some((weight, false))
}
