//! The pivoting engine: Dantzig's simplex method on a table of whole numbers. It gives a candidate, or none.
//!
//! It looks for multipliers of the rows, not negative and with sum 1, that together with multipliers of the equations
//! give the zero vector. The row of the greatest gain enters; after a while the first row with a gain does (Bland, New
//! finite pivoting rules for the simplex method, 1977).

ghost use Rattle.std.specs.Prelude.{All, IsFalse};
ghost use Rattle.gf_int_theory.specs.Range.{InRange};

use crate::found::Found;
use crate::table::{Column, Table};
use gf_vec::IntVec;
use std::alloc::{AllocError, Global};

/// The vector with these entries, where they are in range.
pub(crate) fn vector_of(entries: Vec<i128>) -> Option<IntVec> {
    if has_least(entries.as_slice()) {
        return None;
    }
    Some(IntVec::from_vec(entries))
}

/// Whether some entry is `-2^127`.
pub fn has_least(xs: &[i128]) -> bool
    ensures { IsFalse result → All InRange xs.now }
{
    for x in xs {
        if *x == i128::MIN {
            return true;
        }
    }
    false
}

/// The row that enters: the one with the greatest gain, or the first with a gain.
fn entering(table: &Table, rows: &[IntVec], first: bool) -> Option<usize> {
    let mut best = None;
    let mut greatest = 0;
    for (k, row) in rows.iter().enumerate() {
        let gain = table.gain(row.as_slice());
        if gain > greatest {
            if first {
                return Some(k);
            }
            best = Some(k);
            greatest = gain;
        }
    }
    best
}

/// A candidate for a solution, or for multipliers of the rows and then of the equations; none where the table leaves its limit
/// or after many pivots.
///
/// # Errors
/// Want of memory.
pub(crate) fn candidate(
    alloc: Global,
    n: usize,
    rows: &[IntVec],
    equations: &[IntVec],
) -> Result<Option<Found>, AllocError> {
    let mut table = Table::new(alloc, n)?;
    for (k, equation) in equations.iter().enumerate() {
        if !table.take_equation(k, equation.as_slice())? {
            return Ok(None);
        }
    }
    let size = rows.len().saturating_add(equations.len()).saturating_add(n);
    let patience = size.saturating_mul(4);
    for step in 0..size.saturating_mul(50) {
        if table.add_up()? == 0 {
            let entries = table.multipliers(rows.len(), equations.len())?;
            return Ok(vector_of(entries).map(Found::Farkas));
        }
        let Some(k) = entering(&table, rows, step >= patience) else {
            return Ok(vector_of(table.point(n)?).map(Found::Point));
        };
        if let Some(row) = rows.get(k) {
            table.enter(row.as_slice(), 1)?;
        }
        let Some(index) = table.leaving() else {
            return Ok(None);
        };
        if !table.pivot(index, Column::Row(k))? {
            return Ok(None);
        }
    }
    Ok(None)
}
