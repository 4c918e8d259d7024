//! The pivoting engine on small numbers: the pivots of `pivoting.rt`, on a table of 64 bits. Nothing is proved of it but that it is
//! safe and ends: what it finds is judged by `check.rt`. It gives up where an entry of the table leaves 31 bits, since within these
//! a difference of two products fits.
//!
//! The rows and equations are kept in one list of numbers, and so are the lines.

ghost use Rattle.std.specs.Prelude.{◌<◌};

use crate::entries::{entry_at, last_of};
use crate::found::Found;
use crate::pivoting::vector_of;
use crate::table::Column;
use gf_vec::IntVec;
use std::alloc::{AllocError, Global};

/// What the entries of the table stay within.
const LIMIT: i64 = (1 << 31) - 1;

/// What the entries of the rows and equations are within: their dot products with lines and with sums of lines then fit.
const LIMIT_OF_VECTORS: i64 = 1 << 20;

/// The table of a system: the inverse of the basic columns, times the denominator, as in `table.rt`.
#[derive(Drop)]
struct SmallTable {
    alloc: Global,
    rows: Vec<i64>,
    equations: Vec<i64>,
    lines: Vec<i64>,
    basic: Vec<Column>,
    denominator: i64,
    entering: Vec<i64>,
    pivot_line: Vec<i64>,
    objective: Vec<i64>,
}

/// The dot product of a vector and the front of a line.
fn along(line: &[i64], vector: &[i64]) -> i64 {
    let mut sum = 0i64;
    for (x, y) in line.iter().zip(vector) {
        sum = sum.wrapping_add(x.wrapping_mul(*y));
    }
    sum
}

/// Whether a number is within the limit of the table.
fn is_within(x: i64) -> bool {
    -LIMIT <= x && x <= LIMIT
}

/// The entries of vectors, one after another, if they are small.
///
/// # Errors
/// Want of memory.
fn entries_of(alloc: Global, n: usize, vectors: &[IntVec]) -> Result<Option<Vec<i64>>, AllocError> {
    let mut entries = Vec::with_capacity(alloc, vectors.len().saturating_mul(n))?;
    for vector in vectors {
        for x in vector.as_slice() {
            match i64::try_from(*x) {
                Ok(small) if -LIMIT_OF_VECTORS <= small && small <= LIMIT_OF_VECTORS => {
                    entries.push(small)?;
                }
                _ => return Ok(None),
            }
        }
    }
    Ok(Some(entries))
}

/// Takes a line `p` times and the pivot's line `-f` times. Says whether each entry is within the limit.
fn cross(line: &mut [i64], p: i64, f: i64, pivot_line: &[i64]) -> bool {
    let mut within = true;
    for (x, y) in line.iter_mut().zip(pivot_line) {
        *x = p.wrapping_mul(*x).wrapping_sub(f.wrapping_mul(*y));
        within &= is_within(*x);
    }
    within
}

/// Takes a line `p` times and the pivot's line `-f` times, over the denominator. Says whether each entry is within the limit.
fn cross_over(line: &mut [i64], p: i64, f: i64, pivot_line: &[i64], denominator: i64) -> bool {
    if denominator <= 0 {
        return false;
    }
    let mut within = true;
    for (x, y) in line.iter_mut().zip(pivot_line) {
        *x = p.wrapping_mul(*x).wrapping_sub(f.wrapping_mul(*y)) / denominator;
        within &= is_within(*x);
    }
    within
}

/// Takes a line `p` times and the pivot's line `-f` times, over the denominator. Says whether each entry is within the limit.
fn eliminate(line: &mut [i64], p: i64, f: i64, pivot_line: &[i64], denominator: i64) -> bool {
    if denominator == 1 {
        return cross(line, p, f, pivot_line);
    }
    cross_over(line, p, f, pivot_line, denominator)
}

/// Sets each entry to that of another line.
fn overwrite(line: &mut [i64], by: &[i64]) {
    for (x, y) in line.iter_mut().zip(by) {
        *x = *y;
    }
}

/// Adds a line to the sum.
fn add_line(sum: &mut [i64], line: &[i64]) {
    for (s, x) in sum.iter_mut().zip(line) {
        *s = s.wrapping_add(*x);
    }
}

/// The lines of the table in which every unit vector is basic, one after another.
///
/// # Errors
/// Want of memory.
fn unit_lines(alloc: Global, size: usize) -> Result<Vec<i64>, AllocError>
    requires { 0 < size }
{
    let mut lines = vec![in alloc; 0; size.saturating_mul(size)]?;
    for (i, line) in lines.chunks_exact_mut(size).enumerate() {
        if let Some(x) = line.get_mut(i) {
            *x = 1;
        }
    }
    Ok(lines)
}

impl SmallTable {
    /// The table of a system with `size` lines, if its entries are small.
    ///
    /// # Errors
    /// Want of memory.
    fn new(
        alloc: Global,
        n: usize,
        size: usize,
        rows: &[IntVec],
        equations: &[IntVec],
    ) -> Result<Option<SmallTable>, AllocError>
        requires { 0 < size }
    {
        let Some(rows) = entries_of(alloc, n, rows)? else {
            return Ok(None);
        };
        let Some(equations) = entries_of(alloc, n, equations)? else {
            return Ok(None);
        };
        let mut basic = Vec::with_capacity(alloc, size)?;
        for c in 0..size {
            basic.push(Column::Unit(c))?;
        }
        Ok(Some(SmallTable {
            alloc,
            rows,
            equations,
            lines: unit_lines(alloc, size)?,
            basic,
            denominator: 1,
            entering: Vec::with_capacity(alloc, size)?,
            pivot_line: Vec::with_capacity(alloc, size)?,
            objective: Vec::with_capacity(alloc, size)?,
        }))
    }

    /// Makes the column of a row, with 1 below it, the one that is to enter. Says whether its entries are within the limit.
    ///
    /// # Errors
    /// Want of memory.
    fn enter_row(&mut self, n: usize, size: usize, k: usize) -> Result<bool, AllocError>
        requires { 0 < size }
    {
        self.entering.clear();
        let start = k.saturating_mul(n);
        let Some(row) = self.rows.get(start..start.saturating_add(n)) else {
            return Ok(false);
        };
        let mut within = true;
        for line in self.lines.chunks_exact(size) {
            let entry = along(line, row).wrapping_add(last_of(line));
            within &= is_within(entry);
            self.entering.push(entry)?;
        }
        Ok(within)
    }

    /// Makes the column of an equation, with 0 below it, the one that is to enter. Says whether its entries are within the limit.
    ///
    /// # Errors
    /// Want of memory.
    fn enter_equation(&mut self, n: usize, size: usize, k: usize) -> Result<bool, AllocError>
        requires { 0 < size }
    {
        self.entering.clear();
        let start = k.saturating_mul(n);
        let Some(equation) = self.equations.get(start..start.saturating_add(n)) else {
            return Ok(false);
        };
        let mut within = true;
        for line in self.lines.chunks_exact(size) {
            let entry = along(line, equation);
            within &= is_within(entry);
            self.entering.push(entry)?;
        }
        Ok(within)
    }

    /// Pivots in a line: the column at hand becomes basic there. Says whether the table stays within the limit.
    ///
    /// # Errors
    /// Want of memory.
    fn pivot(&mut self, size: usize, index: usize, column: Column) -> Result<bool, AllocError>
        requires { 0 < size }
    {
        let f = entry_at(self.entering.as_slice(), index);
        let p = f.wrapping_abs();
        self.take_line(size, index, f < 0)?;
        let pivot_line = self.pivot_line.as_slice();
        let entering = self.entering.as_slice();
        let denominator = self.denominator;
        let mut within = true;
        for (i, line) in self.lines.chunks_exact_mut(size).enumerate() {
            if i == index {
                overwrite(line, pivot_line);
            } else {
                let f = entry_at(entering, i);
                if f != 0 || p != denominator {
                    within &= eliminate(line, p, f, pivot_line, denominator);
                }
            }
        }
        if let Some(basic) = self.basic.get_mut(index) {
            *basic = column;
        }
        self.denominator = p;
        Ok(within)
    }

    /// Takes the line of a pivot, with its sign turned where the pivot is negative.
    ///
    /// # Errors
    /// Want of memory.
    fn take_line(&mut self, size: usize, index: usize, negative: bool) -> Result<(), AllocError> {
        self.pivot_line.clear();
        let start = index.saturating_mul(size);
        if let Some(line) = self.lines.get(start..start.saturating_add(size)) {
            for x in line {
                self.pivot_line
                    .push(if negative { x.wrapping_neg() } else { *x })?;
            }
        }
        Ok(())
    }

    /// Makes an equation basic, where some coordinate's line still has a unit vector and a nonzero entry. Says whether the
    /// table stays within the limit.
    ///
    /// # Errors
    /// Want of memory.
    fn take_equation(&mut self, n: usize, size: usize, k: usize) -> Result<bool, AllocError>
        requires { 0 < size }
    {
        if !self.enter_equation(n, size, k)? {
            return Ok(false);
        }
        for i in 0..n {
            if entry_at(self.entering.as_slice(), i) != 0 && self.is_unit(i) {
                return self.pivot(size, i, Column::Equation(k));
            }
        }
        Ok(true)
    }

    /// Whether a unit vector is basic in a line.
    fn is_unit(&self, index: usize) -> bool {
        matches!(self.basic.get(index), Some(Column::Unit(_)))
    }

    /// Adds up the lines in which a unit vector is basic; the last entry is what is left to be paid.
    ///
    /// # Errors
    /// Want of memory.
    fn add_up(&mut self, size: usize) -> Result<i64, AllocError>
        requires { 0 < size }
    {
        self.objective.clear();
        self.objective.resize(size, 0)?;
        for (line, basic) in self.lines.chunks_exact(size).zip(&self.basic) {
            if matches!(basic, Column::Unit(_)) {
                add_line(self.objective.as_mut_slice(), line);
            }
        }
        Ok(last_of(self.objective.as_slice()))
    }

    /// The row that enters: the one with the greatest gain, or the first with a gain.
    fn entering_row(&self, n: usize, first: bool) -> Option<usize>
        requires { 0 < n }
    {
        let objective = self.objective.as_slice();
        let last = last_of(objective);
        let mut best = None;
        let mut greatest = 0;
        for (k, row) in self.rows.chunks_exact(n).enumerate() {
            let gain = along(objective, row).wrapping_add(last);
            if gain > greatest {
                if first {
                    return Some(k);
                }
                best = Some(k);
                greatest = gain;
            }
        }
        best
    }

    /// The line that the column at hand may enter: the least quotient of the last entry by the entry of the column, and
    /// the least basic column among equals. Lines of equations stay.
    fn leaving(&self, size: usize) -> Option<usize>
        requires { 0 < size }
    {
        let mut best = None;
        let mut least = (0i64, 1i64);
        let mut column = Column::Unit(0);
        for (i, line) in self.lines.chunks_exact(size).enumerate() {
            let by = entry_at(self.entering.as_slice(), i);
            if by > 0
                && let Some(basic) = self.basic.get(i)
                && !matches!(basic, Column::Equation(_))
            {
                let side = last_of(line);
                let left = side.wrapping_mul(least.1);
                let right = by.wrapping_mul(least.0);
                if best.is_none() || left < right || left == right && *basic < column {
                    best = Some(i);
                    least = (side, by);
                    column = *basic;
                }
            }
        }
        best
    }

    /// The entries of a candidate for a solution.
    ///
    /// # Errors
    /// Want of memory.
    fn point(&self, n: usize) -> Result<Vec<i128>, AllocError> {
        let mut entries = Vec::with_capacity(self.alloc, n)?;
        for c in 0..n {
            entries.push(i128::from(entry_at(self.objective.as_slice(), c)).wrapping_neg())?;
        }
        Ok(entries)
    }

    /// The entries of a candidate for multipliers: of the rows, and then of the equations.
    ///
    /// # Errors
    /// Want of memory.
    fn multipliers(
        &self,
        size: usize,
        rows: usize,
        equations: usize,
    ) -> Result<Vec<i128>, AllocError>
        requires { 0 < size }
    {
        let mut entries = vec![in self.alloc; 0; rows.saturating_add(equations)]?;
        for (line, basic) in self.lines.chunks_exact(size).zip(&self.basic) {
            let index = match basic {
                Column::Row(k) => Some(*k),
                Column::Equation(k) => Some(rows.saturating_add(*k)),
                Column::Unit(_) => None,
            };
            if let Some(k) = index
                && let Some(entry) = entries.get_mut(k)
            {
                *entry = i128::from(last_of(line));
            }
        }
        Ok(entries)
    }
}

/// A candidate for a solution, or for multipliers of the rows and then of the equations, in at least one column; none where the
/// numbers aren't small or after many pivots. It is what `candidate` gives then.
///
/// # Errors
/// Want of memory.
pub(crate) fn small_candidate(
    alloc: Global,
    n: usize,
    rows: &[IntVec],
    equations: &[IntVec],
) -> Result<Option<Found>, AllocError> {
    if n == 0 {
        return Ok(None);
    }
    let size = n.saturating_add(1);
    let Some(mut table) = SmallTable::new(alloc, n, size, rows, equations)? else {
        return Ok(None);
    };
    for k in 0..equations.len() {
        if !table.take_equation(n, size, k)? {
            return Ok(None);
        }
    }
    let all = rows.len().saturating_add(equations.len()).saturating_add(n);
    let patience = all.saturating_mul(4);
    for step in 0..all.saturating_mul(50) {
        if table.add_up(size)? == 0 {
            let entries = table.multipliers(size, rows.len(), equations.len())?;
            return Ok(vector_of(entries).map(Found::Farkas));
        }
        let Some(k) = table.entering_row(n, step >= patience) else {
            return Ok(vector_of(table.point(n)?).map(Found::Point));
        };
        if !table.enter_row(n, size, k)? {
            return Ok(None);
        }
        let Some(index) = table.leaving(size) else {
            return Ok(None);
        };
        if !table.pivot(size, index, Column::Row(k))? {
            return Ok(None);
        }
    }
    Ok(None)
}
