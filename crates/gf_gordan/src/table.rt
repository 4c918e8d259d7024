//! The table of the pivoting engine. Nothing is proved of it but that it is safe and ends: what it finds is judged by
//! `check.rt`. So its arithmetic wraps, and a pivot is given up where an entry of the table leaves 62 bits: while all are
//! within that, the products of a pivot fit.
//!
//! A column is that of a row of the system, with 1 below it; of an equation, with 0 below it; or a unit vector. The
//! lines hold the inverse of the basic columns times one common denominator (Edmonds, Systems of distinct representatives
//! and linear algebra, 1967), so their entries are minors of the system, and the divisions are exact.

use crate::entries::{entry_at, last_of};
use gf_vec::quotient;
use std::alloc::{AllocError, Global};

/// What the entries of the table stay within.
const LIMIT: i128 = 1 << 62;

/// The column that is basic in a line.
#[derive(Clone, Copy, PartialEq, Eq, PartialOrd, Ord)]
pub(crate) enum Column {
    Row(usize),
    Equation(usize),
    Unit(usize),
}

/// The inverse of the basic columns, times the denominator.
#[derive(Drop)]
pub(crate) struct Table {
    alloc: Global,
    /// One line for each coordinate, and one for the sum of the multipliers.
    lines: Vec<Vec<i128>>,
    /// The basic column of each line.
    basic: Vec<Column>,
    denominator: i128,
    /// The entries, by lines, of the column that is to enter.
    entering: Vec<i128>,
    /// The line of the last pivot.
    pivot_line: Vec<i128>,
    /// The sum of the lines in which a unit vector is basic.
    objective: Vec<i128>,
}

/// The dot product of a vector and the front of a line.
fn along(line: &[i128], vector: &[i128]) -> i128 {
    let mut sum = 0i128;
    for (x, y) in vector.iter().zip(line) {
        sum = sum.wrapping_add(x.wrapping_mul(*y));
    }
    sum
}

/// The entry of a line in the column of a vector, with `below` under it.
fn entry_of(line: &[i128], vector: &[i128], below: i128) -> i128 {
    let front = along(line, vector);
    match line.get(vector.len()) {
        Some(last) if below != 0 => front.wrapping_add(*last),
        _ => front,
    }
}

/// Takes a line `p` times and the pivot's line `-f` times, over the denominator. Says whether each entry is within the limit.
fn eliminate(line: &mut [i128], p: i128, f: i128, pivot_line: &[i128], denominator: i128) -> bool {
    if denominator <= 0 {
        return false;
    }
    let mut within = true;
    for (c, x) in line.iter_mut().enumerate() {
        if let Some(y) = pivot_line.get(c) {
            let crossed = p.wrapping_mul(*x).wrapping_sub(f.wrapping_mul(*y));
            *x = quotient(crossed, denominator);
            within = within && *x <= LIMIT && *x >= -LIMIT;
        }
    }
    within
}

/// Adds a line to the sum.
fn add_line(sum: &mut [i128], line: &[i128]) {
    for (c, s) in sum.iter_mut().enumerate() {
        if let Some(x) = line.get(c) {
            *s = s.wrapping_add(*x);
        }
    }
}

/// A unit vector.
///
/// # Errors
/// Want of memory.
fn unit_line(alloc: Global, len: usize, index: usize) -> Result<Vec<i128>, AllocError> {
    let mut line = vec![in alloc; 0; len]?;
    if let Some(x) = line.get_mut(index) {
        *x = 1;
    }
    Ok(line)
}

impl Table {
    /// The table of a system with `n` columns, where every unit vector is basic.
    ///
    /// # Errors
    /// Want of memory.
    pub(crate) fn new(alloc: Global, n: usize) -> Result<Table, AllocError> {
        let len = n.saturating_add(1);
        let mut lines = Vec::with_capacity(alloc, len)?;
        let mut basic = Vec::with_capacity(alloc, len)?;
        for c in 0..len {
            lines.push(unit_line(alloc, len, c)?)?;
            basic.push(Column::Unit(c))?;
        }
        Ok(Table {
            alloc,
            lines,
            basic,
            denominator: 1,
            entering: Vec::with_capacity(alloc, len)?,
            pivot_line: Vec::with_capacity(alloc, len)?,
            objective: Vec::with_capacity(alloc, len)?,
        })
    }

    /// Makes the column of a vector, with `below` under it, the one that is to enter.
    ///
    /// # Errors
    /// Want of memory.
    pub(crate) fn enter(&mut self, vector: &[i128], below: i128) -> Result<(), AllocError> {
        self.entering.clear();
        for line in &self.lines {
            self.entering
                .push(entry_of(line.as_slice(), vector, below))?;
        }
        Ok(())
    }

    /// Pivots in a line: the column at hand becomes basic there. Says whether the table stays within the limit.
    ///
    /// # Errors
    /// Want of memory.
    pub(crate) fn pivot(&mut self, index: usize, column: Column) -> Result<bool, AllocError> {
        let f = entry_at(self.entering.as_slice(), index);
        let p = f.wrapping_abs();
        self.take_line(index, f < 0)?;
        let denominator = self.denominator;
        let mut within = p <= LIMIT;
        for (i, line) in self.lines.iter_mut().enumerate() {
            if i == index {
                line.clear();
                line.extend_from_slice(self.pivot_line.as_slice())?;
            } else {
                let f = entry_at(self.entering.as_slice(), i);
                if f != 0 || p != denominator {
                    let pivot_line = self.pivot_line.as_slice();
                    within &= eliminate(line.as_mut_slice(), p, f, pivot_line, denominator);
                }
            }
        }
        if let Some(basic) = self.basic.get_mut(index) {
            *basic = column;
        }
        self.denominator = p;
        Ok(within)
    }

    /// Takes the line of a pivot, with its sign turned where the pivot is negative.
    ///
    /// # Errors
    /// Want of memory.
    fn take_line(&mut self, index: usize, negative: bool) -> Result<(), AllocError> {
        self.pivot_line.clear();
        if let Some(line) = self.lines.get(index) {
            for x in line {
                self.pivot_line
                    .push(if negative { x.wrapping_neg() } else { *x })?;
            }
        }
        Ok(())
    }

    /// Makes an equation basic, where some coordinate's line still has a unit vector and a nonzero entry. Says whether the
    /// table stays within the limit.
    ///
    /// # Errors
    /// Want of memory.
    pub(crate) fn take_equation(
        &mut self,
        k: usize,
        equation: &[i128],
    ) -> Result<bool, AllocError> {
        self.enter(equation, 0)?;
        for i in 0..equation.len() {
            if entry_at(self.entering.as_slice(), i) != 0 && self.is_unit(i) {
                return self.pivot(i, Column::Equation(k));
            }
        }
        Ok(true)
    }

    /// Whether a unit vector is basic in a line.
    fn is_unit(&self, index: usize) -> bool {
        matches!(self.basic.get(index), Some(Column::Unit(_)))
    }

    /// Adds up the lines in which a unit vector is basic; the last entry is what is left to be paid.
    ///
    /// # Errors
    /// Want of memory.
    pub(crate) fn add_up(&mut self) -> Result<i128, AllocError> {
        self.objective.clear();
        self.objective.resize(self.lines.len(), 0)?;
        for (i, line) in self.lines.iter().enumerate() {
            if matches!(self.basic.get(i), Some(Column::Unit(_))) {
                add_line(self.objective.as_mut_slice(), line.as_slice());
            }
        }
        Ok(last_of(self.objective.as_slice()))
    }

    /// What a row would bring: positive where it may enter.
    pub(crate) fn gain(&self, row: &[i128]) -> i128 {
        entry_of(self.objective.as_slice(), row, 1)
    }

    /// The line that the column at hand may enter: the least quotient of the last entry by the entry of the column, and
    /// the least basic column among equals. Lines of equations stay.
    pub(crate) fn leaving(&self) -> Option<usize> {
        let mut best = None;
        let mut least = (0i128, 1i128);
        let mut column = Column::Unit(0);
        for (i, line) in self.lines.iter().enumerate() {
            if let Some(basic) = self.basic.get(i)
                && !matches!(basic, Column::Equation(_))
            {
                let by = entry_at(self.entering.as_slice(), i);
                let side = last_of(line.as_slice());
                if by > 0 {
                    let left = side.wrapping_mul(least.1);
                    let right = by.wrapping_mul(least.0);
                    if best.is_none() || left < right || left == right && *basic < column {
                        best = Some(i);
                        least = (side, by);
                        column = *basic;
                    }
                }
            }
        }
        best
    }

    /// The entries of a candidate for a solution.
    ///
    /// # Errors
    /// Want of memory.
    pub(crate) fn point(&self, n: usize) -> Result<Vec<i128>, AllocError> {
        let mut entries = Vec::with_capacity(self.alloc, n)?;
        for c in 0..n {
            entries.push(entry_at(self.objective.as_slice(), c).wrapping_neg())?;
        }
        Ok(entries)
    }

    /// The entries of a candidate for multipliers: of the rows, and then of the equations.
    ///
    /// # Errors
    /// Want of memory.
    pub(crate) fn multipliers(
        &self,
        rows: usize,
        equations: usize,
    ) -> Result<Vec<i128>, AllocError> {
        let mut entries = vec![in self.alloc; 0; rows.saturating_add(equations)]?;
        for (i, line) in self.lines.iter().enumerate() {
            let index = match self.basic.get(i) {
                Some(Column::Row(k)) => Some(*k),
                Some(Column::Equation(k)) => Some(rows.saturating_add(*k)),
                _ => None,
            };
            if let Some(k) = index
                && let Some(entry) = entries.get_mut(k)
            {
                *entry = last_of(line.as_slice());
            }
        }
        Ok(entries)
    }
}
