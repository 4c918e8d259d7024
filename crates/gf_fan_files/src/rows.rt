//! The reading of rows of whole numbers.
ghost use Rattle.std.specs.Prelude.{◌≡◌, ◌≤◌, IfOk, List, ℤ, All, length};
ghost use Rattle.gf_int_theory.specs.Range.{InRange};
ghost use Rattle.gf_text.specs.VectorText.{signed_entry};
ghost use Rattle.gf_fan_files.specs.Lines.{content_from};
ghost use Rattle.gf_fan_files.specs.RowText.{most_row_entry, row_size_step, row_entry_step, row_step_at};
ghost use Rattle.gf_fan_files.specs.FanText.{the_rows, rows, content_read};
ghost use Rattle.gf_fan_files.specs.Found.{IsReadSo};
ghost use Rattle.gf_fan_files.specs.Given.{row_move};

use crate::error::{FanFileError, Reason, refused};
use crate::places::{content_at, place_of, text_of, token_at};
use gf_text::{Number, number_of};
use gf_vec::IntVec;
use std::alloc::{AllocError, Global};
use std::marker::Model;

/// Vectors of whole numbers, seen as their list.
#[derive(Drop)]
pub struct Vectors {
    items: Vec<IntVec>,
}

impl Model for Vectors {
    ghost use Rattle.std.specs.Prelude.{List, ℤ};

    ghost Value = { List (List ℤ) };

    ghost view = { λ v. v.items.items };
}

impl Vectors {
    /// The vectors, in their order.
    pub fn as_slice(&self) -> &[IntVec]
        ensures { result.now ≡ self.now }
    {
        self.items.as_slice()
    }

    /// These vectors, which it keeps.
    fn of(items: Vec<IntVec>) -> Vectors
        ensures { result ≡ items.items }
    {
        Vectors { items }
    }
}

/// What a token does in rows.
#[derive(Clone, Copy)]
pub(crate) enum RowStep {
    /// It is taken; whether it was a `-`.
    Go(bool),
    /// It is the end of the rows.
    Done,
    Halt(Reason),
}

/// The greatest absolute value of an entry.
const MOST_ROW_ENTRY: u128 = (1 << 127) - 1;

/// A natural number, or its negative.
fn signed(minus: bool, n: u128) -> i128
    requires { n ≤ most_row_entry }
    ensures value { result ≡ signed_entry minus n }
    ensures range { InRange result }
{
    let size = n as i128;
    if minus { -size } else { size }
}

/// A number, with the sign that stood before it.
fn size(row: &mut Vec<i128>, minus: bool, t: &[u8]) -> Result<RowStep, AllocError>
    requires { All InRange row.old.items }
    ensures step { IfOk result (λ m. (rs : List (List ℤ)) → row_move m rs row.new.items ≡ row_size_step rs row.old.items minus t.now) }
    ensures range { All InRange row.new.items }
{
    match number_of(t, MOST_ROW_ENTRY) {
        Number::None => Ok(RowStep::Halt(Reason::Unexpected)),
        Number::Wide => Ok(RowStep::Halt(Reason::TooWide)),
        Number::Within(n) => {
            row.push(signed(minus, n))?;
            Ok(RowStep::Go(false))
        }
    }
}

/// A sign or a number at the front of an entry.
fn entry(row: &mut Vec<i128>, t: &[u8]) -> Result<RowStep, AllocError>
    requires { All InRange row.old.items }
    ensures step { IfOk result (λ m. (rs : List (List ℤ)) → row_move m rs row.new.items ≡ row_entry_step rs row.old.items t.now) }
    ensures range { All InRange row.new.items }
{
    if t == b"-".as_slice() {
        return Ok(RowStep::Go(true));
    }
    size(row, false, t)
}

/// What a token does, behind these rows, these entries of the next one and a `-` or none.
fn step(
    alloc: Global,
    rows: &mut Vec<IntVec>,
    row: &mut Vec<i128>,
    minus: bool,
    t: &[u8],
) -> Result<RowStep, AllocError>
    requires { All InRange row.old.items }
    ensures step { IfOk result (λ m. row_move m rows.new.items row.new.items ≡ row_step_at rows.old.items row.old.items minus t.now) }
    ensures range { All InRange row.new.items }
{
    if minus {
        return size(row, true, t);
    }
    if row.is_empty() {
        if t.is_empty() {
            return Ok(RowStep::Done);
        }
        return entry(row, t);
    }
    if t == b"\n".as_slice() {
        rows.push(IntVec::from_slice(alloc, row.as_slice())?)?;
        row.clear();
        return Ok(RowStep::Go(false));
    }
    entry(row, t)
}

/// The rows of the content that begins at this place of the source.
pub(crate) fn rows_from(alloc: Global, source: &[u8], from: usize) -> Result<Vectors, FanFileError>
    requires { from ≤ length source.now }
    ensures { IsReadSo (λ v. the_rows v) result (content_read (length source.now) rows (content_from source.now from)) }
{
    let mut rows = Vec::new(alloc);
    let mut row = Vec::new(alloc);
    let mut minus = false;
    let (mut place, _) = content_at(source, from);
    loop {
        let Some((token, rest)) = token_at(source, place) else {
            return Err(refused(source.len(), source.len(), Reason::Unexpected));
        };
        let taken = step(alloc, &mut rows, &mut row, minus, text_of(source, token))?;
        match taken {
            RowStep::Go(negative) => minus = negative,
            RowStep::Done => return Ok(Vectors::of(rows)),
            RowStep::Halt(reason) => {
                return Err(refused(source.len(), place_of(token), reason));
            }
        }
        place = rest;
    }
}
