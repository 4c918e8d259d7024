//! Cutting a row up into batches, and putting it together again.
ghost use Rattle.std.specs.Prelude.{◌≡◌, ◌<◌, ◌≤◌, ◌+◌, ◌-◌, length, drop, slice_index_or, [], ◌∷◌, ◌++◌, IfOk};
ghost use Rattle.std.specs.Vec.{vec_capacity};
ghost use Rattle.std.specs.VecDeque.{deque_capacity};
ghost use Rattle.gf_waves.specs.Frontier.{behind_batch, first_batch, renewed, walkers_of};
ghost use Rattle.gf_waves.specs.Plans.{AreFit, AreFitAt, AreFreeBatches, AreNumbered, AreSpare, IsDealt, IsPlanned, gathered, hands_of, worked_rows};

use crate::batch::{Batch, Slot};
use crate::rows::{push, put_behind};
use gf_reverse_search::{Piece, Tree};
use std::alloc::{AllocError, Global};
use std::collections::VecDeque;

/// So many cells without pieces, each with room for those that it may have.
///
/// # Errors
///
/// Want of memory.
pub fn spare_slots<T: Tree>(alloc: Global, count: usize) -> Result<Vec<Slot<T>>, AllocError>
    ensures spare { IfOk result (λ v. AreSpare v.items) }
    ensures count { IfOk result (λ v. length v.items ≡ count) }
{
    let mut slots = Vec::with_capacity(alloc, count)?;
    while slots.len() < count {
        let row = VecDeque::with_capacity(alloc, 64)?;
        if slots.push(Slot { row }).is_err() {
            unreachable!();
        }
    }
    Ok(slots)
}

/// So many batches without cells, each with room for so many and with a row for what is done with, numbered from `first` on. At its last value the number
/// stays.
///
/// # Errors
///
/// Want of memory.
pub fn spare_batches<T: Tree>(
    alloc: Global,
    count: usize,
    cells: usize,
    first: u64,
) -> Result<Vec<Batch<T>>, AllocError>
    ensures free { IfOk result (λ v. AreFreeBatches cells v.items) }
    ensures count { IfOk result (λ v. length v.items ≡ count) }
    ensures numbers { IfOk result (λ v. AreNumbered first v.items) }
    ensures room { IfOk result (λ v. count ≤ vec_capacity v) }
{
    let mut batches = Vec::with_capacity(alloc, count)?;
    while batches.len() < count {
        let slots = Vec::with_capacity(alloc, cells)?;
        let worked = Vec::with_capacity(alloc, cells)?;
        let number = first.saturating_add(batches.len() as u64);
        let spare = VecDeque::with_capacity(alloc, 64)?;
        let batch = Batch {
            slots,
            worked,
            number,
            spare,
        };
        if batches.push(batch).is_err() {
            unreachable!();
        }
    }
    Ok(batches)
}

/// Puts a piece behind those of a batch that has room, a walker without its refusal. How many walkers are left of so many.
fn take<T: Tree>(batch: &mut VecDeque<Piece<T>>, piece: Piece<T>, walkers: usize) -> usize
    requires some { 0 < walkers }
    requires room { length batch.old.items < deque_capacity batch.old }
    ensures left { result ≡ walkers - walkers_of piece }
    ensures items { batch.new.items ≡ batch.old.items ++ renewed piece ∷ [] }
    ensures room { deque_capacity batch.old ≤ deque_capacity batch.new }
{
    match piece {
        Piece::Ready(node) => {
            push(batch, Piece::Ready(node));
            walkers
        }
        Piece::Under(walker) => {
            push(batch, Piece::Under(walker));
            walkers - 1
        }
        Piece::Refused(walker, _refusal) => {
            push(batch, Piece::Under(walker));
            walkers - 1
        }
    }
}

/// Takes the pieces of a cell out of a row: up to its first walker, and at most eight.
fn cut<T: Tree>(row: &mut VecDeque<Piece<T>>, slot: &mut VecDeque<Piece<T>>)
    requires empty { slot.old.items ≡ [] }
    requires room { 64 ≤ deque_capacity slot.old }
    ensures batch { slot.new.items ≡ first_batch 8 1 row.old.items }
    ensures rest { row.new.items ≡ behind_batch 8 1 row.old.items }
    ensures few { length slot.new.items ≤ 8 }
    ensures room { deque_capacity slot.old ≤ deque_capacity slot.new }
{
    let mut walkers: usize = 1;
    let mut pieces: usize = 8;
    while pieces > 0 && walkers > 0 {
        let Some(piece) = row.pop_front() else {
            return;
        };
        walkers = take(slot, piece, walkers);
        pieces -= 1;
    }
}

/// Puts a cell behind others, where there is room.
fn add<T: Tree>(slots: &mut Vec<Slot<T>>, slot: Slot<T>)
    requires { length slots.old.items < vec_capacity slots.old }
    ensures items { slots.new.items ≡ slots.old.items ++ slot ∷ [] }
    ensures room { vec_capacity slots.old ≤ vec_capacity slots.new }
{
    if slots.push(slot).is_err() {
        unreachable!();
    }
}

/// A row cut up for a wave: its first pieces become cells, as many as there are spare ones. What is behind stays in the row.
pub fn plan<T: Tree>(
    row: &mut VecDeque<Piece<T>>,
    mut spares: Vec<Slot<T>>,
    slots: &mut Vec<Slot<T>>,
)
    requires spare { AreSpare spares.items }
    requires empty { slots.old.items ≡ [] }
    requires room { length spares.items ≤ vec_capacity slots.old }
    ensures { IsPlanned (length spares.items) row.old.items slots.new.items row.new.items }
{
    while let Some(spare) = spares.pop() {
        let Slot { row: mut pieces } = spare;
        cut(row, &mut pieces);
        let slot = Slot { row: pieces };
        add(slots, slot);
    }
}

/// Deals cells out to batches: the first to the first batch, the next to the next, and again from the first batch on. The last cell goes
/// to the last batch.
pub fn deal<T: Tree>(mut slots: Vec<Slot<T>>, batches: &mut Vec<Batch<T>>)
    requires some { 0 < length batches.old.items }
    requires free { AreFreeBatches (length slots.items) batches.old.items }
    requires fit { AreFit slots.items }
    ensures dealt { IsDealt slots.items (hands_of batches.new.items) }
    ensures fit { AreFitAt batches.new.items }
    ensures count { length batches.new.items ≡ length batches.old.items }
{
    while let Some(slot) = slots.pop() {
        let Some(mut batch) = batches.pop() else {
            unreachable!();
        };
        if batch.slots.insert(0, slot).is_err() {
            unreachable!();
        }
        if batches.insert(0, batch).is_err() {
            unreachable!();
        }
    }
}

/// Puts what the first cell of a batch became behind a row that has room for it; nothing, where the batch has no cell any more.
fn put_next<T: Tree>(batch: &mut Batch<T>, row: &mut VecDeque<Piece<T>>)
    requires { length row.old.items + length (slice_index_or (worked_rows batch.old) 0 []) ≤ deque_capacity row.old }
    ensures items { row.new.items ≡ row.old.items ++ slice_index_or (worked_rows batch.old) 0 [] }
    ensures rest { worked_rows batch.new ≡ drop 1 (worked_rows batch.old) }
    ensures room { deque_capacity row.old ≤ deque_capacity row.new }
{
    if !batch.worked.is_empty() {
        put_behind(row, batch.worked.remove(0));
    }
}

/// So many cells of the batches, as they were dealt out, one after another, and then what is behind.
pub fn merge<T: Tree>(
    batches: &mut Vec<Batch<T>>,
    cells: usize,
    tail: &mut VecDeque<Piece<T>>,
    row: &mut VecDeque<Piece<T>>,
)
    requires empty { row.old.items ≡ [] }
    requires room { length (gathered cells batches.old.items ++ tail.old.items) ≤ deque_capacity row.old }
    ensures { row.new.items ≡ gathered cells batches.old.items ++ tail.old.items }
{
    let mut left = cells;
    while left > 0 && !batches.is_empty() {
        let mut batch = batches.remove(0);
        put_next(&mut batch, row);
        if batches.push(batch).is_err() {
            unreachable!();
        }
        left -= 1;
    }
    if row.append(tail).is_err() {
        unreachable!();
    }
}
