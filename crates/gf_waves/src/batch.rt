//! A batch of a wave: some pieces of the row are worked on.
ghost use Rattle.std.specs.Prelude.{◌<◌, ◌≤◌, ◌+◌, ◌-◌, ◌*◌, ◌≡◌, length, [], ◌∷◌, ◌++◌};
ghost use Rattle.std.specs.Vec.{vec_capacity};
ghost use Rattle.std.specs.VecDeque.{deque_capacity};
ghost use Rattle.gf_reverse_search.specs.Pieces.{RefusesAt};
ghost use Rattle.gf_waves.specs.Plans.{IsExpanded, IsFit, IsBatchFit, IsOn, IsSpareRow, IsWorked};
ghost use Rattle.gf_waves.specs.Wave.{ExpandsOn};

use crate::Gate;
use crate::rows::{move_behind, push, push_before, put_before};
use gf_reverse_search::{Piece, ReusingTree, Tree, Walker};
use std::alloc::Global;
use std::collections::VecDeque;

/// A cell of a batch: the pieces of the row that stand there.
#[derive(Drop)]
pub struct Slot<T: Tree> {
    pub row: VecDeque<Piece<T>>,
}

/// A batch of a wave: its cells in list order, what the cells became that were worked on, its number, and a row for what is done with. The row of a
/// cell that was worked on is that of the next one.
#[derive(Drop)]
pub struct Batch<T: Tree> {
    pub slots: Vec<Slot<T>>,
    pub worked: Vec<VecDeque<Piece<T>>>,
    pub number: u64,
    pub spare: VecDeque<Piece<T>>,
}

/// Expands a walker before a row: into its node, its next child's subtree and what follows. A refusal stays with the walker.
fn expand_before<T: ReusingTree>(
    alloc: Global,
    row: &mut VecDeque<Piece<T>>,
    walker: Walker<T>,
    store: &mut T::Store,
)
    requires { length row.old.items + 3 ≤ deque_capacity row.old }
    ensures expanded { IsExpanded T.before T.up (RefusesAt T.up T.refuses) walker row.old.items row.new.items }
    ensures few { length row.new.items ≤ length row.old.items + 3 }
    ensures room { deque_capacity row.old ≤ deque_capacity row.new }
{
    match walker.expand(alloc, 1, store) {
        Ok(pieces) => put_before(row, pieces),
        Err((walker, refusal)) => push_before(row, Piece::Refused(walker, refusal)),
    }
}

/// Works on the piece in front of a row, where so many expansions are left and there is room for two pieces more: a node goes behind
/// those that are done, and a walker is expanded. How many expansions are left: none where the walker in front stands refused.
fn step<T: ReusingTree>(
    alloc: Global,
    done: &mut VecDeque<Piece<T>>,
    row: &mut VecDeque<Piece<T>>,
    left: usize,
    limit: usize,
    store: &mut T::Store,
) -> usize
    requires some { 0 < left }
    requires piece { 0 < length row.old.items }
    requires limit { limit ≤ 64 }
    requires few { length done.old.items + length row.old.items + 1 < limit }
    requires room { 64 ≤ deque_capacity row.old }
    requires room_for_done { 64 ≤ deque_capacity done.old }
    ensures on { IsOn T.before T.up (RefusesAt T.up T.refuses) left (limit - (length done.old.items + length row.old.items)) done.old.items row.old.items result
        (limit - (length done.new.items + length row.new.items)) done.new.items row.new.items }
    ensures falls { 3 * result + length row.new.items < 3 * left + length row.old.items }
    ensures few { length done.new.items + length row.new.items ≤ limit }
    ensures room { deque_capacity row.old ≤ deque_capacity row.new }
    ensures room_for_done { deque_capacity done.old ≤ deque_capacity done.new }
{
    match row.pop_front() {
        Some(Piece::Ready(node)) => {
            push(done, Piece::Ready(node));
            left
        }
        Some(Piece::Under(walker)) => {
            expand_before(alloc, row, walker, store);
            left - 1
        }
        Some(Piece::Refused(walker, refusal)) => {
            push_before(row, Piece::Refused(walker, refusal));
            0
        }
        None => left,
    }
}

/// What the row of a cell becomes by so many expansions of the first walker that there is, or by fewer, where there is no room for
/// two pieces more, of so many; how many expansions and how much room are left; and a row without pieces. What is done with goes into a row that is given.
fn expand_on<T: ReusingTree>(
    alloc: Global,
    slot: Slot<T>,
    mut done: VecDeque<Piece<T>>,
    times: usize,
    room: usize,
    store: &mut T::Store,
) -> (VecDeque<Piece<T>>, usize, usize, VecDeque<Piece<T>>)
    requires fit { IsFit slot }
    requires spare { IsSpareRow done.items (deque_capacity done) }
    requires few_more { room ≤ 56 }
    ensures on { ExpandsOn T.before T.up (RefusesAt T.up T.refuses) times room slot.row.items result.1 result.2 result.0.items }
    ensures few { length result.0.items + result.2 ≤ length slot.row.items + room }
    ensures spare { IsSpareRow result.3.items (deque_capacity result.3) }
{
    let Slot { mut row } = slot;
    let limit = row.len() + room;
    let mut left = times;
    while left > 0 && !row.is_empty() && done.len() + row.len() + 1 < limit {
        left = step(alloc, &mut done, &mut row, left, limit, store);
    }
    move_behind(&mut done, &mut row);
    let rest = limit - done.len();
    (done, left, rest, row)
}

/// Puts what a cell became behind what those before became, where there is room.
fn keep<T: Tree>(worked: &mut Vec<VecDeque<Piece<T>>>, row: VecDeque<Piece<T>>)
    requires { length worked.old.items < vec_capacity worked.old }
    ensures items { worked.new.items ≡ worked.old.items ++ row ∷ [] }
    ensures room { vec_capacity worked.old ≤ vec_capacity worked.new }
{
    if worked.push(row).is_err() {
        unreachable!();
    }
}

/// A batch worked on, cell after cell, with so many expansions and room for so many pieces in all: each cell with what the ones
/// before have left, room for 56 pieces at most. The memory that an expansion leaves serves the next ones of the batch.
pub fn work<T: ReusingTree, G: Gate>(
    alloc: Global,
    gate: &G,
    batch: Batch<T>,
    times: usize,
    room: usize,
) -> Batch<T>
    requires room { room ≤ 56 }
    requires fit { IsBatchFit batch }
    ensures { IsWorked T.before T.up (RefusesAt T.up T.refuses) times room batch result }
{
    gate.at(batch.number);
    let Batch {
        mut slots,
        mut worked,
        number,
        mut spare,
    } = batch;
    let mut store = T::store(alloc);
    let mut left = times;
    let mut free = room;
    while !slots.is_empty() {
        let (row, fewer, less, empty) = expand_on(
            alloc,
            slots.remove(0),
            spare,
            left,
            free,
            &mut store,
        );
        keep(&mut worked, row);
        spare = empty;
        left = fewer;
        free = less.min(56);
    }
    Batch {
        slots,
        worked,
        number,
        spare,
    }
}
