//! The next node of a row.
ghost use Rattle.std.specs.Prelude.{ℕ, ◌≡◌, ◌-◌, ◌*◌, ◌≤◌, ◌<◌, ◌/◌, length, count_by, List, IfErr, OnOk, OnErr, true, false};
ghost use Rattle.gf_reverse_search.specs.Pieces.{PiecesLeave, RefusesAt};
ghost use Rattle.gf_reverse_search.specs.Listing.{IsLeftAt};
ghost use Rattle.gf_reverse_search.specs.declared.expand.Piece.{Piece};
ghost use Rattle.gf_reverse_search.specs.declared.expand.Piece.TheVariants.{Under};
ghost use Rattle.gf_waves.specs.Frontier.{AreRefusals, IsFrontRefused, IsHeld, due_at, is_ready, most_pieces, room_at, times_at};
ghost use Rattle.gf_waves.specs.Wave.{IsAfter, IsGiven, IsReadied, is_served};

use crate::Gate;
use crate::rows::push_before;
use crate::wave::wave;
use gf_reverse_search::{Piece, ReusingTree, Tree};
use std::alloc::AllocError;
use std::collections::VecDeque;
use std::thread::Threads;

/// Whether a node is ready in front, or nothing is left.
pub fn is_served<T: Tree>(row: &VecDeque<Piece<T>>) -> bool
    ensures { result ≡ is_served row.now.items }
{
    match row.front() {
        Some(Piece::Ready(_)) => true,
        Some(_) => false,
        None => true,
    }
}

/// How many nodes of a row are ready.
fn ready<T: Tree>(row: &VecDeque<Piece<T>>) -> usize
    ensures { result ≡ count_by is_ready row.now.items }
{
    row.iter()
        .filter(|piece| matches!(piece, Piece::Ready(_)))
        .count()
}

/// How many batches are due in a wave over a row: one for each worker, no more than leave each four cells, and no more than there are
/// walkers.
fn due<T: Tree>(workers: u32, row: &VecDeque<Piece<T>>) -> usize
    requires workers { workers ≤ 64 }
    requires few { length row.now.items ≤ most_pieces workers }
    ensures is { result ≡ due_at workers row.now.items }
    ensures fits { result * 4 ≤ most_pieces workers - length row.now.items }
    ensures few { result ≤ workers }
{
    let free = ((workers as usize + 1) * 128).saturating_sub(row.len());
    let walkers = row.len().saturating_sub(ready(row));
    (workers as usize).min(free / 4).min(walkers)
}

/// How many pieces each batch may add: at most 56, and no more than its share of the free cells.
fn room<T: Tree>(workers: u32, row: &VecDeque<Piece<T>>, due: usize) -> usize
    requires workers { workers ≤ 64 }
    requires some { 0 < due }
    requires due { due ≡ due_at workers row.now.items }
    requires fits { due * 4 ≤ most_pieces workers - length row.now.items }
    ensures is { result ≡ room_at workers row.now.items }
    ensures fits { due * result ≤ most_pieces workers - length row.now.items }
    ensures few { result ≤ 56 }
{
    let free = ((workers as usize + 1) * 128).saturating_sub(row.len());
    (free / due).min(56)
}

/// How many expansions each batch makes: eight, and sixteen for each batch before, of which 16 count at most.
fn times(batches: u64) -> usize
    ensures is { result ≡ times_at batches }
{
    batches.min(16) as usize * 16 + 8
}

/// The refusal that stands for want of memory. Any call of any tree may be refused so.
pub fn no_memory<T: Tree>(refused: AllocError) -> T::Error
    ensures memory { T.is_memory result }
    ensures refused { (t : T) (v : T.Node) → T.refuses t v result }
{
    T::Error::from(refused)
}

/// Works a row off until a node is ready in front, or there is no room: a wave, where none is ready.
///
/// # Errors
///
/// Want of memory for a wave. The row is as it was.
pub fn work_off<R: Threads + Sync, T: ReusingTree + Send, G: Gate>(
    rt: &R,
    gate: &G,
    row: &mut VecDeque<Piece<T>>,
    workers: u32,
    batches: &mut u64,
) -> Result<(), AllocError>
where
    T::Node: Send,
    T::Label: Send,
    T::Error: Send,
    T::Store: Send,
    requires { IsHeld (RefusesAt T.up T.refuses) workers row.old.items }
    ensures worked { OnOk result (IsReadied T.before T.up (RefusesAt T.up T.refuses) workers batches.old row.old.items batches.new row.new.items) }
    ensures held { IsHeld (RefusesAt T.up T.refuses) workers row.new.items }
    ensures unchanged { OnErr result (row.new.items ≡ row.old.items) }
    ensures uncounted { OnErr result (batches.new ≡ batches.old) }
    ensures starved { OnErr result (is_served row.old.items ≡ false) }
    ensures due { OnErr result (0 < due_at workers row.old.items) }
{
    if is_served(row) {
        return Ok(());
    }
    let due = due(workers, row);
    if due == 0 {
        return Ok(());
    }
    let room = room(workers, row, due);
    wave(rt, gate, row, workers, due, times(*batches), room, batches)
}

/// Takes the first node out of a row: the node that is ready in front, or the next node of the walker in front. A walker that has no node left is
/// dropped.
fn give_first<T: Tree>(row: &mut VecDeque<Piece<T>>) -> Result<Option<T::Node>, T::Error>
    ensures given { IsGiven T.before T.up (RefusesAt T.up T.refuses) row.old.items result row.new.items }
    ensures few { length row.new.items ≤ length row.old.items }
{
    while let Some(piece) = row.pop_front() {
        match piece {
            Piece::Ready(node) => return Ok(Some(node)),
            Piece::Refused(walker, refusal) => {
                push_before(row, Piece::Under(walker));
                return Err(refusal);
            }
            Piece::Under(walker) => {
                let mut walker = walker;
                match walker.advance() {
                    Ok(Some(node)) => {
                        push_before(row, Piece::Under(walker));
                        return Ok(Some(node));
                    }
                    Ok(None) => {}
                    Err(refusal) => {
                        push_before(row, Piece::Under(walker));
                        return Err(refusal);
                    }
                }
            }
        }
    }
    Ok(None)
}

/// Takes the first node out of a row: the node that is ready in front, or the next node of the walker in front; a walker that has no node left is
/// dropped. None where no node is left in the row.
///
/// # Errors
///
/// The refusal that stands in front, or that a call of the walker in front meets. The walker stays in front, and no node of the row is lost.
pub fn give<T: Tree>(row: &mut VecDeque<Piece<T>>) -> Result<Option<T::Node>, T::Error>
    requires { AreRefusals (RefusesAt T.up T.refuses) row.old.items }
    ensures given { IsGiven T.before T.up (RefusesAt T.up T.refuses) row.old.items result row.new.items }
    ensures list { (workers batches next : ℕ) (olds : List (Piece T T.Node T.Label T.Error)) (nodes : List T.Node) →
        IsReadied T.before T.up (RefusesAt T.up T.refuses) workers batches olds next row.old.items → PiecesLeave (IsLeftAt T.before T.up) olds nodes →
        IsAfter (IsLeftAt T.before T.up) result nodes row.new.items }
    ensures few { length row.new.items ≤ length row.old.items }
    ensures refusals { AreRefusals (RefusesAt T.up T.refuses) row.new.items }
    ensures refused { IfErr result (IsFrontRefused (RefusesAt T.up T.refuses) row.new.items) }
{
    give_first(row)
}
