//! One wave: the first pieces of the row are worked on, side by side.
ghost use Rattle.std.specs.Prelude.{◌≡◌, ◌≤◌, ◌<◌, ◌+◌, ◌*◌, length, replicate, OnOk, OnErr};
ghost use Rattle.gf_reverse_search.specs.Pieces.{RefusesAt};
ghost use Rattle.gf_waves.specs.Frontier.{AreRefusals, batch_number};
ghost use Rattle.gf_waves.specs.Wave.{IsWaved};
ghost use Rattle.gf_waves.specs.Plans.{AreFitAt, AreWorkedAt, IsBatchFit, IsWorked};

use crate::Gate;
use crate::batch::{Batch, work};
use crate::planning::{deal, merge, plan, spare_batches, spare_slots};
use gf_reverse_search::{Piece, ReusingTree};
use std::alloc::{AllocError, Global};
use std::collections::VecDeque;
use std::mem;
use std::thread::{self, Threads};

/// Works on each batch of the slice, with `workers` workers: each batch makes `times` expansions and may add `room` pieces.
fn work_all<R: Threads + Sync, T: ReusingTree + Send, G: Gate>(
    rt: &R,
    alloc: Global,
    gate: &G,
    batches: &mut [Batch<T>],
    workers: usize,
    times: usize,
    room: usize,
)
where
    T::Node: Send,
    T::Label: Send,
    T::Error: Send,
    T::Store: Send,
    requires some { 1 ≤ workers }
    requires room { room ≤ 56 }
    requires fit { AreFitAt batches.old }
    ensures { AreWorkedAt T.before T.up (RefusesAt T.up T.refuses) times room batches.old batches.new }
{
    let each = |_: usize, batch: &mut Batch<T>|
        requires { (room ≤ 56) × IsBatchFit batch.now }
        ensures { IsWorked T.before T.up (RefusesAt T.up T.refuses) times room batch.entry.now batch.exit.now }
    {
        let none = Batch {
            slots: Vec::new(alloc),
            worked: Vec::new(alloc),
            number: 0,
            spare: VecDeque::new(alloc),
        };
        let old = mem::replace(batch, none);
        *batch = work(alloc, gate, old, times, room);
    };
    thread::for_each_mut(rt, batches, workers, &each);
}

/// Works on each batch of the vector, with `workers` workers: each batch makes `times` expansions and may add `room` pieces.
fn work_batches<R: Threads + Sync, T: ReusingTree + Send, G: Gate>(
    rt: &R,
    alloc: Global,
    gate: &G,
    batches: &mut Vec<Batch<T>>,
    workers: usize,
    times: usize,
    room: usize,
)
where
    T::Node: Send,
    T::Label: Send,
    T::Error: Send,
    T::Store: Send,
    requires some { 1 ≤ workers }
    requires room { room ≤ 56 }
    requires fit { AreFitAt batches.old.items }
    ensures { AreWorkedAt T.before T.up (RefusesAt T.up T.refuses) times room batches.old.items batches.new.items }
{
    work_all(
        rt,
        alloc,
        gate,
        batches.as_mut_slice(),
        workers,
        times,
        room,
    );
}

/// A wave: the first pieces of the row are dealt out to `due` batches, twelve walkers to each; each batch makes `times` expansions and has room for `room`
/// pieces more.
///
/// # Errors
///
/// Want of memory, before anything is done.
pub fn wave<R: Threads + Sync, T: ReusingTree + Send, G: Gate>(
    rt: &R,
    gate: &G,
    row: &mut VecDeque<Piece<T>>,
    workers: u32,
    due: usize,
    times: usize,
    room: usize,
    batches: &mut u64,
) -> Result<(), AllocError>
where
    T::Node: Send,
    T::Label: Send,
    T::Error: Send,
    T::Store: Send,
    requires some { 1 ≤ workers }
    requires few_workers { workers ≤ 64 }
    requires due { 0 < due }
    requires few_batches { due ≤ workers }
    requires few_more { room ≤ 56 }
    requires fits { length row.old.items + due * room ≤ (workers + 1) * 128 }
    requires refused { AreRefusals (RefusesAt T.up T.refuses) row.old.items }
    ensures waved { OnOk result (IsWaved T.before T.up (RefusesAt T.up T.refuses) (due * 12) (replicate due (times, room)) row.old.items row.new.items) }
    ensures counted { OnOk result (batches.new ≡ batch_number (batches.old + due)) }
    ensures few { length row.new.items ≤ (workers + 1) * 128 }
    ensures refused { AreRefusals (RefusesAt T.up T.refuses) row.new.items }
    ensures unchanged { OnErr result (row.new.items ≡ row.old.items) }
    ensures uncounted { OnErr result (batches.new ≡ batches.old) }
{
    let alloc = *row.allocator();
    let cells = due * 12;
    let spares = spare_slots(alloc, cells)?;
    let mut slots = Vec::with_capacity(alloc, cells)?;
    let mut shared = spare_batches(alloc, due, cells, *batches)?;
    let mut news = VecDeque::with_capacity(alloc, (workers as usize + 1) * 128)?;
    plan(row, spares, &mut slots);
    deal(slots, &mut shared);
    *batches = batches.saturating_add(due as u64);
    work_batches(rt, alloc, gate, &mut shared, workers as usize, times, room);
    merge(&mut shared, cells, row, &mut news);
    *row = news;
    Ok(())
}
