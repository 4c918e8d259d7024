//! Waves of several workers: one list and one refusal for every number of them, going on behind any number, the gate.
use crate::walks::{push_number, tree};
use gf_number_trees::{NumberError, NumberTree};
use gf_reverse_search::{Walker, list_all};
use gf_waves::{FreeGate, Gate, Waves};
use std::alloc::{AllocError, Global};
use std::sync::atomic::{AtomicU64, Ordering};
use std::thread::Threads;

/// The numbers of workers that are tried.
const WORKERS: [u32; 4] = [1, 2, 4, 64];

/// What waves gave.
#[derive(Drop)]
struct Outcome {
    nodes: Vec<u64>,
    /// The refusal that ended it.
    refusal: Option<NumberError>,
    /// Whether a refused walker stood in the row after some call.
    was_refused: bool,
}

/// What waves give, at most so many, up to the first refusal.
fn written<R: Threads + Sync, G: Gate>(
    rt: &R,
    alloc: Global,
    waves: &mut Waves<'_, NumberTree, G>,
    most: u64,
) -> Result<Outcome, NumberError> {
    let mut all = Outcome {
        nodes: Vec::new(alloc),
        refusal: None,
        was_refused: false,
    };
    for _ in 0..most {
        let answer = waves.next_written(rt);
        all.was_refused = all.was_refused || waves.refused() > 0;
        match answer {
            Ok(Some(number)) => {
                if all.nodes.push(number).is_err() {
                    return Err(NumberError::Memory);
                }
            }
            Ok(None) => return Ok(all),
            Err(error) => {
                all.refusal = Some(error);
                return Ok(all);
            }
        }
    }
    Ok(all)
}

/// Adds a number of workers, where what is asked of it holds.
fn push_workers(
    out: &mut Vec<u8>,
    alloc: Global,
    workers: u32,
    holds: bool,
) -> Result<(), AllocError> {
    if !holds {
        return Ok(());
    }
    out.extend_from_slice(format!(in alloc; "{workers} ")?.as_bytes())
}

/// Whether so many workers give this list in two parts, of which the first has so many numbers: one number is ready at first, and none at the end, nothing
/// refuses, and no walker stands refused.
fn is_whole<R: Threads + Sync>(
    rt: &R,
    alloc: Global,
    all: &[u64],
    limit: u64,
    front: u64,
    workers: u32,
) -> Result<bool, NumberError> {
    if limit < 1 || workers < 1 || workers > 64 {
        return Ok(false);
    }
    let mut waves = Waves::new(alloc, tree(alloc, limit, 0, 0), 1, workers, &FreeGate)?;
    let is_ready = waves.workers() == workers && waves.ready() == 1;
    let first = written(rt, alloc, &mut waves, front)?;
    let rest = written(rt, alloc, &mut waves, limit)?;
    let then = waves.next_written(rt)?;
    Ok(
        is_ready
            && first.nodes.len() as u64 == front
            && all.starts_with(&first.nodes)
            && rest.nodes.len() as u64 == limit.saturating_sub(front)
            && all.ends_with(&rest.nodes)
            && first.refusal.is_none()
            && rest.refusal.is_none()
            && !first.was_refused
            && !rest.was_refused
            && then.is_none()
            && waves.ready() == 0,
    )
}

/// The numbers of workers, among 1, 2, 4 and 64, whose list is that of one walker, in two parts.
///
/// # Errors
///
/// `Memory` if memory runs out. No number of the tree is chosen to refuse. Where the waves are refused for want of memory but can go on, their number
/// of workers is left out instead.
pub fn whole<R: Threads + Sync>(
    rt: &R,
    alloc: Global,
    limit: u64,
    front: u64,
) -> Result<Vec<u8>, NumberError> {
    let mut out = Vec::new(alloc);
    if limit < 1 {
        return Ok(out);
    }
    let all = list_all(alloc, tree(alloc, limit, 0, 0), 1)?;
    for workers in WORKERS {
        let holds = is_whole(rt, alloc, &all, limit, front, workers)?;
        push_workers(&mut out, alloc, workers, holds)?;
    }
    Ok(out)
}

/// Whether so many workers, where two numbers are chosen, give this list up to the second, which refuses, and again.
fn is_refused<R: Threads + Sync>(
    rt: &R,
    alloc: Global,
    all: &[u64],
    limit: u64,
    chosen: (u64, u64),
    workers: u32,
) -> Result<bool, NumberError> {
    if limit < 1 || workers < 1 || workers > 64 {
        return Ok(false);
    }
    let tree = tree(alloc, limit, chosen.0, chosen.1);
    let mut waves = Waves::new(alloc, tree, 1, workers, &FreeGate)?;
    let front = written(rt, alloc, &mut waves, limit)?;
    let again = waves.next_written(rt);
    Ok(
        all.starts_with(&front.nodes)
            && front.nodes.last() == Some(&chosen.1)
            && front.refusal == Some(NumberError::Chosen(chosen.1))
            && again == Err(NumberError::Chosen(chosen.1)),
    )
}

/// The numbers of workers, among 1, 2, 4 and 64, whose list ends at the second of two numbers that are chosen to refuse.
///
/// # Errors
///
/// `Memory` if memory runs out for the list of one walker, for the first row of the waves, or for what is kept of their numbers and of the answer.
/// Where a wave is refused for want of memory, its number of workers is left out instead.
pub fn refused<R: Threads + Sync>(
    rt: &R,
    alloc: Global,
    limit: u64,
    first: u64,
    second: u64,
) -> Result<Vec<u8>, NumberError> {
    let mut out = Vec::new(alloc);
    if limit < 1 {
        return Ok(out);
    }
    let all = list_all(alloc, tree(alloc, limit, 0, 0), 1)?;
    for workers in WORKERS {
        let holds = is_refused(rt, alloc, &all, limit, (first, second), workers)?;
        push_workers(&mut out, alloc, workers, holds)?;
    }
    Ok(out)
}

/// Whether waves of four workers go on behind a number with this list.
fn goes_on<R: Threads + Sync>(
    rt: &R,
    alloc: Global,
    limit: u64,
    number: u64,
    rest: &[u64],
) -> Result<bool, NumberError> {
    if number < 1 || limit < number {
        return Ok(false);
    }
    let walker = Walker::after(alloc, tree(alloc, limit, 0, 0), number)?;
    let here = *walker.position().here;
    let mut waves = Waves::resume(alloc, walker, 4, &FreeGate)?;
    let given = written(rt, alloc, &mut waves, limit)?;
    Ok(here == number && given.nodes.as_slice() == rest && given.refusal.is_none())
}

/// Behind how many numbers of the list of one walker waves of four workers go on as that does.
///
/// # Errors
///
/// `Memory` if memory runs out. No number of the tree is chosen to refuse. Where the waves behind a number are refused for want of memory once they
/// are begun, that number isn't counted instead.
pub fn after<R: Threads + Sync>(rt: &R, alloc: Global, limit: u64) -> Result<Vec<u8>, NumberError> {
    let mut out = Vec::new(alloc);
    if limit < 1 {
        return Ok(out);
    }
    let all = list_all(alloc, tree(alloc, limit, 0, 0), 1)?;
    let mut right = 0u64;
    for place in 0..all.len() {
        if goes_on(rt, alloc, limit, all[place], &all[place + 1..])? {
            right = right.saturating_add(1);
        }
    }
    push_number(&mut out, alloc, right)?;
    Ok(out)
}

/// Counts the batches, and keeps which of the first 64 numbers came.
#[derive(Drop)]
struct Counting {
    batches: AtomicU64,
    numbers: AtomicU64,
}

impl Gate for Counting {
    fn at(&self, batch: u64) {
        self.batches.fetch_add(1, Ordering::SeqCst);
        if batch < 64 {
            self.numbers.fetch_or(1 << batch, Ordering::SeqCst);
        }
    }
}

/// Whether so many workers give all numbers, and call the gate with as many numbers as there are batches, from 0 on, so with each once.
fn is_numbered<R: Threads + Sync>(
    rt: &R,
    alloc: Global,
    limit: u64,
    workers: u32,
) -> Result<bool, NumberError> {
    if limit < 1 || workers < 1 || workers > 64 {
        return Ok(false);
    }
    let gate = Counting {
        batches: AtomicU64::new(0),
        numbers: AtomicU64::new(0),
    };
    let mut waves = Waves::new(alloc, tree(alloc, limit, 0, 0), 1, workers, &gate)?;
    let all = written(rt, alloc, &mut waves, limit.saturating_add(1))?;
    let batches = gate.batches.load(Ordering::SeqCst);
    let expected = if 1 <= batches && batches <= 64 {
        u64::MAX >> (64 - batches)
    } else {
        0
    };
    Ok(all.nodes.len() as u64 == limit && gate.numbers.load(Ordering::SeqCst) == expected)
}

/// The numbers of workers, among 1 and 4, by whom batches are numbered in turn.
///
/// # Errors
///
/// `Memory` if memory runs out. No number of the tree is chosen to refuse. Where the waves are refused for want of memory once they are begun, their
/// number of workers is left out instead.
pub fn numbered<R: Threads + Sync>(
    rt: &R,
    alloc: Global,
    limit: u64,
) -> Result<Vec<u8>, NumberError> {
    let mut out = Vec::new(alloc);
    for workers in [1u32, 4] {
        let holds = is_numbered(rt, alloc, limit, workers)?;
        push_workers(&mut out, alloc, workers, holds)?;
    }
    Ok(out)
}

/// Lets batches 3 and 4 meet, those of one wave: each sets its own flag and looks for the other's, for so many turns.
#[derive(Drop)]
struct Meeting {
    first: AtomicU64,
    second: AtomicU64,
    spent: AtomicU64,
}

/// How often a batch looks for the other.
const TURNS: u64 = 100_000_000;

impl Meeting {
    fn meet(&self, own: &AtomicU64, other: &AtomicU64) {
        own.store(1, Ordering::SeqCst);
        for _ in 0..TURNS {
            if other.load(Ordering::SeqCst) == 1 {
                return;
            }
        }
        self.spent.store(1, Ordering::SeqCst);
    }
}

impl Gate for Meeting {
    fn at(&self, batch: u64) {
        if batch == 3 {
            self.meet(&self.first, &self.second);
        }
        if batch == 4 {
            self.meet(&self.second, &self.first);
        }
    }
}

/// How many numbers come where batches 3 and 4 of two workers have to meet; none where one doesn't come, or has spent its turns.
///
/// # Errors
///
/// `Memory` if memory runs out. No number of the tree is chosen to refuse. Where the waves are refused for want of memory once they are begun, fewer
/// numbers come instead.
pub fn meet<R: Threads + Sync>(rt: &R, alloc: Global, limit: u64) -> Result<Vec<u8>, NumberError> {
    let mut out = Vec::new(alloc);
    if limit < 1 {
        return Ok(out);
    }
    let gate = Meeting {
        first: AtomicU64::new(0),
        second: AtomicU64::new(0),
        spent: AtomicU64::new(0),
    };
    let mut waves = Waves::new(alloc, tree(alloc, limit, 0, 0), 1, 2, &gate)?;
    let all = written(rt, alloc, &mut waves, limit.saturating_add(1))?;
    if gate.first.load(Ordering::SeqCst) == 1
        && gate.second.load(Ordering::SeqCst) == 1
        && gate.spent.load(Ordering::SeqCst) == 0
    {
        push_number(&mut out, alloc, all.nodes.len() as u64)?;
    }
    Ok(out)
}
