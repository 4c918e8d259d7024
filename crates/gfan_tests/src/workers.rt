//! Rows of lists by several workers: they end as those of one do, and their batches run at the same time.
use crate::rows::Row;
use crate::runs::{PIECES, Runner, is_report_begun};
use gf_waves::{FreeGate, Gate};
use std::alloc::AllocError;
use std::sync::atomic::{AtomicU64, Ordering};
use std::thread::Threads;

/// The numbers of workers that are tried.
const WORKERS: [&str; 5] = ["1", "2", "4", "7", "64"];

/// Lets batches 1 and 2 meet, those of the second wave: each sets its own flag and looks for the other's, for so many turns.
#[derive(Drop)]
struct Meeting {
    first: AtomicU64,
    second: AtomicU64,
    spent: AtomicU64,
}

/// How often a batch looks for the other.
const TURNS: u64 = 100_000_000;

impl Meeting {
    fn meet(&self, own: &AtomicU64, other: &AtomicU64) {
        own.store(1, Ordering::SeqCst);
        for _ in 0..TURNS {
            if other.load(Ordering::SeqCst) == 1 {
                return;
            }
        }
        self.spent.store(1, Ordering::SeqCst);
    }

    /// Whether both batches came, and neither spent its turns.
    fn is_held(&self) -> bool {
        self.first.load(Ordering::SeqCst) == 1
            && self.second.load(Ordering::SeqCst) == 1
            && self.spent.load(Ordering::SeqCst) == 0
    }
}

impl Gate for Meeting {
    fn at(&self, batch: u64) {
        if batch == 1 {
            self.meet(&self.first, &self.second);
        }
        if batch == 2 {
            self.meet(&self.second, &self.first);
        }
    }
}

impl<'r, R: Threads + Sync> Runner<'r, R> {
    /// Whether the run of a row ends as the row says, with a report that begins so; and each number of workers ends it in the same way.
    ///
    /// # Errors
    ///
    /// `AllocError` if memory runs out for what a run is called with or for what is kept of its end. Want of memory in a run is one of its ends.
    pub fn do_workers_agree(&self, row: &Row) -> Result<bool, AllocError> {
        let alone = self.ending(&row.call, PIECES, &FreeGate)?;
        if !row.begins(&alone) {
            return Ok(false);
        }
        for workers in WORKERS {
            let call = row.call.with_words(self.alloc, &["--workers", workers])?;
            if self.ending(&call, PIECES, &FreeGate)? != alone {
                return Ok(false);
            }
        }
        Ok(true)
    }

    /// Whether the run of a row ends with its status, and its text and its report begin as the row says; and two workers whose batches meet end it in the
    /// same way.
    ///
    /// # Errors
    ///
    /// `AllocError` if memory runs out for what a run is called with or for what is kept of its end. Want of memory in a run is one of its ends.
    pub fn do_workers_meet(&self, row: &Row) -> Result<bool, AllocError> {
        let gate = Meeting {
            first: AtomicU64::new(0),
            second: AtomicU64::new(0),
            spent: AtomicU64::new(0),
        };
        let call = row.call.with_words(self.alloc, &["--workers", "2"])?;
        let end = self.ending(&call, PIECES, &gate)?;
        let alone = self.ending(&row.call, PIECES, &FreeGate)?;
        Ok(
            gate.is_held()
                && alone.code == row.code
                && alone.written.starts_with(&row.written)
                && is_report_begun(&alone.told, &row.told)
                && end == alone,
        )
    }
}
