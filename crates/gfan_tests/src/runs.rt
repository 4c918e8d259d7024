//! Runs over memory, in which a device may fail.
ghost use Rattle.std.specs.Prelude.{◌≤◌};

use crate::rows::{Call, Row};
use gf_outside::{MemFiles, MemSink, MemSource, read_all};
use gf_waves::{FreeGate, Gate};
use gfan::run::run;
use std::alloc::{AllocError, Global};
use std::thread::Threads;

/// How many bytes a device moves a call at most.
#[derive(Clone, Copy)]
pub enum Pace {
    /// One.
    Bytes,
    /// 16,384 if it is read, 8 if it is written.
    Pieces,
}

/// What fails in a run: of a device the call with this number, counted from 0; and what takes no byte of any write.
#[derive(Clone, Copy)]
pub struct Devices {
    pub pace: Pace,
    pub read: Option<u64>,
    pub file: Option<u64>,
    pub write: Option<u64>,
    pub line: Option<u64>,
    pub is_output_stuck: bool,
    pub is_line_stuck: bool,
}

/// Each device moves one byte a call, and none fails.
pub const BYTES: Devices = Devices {
    pace: Pace::Bytes,
    read: None,
    file: None,
    write: None,
    line: None,
    is_output_stuck: false,
    is_line_stuck: false,
};

/// Each device moves many bytes a call, and none fails.
pub const PIECES: Devices = Devices {
    pace: Pace::Pieces,
    read: None,
    file: None,
    write: None,
    line: None,
    is_output_stuck: false,
    is_line_stuck: false,
};

/// How a run ended: its status, what it wrote and reported, and what it left unread of its input.
#[derive(Drop, PartialEq)]
pub struct Ending {
    pub code: u8,
    pub written: Vec<u8>,
    pub told: Vec<u8>,
    pub left: Vec<u8>,
}

/// How many bytes a read gives at most.
fn most_read(pace: Pace) -> usize
    ensures { 1 ≤ result }
{
    match pace {
        Pace::Bytes => 1,
        Pace::Pieces => 16_384,
    }
}

/// The number of a call that fails, as a list.
fn listed(alloc: Global, call: Option<u64>) -> Result<Vec<u64>, AllocError> {
    let mut calls = Vec::new(alloc);
    if let Some(call) = call {
        calls.push(call)?;
    }
    Ok(calls)
}

/// An empty sink.
fn sink(
    alloc: Global,
    pace: Pace,
    is_stuck: bool,
    failing: Option<u64>,
) -> Result<MemSink, AllocError> {
    let most = match pace {
        _ if is_stuck => 0,
        Pace::Bytes => 1,
        Pace::Pieces => 8,
    };
    Ok(MemSink::new(alloc, most, listed(alloc, failing)?))
}

/// What is left of an input; nothing if that can't be read.
fn left_of(alloc: Global, source: &mut MemSource) -> Vec<u8> {
    match read_all(alloc, source) {
        Ok(left) => left,
        Err(_) => Vec::new(alloc),
    }
}

/// Whether a report begins with a text, and is empty exactly if that is.
pub fn is_report_begun(report: &[u8], text: &[u8]) -> bool {
    report.starts_with(text) && report.is_empty() == text.is_empty()
}

/// What runs calls.
#[derive(Drop)]
pub struct Runner<'r, R: Threads + Sync> {
    pub rt: &'r R,
    pub alloc: Global,
}

impl<'r, R: Threads + Sync> Runner<'r, R> {
    /// How the run of a call ends over these devices, with this gate before each batch of a list.
    ///
    /// # Errors
    ///
    /// `AllocError` if memory runs out for what the run is called with or for what is kept of its end. Want of memory in the run is one of its ends.
    pub fn ending<G: Gate>(
        &self,
        call: &Call,
        devices: Devices,
        gate: &G,
    ) -> Result<Ending, AllocError> {
        let alloc = self.alloc;
        let Call {
            words,
            input,
            files,
        } = call.copied(alloc)?;
        let most = most_read(devices.pace);
        let mut source = MemSource::new(input, most, listed(alloc, devices.read)?);
        let mut files = MemFiles::new(files, most, listed(alloc, devices.file)?);
        let mut output = sink(alloc, devices.pace, devices.is_output_stuck, devices.write)?;
        let mut line = sink(alloc, devices.pace, devices.is_line_stuck, devices.line)?;
        let status = run(
            self.rt,
            alloc,
            &words,
            &mut source,
            &mut output,
            &mut line,
            &mut files,
            gate,
        );
        Ok(Ending {
            code: status.code(),
            written: output.bytes().to_vec(alloc)?,
            told: line.bytes().to_vec(alloc)?,
            left: left_of(alloc, &mut source),
        })
    }

    /// Whether the run of a call over these devices ends with this status, writes this and reports this.
    ///
    /// # Errors
    ///
    /// `AllocError` if memory runs out for what the run is called with or for what is kept of its end. Want of memory in the run is one of its ends.
    pub fn ends(
        &self,
        call: &Call,
        devices: Devices,
        code: u8,
        written: &[u8],
        told: &[u8],
    ) -> Result<bool, AllocError> {
        let end = self.ending(call, devices, &FreeGate)?;
        Ok(end.code == code && end.written.as_slice() == written && end.told.as_slice() == told)
    }

    /// Whether the run of a row over these devices ends as the row says, but reports this.
    ///
    /// # Errors
    ///
    /// `AllocError` if memory runs out for what the run is called with or for what is kept of its end. Want of memory in the run is one of its ends.
    pub fn tells(&self, row: &Row, devices: Devices, told: &[u8]) -> Result<bool, AllocError> {
        self.ends(&row.call, devices, row.code, &row.written, told)
    }
}
