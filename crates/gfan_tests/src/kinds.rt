//! Rows of some kinds: without words, over bytes in memory, with a long input, whose report is one of several or only begins as the row says, and sessions.
use crate::rows::{Call, Row};
use crate::runs::{Devices, Ending, PIECES, Runner, is_report_begun};
use gf_waves::FreeGate;
use gfan_on_bytes::run_on_bytes;
use std::alloc::{AllocError, Global};
use std::thread::Threads;

/// Whether a report is one of these lines, each with its line end.
fn is_one_of(alloc: Global, lines: &[u8], report: &[u8]) -> Result<bool, AllocError> {
    let mut line = Vec::new(alloc);
    for &byte in lines {
        line.push(byte)?;
        if byte == b'\n' {
            if line.as_slice() == report {
                return Ok(true);
            }
            line.clear();
        }
    }
    Ok(false)
}

/// The devices of which the calls fail that these words name, as `read=2` does, parted by spaces; none if a word names no call.
fn devices_of(words: &str) -> Option<Devices> {
    let mut devices = PIECES;
    for word in words.split(' ') {
        if word.is_empty() {
            continue;
        }
        let (device, call) = word.split_once('=')?;
        let call = call.parse::<u64>().ok()?;
        match device {
            "read" => devices.read = Some(call),
            "file" => devices.file = Some(call),
            "write" => devices.write = Some(call),
            _ => return None,
        }
    }
    Some(devices)
}

impl Row {
    /// Whether a run ended with the status of the row and wrote what it says, and its report begins as the row says.
    pub fn begins(&self, end: &Ending) -> bool {
        end.code == self.code
            && end.written == self.written
            && is_report_begun(&end.told, &self.told)
    }
}

impl<'r, R: Threads + Sync> Runner<'r, R> {
    /// Whether the run of a row without its words ends as the row says.
    ///
    /// # Errors
    ///
    /// `AllocError` if memory runs out for what the run is called with or for what is kept of its end. Want of memory in the run is one of its ends.
    pub fn is_wordless(&self, mut row: Row) -> Result<bool, AllocError> {
        row.call.words.clear();
        self.tells(&row, PIECES, &row.told)
    }

    /// Whether the run of a row over bytes in memory, by `run_on_bytes`, ends as the row says.
    ///
    /// # Errors
    ///
    /// `AllocError` if memory runs out for what the run is called with. Want of memory in the run is one of its ends.
    pub fn is_right_on_bytes(&self, row: &Row) -> Result<bool, AllocError> {
        let Call {
            words,
            input,
            files,
        } = row.call.copied(self.alloc)?;
        let end = run_on_bytes(self.rt, self.alloc, &words, input, files);
        Ok(
            end.status.code() == row.code
                && end.output.bytes() == row.written.as_slice()
                && end.errors.bytes() == row.told.as_slice(),
        )
    }

    /// Whether the run of a row over its input so many times ends as the row says.
    ///
    /// # Errors
    ///
    /// `AllocError` if memory runs out for the repeated input, for what else the run is called with, or for what is kept of its end. Want of memory
    /// in the run is one of its ends.
    pub fn is_right_at_length(&self, row: &Row, times: &str) -> Result<bool, AllocError> {
        let Ok(times) = times.parse::<usize>() else {
            return Ok(false);
        };
        let input = row.call.input.repeat(self.alloc, times)?;
        let call = row.call.with_input(self.alloc, &input)?;
        self.ends(&call, PIECES, row.code, &row.written, &row.told)
    }

    /// Whether the run of a row ends as the row says, with a report that is one of the lines of the row.
    ///
    /// # Errors
    ///
    /// `AllocError` if memory runs out for what the run is called with, for what is kept of its end, or for one of the lines. Want of memory in the
    /// run is one of its ends.
    pub fn tells_one_of(&self, row: &Row) -> Result<bool, AllocError> {
        let end = self.ending(&row.call, PIECES, &FreeGate)?;
        Ok(
            end.code == row.code
                && end.written == row.written
                && is_one_of(self.alloc, &row.told, &end.told)?,
        )
    }

    /// Whether the run of a row ends as the row says, with a report that only begins so.
    ///
    /// # Errors
    ///
    /// `AllocError` if memory runs out for what the run is called with or for what is kept of its end. Want of memory in the run is one of its ends.
    pub fn begins_right(&self, row: &Row) -> Result<bool, AllocError> {
        Ok(row.begins(&self.ending(&row.call, PIECES, &FreeGate)?))
    }

    /// Whether the session of a row, in which the calls fail that these words name, ends as the row says, and leaves this of its input.
    ///
    /// # Errors
    ///
    /// `AllocError` if memory runs out for what the session is called with or for what is kept of its end. Want of memory in the session is one of
    /// its ends.
    pub fn is_session_right(
        &self,
        row: &Row,
        failing: &str,
        left: &[u8],
    ) -> Result<bool, AllocError> {
        let Some(devices) = devices_of(failing) else {
            return Ok(false);
        };
        let end = self.ending(&row.call, devices, &FreeGate)?;
        Ok(
            end.code == row.code
                && end.written == row.written
                && end.told == row.told
                && end.left.as_slice() == left,
        )
    }
}
