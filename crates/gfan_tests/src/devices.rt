//! Rows without a kind, whose devices move one byte a call and fail at each call in turn.
use crate::rows::Row;
use crate::runs::{BYTES, Devices, Runner};
use std::alloc::AllocError;
use std::thread::Threads;

const READ_FAILED: &[u8] = b"gfan: E1 read failed\n";

const WRITE_FAILED: &[u8] = b"gfan: E2 write failed\n";

const OPEN_FAILED: &[u8] = b"gfan: E3 open failed\n";

/// What a row puts other texts in place of.
#[derive(Clone, Copy)]
enum Place {
    Input,
    LastFile,
}

impl<'r, R: Threads + Sync> Runner<'r, R> {
    /// Whether each read of the input that fails in turn ends the run, before anything is written; the last one would find the end.
    fn do_reads_fail(&self, row: &Row) -> Result<bool, AllocError> {
        for call in 0..=row.call.input.len() {
            let devices = Devices {
                read: Some(call as u64),
                ..BYTES
            };
            if !self.ends(&row.call, devices, 5, b"", READ_FAILED)? {
                return Ok(false);
            }
        }
        Ok(true)
    }

    /// Whether each opening and each read of a file, which are read in the order of the row, does so.
    fn do_files_fail(&self, row: &Row) -> Result<bool, AllocError> {
        let mut call = 0u64;
        for file in &row.call.files {
            for read in 0..=file.bytes.len() + 1 {
                let devices = Devices {
                    file: Some(call),
                    ..BYTES
                };
                let told = if read == 0 { OPEN_FAILED } else { READ_FAILED };
                if !self.ends(&row.call, devices, 5, b"", told)? {
                    return Ok(false);
                }
                call = call.saturating_add(1);
            }
        }
        Ok(true)
    }

    /// Whether each write that fails in turn ends the run there, also where its line isn't taken; and an output that takes nothing.
    fn do_writes_fail(&self, row: &Row) -> Result<bool, AllocError> {
        let mut prefix = Vec::new(self.alloc);
        for (call, &byte) in row.written.iter().enumerate() {
            for (is_line_stuck, told) in [(false, WRITE_FAILED), (true, b"")] {
                let devices = Devices {
                    write: Some(call as u64),
                    is_line_stuck,
                    ..BYTES
                };
                if !self.ends(&row.call, devices, 6, &prefix, told)? {
                    return Ok(false);
                }
            }
            prefix.push(byte)?;
        }
        let devices = Devices {
            is_output_stuck: true,
            ..BYTES
        };
        self.ends(&row.call, devices, 6, b"", WRITE_FAILED)
    }

    /// Whether each byte of the line that isn't taken in turn changes nothing else; and a line of which nothing is.
    fn do_lines_fail(&self, row: &Row) -> Result<bool, AllocError> {
        let mut prefix = Vec::new(self.alloc);
        for (call, &byte) in row.told.iter().enumerate() {
            let devices = Devices {
                line: Some(call as u64),
                ..BYTES
            };
            if !self.tells(row, devices, &prefix)? {
                return Ok(false);
            }
            prefix.push(byte)?;
        }
        let devices = Devices {
            is_line_stuck: true,
            ..BYTES
        };
        self.tells(row, devices, b"")
    }

    /// Whether a run over this text, in place of the input or of the last file, is refused and reports this.
    fn refuses(
        &self,
        row: &Row,
        place: Place,
        text: &[u8],
        told: &[u8],
    ) -> Result<bool, AllocError> {
        let call = match place {
            Place::Input => row.call.with_input(self.alloc, text)?,
            Place::LastFile => row.call.with_last_file(self.alloc, text)?,
        };
        self.ends(&call, BYTES, 1, b"", told)
    }

    /// Whether each proper prefix of the input, or of the last file, is refused at its end.
    fn are_prefixes_refused(&self, row: &Row, place: Place) -> Result<bool, AllocError> {
        let whole = match (place, row.call.files.last()) {
            (Place::Input, _) => &row.call.input,
            (Place::LastFile, Some(file)) => &file.bytes,
            (Place::LastFile, None) => return Ok(false),
        };
        let mut prefix = Vec::new(self.alloc);
        for &byte in whole {
            let at = prefix.len();
            let told = format!(in self.alloc; "gfan: E8 syntax at byte {at}: ended\n")?;
            if !self.refuses(row, place, &prefix, told.as_bytes())? {
                return Ok(false);
            }
            prefix.push(byte)?;
        }
        Ok(true)
    }

    /// Whether texts that are no ring and set are refused in place of the input, or of the last file.
    fn are_wrong_texts_refused(&self, row: &Row, place: Place) -> Result<bool, AllocError> {
        let texts = [
            ("", "E8 syntax at byte 0: ended"),
            ("Q[]{}", "E8 syntax at byte 2: unexpected"),
            ("Q[a]{a^}", "E8 syntax at byte 7: unexpected"),
            ("Q[a]{1/0}", "E8 syntax at byte 7: zero denominator"),
            ("Q[a]{2 3}", "E8 syntax at byte 7: unexpected"),
            ("Q[a]{a}x", "E8 syntax at byte 7: unexpected"),
            ("Q[a]{a^4294967296}", "E9 number too wide at byte 7"),
        ];
        for (text, cause) in texts {
            let told = format!(in self.alloc; "gfan: {cause}\n")?;
            if !self.refuses(row, place, text.as_bytes(), told.as_bytes())? {
                return Ok(false);
            }
        }
        Ok(true)
    }

    /// Whether all runs of a row with these devices, which are parted by spaces, end as they have to.
    ///
    /// # Errors
    ///
    /// `AllocError` if memory runs out for what a run is called with, for what is kept of its end, or for what is expected of it. Want of memory in a
    /// run is one of its ends.
    pub fn is_right_with(&self, row: &Row, devices: &str) -> Result<bool, AllocError> {
        let mut is_right = self.tells(row, BYTES, &row.told)?;
        for device in devices.split(' ') {
            is_right = is_right
                && match device {
                    "" => true,
                    "read" => self.do_reads_fail(row)?,
                    "file" => self.do_files_fail(row)?,
                    "write" => self.do_writes_fail(row)?,
                    "line" => self.do_lines_fail(row)?,
                    "prefix" => self.are_prefixes_refused(row, Place::Input)?,
                    "file-prefix" => self.are_prefixes_refused(row, Place::LastFile)?,
                    "wrong" => self.are_wrong_texts_refused(row, Place::Input)?,
                    "file-wrong" => self.are_wrong_texts_refused(row, Place::LastFile)?,
                    _ => false,
                };
        }
        Ok(is_right)
    }
}
