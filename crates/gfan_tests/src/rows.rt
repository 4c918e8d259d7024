//! What a row says: what a run is called with, and how it has to end.
use gf_outside::MemFile;
use std::alloc::{AllocError, Global};

/// What a run is called with: the words, the input, and the files.
#[derive(Drop)]
pub struct Call {
    pub words: Vec<String>,
    pub input: Vec<u8>,
    pub files: Vec<MemFile>,
}

/// A call, the status that it ends with, what it writes and what it reports.
#[derive(Drop)]
pub struct Row {
    pub call: Call,
    pub code: u8,
    pub written: Vec<u8>,
    pub told: Vec<u8>,
}

impl Call {
    /// A copy of a call, in memory of its own.
    ///
    /// # Errors
    ///
    /// `AllocError` if memory runs out.
    pub fn copied(&self, alloc: Global) -> Result<Call, AllocError> {
        let mut call = Call {
            words: Vec::new(alloc),
            input: self.input.to_vec(alloc)?,
            files: Vec::new(alloc),
        };
        for word in &self.words {
            call.words.push(String::from_str(alloc, word)?)?;
        }
        for file in &self.files {
            call.files.push(MemFile {
                name: String::from_str(alloc, &file.name)?,
                bytes: file.bytes.to_vec(alloc)?,
            })?;
        }
        Ok(call)
    }

    /// The call with another input.
    ///
    /// # Errors
    ///
    /// `AllocError` if memory runs out.
    pub fn with_input(&self, alloc: Global, input: &[u8]) -> Result<Call, AllocError> {
        let mut call = self.copied(alloc)?;
        call.input = input.to_vec(alloc)?;
        Ok(call)
    }

    /// The call with other bytes in its last file.
    ///
    /// # Errors
    ///
    /// `AllocError` if memory runs out.
    pub fn with_last_file(&self, alloc: Global, bytes: &[u8]) -> Result<Call, AllocError> {
        let mut call = self.copied(alloc)?;
        if let Some(last) = call.files.pop() {
            call.files.push(MemFile {
                name: String::from_str(alloc, &last.name)?,
                bytes: bytes.to_vec(alloc)?,
            })?;
        }
        Ok(call)
    }

    /// The call with more words behind its own.
    ///
    /// # Errors
    ///
    /// `AllocError` if memory runs out.
    pub fn with_words(&self, alloc: Global, words: &[&str]) -> Result<Call, AllocError> {
        let mut call = self.copied(alloc)?;
        for word in words {
            call.words.push(String::from_str(alloc, word)?)?;
        }
        Ok(call)
    }
}

/// The kind of a line's row, which stands before a colon, and what is behind that; no kind if a bar comes first.
pub fn kind_of(line: &str) -> (&str, &str) {
    match line.split_once(':') {
        Some((kind, row)) if !kind.contains('|') => (kind, row),
        _ => ("", line),
    }
}

/// The bytes of a field, in which a backslash stands before the letter of a line end, a tab or a carriage return, or before a byte as it is.
///
/// # Errors
///
/// `AllocError` if memory runs out.
pub fn bytes_of(alloc: Global, field: &str) -> Result<Vec<u8>, AllocError> {
    let mut bytes = Vec::new(alloc);
    let mut is_escaped = false;
    for &byte in field.as_bytes() {
        if is_escaped {
            bytes.push(match byte {
                b'n' => b'\n',
                b't' => b'\t',
                b'r' => b'\r',
                other => other,
            })?;
            is_escaped = false;
        } else if byte == b'\\' {
            is_escaped = true;
        } else {
            bytes.push(byte)?;
        }
    }
    Ok(bytes)
}

/// The row of a line without its kind, and its sixth field; none if a field is missing.
///
/// # Errors
///
/// `AllocError` if memory runs out.
pub fn row_of<'l>(alloc: Global, line: &'l str) -> Result<Option<(Row, &'l str)>, AllocError> {
    let mut fields = line.split('|');
    let (Some(words), Some(input), Some(code), Some(written), Some(told)) = (
        fields.next(),
        fields.next(),
        fields.next(),
        fields.next(),
        fields.next(),
    ) else {
        return Ok(None);
    };
    let Ok(code) = code.parse::<u8>() else {
        return Ok(None);
    };
    let mut row = Row {
        call: Call {
            words: Vec::new(alloc),
            input: bytes_of(alloc, input)?,
            files: Vec::new(alloc),
        },
        code,
        written: bytes_of(alloc, written)?,
        told: bytes_of(alloc, told)?,
    };
    for word in words.split(' ') {
        row.call.words.push(String::from_str(alloc, word)?)?;
    }
    let sixth = fields.next().unwrap_or("");
    while let Some(name) = fields.next() {
        let Some(text) = fields.next() else {
            return Ok(None);
        };
        row.call.files.push(MemFile {
            name: String::from_str(alloc, name)?,
            bytes: bytes_of(alloc, text)?,
        })?;
    }
    Ok(Some((row, sixth)))
}
