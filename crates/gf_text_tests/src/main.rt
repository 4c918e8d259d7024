//! What is read, printed and reported, a row of the standard input each: its kind, a text, and what comes of it. A row of which something else comes is
//! printed, and at the end how many rows there were.
#![tactic(auto)]

mod fans;
mod outside;
mod refusals;
mod texts;
mod words;

use std::alloc::{AllocError, Global};
use std::fs::Files;
use std::io;

/// The bytes of a field, in which a backslash stands before the letter of a line end, a tab or a carriage return, or before a byte as it is.
fn bytes_of(alloc: Global, field: &str) -> Result<Vec<u8>, AllocError> {
    let mut bytes = Vec::new(alloc);
    let mut is_escaped = false;
    for &byte in field.as_bytes() {
        if is_escaped {
            bytes.push(match byte {
                b'n' => b'\n',
                b't' => b'\t',
                b'r' => b'\r',
                other => other,
            })?;
            is_escaped = false;
        } else if byte == b'\\' {
            is_escaped = true;
        } else {
            bytes.push(byte)?;
        }
    }
    Ok(bytes)
}

/// What comes of a text, or none where the kind is unknown: of the texts that `gf_text` reads.
fn text_answer(alloc: Global, kind: &str, text: &[u8]) -> Result<Option<Vec<u8>>, AllocError> {
    let answer = match kind {
        "ring" => texts::ring(alloc, text)?,
        "names" => texts::names(alloc, text)?,
        "tokens" => texts::tokens(alloc, text)?,
        "set" => texts::set(alloc, text)?,
        "basis" => texts::basis(alloc, text)?,
        "sets" => texts::sets(alloc, text)?,
        "vector" => texts::vector(alloc, text)?,
        "vectors" => texts::vectors(alloc, text)?,
        "dimensions" => texts::dimensions(alloc, text)?,
        "new" => texts::new_names(alloc, text)?,
        _ => return Ok(None),
    };
    Ok(Some(answer))
}

/// What comes of a text, or none where the kind is unknown: of fan files, the words of a command and refusals.
fn other_answer(
    alloc: Global,
    kind: &str,
    text: &str,
    bytes: &[u8],
) -> Result<Option<Vec<u8>>, AllocError> {
    let answer = match kind {
        "file" => fans::file(alloc, bytes)?,
        "fan" => fans::fan(alloc, bytes)?,
        "holds" => fans::holds(alloc, bytes)?,
        "parts" => fans::parts(alloc, bytes)?,
        "words" => words::job(alloc, text)?,
        "no-words" => words::no_job(alloc)?,
        "refusal" => refusals::line(alloc, text)?,
        "pieces" => refusals::pieces(alloc, text)?,
        _ => return Ok(None),
    };
    Ok(Some(answer))
}

/// What comes of a text, or none where the kind is unknown.
fn answer_of<R: Files>(
    rt: &R,
    alloc: Global,
    kind: &str,
    text: &str,
    bytes: &[u8],
) -> io::Result<Option<Vec<u8>>> {
    if let Some(answer) = text_answer(alloc, kind, bytes)? {
        return Ok(Some(answer));
    }
    if let Some(answer) = other_answer(alloc, kind, text, bytes)? {
        return Ok(Some(answer));
    }
    outside::answer(rt, alloc, kind, text, bytes)
}

fn main(rt: HostRuntime) -> io::Result<()> {
    let alloc = rt.alloc();
    let mut rows = 0u64;
    for line in rt.lines(alloc) {
        let line = line?;
        if line.is_empty() || line.starts_with('#') {
            continue;
        }
        rows = rows.saturating_add(1);
        let mut fields = line.split('|');
        let kind = fields.next().unwrap_or("");
        let text = fields.next().unwrap_or("");
        let bytes = bytes_of(alloc, text)?;
        let wanted = bytes_of(alloc, fields.next().unwrap_or(""))?;
        let answer = answer_of(&rt, alloc, kind, text, &bytes)?;
        if answer != Some(wanted) {
            println!(rt; "not so: {line}")?;
        }
    }
    println!(rt; "{rows} rows")
}
