//! Reverse search and sessions over numbers, a row of the standard input each: its kind and numbers, a text, and what comes of it. A row of which something
//! else comes is printed, and last how many rows there were.
#![tactic(auto)]

mod sessions;
mod walks;
mod waves;

use gf_number_trees::NumberError;
use std::alloc::{AllocError, Global};
use std::io;
use std::thread::Threads;

/// The bytes of a field, in which a backslash stands before the letter of a line end, a tab or a carriage return, or before a byte as it is.
fn bytes_of(alloc: Global, field: &str) -> Result<Vec<u8>, AllocError> {
    let mut bytes = Vec::new(alloc);
    let mut is_escaped = false;
    for &byte in field.as_bytes() {
        if is_escaped {
            bytes.push(match byte {
                b'n' => b'\n',
                b't' => b'\t',
                b'r' => b'\r',
                other => other,
            })?;
            is_escaped = false;
        } else if byte == b'\\' {
            is_escaped = true;
        } else {
            bytes.push(byte)?;
        }
    }
    Ok(bytes)
}

/// What comes of a kind and its numbers, over trees; nothing where it is unknown.
fn tree_answer<R: Threads + Sync>(
    rt: &R,
    alloc: Global,
    kind: &str,
    numbers: &[u64],
) -> Result<Vec<u8>, NumberError> {
    match (kind, numbers) {
        ("list", [limit, from]) => walks::list(alloc, *limit, *from),
        ("root", [limit, from]) => walks::root(alloc, *limit, *from),
        ("nodes", [limit, chosen]) => Ok(walks::nodes(alloc, *limit, *chosen)?),
        ("split", [limit, chosen, steps]) => Ok(walks::split(alloc, *limit, *chosen, *steps)?),
        ("waves", [limit, front]) => waves::whole(rt, alloc, *limit, *front),
        ("refused", [limit, first, second]) => waves::refused(rt, alloc, *limit, *first, *second),
        ("after", [limit]) => waves::after(rt, alloc, *limit),
        ("batches", [limit]) => waves::numbered(rt, alloc, *limit),
        ("meet", [limit]) => waves::meet(rt, alloc, *limit),
        _ => Ok(Vec::new(alloc)),
    }
}

/// What comes of a row: of a session, or of a kind over trees; of that a refusal, as Rust's derived `Debug` shows it.
fn answer<R: Threads + Sync>(
    rt: &R,
    alloc: Global,
    kind: &str,
    text: &str,
) -> Result<Vec<u8>, AllocError> {
    let (name, rest) = kind.split_once(' ').unwrap_or((kind, ""));
    let mut numbers = Vec::new(alloc);
    for word in rest.split(' ') {
        if let Ok(number) = word.parse::<u64>() {
            numbers.push(number)?;
        }
    }
    if name == "session" {
        let input = bytes_of(alloc, text)?;
        return sessions::session(alloc, &input, &numbers);
    }
    match tree_answer(rt, alloc, name, &numbers) {
        Ok(out) => Ok(out),
        Err(error) => Ok(format!(in alloc; "{error:?}")?.into_bytes()),
    }
}

fn main(rt: HostRuntime) -> io::Result<()> {
    let alloc = rt.alloc();
    let mut rows = 0u64;
    for line in rt.lines(alloc) {
        let line = line?;
        if line.is_empty() || line.starts_with('#') {
            continue;
        }
        rows = rows.saturating_add(1);
        let mut fields = line.split('|');
        let kind = fields.next().unwrap_or("");
        let text = fields.next().unwrap_or("");
        let wanted = bytes_of(alloc, fields.next().unwrap_or(""))?;
        let is_said = !wanted.is_empty() || kind.starts_with("session");
        if !is_said || answer(&rt, alloc, kind, text)? != wanted {
            println!(rt; "not so: {line}")?;
        }
    }
    println!(rt; "{rows} rows")
}
