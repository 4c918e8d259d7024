//! Sessions over numbers.
use gf_number_sessions::{NumberError, NumberMoves};
use gf_outside::{MemSink, MemSource, read_all};
use gf_session::{SessionError, converse};
use std::alloc::{AllocError, Global};

/// What ends a session that is cut off.
fn cause(error: SessionError<NumberError>) -> &'static str {
    match error {
        SessionError::ReadFault => "read",
        SessionError::InputTooLong => "long",
        SessionError::WriteFault => "write",
        SessionError::Memory => "memory",
        SessionError::Refused(NumberError::Memory) => "memory",
        SessionError::Refused(NumberError::Chosen(_)) => "refused",
    }
}

/// What a session from 0 of the numbers up to 3 writes, what it leaves unread, and what ends it, with a semicolon between two: by one byte a read and
/// two a write, with a number that is chosen to refuse, and the numbers of the read and of the write that fail.
///
/// # Errors
///
/// `AllocError` if memory runs out for the devices or for the answer. Want of memory in the session is what ends it; where the rest of the input
/// can't be read for want of memory, the answer leaves it out.
pub fn session(alloc: Global, input: &[u8], numbers: &[u64]) -> Result<Vec<u8>, AllocError> {
    let [chosen, read, write] = numbers else {
        return Ok(Vec::new(alloc));
    };
    let moves = NumberMoves {
        limit: 3,
        chosen: *chosen,
        alloc,
    };
    let mut source = MemSource::new(input.to_vec(alloc)?, 1, vec![in alloc; *read]?);
    let mut sink = MemSink::new(alloc, 2, vec![in alloc; *write]?);
    let end = match converse(alloc, &moves, 0, &mut source, &mut sink) {
        Ok(()) => "done",
        Err(error) => cause(error),
    };
    let mut out = sink.bytes().to_vec(alloc)?;
    out.push(b';')?;
    if let Ok(left) = read_all(alloc, &mut source) {
        out.extend_from_slice(&left)?;
    }
    out.push(b';')?;
    out.extend_from_slice(end.as_bytes())?;
    Ok(out)
}
