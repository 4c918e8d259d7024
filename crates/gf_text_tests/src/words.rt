//! The words of a command, and what they ask for.
use gf_front::words;
use std::alloc::{AllocError, Global};

/// What words ask for, as Rust's derived `Debug` shows it. They are parted by blanks; an empty word stands between two blanks.
///
/// # Errors
///
/// `AllocError` if memory runs out for the list of the words or for the answer. Why the words ask for nothing, also for want of memory, is an answer.
pub fn job(alloc: Global, line: &str) -> Result<Vec<u8>, AllocError> {
    let mut all = Vec::new(alloc);
    for word in line.split(' ') {
        all.push(String::from_str(alloc, word)?)?;
    }
    let job = words(alloc, &all);
    Ok(format!(in alloc; "{job:?}")?.into_bytes())
}

/// What no words ask for.
///
/// # Errors
///
/// `AllocError` if memory runs out for the answer.
pub fn no_job(alloc: Global) -> Result<Vec<u8>, AllocError> {
    let none: Vec<String> = Vec::new(alloc);
    let job = words(alloc, &none);
    Ok(format!(in alloc; "{job:?}")?.into_bytes())
}
