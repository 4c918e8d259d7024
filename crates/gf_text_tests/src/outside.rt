//! Reads and writes over memory and over std, with faults at given calls; a file of the system.
ghost use Rattle.std.specs.Prelude.{◌≡◌, OnOk};

use gf_outside::{
    Failed, Files, InputError, MAX_INPUT, MemFile, MemFiles, MemSink, MemSource, RealFiles, Source,
    StdSink, StdSource, SureFiles, SureSink, SureSource, WriteFault, load, read_all, write_all,
};
use std::alloc::{AllocError, Global};
use std::fs;
use std::io::{self, Read};

/// All bytes, or why they weren't read.
fn read_answer(alloc: Global, read: Result<Vec<u8>, InputError>) -> Result<Vec<u8>, AllocError> {
    match read {
        Ok(all) => Ok(all),
        Err(error) => Ok(format!(in alloc; "{error:?}")?.into_bytes()),
    }
}

/// Whether a piece was written, and what the sink holds.
fn write_answer(
    alloc: Global,
    written: Result<(), WriteFault>,
    held: &[u8],
) -> Result<Vec<u8>, AllocError> {
    let mut out = format!(in alloc; "{written:?} ")?.into_bytes();
    out.extend_from_slice(held)?;
    Ok(out)
}

/// What comes of a read of a source in memory that gives a byte a call, and of which this call fails.
fn source(alloc: Global, text: &[u8], failing: u64) -> Result<Vec<u8>, AllocError> {
    let mut source = MemSource::new(text.to_vec(alloc)?, 1, vec![in alloc; failing]?);
    let read = read_all(alloc, &mut source);
    read_answer(alloc, read)
}

/// What comes of a piece that is written to a sink in memory that takes so many bytes a call, and of which this call fails.
fn sink(alloc: Global, text: &[u8], most: usize, failing: u64) -> Result<Vec<u8>, AllocError> {
    let mut sink = MemSink::new(alloc, most, vec![in alloc; failing]?);
    let written = write_all(&mut sink, text);
    write_answer(alloc, written, sink.bytes())
}

/// What comes of a piece that is written to a vector of std, and to a slice of two bytes.
fn writers(alloc: Global, text: &[u8]) -> Result<Vec<u8>, AllocError> {
    let mut all = Vec::new(alloc);
    let mut sink = StdSink::new(&mut all);
    let written = write_all(&mut sink, text);
    let mut out = write_answer(alloc, written, &all)?;
    let mut room = [0u8; 2];
    let mut full = StdSink::new(room.as_mut_slice());
    let written = write_all(&mut full, text);
    out.push(b';')?;
    out.extend_from_slice(&write_answer(alloc, written, &room)?)?;
    Ok(out)
}

/// A read of a source over a reader, with what it counts as a clause of a caller.
fn read_once<R: Read>(source: &mut StdSource<R>, into: &mut [u8]) -> Result<usize, Failed>
    ensures calm { OnOk result (⟦<StdSource<R> as Source>⟧.faults source.new ≡ ⟦<StdSource<R> as Source>⟧.faults source.old) }
{
    source.read(into)
}

/// What comes of a text from a reader of std, all at once; and how many bytes come from another, two at a time, up to the end.
fn readers(alloc: Global, text: &[u8]) -> Result<Vec<u8>, AllocError> {
    let mut source = StdSource::new(text);
    let read = read_all(alloc, &mut source);
    let mut out = read_answer(alloc, read)?;
    let mut other = StdSource::new(text);
    let mut into = [0u8; 2];
    for _ in 0..=text.len() {
        match read_once(&mut other, &mut into) {
            Ok(count) => {
                out.extend_from_slice(format!(in alloc; ";{count}")?.as_bytes())?;
                if count == 0 {
                    break;
                }
            }
            Err(_) => out.push(b'!')?,
        }
    }
    Ok(out)
}

/// What comes of a text from a source that never fails, written to a sink that never does.
fn sure(alloc: Global, text: &[u8]) -> Result<Vec<u8>, AllocError> {
    let mut source = SureSource::new(text.to_vec(alloc)?);
    let read = read_all(alloc, &mut source);
    let mut out = read_answer(alloc, read)?;
    let written = write_all(&mut SureSink, &out);
    out.extend_from_slice(format!(in alloc; ";{written:?}")?.as_bytes())?;
    Ok(out)
}

/// What comes of the longest input, or of one with a byte more: how many bytes, or why they aren't read.
fn long(alloc: Global, is_longer: bool) -> Result<Vec<u8>, AllocError> {
    let length = if is_longer { MAX_INPUT + 1 } else { MAX_INPUT };
    let mut source = SureSource::new(vec![in alloc; b' '; length]?);
    match read_all(alloc, &mut source) {
        Ok(all) => {
            let length = all.len();
            Ok(format!(in alloc; "{length}")?.into_bytes())
        }
        Err(error) => Ok(format!(in alloc; "{error:?}")?.into_bytes()),
    }
}

/// A file in memory.
fn file(alloc: Global, name: &str, bytes: &[u8]) -> Result<MemFile, AllocError> {
    Ok(MemFile {
        name: String::from_str(alloc, name)?,
        bytes: bytes.to_vec(alloc)?,
    })
}

/// What comes of the file of a name among `a`, of `xy`, and another name, of `abc`, by a byte a call, of which this one fails; and of a read after that.
fn loaded(alloc: Global, name: &str, other: &str, failing: u64) -> Result<Vec<u8>, AllocError> {
    let files = vec![in alloc; file(alloc, "a", b"xy")?, file(alloc, other, b"abc")?]?;
    let mut files = MemFiles::new(files, 1, vec![in alloc; failing]?);
    let read = load(alloc, &mut files, name);
    let mut out = read_answer(alloc, read)?;
    let more = files.read(&mut [0u8; 4]);
    out.extend_from_slice(format!(in alloc; " {more:?}")?.as_bytes())?;
    Ok(out)
}

/// What comes of the files of names, one after the other, among two of the name `a` that never fail; a semicolon after each.
fn sure_files(alloc: Global, names: &str) -> Result<Vec<u8>, AllocError> {
    let mut files = SureFiles::new(vec![in alloc;
        file(alloc, "a", b"xy")?,
        file(alloc, "a", b"z")?,
    ]?);
    let mut out = Vec::new(alloc);
    for name in names.split(' ') {
        let read = load(alloc, &mut files, name);
        out.extend_from_slice(&read_answer(alloc, read)?)?;
        out.push(b';')?;
    }
    Ok(out)
}

/// What comes of a file of the system that is written with this text, read, and removed; then of its name, and of an empty one.
fn system<R: fs::Files>(rt: &R, alloc: Global, text: &[u8]) -> io::Result<Vec<u8>> {
    let path = "gf_text_tests.txt";
    fs::write(rt, path, text)?;
    let mut files = RealFiles::new(rt);
    let read = load(alloc, &mut files, path);
    fs::remove_file(rt, path)?;
    let mut out = read_answer(alloc, read)?;
    let gone = load(alloc, &mut files, path);
    let unnamed = load(alloc, &mut files, "");
    for read in [gone, unnamed] {
        out.push(b';')?;
        out.extend_from_slice(&read_answer(alloc, read)?)?;
    }
    Ok(out)
}

/// What comes of a text by a kind of this module, or none where the kind is unknown: its name, and after it the number of the call that fails, before
/// it, of a sink, how many bytes a call takes, and after it, of files, the name of the second.
///
/// # Errors
///
/// Want of memory for the answer or for a device that is in memory; of the kind `system` also why the system doesn't write or doesn't remove its
/// file. Why a text isn't read or written by a device is an answer.
pub fn answer<R: fs::Files>(
    rt: &R,
    alloc: Global,
    kind: &str,
    text: &str,
    bytes: &[u8],
) -> io::Result<Option<Vec<u8>>> {
    let mut words = kind.split(' ');
    let name = words.next().unwrap_or("");
    let number = words.next().unwrap_or("").parse::<u64>().unwrap_or(0);
    let word = words.next().unwrap_or("");
    let answer = match name {
        "source" => source(alloc, bytes, number)?,
        "sink" => sink(
            alloc,
            bytes,
            number as usize,
            word.parse::<u64>().unwrap_or(0),
        )?,
        "writers" => writers(alloc, bytes)?,
        "readers" => readers(alloc, bytes)?,
        "sure" => sure(alloc, bytes)?,
        "long" => long(alloc, number > 0)?,
        "load" => loaded(alloc, text, word, number)?,
        "sure-files" => sure_files(alloc, text)?,
        "system" => system(rt, alloc, bytes)?,
        _ => return Ok(None),
    };
    Ok(Some(answer))
}
