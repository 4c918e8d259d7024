//! Texts of rings, sets, vectors and dimensions: what each says, or where and why it is refused.
ghost use Rattle.std.specs.Prelude.{length};
ghost use Rattle.gf_text.specs.Sets.{AreIn};

use gf_text::{Printer, Reader, Ring, TextError, Written};
use std::alloc::{AllocError, Global};

/// An error, as Rust's derived `Debug` shows it.
fn shown(alloc: Global, error: TextError) -> Result<Vec<u8>, AllocError> {
    Ok(format!(in alloc; "{error:?}")?.into_bytes())
}

/// The line of the ring that a text begins with, after a semicolon. A line that is printed in part, and not taken back, is no answer.
///
/// # Errors
///
/// `AllocError` if memory runs out for the answer. Why no ring is read, also for want of memory, is an answer.
pub fn ring(alloc: Global, text: &[u8]) -> Result<Vec<u8>, AllocError> {
    let ring = match Reader::new(text).read_ring(alloc) {
        Ok(ring) => ring,
        Err(error) => return shown(alloc, error),
    };
    let mut out = b";".to_vec(alloc)?;
    let printed = Printer::ring(&mut out, &ring);
    if printed.is_err() && out.as_slice() == b";".as_slice() {
        return Err(AllocError);
    }
    Ok(out)
}

/// The names of the ring that a text begins with, a blank before each, and whether the text ends there.
///
/// # Errors
///
/// `AllocError` if memory runs out for the answer. Why no ring is read, also for want of memory, is an answer.
pub fn names(alloc: Global, text: &[u8]) -> Result<Vec<u8>, AllocError> {
    let mut reader = Reader::new(text);
    let ring = match reader.read_ring(alloc) {
        Ok(ring) => ring,
        Err(error) => return shown(alloc, error),
    };
    let mut out = Vec::new(alloc);
    for place in 0..ring.len() as usize {
        out.push(b' ')?;
        out.extend_from_slice(ring.name(place))?;
    }
    let end = reader.end();
    out.extend_from_slice(format!(in alloc; " {end:?}")?.as_bytes())?;
    Ok(out)
}

/// The tokens of a text with their places, then why there is no further one, and whether the text ends there.
///
/// # Errors
///
/// `AllocError` if memory runs out for the answer.
pub fn tokens(alloc: Global, text: &[u8]) -> Result<Vec<u8>, AllocError> {
    let mut reader = Reader::new(text);
    let mut out = Vec::new(alloc);
    for _ in 0..=text.len() {
        match reader.token() {
            Ok(token) => {
                out.extend_from_slice(token.text)?;
                let at = token.at;
                out.extend_from_slice(format!(in alloc; " {at} ")?.as_bytes())?;
            }
            Err(error) => {
                let end = reader.end();
                out.extend_from_slice(format!(in alloc; "{error:?} {end:?}")?.as_bytes())?;
                return Ok(out);
            }
        }
    }
    Ok(out)
}

/// Adds polynomials, each after a semicolon.
fn push_all(out: &mut Vec<u8>, ring: &Ring, items: &[Written]) -> Result<(), AllocError>
    requires { AreIn (length ring.now) items.now }
{
    'items: for item in items {
        out.push(b';')?;
        Printer::poly(out, ring, item)?;
    }
    Ok(())
}

/// The polynomials of a whole text of a ring and a set, each after a semicolon.
fn polynomials_of(alloc: Global, text: &[u8]) -> Result<Vec<u8>, TextError> {
    let mut reader = Reader::new(text);
    let ring = reader.read_ring(alloc)?;
    let set = reader.read_set(alloc, &ring)?;
    reader.end()?;
    let mut out = Vec::new(alloc);
    push_all(&mut out, &ring, &set)?;
    Ok(out)
}

/// The polynomials of a whole text of a ring and a set, each after a semicolon.
///
/// # Errors
///
/// `AllocError` if memory runs out for the answer that tells why the text isn't read or the polynomials aren't printed; want of memory for either is
/// such a reason.
pub fn set(alloc: Global, text: &[u8]) -> Result<Vec<u8>, AllocError> {
    match polynomials_of(alloc, text) {
        Ok(out) => Ok(out),
        Err(error) => shown(alloc, error),
    }
}

/// The marked set of a text of a ring and a set, as it is printed.
fn printed(alloc: Global, text: &[u8]) -> Result<Vec<u8>, TextError> {
    let mut reader = Reader::new(text);
    let ring = reader.read_ring(alloc)?;
    let set = reader.read_marked(alloc, &ring)?;
    let mut out = Vec::new(alloc);
    Printer::basis(&mut out, &ring, &set)?;
    Ok(out)
}

/// The marked set of a text of a ring and a set, as it is printed.
///
/// # Errors
///
/// `AllocError` if memory runs out for the answer that tells why the text isn't read or the set isn't printed; want of memory for either is such a
/// reason.
pub fn basis(alloc: Global, text: &[u8]) -> Result<Vec<u8>, AllocError> {
    match printed(alloc, text) {
        Ok(out) => Ok(out),
        Err(error) => shown(alloc, error),
    }
}

/// A ring, and after it lists of sets: how many sets each list has, and why there is no further list. All lists but the first are of marked sets, and
/// so is that too where the ring has one variable.
///
/// # Errors
///
/// `AllocError` if memory runs out for the answer. Why the ring or a list isn't read, also for want of memory, is an answer or its end.
pub fn sets(alloc: Global, text: &[u8]) -> Result<Vec<u8>, AllocError> {
    let mut reader = Reader::new(text);
    let ring = match reader.read_ring(alloc) {
        Ok(ring) => ring,
        Err(error) => return shown(alloc, error),
    };
    let mut out = Vec::new(alloc);
    if ring.len() > 1 {
        match reader.read_sets(alloc, &ring) {
            Ok(sets) => {
                let count = sets.len();
                out.extend_from_slice(format!(in alloc; "{count} ")?.as_bytes())?;
            }
            Err(error) => return shown(alloc, error),
        }
    }
    for _ in 0..=text.len() {
        match reader.read_marked_sets(alloc, &ring) {
            Ok(sets) => {
                let count = sets.len();
                out.extend_from_slice(format!(in alloc; "{count} ")?.as_bytes())?;
            }
            Err(error) => {
                out.extend_from_slice(&shown(alloc, error)?)?;
                return Ok(out);
            }
        }
    }
    Ok(out)
}

/// The entries of the vector that a text begins with, and whether the text ends there.
///
/// # Errors
///
/// `AllocError` if memory runs out for the answer. Why no vector is read, also for want of memory, is an answer.
pub fn vector(alloc: Global, text: &[u8]) -> Result<Vec<u8>, AllocError> {
    let mut reader = Reader::new(text);
    match reader.read_vector(alloc) {
        Ok(vector) => {
            let mut out = Vec::new(alloc);
            for entry in vector.as_slice() {
                out.extend_from_slice(format!(in alloc; "{entry} ")?.as_bytes())?;
            }
            let end = reader.end();
            out.extend_from_slice(format!(in alloc; "{end:?}")?.as_bytes())?;
            Ok(out)
        }
        Err(error) => shown(alloc, error),
    }
}

/// The lists of vectors that a text has, printed after a semicolon each, and why there is no further list. A vector that is printed in part, and not
/// taken back, is no answer.
///
/// # Errors
///
/// `AllocError` if memory runs out for the answer. Why a list isn't read, also for want of memory, is the end of an answer.
pub fn vectors(alloc: Global, text: &[u8]) -> Result<Vec<u8>, AllocError> {
    let mut reader = Reader::new(text);
    let mut out = Vec::new(alloc);
    for _ in 0..=text.len() {
        match reader.read_vectors(alloc) {
            Ok(vectors) => {
                out.push(b';')?;
                for vector in &vectors {
                    let before = out.len();
                    if Printer::vector(&mut out, vector).is_err() {
                        if out.len() == before {
                            return Err(AllocError);
                        }
                        return Ok(out);
                    }
                }
            }
            Err(error) => {
                out.extend_from_slice(&shown(alloc, error)?)?;
                return Ok(out);
            }
        }
    }
    Ok(out)
}

/// The dimensions that a text begins with, why there is no further one, and the token that stands there.
///
/// # Errors
///
/// `AllocError` if memory runs out for the answer.
pub fn dimensions(alloc: Global, text: &[u8]) -> Result<Vec<u8>, AllocError> {
    let mut reader = Reader::new(text);
    let mut out = Vec::new(alloc);
    for _ in 0..=text.len() {
        match reader.read_dimension() {
            Ok(dimension) => {
                out.extend_from_slice(format!(in alloc; "{dimension} ")?.as_bytes())?;
            }
            Err(error) => {
                out.extend_from_slice(&shown(alloc, error)?)?;
                out.push(b' ')?;
                if let Ok(token) = reader.token() {
                    out.extend_from_slice(token.text)?;
                }
                return Ok(out);
            }
        }
    }
    Ok(out)
}

/// A ring, and after it two names that are new to it: the line of the ring with the first, and why the second isn't new.
///
/// # Errors
///
/// `AllocError` if memory runs out for the ring with the first name or for the answer. Why the ring or a name isn't read, also for want of memory, is
/// an answer or its end.
pub fn new_names(alloc: Global, text: &[u8]) -> Result<Vec<u8>, AllocError> {
    let mut reader = Reader::new(text);
    let ring = match reader.read_ring(alloc) {
        Ok(ring) => ring,
        Err(error) => return shown(alloc, error),
    };
    let mut out = Vec::new(alloc);
    match reader.read_name(&ring) {
        Ok(name) => {
            if ring.len() >= 24 {
                return Ok(out);
            }
            Printer::ring(&mut out, &ring.extended(alloc, name)?)?;
        }
        Err(error) => return shown(alloc, error),
    }
    if let Err(error) = reader.read_name(&ring) {
        out.extend_from_slice(&shown(alloc, error)?)?;
    }
    Ok(out)
}
