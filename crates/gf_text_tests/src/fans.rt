//! Fan files: what is read of one, why one isn't, and the text of one.
use gf_fan_files::{
    FanFileError, FanParts, ListedCone, RayNumbers, read, read_file, write, write_parts,
};
use gf_text::{Printer, Reader, TextError};
use gf_vec::IntVec;
use std::alloc::{AllocError, Global};

/// An error, as Rust's derived `Debug` shows it.
fn shown(alloc: Global, error: FanFileError) -> Result<Vec<u8>, AllocError> {
    Ok(format!(in alloc; "{error:?}")?.into_bytes())
}

/// Adds vectors, with a semicolon after the last.
fn push_vectors(out: &mut Vec<u8>, vectors: &[IntVec]) -> Result<(), AllocError> {
    for vector in vectors {
        Printer::vector(out, vector)?;
    }
    out.push(b';')?;
    Ok(())
}

/// What a file says: the ambient dimension, the rays, the vectors of the lineality space, and the numbers of each cone.
///
/// # Errors
///
/// `AllocError` if memory runs out for the answer. Why the file isn't read, also for want of memory, is an answer.
pub fn file(alloc: Global, text: &[u8]) -> Result<Vec<u8>, AllocError> {
    let file = match read_file(alloc, text) {
        Ok(file) => file,
        Err(error) => return shown(alloc, error),
    };
    let ambient = file.ambient;
    let mut out = format!(in alloc; "{ambient};")?.into_bytes();
    push_vectors(&mut out, file.rays.as_slice())?;
    push_vectors(&mut out, file.lineality.as_slice())?;
    for cone in file.cones.as_slice() {
        for number in cone.as_slice() {
            out.extend_from_slice(format!(in alloc; "{number} ")?.as_bytes())?;
        }
        out.push(b';')?;
    }
    Ok(out)
}

/// The text of the fan of a text.
///
/// # Errors
///
/// `AllocError` if memory runs out for the answer that tells why the fan isn't read or isn't written; want of memory for either is such a reason.
pub fn fan(alloc: Global, text: &[u8]) -> Result<Vec<u8>, AllocError> {
    match read(alloc, text) {
        Ok(fan) => match write(alloc, &fan) {
            Ok(text) => Ok(text),
            Err(error) => Ok(format!(in alloc; "{error:?}")?.into_bytes()),
        },
        Err(error) => shown(alloc, error),
    }
}

/// The ambient dimension of the fan of a text, and whether it has the points (2,2) and (-1,-1), where it is the plane.
///
/// # Errors
///
/// `AllocError` if memory runs out for the points or for the answer. Why the fan isn't read, also for want of memory, is an answer.
pub fn holds(alloc: Global, text: &[u8]) -> Result<Vec<u8>, AllocError> {
    let fan = match read(alloc, text) {
        Ok(fan) => fan,
        Err(error) => return shown(alloc, error),
    };
    let ambient = fan.ambient();
    if ambient != 2 {
        return Ok(format!(in alloc; "{ambient}")?.into_bytes());
    }
    let inside = fan.contains(&IntVec::from_slice(alloc, &[2, 2])?);
    let outside = fan.contains(&IntVec::from_slice(alloc, &[-1, -1])?);
    Ok(format!(in alloc; "{ambient} {inside:?} {outside:?}")?.into_bytes())
}

/// Cones from vectors: the first entry is the dimension, and the others are the numbers of the rays.
fn cones_of(alloc: Global, vectors: &[IntVec]) -> Result<Vec<ListedCone>, AllocError> {
    let mut cones = Vec::new(alloc);
    for vector in vectors {
        if let [first, numbers @ ..] = vector.as_slice() {
            let mut rays = Vec::new(alloc);
            for number in numbers {
                rays.push(u64::try_from(*number).unwrap_or(0))?;
            }
            cones.push(ListedCone {
                dim: u32::try_from(*first).unwrap_or(0),
                rays: RayNumbers::of(rays),
            })?;
        }
    }
    Ok(cones)
}

/// The text of the fan whose parts a text lists: its dimension, and lists of vectors, of which the fourth and the fifth are cones.
fn parts_text(alloc: Global, text: &[u8]) -> Result<Vec<u8>, TextError> {
    let mut reader = Reader::new(text);
    let ambient = reader.read_dimension()?;
    let rays = reader.read_vectors(alloc)?;
    let lineality = reader.read_vectors(alloc)?;
    let orthogonal = reader.read_vectors(alloc)?;
    let cones = cones_of(alloc, &reader.read_vectors(alloc)?)?;
    let maximal = cones_of(alloc, &reader.read_vectors(alloc)?)?;
    let interiors = reader.read_vectors(alloc)?;
    let parts = FanParts {
        ambient,
        rays: &rays,
        lineality: &lineality,
        orthogonal: &orthogonal,
        cones: &cones,
        maximal: &maximal,
        interiors: &interiors,
    };
    let text = write_parts(alloc, &parts)?;
    Ok(text)
}

/// The text of the fan whose parts a text lists.
///
/// # Errors
///
/// `AllocError` if memory runs out for the answer that tells why the parts aren't read or aren't written; want of memory for either is such a reason.
pub fn parts(alloc: Global, text: &[u8]) -> Result<Vec<u8>, AllocError> {
    match parts_text(alloc, text) {
        Ok(text) => Ok(text),
        Err(error) => Ok(format!(in alloc; "{error:?}")?.into_bytes()),
    }
}
