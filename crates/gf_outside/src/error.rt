//! What can go wrong between the program and the outside.
//!
//! The texts are for a debugger; no program prints them.
use thiserror::Error;

/// A read or a write that failed. The object that failed has counted it.
#[derive(Clone, Copy, Debug, PartialEq, Eq, Error)]
#[error("the outside failed")]
pub struct Failed;

/// Why not all of an input was read.
#[derive(Clone, Copy, Debug, PartialEq, Eq, Error)]
pub enum InputError {
    /// A read failed.
    #[error("read failed")]
    ReadFault,
    /// A file could not be opened.
    #[error("open failed")]
    OpenFault,
    /// The input has more than `MAX_INPUT` bytes.
    #[error("input too long")]
    InputTooLong,
    /// There was no memory for the bytes.
    #[error("no memory")]
    Memory,
}

/// A write failed, or took nothing of a piece that isn't empty.
#[derive(Clone, Copy, Debug, PartialEq, Eq, Error)]
#[error("write failed")]
pub struct WriteFault;

/// Why a file was not opened.
#[derive(Clone, Copy, Debug, PartialEq, Eq, Error)]
pub enum OpenError {
    /// The opening failed. The object that failed has counted it.
    #[error("open failed")]
    Failed,
    /// There was no memory for it.
    #[error("no memory")]
    Memory,
}
