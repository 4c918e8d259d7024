//! Where bytes come from and where they go.
//!
//! A `Source` gives bytes and a `Sink` takes them, and `Files` give the bytes of files by their names; each
//! counts its faults. Code that is generic over them can't raise these counts by itself, so a clause "this
//! fault only where the count rose" refuses a body that gives up. Start at `source`, `sink` and `files`; the words that contracts cite are in
//! `specs/Faults.antt` and `specs/Moved.antt`, and what holds of them in `proofs/MovedLaws.antt`.
#![tactic(auto)]

mod error;
mod files;
mod memory;
mod memory_files;
mod named;
mod real_files;
mod sink;
mod source;
mod streams;
mod sure;

pub use error::{Failed, InputError, OpenError, WriteFault};
pub use files::{Files, load};
pub use memory::{MemSink, MemSource};
pub use memory_files::MemFiles;
pub use named::MemFile;
pub use real_files::RealFiles;
pub use sink::{Sink, write_all};
pub use source::{MAX_INPUT, Source, read_all};
pub use streams::{StdSink, StdSource};
pub use sure::{SureFiles, SureSink, SureSource};
