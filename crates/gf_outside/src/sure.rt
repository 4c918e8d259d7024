//! A source, a sink and files that never fail: their counts of faults are the constant 0.
ghost use Rattle.std.specs.Prelude.{◌≡◌, ◌≤◌, ℕ, List, [], drop, Some, None, length};
ghost use Rattle.gf_outside.specs.Memory.{bytes_or_none};

use crate::named::{MemFile, Named};
use crate::{Failed, Files, OpenError, Sink, Source};

/// A source over bytes in memory that gives as many as there is room for.
#[derive(Drop)]
pub struct SureSource {
    bytes: Vec<u8>,
    at: usize,
    ghost within: { at ≤ length bytes.items },
}

impl SureSource {
    /// A source of `bytes`.
    pub fn new(bytes: Vec<u8>) -> SureSource
        ensures left { ⟦<SureSource as Source>⟧.left result ≡ Some bytes.items }
        ensures given { ⟦<SureSource as Source>⟧.given result ≡ 0 }
        ensures faults { ⟦<SureSource as Source>⟧.faults result ≡ 0 }
    {
        SureSource { bytes, at: 0 }
    }
}

impl Source for SureSource {
    ghost left = { λ s. Some (drop s.at s.bytes.items) };

    ghost given = { λ s. s.at };

    ghost faults = { λ s. 0 };

    fn read(&mut self, into: &mut [u8]) -> Result<usize, Failed> {
        let at = self.at;
        let count = into.len().min(self.bytes.len() - at);
        into[..count].copy_from_slice(&self.bytes[at..at + count]);
        self.at = at + count;
        Ok(count)
    }
}

/// A sink that takes each piece whole and keeps none of it, so it doesn't tell what it holds.
///
/// To keep bytes takes memory, whose want would be a fault.
#[derive(Clone, Copy)]
pub struct SureSink;

impl Sink for SureSink {
    ghost held = { λ s. None };

    ghost faults = { λ s. 0 };

    fn write(&mut self, piece: &[u8]) -> Result<usize, Failed> {
        Ok(piece.len())
    }
}

/// Files in memory that give as many bytes as there is room for. A name that they don't have has no bytes.
#[derive(Drop)]
pub struct SureFiles {
    named: Named,
    given: u64,
}

impl SureFiles {
    /// These files, each under its name; of those with one name only the first is ever read.
    pub fn new(files: Vec<MemFile>) -> SureFiles
        ensures bytes { (n : List ℕ) → ⟦<SureFiles as Files>⟧.bytes result n ≡ Some (bytes_or_none files.items n) }
        ensures left { ⟦<SureFiles as Files>⟧.left result ≡ Some [] }
        ensures given { ⟦<SureFiles as Files>⟧.given result ≡ 0 }
        ensures unopened { ⟦<SureFiles as Files>⟧.unopened result ≡ 0 }
        ensures faults { ⟦<SureFiles as Files>⟧.faults result ≡ 0 }
    {
        SureFiles {
            named: Named::new(files),
            given: 0,
        }
    }
}

impl Files for SureFiles {
    ghost bytes = { λ s name. Some (bytes_or_none s.named.files name) };

    ghost left = { λ s. Some s.named.left };

    ghost given = { λ s. s.given };

    ghost unopened = { λ s. 0 };

    ghost faults = { λ s. 0 };

    fn choose(&mut self, name: &str) -> Result<(), OpenError> {
        self.named.choose(name);
        Ok(())
    }

    fn read(&mut self, into: &mut [u8]) -> Result<usize, Failed> {
        let count = self.named.read(usize::MAX, into);
        self.given = self.given.saturating_add(count as u64);
        Ok(count)
    }
}
