//! The files of the system: the edge to std's files.
//!
//! What a file holds isn't told; what is left of an opened one is what std's own contracts tell of it. A file is closed where its end is found: one that has
//! the
//! number of a standard stream, since that stream was closed, isn't taken for it later.
ghost use Rattle.std.specs.Prelude.{◌≡◌, [], Some, None, IsNone};
ghost use Rattle.gf_outside.specs.Moved.{left_of};

use crate::{Failed, Files, OpenError};
use std::fs;
use std::io::Read;

/// The files of a system, under their paths.
#[derive(Drop)]
pub struct RealFiles<'r, R: fs::Files> {
    system: &'r R,
    chosen: Option<R::File>,
    given: u64,
    unopened: u64,
    faults: u64,
}

impl<'r, R: fs::Files> RealFiles<'r, R> {
    /// The files of `system`, none of them chosen.
    pub fn new(system: &'r R) -> RealFiles<'r, R>
        ensures left { ⟦<RealFiles<'r, R> as Files>⟧.left result ≡ Some [] }
        ensures given { ⟦<RealFiles<'r, R> as Files>⟧.given result ≡ 0 }
        ensures unopened { ⟦<RealFiles<'r, R> as Files>⟧.unopened result ≡ 0 }
        ensures faults { ⟦<RealFiles<'r, R> as Files>⟧.faults result ≡ 0 }
    {
        RealFiles {
            system,
            chosen: None,
            given: 0,
            unopened: 0,
            faults: 0,
        }
    }
}

impl<'r, R: fs::Files> Files for RealFiles<'r, R> {
    ghost bytes = { λ s name. None };

    ghost left = { λ s. left_of R.File.remaining s.chosen };

    ghost given = { λ s. s.given };

    ghost unopened = { λ s. s.unopened };

    ghost faults = { λ s. s.faults };

    fn choose(&mut self, name: &str) -> Result<(), OpenError> {
        self.chosen = None;
        match open(self.system, name) {
            Some(file) => {
                self.chosen = Some(file);
                Ok(())
            }
            None => {
                self.unopened = self.unopened.saturating_add(1);
                Err(OpenError::Failed)
            }
        }
    }

    fn read(&mut self, into: &mut [u8]) -> Result<usize, Failed> {
        let Some(file) = &mut self.chosen else {
            return Ok(0);
        };
        match file.read(into) {
            Ok(count) => {
                self.given = self.given.saturating_add(count as u64);
                if count == 0 && !into.is_empty() {
                    self.chosen = None;
                }
                Ok(count)
            }
            Err(_) => {
                self.faults = self.faults.saturating_add(1);
                Err(Failed)
            }
        }
    }
}

/// The file of this name, where it can be opened; none for an empty name.
fn open<R: fs::Files>(system: &R, name: &str) -> Option<R::File>
    ensures { name.now ≡ [] → IsNone result }
{
    if name.is_empty() {
        return None;
    }
    fs::File::open(system, name).ok()
}
