//! Files in memory that move a few bytes a call and fail at given calls.
//!
//! Calls are counted from 0, openings and reads together, the failing ones too.
ghost use Rattle.std.specs.Prelude.{◌≡◌, true, ◌⊎◌, ◌≤◌, ◌+◌, ◌↔◌, [], length, min, Some, Ok, IsErr, IsErrOf, IsNone, IfOk, OnOk, OnErr};
ghost use Rattle.std.specs.Io.{ReadsAtMost};
ghost use Rattle.std.specs.Io.KnownBytes.{ReadConsumes, Keeps};
ghost use Rattle.gf_outside.specs.Faults.{HasCause, Rose};
ghost use Rattle.gf_outside.specs.Moved.{CountsMoved};
ghost use Rattle.gf_outside.specs.Memory.{next_call, FailsNow, place_named, bytes_named};

use crate::named::{MemFile, Named};
use crate::{Failed, Files, OpenError};
use std::marker::Model;

/// Files in memory.
#[derive(Drop)]
pub struct MemFiles {
    named: Named,
    most: usize,
    failing: Vec<u64>,
    calls: u64,
    given: u64,
    unopened: u64,
    faults: u64,
}

impl Model for MemFiles {
    ghost use Rattle.std.specs.Prelude.{◌≤◌};
    ghost use Rattle.gf_outside.specs.Memory.{FilesInMemory};

    ghost Value = { FilesInMemory };

    ghost view = { λ s. record {
      named = s.named;
      given = s.given;
      script = record { most = s.most; failing = s.failing.items; calls = s.calls };
      unopened = s.unopened;
      faults = s.faults;
    } };

    ghost invariant = { λ s. 1 ≤ s.most };
}

impl MemFiles {
    /// These files, each under its name (of those with one name only the first is ever read), that give at most `most` bytes a call.
    /// The calls whose numbers are in `failing`, counted from 0, fail.
    pub fn new(files: Vec<MemFile>, most: usize, failing: Vec<u64>) -> MemFiles
        requires { 1 ≤ most }
        ensures { result ≡ record {
          named = record { files = files.items; left = [] };
          given = 0;
          script = record { most = most; failing = failing.items; calls = 0 };
          unopened = 0;
          faults = 0;
        } }
    {
        MemFiles {
            named: Named::new(files),
            most,
            failing,
            calls: 0,
            given: 0,
            unopened: 0,
            faults: 0,
        }
    }

    /// Whether the call that begins fails. It is counted.
    fn fails(&mut self) -> bool
        ensures fails { (result ≡ true) ↔ FailsNow self.old.script }
        ensures value { self.new ≡ record {
          named = self.old.named;
          given = self.old.given;
          script = next_call self.old.script;
          unopened = self.old.unopened;
          faults = self.old.faults;
        } }
    {
        let call = self.calls;
        self.calls = self.calls.saturating_add(1);
        self.failing.contains(&call)
    }
}

impl Files for MemFiles {
    ghost bytes = { λ s. bytes_named s.named.files };

    ghost left = { λ s. Some s.named.left };

    ghost given = { λ s. s.given };

    ghost unopened = { λ s. s.unopened };

    ghost faults = { λ s. s.faults };

    fn choose(&mut self, name: &str) -> Result<(), OpenError>
        ensures chosen { OnOk result (Keeps (bytes_named self.old.named.files name.now) (Some self.new.named.left)) }
        ensures none { OnErr result (Some self.new.named.left ≡ Some []) }
        ensures kept { bytes_named self.new.named.files ≡ bytes_named self.old.named.files }
        ensures gives_nothing { self.new.given ≡ self.old.given }
        ensures later { self.old.unopened ≤ self.new.unopened }
        ensures once { self.new.unopened ≤ self.old.unopened + 1 }
        ensures cause { IsErrOf result OpenError.Failed → Rose self.old.unopened self.new.unopened }
        ensures calm { (IsErrOf result OpenError.Failed → ⊥) → self.new.unopened ≡ self.old.unopened }
        ensures reads_nothing { self.new.faults ≡ self.old.faults }

        // It fails at the calls of its script, and where the name is empty or no file has it.
        ensures fails { IsErr result ↔ (FailsNow self.old.script ⊎ (name.now ≡ [])
            ⊎ IsNone (place_named self.old.named.files name.now)) }
        ensures script { self.new.script ≡ next_call self.old.script }
    {
        if self.fails() || name.is_empty() || !self.named.choose(name) {
            self.named.choose_none();
            self.unopened = self.unopened.saturating_add(1);
            return Err(OpenError::Failed);
        }
        Ok(())
    }

    fn read(&mut self, into: &mut [u8]) -> Result<usize, Failed>
        ensures bound { ReadsAtMost result into.new }
        ensures moved { ReadConsumes (Some self.old.named.left) (Some self.new.named.left) result into.new }
        ensures count { CountsMoved self.old.given self.new.given result }
        ensures kept { bytes_named self.new.named.files ≡ bytes_named self.old.named.files }
        ensures cause { HasCause self.old.faults self.new.faults result }
        ensures calm { OnOk result (self.new.faults ≡ self.old.faults) }
        ensures opens_nothing { self.new.unopened ≡ self.old.unopened }

        // It fails at the calls of its script, and else moves as much as it may.
        ensures fails { IsErr result ↔ FailsNow self.old.script }
        ensures much { IfOk result (λ n. n ≡ min (min (length into.old) self.old.script.most)
            (length self.old.named.left)) }
        ensures script { self.new.script ≡ next_call self.old.script }
    {
        if self.fails() {
            self.faults = self.faults.saturating_add(1);
            return Err(Failed);
        }
        let count = self.named.read(self.most, into);
        self.given = self.given.saturating_add(count as u64);
        Ok(count)
    }
}
