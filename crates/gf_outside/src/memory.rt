//! A source and a sink in memory that move a few bytes a call and fail at given calls; and a list of bytes as a sink.
//!
//! Calls are counted from 0, the failing ones too.
ghost use Rattle.std.specs.Prelude.{◌≡◌, ◌⊎◌, ◌≤◌, ◌<◌, ◌↔◌, ◌-◌, ◌^◌, [], length, min, Ok, Some, IsErr, IfOk, OnOk};
ghost use Rattle.std.specs.Io.{ReadsAtMost, WritesAtMost};
ghost use Rattle.std.specs.Io.KnownBytes.{ReadConsumes, WriteAppends};
ghost use Rattle.gf_outside.specs.Faults.{HasCause, Rose};
ghost use Rattle.gf_outside.specs.Moved.{CountsMoved};
ghost use Rattle.gf_outside.specs.Memory.{next_call, FailsNow};

use crate::{Failed, Sink, Source};
use std::alloc::Global;
use std::marker::Model;

/// A source over bytes in memory.
#[derive(Drop)]
pub struct MemSource {
    bytes: Vec<u8>,
    at: usize,
    most: usize,
    failing: Vec<u64>,
    calls: u64,
    faults: u64,
}

impl Model for MemSource {
    ghost use Rattle.std.specs.Prelude.{◌≤◌, length, drop};
    ghost use Rattle.gf_outside.specs.Memory.{SourceInMemory};

    ghost Value = { SourceInMemory };

    ghost view = { λ s. record {
      left = drop s.at s.bytes.items;
      given = s.at;
      script = record { most = s.most; failing = s.failing.items; calls = s.calls };
      faults = s.faults;
    } };

    ghost invariant = { λ s. (1 ≤ s.most) × (s.at ≤ length s.bytes.items) };
}

impl MemSource {
    /// A source of `bytes` that gives at most `most` of them a call; the calls whose numbers are in
    /// `failing`, counted from 0, fail.
    pub fn new(bytes: Vec<u8>, most: usize, failing: Vec<u64>) -> MemSource
        requires { 1 ≤ most }
        ensures { result ≡ record {
          left = bytes.items;
          given = 0;
          script = record { most = most; failing = failing.items; calls = 0 };
          faults = 0;
        } }
    {
        MemSource {
            bytes,
            at: 0,
            most,
            failing,
            calls: 0,
            faults: 0,
        }
    }
}

impl Source for MemSource {
    ghost left = { λ s. Some s.left };

    ghost given = { λ s. s.given };

    ghost faults = { λ s. s.faults };

    fn read(&mut self, into: &mut [u8]) -> Result<usize, Failed>
        ensures bound { ReadsAtMost result into.new }
        ensures bytes { ReadConsumes (Some self.old.left) (Some self.new.left) result into.new }
        ensures count { CountsMoved self.old.given self.new.given result }
        ensures cause { HasCause self.old.faults self.new.faults result }
        ensures calm { OnOk result (self.new.faults ≡ self.old.faults) }

        // It fails at the calls of its script, and else moves as much as it may.
        ensures fails { IsErr result ↔ FailsNow self.old.script }
        ensures moves { IfOk result (λ n. n
            ≡ min (min (length into.old) self.old.script.most) (length self.old.left)) }
        ensures script { self.new.script ≡ next_call self.old.script }
    {
        let call = self.calls;
        self.calls = self.calls.saturating_add(1);
        if self.failing.contains(&call) {
            self.faults = self.faults.saturating_add(1);
            return Err(Failed);
        }
        let at = self.at;
        let count = into.len().min(self.most).min(self.bytes.len() - at);
        into[..count].copy_from_slice(&self.bytes[at..at + count]);
        self.at = at + count;
        Ok(count)
    }
}

/// A sink that keeps its bytes. Want of memory is a failed write.
#[derive(Drop)]
pub struct MemSink {
    bytes: Vec<u8>,
    most: usize,
    failing: Vec<u64>,
    calls: u64,
    faults: u64,
}

impl Model for MemSink {
    ghost use Rattle.gf_outside.specs.Memory.{SinkInMemory};

    ghost Value = { SinkInMemory };

    ghost view = { λ s. record {
      held = s.bytes.items;
      script = record { most = s.most; failing = s.failing.items; calls = s.calls };
      faults = s.faults;
    } };
}

impl MemSink {
    /// An empty sink that takes at most `most` bytes a call; the calls whose numbers are in
    /// `failing`, counted from 0, fail.
    pub fn new(alloc: Global, most: usize, failing: Vec<u64>) -> MemSink
        ensures { result ≡ record {
          held = [];
          script = record { most = most; failing = failing.items; calls = 0 };
          faults = 0;
        } }
    {
        MemSink {
            bytes: Vec::new(alloc),
            most,
            failing,
            calls: 0,
            faults: 0,
        }
    }

    /// The bytes that were written so far.
    pub fn bytes(&self) -> &[u8]
        ensures { result.now ≡ self.now.held }
    {
        &self.bytes
    }
}

impl Sink for MemSink {
    ghost held = { λ s. Some s.held };

    ghost faults = { λ s. s.faults };

    fn write(&mut self, piece: &[u8]) -> Result<usize, Failed>
        ensures bound { WritesAtMost result piece.now }
        ensures bytes { WriteAppends (Some self.old.held) (Some self.new.held) result piece.now }
        ensures cause { HasCause self.old.faults self.new.faults result }
        ensures stuck { result ≡ Ok 0 → 0 < length piece.now → Rose self.old.faults self.new.faults }
        ensures calm { IfOk result (λ n. (0 < n) ⊎ (length piece.now ≡ 0)
            → self.new.faults ≡ self.old.faults) }

        // It fails at the calls of its script, and else, memory aside, moves as much as it may.
        ensures fails { FailsNow self.old.script → IsErr result }
        ensures moves { IfOk result (λ n. n ≡ min (length piece.now) self.old.script.most) }
        ensures script { self.new.script ≡ next_call self.old.script }
    {
        let call = self.calls;
        self.calls = self.calls.saturating_add(1);
        let count = piece.len().min(self.most);
        if self.failing.contains(&call) || self.bytes.extend_from_slice(&piece[..count]).is_err() {
            self.faults = self.faults.saturating_add(1);
            return Err(Failed);
        }
        if count == 0 && !piece.is_empty() {
            self.faults = self.faults.saturating_add(1);
        }
        Ok(count)
    }
}

/// A list of bytes keeps what is written behind what it holds. A write fails for want of memory alone, which isn't
/// counted: the count stands at its last value from the beginning.
impl Sink for Vec<u8> {
    ghost held = { λ s. Some s.items };

    ghost faults = { λ s. 2 ^ 64 - 1 };

    fn write(&mut self, piece: &[u8]) -> Result<usize, Failed> {
        match self.extend_from_slice(piece) {
            Ok(()) => Ok(piece.len()),
            Err(_) => Err(Failed),
        }
    }
}
