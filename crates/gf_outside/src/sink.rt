//! Sinks of bytes, and the writing of a whole piece.
//!
//! What a sink holds is known only where the sink tells it.
ghost use Rattle.std.specs.Prelude.{◌≡◌, ◌⊎◌, ◌≤◌, ◌<◌, ◌+◌, List, ℕ, length, IfOk, OnOk, OnErr, Ok};
ghost use Rattle.std.specs.declared.option.Option.{Option};
ghost use Rattle.std.specs.Io.{WritesAtMost};
ghost use Rattle.std.specs.Io.KnownBytes.{WriteAppends, Appends};
ghost use Rattle.gf_outside.specs.Faults.{HasCause, Rose};
ghost use Rattle.gf_outside.specs.Moved.{AppendsPrefix};

use crate::{Failed, WriteFault};

/// What takes bytes, and counts its faults.
pub trait Sink {
    /// The bytes that were written so far, where the sink tells them.
    ghost held: { Self → Option (List ℕ) };

    /// How many of its writes have failed, or have taken nothing of a piece that isn't empty, up to
    /// the last value of a `u64`.
    ghost faults: { Self → ℕ };

    /// Takes bytes from the front of `piece`, and answers how many.
    ///
    /// # Errors
    ///
    /// `Failed` only where the count of faults rose; nothing was taken then. The count rises nowhere
    /// else, but where nothing is taken of a piece that isn't empty.
    fn write(&mut self, piece: &[u8]) -> Result<usize, Failed>
        ensures bound { WritesAtMost result piece.now }
        ensures bytes { WriteAppends (held self.old) (held self.new) result piece.now }
        ensures cause { HasCause (faults self.old) (faults self.new) result }

        // Nothing of a piece that isn't empty is a fault too, and no other answer is one.
        ensures stuck { result ≡ Ok 0 → 0 < length piece.now
            → Rose (faults self.old) (faults self.new) }
        ensures calm { IfOk result (λ n. (0 < n) ⊎ (length piece.now ≡ 0)
            → faults self.new ≡ faults self.old) };
}

/// Writes all of `piece`: after a short write the rest is offered. It takes no memory.
///
/// # Errors
///
/// `WriteFault` only where the sink's count of faults rose; what was taken is a prefix of the piece.
pub fn write_all<K: Sink>(sink: &mut K, piece: &[u8]) -> Result<(), WriteFault>
    ensures all { OnOk result (Appends (K.held sink.old) (K.held sink.new) piece.now) }
    ensures part { AppendsPrefix (K.held sink.old) (K.held sink.new) piece.now }
    ensures fault { OnErr result (Rose (K.faults sink.old) (K.faults sink.new)) }
    ensures later { K.faults sink.old ≤ K.faults sink.new }

    // The count rises by one at a fault, and stands still where all is written.
    ensures once { K.faults sink.new ≤ K.faults sink.old + 1 }
    ensures calm { OnOk result (K.faults sink.new ≡ K.faults sink.old) }
{
    let mut done = 0;
    while done < piece.len() {
        let Ok(count) = sink.write(&piece[done..]) else {
            return Err(WriteFault);
        };
        if count == 0 {
            return Err(WriteFault);
        }
        done += count;
    }
    Ok(())
}
