//! The writing of vectors, to any sink.
ghost use Rattle.std.specs.Prelude.{◌++◌, ◌∷◌, flat_map};
ghost use Rattle.gf_text.specs.Told.{Told};
ghost use Rattle.gf_text.specs.VectorText.{entry_text, entries_text, vector_text};

use crate::term_printer::{write_text, write_whole};
use gf_outside::{Sink, WriteFault};
use gf_vec::IntVec;

/// Writes an entry of a vector, with this text before it.
pub(crate) fn write_entry<E: Sink>(
    sink: &mut E,
    before: &str,
    entry: &i128,
) -> Result<(), WriteFault>
    ensures { Told (E.held sink.old) (E.held sink.new) (E.faults sink.old) (E.faults sink.new)
        (before.now ++ entry_text entry.now) result }
{
    let value = *entry;
    write_text(sink, before)?;
    write_whole(sink, value)
}

/// Writes the entries behind the first, each with a comma before it.
fn write_later_entries<E: Sink>(sink: &mut E, entries: &[i128]) -> Result<(), WriteFault>
    ensures { Told (E.held sink.old) (E.held sink.new) (E.faults sink.old) (E.faults sink.new)
        (flat_map (λ x. 44 ∷ entry_text x) entries.now) result }
{
    for entry in entries {
        write_entry(sink, ",", entry)?;
    }
    Ok(())
}

/// Writes entries joined by commas.
fn write_entries<E: Sink>(sink: &mut E, entries: &[i128]) -> Result<(), WriteFault>
    ensures { Told (E.held sink.old) (E.held sink.new) (E.faults sink.old) (E.faults sink.new)
        (entries_text entries.now) result }
{
    let [first, rest @ ..] = entries else {
        return Ok(());
    };
    write_entry(sink, "", first)?;
    write_later_entries(sink, rest)
}

/// Writes a vector: its entries joined by commas, between parentheses.
///
/// # Errors
/// `WriteFault` only where the sink counted one more fault; what was written is a prefix of the text then.
pub fn write_vector<E: Sink>(sink: &mut E, vector: &IntVec) -> Result<(), WriteFault>
    ensures { Told (E.held sink.old) (E.held sink.new) (E.faults sink.old) (E.faults sink.new)
        (vector_text vector.now) result }
{
    write_text(sink, "(")?;
    write_entries(sink, vector.as_slice())?;
    write_text(sink, ")")
}
