//! Sources that are loaded one after another.
ghost use Rattle.std.specs.Prelude.{◌≡◌, IfOk, IfErr, [], ◌∷◌};
ghost use Rattle.gf_frame.specs.Seen.{seen};
ghost use Rattle.gf_frame.specs.Loading.{IsLoaded, IsUnloaded, AreLoaded, AreUnloaded, HaveInput, HaveFile};
ghost use Rattle.gf_frame.specs.Origins.{origin_of, origins_of, texts_of};

use gf_front::Refusal;
use gf_outside::{Files, InputError, Source, load, read_all};
use std::alloc::Global;

/// Where a text comes from.
#[derive(Clone, Copy)]
pub enum LoadFrom<'a> {
    /// The input.
    Input,
    /// The file of this name.
    File(&'a str),
}

/// All bytes of the input, or of a file, no more than 67,108,864.
///
/// # Errors
///
/// - `ReadFault` only where a read of it failed; `OpenFault` only where the file isn't opened.
/// - `InputTooLong` exactly where one byte more than 67,108,864 was taken.
/// - `Memory` at any growth.
pub fn load_one<S: Source, F: Files>(
    alloc: Global,
    from: LoadFrom,
    input: &mut S,
    files: &mut F,
) -> Result<Vec<u8>, Refusal>
    ensures loaded { IfOk result (λ text. IsLoaded (origin_of from.entry)
        (seen (S.left input.old) (S.given input.old) (S.faults input.old) (F.bytes files.old) (F.left files.old) (F.given files.old) (F.unopened files.old)
        (F.faults files.old))
        (seen (S.left input.new) (S.given input.new) (S.faults input.new) (F.bytes files.new) (F.left files.new) (F.given files.new) (F.unopened files.new)
        (F.faults files.new))
        text.items) }
    ensures unloaded { IfErr result (IsUnloaded (origin_of from.entry)
        (seen (S.left input.old) (S.given input.old) (S.faults input.old) (F.bytes files.old) (F.left files.old) (F.given files.old) (F.unopened files.old)
        (F.faults files.old))
        (seen (S.left input.new) (S.given input.new) (S.faults input.new) (F.bytes files.new) (F.left files.new) (F.given files.new) (F.unopened files.new)
        (F.faults files.new))) }

    // Of a file the input is as before, and of the input files are.
    ensures input_kept { (HaveInput (origin_of from.entry ∷ []) → ⊥) → input.new ≡ input.old }
    ensures files_kept { (HaveFile (origin_of from.entry ∷ []) → ⊥) → files.new ≡ files.old }
{
    match from {
        LoadFrom::Input => match read_all(alloc, input) {
            Ok(text) => Ok(text),
            Err(InputError::ReadFault) => Err(Refusal::ReadFault),
            Err(InputError::InputTooLong) => Err(Refusal::InputTooLong),
            Err(InputError::OpenFault) => unreachable!(),
            Err(InputError::Memory) => Err(Refusal::Memory),
        },
        LoadFrom::File(name) => match load(alloc, files, name) {
            Ok(text) => Ok(text),
            Err(InputError::OpenFault) => Err(Refusal::OpenFault),
            Err(InputError::ReadFault) => Err(Refusal::ReadFault),
            Err(InputError::InputTooLong) => Err(Refusal::InputTooLong),
            Err(InputError::Memory) => Err(Refusal::Memory),
        },
    }
}

/// The texts of all of these, loaded one after another, each of them whole before the next.
///
/// # Errors
///
/// Those of the first that isn't loaded; `Memory` at any growth.
pub fn load_all<S: Source, F: Files>(
    alloc: Global,
    sources: &[LoadFrom],
    input: &mut S,
    files: &mut F,
) -> Result<Vec<Vec<u8>>, Refusal>
    ensures loaded { IfOk result (λ texts. AreLoaded (origins_of sources.now)
        (seen (S.left input.old) (S.given input.old) (S.faults input.old) (F.bytes files.old) (F.left files.old) (F.given files.old) (F.unopened files.old)
        (F.faults files.old))
        (seen (S.left input.new) (S.given input.new) (S.faults input.new) (F.bytes files.new) (F.left files.new) (F.given files.new) (F.unopened files.new)
        (F.faults files.new))
        (texts_of texts.items)) }
    ensures unloaded { IfErr result (AreUnloaded (origins_of sources.now)
        (seen (S.left input.old) (S.given input.old) (S.faults input.old) (F.bytes files.old) (F.left files.old) (F.given files.old) (F.unopened files.old)
        (F.faults files.old))
        (seen (S.left input.new) (S.given input.new) (S.faults input.new) (F.bytes files.new) (F.left files.new) (F.given files.new) (F.unopened files.new)
        (F.faults files.new))) }

    // What isn't among them is as before.
    ensures input_kept { (HaveInput (origins_of sources.now) → ⊥) → input.new ≡ input.old }
    ensures files_kept { (HaveFile (origins_of sources.now) → ⊥) → files.new ≡ files.old }
{
    let mut texts = Vec::new(alloc);
    for from in sources {
        let text = load_one(alloc, *from, input, files)?;
        if texts.push(text).is_err() {
            return Err(Refusal::Memory);
        }
    }
    Ok(texts)
}
