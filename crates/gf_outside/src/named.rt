//! Files in memory by their names, of which one may be chosen.
ghost use Rattle.std.specs.Prelude.{◌≡◌, ◌≤◌, ◌<◌, ◌++◌, [], length, min, take, drop, is_some, IfSome};
ghost use Rattle.gf_outside.specs.Memory.{place_named, bytes_or_none};

use std::marker::Model;

/// A file in memory.
#[derive(Drop)]
pub struct MemFile {
    pub name: String,
    pub bytes: Vec<u8>,
}

impl Model for MemFile {
    ghost use Rattle.std.specs.Prelude.{string_bytes};
    ghost use Rattle.gf_outside.specs.Memory.{FileInMemory};

    ghost Value = { FileInMemory };

    ghost view = { λ f. record { name = string_bytes f.name; bytes = f.bytes.items } };
}

/// The place of the first file of this name.
fn place_named(files: &[MemFile], name: &str) -> Option<usize>
    ensures place { result ≡ place_named files.now name.now }
    ensures within { IfSome result (λ i. i < length files.now) }
{
    files.iter().position(|file| file.name.as_str() == name)
}

/// Files, of which one may be chosen and read up to a place.
#[derive(Drop)]
pub(crate) struct Named {
    files: Vec<MemFile>,
    chosen: Option<usize>,
    at: usize,
}

impl Model for Named {
    ghost use Rattle.std.specs.Prelude.{◌≤◌, ◌<◌, length, drop, IfSome};
    ghost use Rattle.gf_outside.specs.Memory.{NamedFiles, bytes_at};

    ghost Value = { NamedFiles };

    ghost view = { λ s. record {
      files = s.files.items;
      left = drop s.at (bytes_at s.files.items s.chosen);
    } };

    ghost invariant = { λ s. IfSome s.chosen (λ i. i < length s.files.items)
        × (s.at ≤ length (bytes_at s.files.items s.chosen)) };
}

impl Named {
    /// These files, none of them chosen.
    pub(crate) fn new(files: Vec<MemFile>) -> Named
        ensures { result ≡ record { files = files.items; left = [] } }
    {
        Named {
            files,
            chosen: None,
            at: 0,
        }
    }

    /// Chooses the first file of this name; whether there is one. Where there is none, none is chosen.
    pub(crate) fn choose(&mut self, name: &str) -> bool
        ensures found { result ≡ is_some (place_named self.old.files name.now) }
        ensures value { self.new ≡ record {
          files = self.old.files;
          left = bytes_or_none self.old.files name.now;
        } }
    {
        self.chosen = place_named(&self.files, name);
        self.at = 0;
        self.chosen.is_some()
    }

    /// Chooses no file.
    pub(crate) fn choose_none(&mut self)
        ensures { self.new ≡ record { files = self.old.files; left = [] } }
    {
        self.chosen = None;
        self.at = 0;
    }

    /// Gives bytes of the chosen file at the front of `into`, as many as there is room for, but at most `most`.
    pub(crate) fn read(&mut self, most: usize, into: &mut [u8]) -> usize
        ensures count { result ≡ min (min (length into.old) most) (length self.old.left) }
        ensures length { length into.new ≡ length into.old }
        ensures files { self.new.files ≡ self.old.files }
        ensures left { self.old.left ≡ take result into.new ++ self.new.left }
    {
        let Some(place) = self.chosen else {
            return 0;
        };
        let left = &self.files[place].bytes[self.at..];
        let count = copy_front(left, most, into);
        self.at += count;
        count
    }
}

/// Copies bytes from the front of `left` to that of `into`, as many as there is room for, but at most `most`; how many.
fn copy_front(left: &[u8], most: usize, into: &mut [u8]) -> usize
    ensures count { result ≡ min (min (length into.old) most) (length left.now) }
    ensures length { length into.new ≡ length into.old }
    ensures copied { take result into.new ≡ take result left.now }
{
    let count = into.len().min(most).min(left.len());
    into[..count].copy_from_slice(&left[..count]);
    count
}
