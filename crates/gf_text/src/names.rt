//! The names of a ring's variables.
ghost use Rattle.std.specs.Prelude.{◌≡◌, ◌++◌, ◌∷◌, ◌<◌, ◌≤◌, [], false, true, IfOk, IfSome, OnOk, drop, length, nat_eq, not, slice_get};
ghost use Rattle.std.specs.Prelude.{if◌then◌else◌};
ghost use Rattle.std.specs.List.{starts_with};
ghost use Rattle.gf_text.specs.Fronts.{IsFound};
ghost use Rattle.gf_text.specs.RingText.{is_name, has, IsRing};
ghost use Rattle.gf_text.specs.SetText.{variable};
ghost use Rattle.gf_text.specs.declared.TheConstants.{MOST_VARIABLES};

use crate::fronts::{Found, front_at, table_of};
use indexmap::IndexSet;
use std::alloc::{AllocError, Global};
use std::marker::Model;

/// A name, seen as its bytes. A long one has a table by which it is looked for in a source.
#[derive(Drop)]
pub struct Name {
    bytes: Vec<u8>,
    table: Vec<usize>,
}

impl Model for Name {
    ghost use Rattle.std.specs.Prelude.{List, ℕ};
    ghost use Rattle.gf_text.specs.Fronts.{IsTable};

    ghost Value = { List ℕ };

    ghost view = { λ n. n.bytes.items };

    ghost invariant = { λ n. IsTable n.bytes.items n.table.items };
}

impl Name {
    /// The name with these bytes.
    fn from_slice(alloc: Global, bytes: &[u8]) -> Result<Name, AllocError>
        ensures { IfOk result (λ n. n ≡ bytes.now) }
    {
        let table = table_of(alloc, bytes)?;
        Ok(Name {
            bytes: Vec::from_slice(alloc, bytes)?,
            table,
        })
    }

    /// Its bytes.
    pub(crate) fn as_slice(&self) -> &[u8]
        ensures { result.now ≡ self.now }
    {
        self.bytes.as_slice()
    }

    /// Whether the source has the name at this place; what was found of it before tells of other places.
    pub(crate) fn stands_at(&self, source: &[u8], at: usize, found: &mut Found) -> bool
        requires within { at ≤ length source.now }
        requires known { IsFound self.now source.now found.old }
        ensures value { result ≡ starts_with nat_eq (drop at source.now) self.now }
        ensures known { IsFound self.now source.now found.new }
    {
        let name = self.bytes.as_slice();
        if self.table.is_empty() {
            return source[at..].starts_with(name);
        }
        front_at(name, self.table.as_slice(), source, at, found) == name.len()
    }
}

/// Different names, seen as the list of them, in the order in which they were added.
#[derive(Drop)]
pub struct DifferentNames {
    items: IndexSet<Vec<u8>>,
}

impl Model for DifferentNames {
    ghost use Rattle.std.specs.Prelude.{List, ℕ, map};

    ghost Value = { List (List ℕ) };

    ghost view = { λ n. map (λ v. v.items) n.items.keys };
}

impl DifferentNames {
    /// No names.
    pub fn new(alloc: Global) -> DifferentNames
        ensures { result ≡ [] }
    {
        DifferentNames {
            items: IndexSet::new(alloc),
        }
    }

    /// Adds a name as the last one, unless it is there already; whether it was new.
    ///
    /// # Errors
    /// `AllocError` if memory runs out.
    pub fn insert(&mut self, alloc: Global, name: &[u8]) -> Result<bool, AllocError>
        ensures new { IfOk result (λ new. new ≡ not (has self.old name.now)) }
        ensures names { OnOk result (self.new ≡ (if has self.old name.now then self.old else self.old ++ name.now ∷ [])) }
    {
        let name = Vec::from_slice(alloc, name)?;
        Ok(self.items.insert(name)?)
    }

    /// How many names.
    pub(crate) fn len(&self) -> usize
        ensures { result ≡ length self.now }
    {
        self.items.len()
    }

    /// The names, copied.
    pub(crate) fn copied(&self, alloc: Global) -> Result<Vec<Name>, AllocError>
        ensures { IfOk result (λ names. names.items ≡ self.now) }
    {
        let mut names = Vec::with_capacity(alloc, self.items.len())?;
        for name in self.items.as_slice() {
            names.push(Name::from_slice(alloc, name)?)?;
        }
        Ok(names)
    }
}

/// A ring of polynomials, seen as the list of the names of its variables.
#[derive(Drop)]
pub struct Ring {
    names: Vec<Name>,
}

impl Model for Ring {
    ghost use Rattle.std.specs.Prelude.{List, ℕ};
    ghost use Rattle.gf_text.specs.RingText.{IsRing};

    ghost Value = { List (List ℕ) };

    ghost view = { λ r. r.names.items };

    ghost invariant = { λ r. IsRing r.names.items };
}

impl Ring {
    /// The ring of these variables.
    pub(crate) fn of(names: Vec<Name>) -> Ring
        requires { IsRing names.items }
        ensures { result ≡ names.items }
    {
        Ring { names }
    }

    /// How many variables it has: 1 to `MOST_VARIABLES`.
    pub fn len(&self) -> u32
        ensures value { result ≡ length self.now }
        ensures some { 0 < result }
        ensures few { result ≤ MOST_VARIABLES }
    {
        self.names.len() as u32
    }

    /// Its names.
    pub(crate) fn names(&self) -> &[Name]
        ensures value { result.now ≡ self.now }
        ensures ring { IsRing self.now }
    {
        self.names.as_slice()
    }

    /// The name of variable i, counted from 0.
    pub fn name(&self, i: usize) -> &[u8]
        requires { i < length self.now }
        ensures { slice_get self.now i ≡ Some result.now }
    {
        self.names[i].as_slice()
    }

    /// Whether one of its variables has this name.
    pub(crate) fn has(&self, name: &[u8]) -> bool
        ensures { result ≡ has self.now name.now }
    {
        self.names().iter().any(|n| n.as_slice() == name)
    }

    /// The ring with a variable of this name behind its own. The name is a new one, and the ring has fewer than
    /// `MOST_VARIABLES` variables.
    ///
    /// # Errors
    /// Where memory runs out.
    pub fn extended(&self, alloc: Global, name: &[u8]) -> Result<Ring, AllocError>
        requires named { is_name name.now ≡ true }
        requires new { has self.now name.now ≡ false }
        requires room { length self.now < MOST_VARIABLES }
        ensures { IfOk result (λ ring. ring ≡ self.now ++ name.now ∷ []) }
    {
        let mut names = copied(alloc, self.names())?;
        names.push(Name::from_slice(alloc, name)?)?;
        Ok(Ring::of(names))
    }

    /// The number of the variable of this name.
    pub(crate) fn variable(&self, name: &[u8]) -> Option<u8>
        ensures { result ≡ variable self.now name.now }
    {
        place_of(self.names(), name).map(|i| i as u8)
    }
}

/// These names, copied.
fn copied(alloc: Global, names: &[Name]) -> Result<Vec<Name>, AllocError>
    ensures { IfOk result (λ all. all.items ≡ names.now) }
{
    let mut all = Vec::new(alloc);
    for name in names {
        all.push(Name::from_slice(alloc, name.as_slice())?)?;
    }
    Ok(all)
}

/// The place of the name among names.
fn place_of(names: &[Name], name: &[u8]) -> Option<usize>
    ensures place { result ≡ variable names.now name.now }
    ensures within { IfSome result (λ i. i < length names.now) }
{
    names.iter().position(|n| n.as_slice() == name)
}
