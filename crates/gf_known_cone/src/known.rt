//! A cone that remembers what was found out about its normals.
ghost use Rattle.std.specs.Prelude.{◌≡◌, ◌↔◌, ◌<◌, ℕ, [], ◌∷◌, length, slice_index_or, All, IsTrue, IfOk, IfSome};
ghost use Rattle.gf_gordan.specs.Alternative.{AreRows, IsSolution};
ghost use Rattle.gf_cone.specs.Small.{IsSmall};
ghost use Rattle.gf_cone.specs.Cones.{normal_at, other_rows, HasRowsOf};
ghost use Rattle.gf_cone.specs.Crossing.{IsCrossable};
ghost use Rattle.gf_known_cone.specs.Remembered.{IsRemembered};

use crate::near::{inside_near, values_of};
use crate::sums::{Keys, keys_of};
use gf_cone::checks::shows;
use gf_cone::{Cone, Region, SpareVectors};
use gf_vec::IntVec;
use std::alloc::{AllocError, Global};
use std::marker::Model;

/// What is known of a normal: nothing, a vector that shows that a flip may cross its facet, or that none may.
#[derive(Drop)]
pub(crate) enum Known {
    Open,
    Yes(IntVec),
    No,
}

/// What speeds up the search. Nothing that is told rests on it.
#[derive(Drop)]
pub(crate) struct Hints {
    pub(crate) inner: Option<IntVec>,
    pub(crate) values: Vec<i64>,
    pub(crate) keys: Keys,
}

/// A cone, and what was found out about its normals: nothing is worked out twice.
#[derive(Drop)]
pub struct KnownCone {
    pub(crate) alloc: Global,
    pub(crate) cone: Cone,
    pub(crate) known: Vec<Known>,
    pub(crate) hints: Hints,
}

impl Model for KnownCone {
    ghost use Rattle.gf_cone.specs.Cones.{ConeRows};
    ghost use Rattle.gf_known_cone.specs.Remembered.{AreRemembered};

    ghost Value = { ConeRows };

    ghost view = { λ c. c.cone };

    ghost invariant = { λ c. AreRemembered c.cone c.known.items };
}

/// What speeds up the search in a cone, by an inner vector.
///
/// # Errors
/// Want of memory.
fn hints_of(alloc: Global, cone: &Cone, inner: Option<IntVec>) -> Result<Hints, AllocError> {
    let keys = keys_of(alloc, cone)?;
    let values = match &inner {
        Some(point) => values_of(alloc, cone, point)?,
        None => None,
    };
    let values = match values {
        Some(values) => values,
        None => Vec::new(alloc),
    };
    Ok(Hints {
        inner,
        values,
        keys,
    })
}

/// So many open entries.
///
/// # Errors
/// Want of memory.
fn open_entries(alloc: Global, count: usize) -> Result<Vec<Known>, AllocError>
    ensures { IfOk result (λ known. (length known.items ≡ count) × ((i : ℕ) (d : Known) → i < count → slice_index_or known.items i d ≡ Known.Open)) }
{
    let mut known = Vec::with_capacity(alloc, count)?;
    'indices: for _i in 0..count {
        known.push(Known::Open)?;
    }
    Ok(known)
}

impl KnownCone {
    /// A cone of which nothing is known yet. A vector on which all its normals and the unit vectors are positive makes it
    /// fast; any other one is safe, too.
    ///
    /// # Errors
    /// Want of memory.
    pub fn new(alloc: Global, cone: Cone, inner: Option<IntVec>) -> Result<KnownCone, AllocError>
        ensures { IfOk result (λ k. k ≡ cone) }
    {
        let hints = hints_of(alloc, &cone, inner)?;
        let known = open_entries(alloc, cone.normals().len())?;
        Ok(KnownCone {
            alloc,
            cone,
            known,
            hints,
        })
    }

    /// A cone of which nothing is known yet but what a vector inside a facet shows that it shares with a neighbour, whose normal there is `normal`. A vector
    /// of the inside is looked for near it, as `interior_near` does; any other one is safe, too.
    ///
    /// # Errors
    /// Want of memory.
    pub fn near(
        alloc: Global,
        cone: Cone,
        witness: &IntVec,
        normal: &IntVec,
    ) -> Result<KnownCone, AllocError>
        ensures { IfOk result (λ k. k ≡ cone) }
    {
        let inside = inside_near(alloc, &cone, witness, normal)?;
        let keys = keys_of(alloc, &cone)?;
        let known = open_entries(alloc, cone.normals().len())?;
        let mut made = KnownCone {
            alloc,
            cone,
            known,
            hints: Hints {
                inner: inside.inner,
                values: inside.values,
                keys,
            },
        };
        if let Some(index) = inside.shown {
            let copy = witness.copy()?;
            made.set(index, Known::Yes(copy));
        }
        Ok(made)
    }

    /// Leaves the memory of the normals.
    pub fn leave(self, spare: &mut SpareVectors) {
        self.cone.leave(spare);
    }

    /// The cone.
    pub fn cone(&self) -> &Cone
        ensures { result.now ≡ self.now }
    {
        &self.cone
    }

    /// Whether the region that the cone was made in has the same rows as another one.
    pub fn is_within(&self, region: &Region) -> bool
        ensures { IsTrue result → HasRowsOf region.now self.now }
    {
        self.cone.is_within(region)
    }

    /// The normals: primitive vectors, each once, ascending by the first entry that differs. Their entries are below 2^31
    /// in absolute value.
    pub fn normals(&self) -> &[IntVec]
        ensures value { result.now ≡ self.now.normals }
        ensures widths { AreRows self.now.variables result.now }
        ensures small { All IsSmall result.now }
    {
        self.cone.normals()
    }

    /// The number of variables.
    pub(crate) fn variables(&self) -> u32
        ensures { result ≡ self.now.variables }
    {
        self.cone.variables()
    }

    /// Writes what is known of a normal.
    pub(crate) fn set(&mut self, index: usize, known: Known)
        requires index { index < length self.old.normals }
        requires truth { IsRemembered self.old index known }
        ensures { self.new ≡ self.old }
    {
        self.known[index] = known;
    }

    /// What is known of a normal.
    pub(crate) fn told(&self, index: usize) -> Option<bool>
        requires { index < length self.now.normals }
        ensures { IfSome result (λ r. IsTrue r ↔ IsCrossable self.now index) }
    {
        match &self.known[index] {
            Known::Open => None,
            Known::Yes(_witness) => Some(true),
            Known::No => Some(false),
        }
    }

    /// The vector that shows that a flip may cross the facet of the normal at an index, if one was found: it is positive,
    /// zero on the normal, and positive on all other normals.
    pub fn witness(&self, index: usize) -> Option<&IntVec>
        requires { index < length self.now.normals }
        ensures { IfSome result (λ w. IsSolution self.now.variables (other_rows self.now index) (normal_at self.now index ∷ []) w.now) }
    {
        match &self.known[index] {
            Known::Yes(witness) => Some(witness),
            _ => None,
        }
    }

    /// Whether a vector is seen to be zero on the normal at an index and positive on all other rows.
    pub(crate) fn is_shown_by(&self, index: usize, witness: &IntVec) -> bool
        requires { index < length self.now.normals }
        ensures { IsTrue result → IsSolution self.now.variables (other_rows self.now index) (normal_at self.now index ∷ []) witness.now }
    {
        let entries = witness.as_slice();
        if entries.len() != self.variables() as usize {
            return false;
        }
        shows(&self.cone, index, entries)
    }

    /// Remembers a vector that shows that a flip may cross the facet of the normal at an index; one that doesn't is dropped, and so is one of a normal of which
    /// it is known already.
    pub fn learn(&mut self, index: usize, witness: IntVec)
        requires { index < length self.old.normals }
        ensures { self.new ≡ self.old }
    {
        if let None = self.told(index)
            && self.is_shown_by(index, &witness)
        {
            self.set(index, Known::Yes(witness));
        }
    }
}
