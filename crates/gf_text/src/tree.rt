//! What the text of a set says, before like terms are added: polynomials of terms, each a sign, a number and powers.
ghost use Rattle.std.specs.Prelude.{◌≡◌, ◌++◌, ◌∷◌, [], OnOk, MatchOption};

use smallvec::SmallVec;
use std::alloc::{AllocError, Global};
use std::marker::Model;
use std::mem;

/// A power of a variable, as it is written: the variable's number and the exponent.
#[derive(Clone, Copy, Default)]
pub struct Factor {
    pub variable: u8,
    pub exponent: u32,
}

/// How many powers of a term are kept without an allocation.
const ROOM: usize = 3;

/// Powers of variables, one after another.
#[derive(Drop)]
pub struct Factors {
    items: SmallVec<Factor, ROOM>,
}

impl Model for Factors {
    ghost use Rattle.std.specs.Prelude.{List};
    ghost use Rattle.gf_text.specs.declared.tree.Factor.{Factor};

    ghost Value = { List Factor };

    ghost view = { λ f. f.items.items };
}

impl Factors {
    /// No powers.
    pub fn new(alloc: Global) -> Factors
        ensures { result ≡ [] }
    {
        Factors {
            items: SmallVec::new(alloc),
        }
    }

    /// Adds a power as the last one.
    ///
    /// # Errors
    /// `AllocError` if memory runs out.
    pub fn push(&mut self, factor: Factor) -> Result<(), AllocError>
        ensures { OnOk result (self.new ≡ self.old ++ factor ∷ []) }
    {
        self.items.push(factor)?;
        Ok(())
    }

    /// The powers, one after another.
    pub fn as_slice(&self) -> &[Factor]
        ensures { result.now ≡ self.now }
    {
        self.items.as_slice()
    }
}

/// A term as it is written: a sign, the rational number `numer/denom` (1 where none is written), and powers of
/// variables, each where it stands.
#[derive(Drop)]
pub struct WrittenTerm {
    pub numer: u128,
    pub denom: u128,
    pub factors: Factors,
    pub minus: bool,
}

/// The terms of a polynomial, as they are written.
#[derive(Drop)]
pub struct WrittenTerms {
    items: Vec<WrittenTerm>,
}

impl Model for WrittenTerms {
    ghost use Rattle.std.specs.Prelude.{List};
    ghost use Rattle.gf_text.specs.declared.tree.WrittenTerm.{WrittenTerm};

    ghost Value = { List WrittenTerm };

    ghost view = { λ t. t.items.items };
}

impl WrittenTerms {
    /// No terms.
    pub fn new(alloc: Global) -> WrittenTerms
        ensures { result ≡ [] }
    {
        WrittenTerms {
            items: Vec::new(alloc),
        }
    }

    /// Adds a term as the last one.
    ///
    /// # Errors
    /// `AllocError` if memory runs out.
    pub fn push(&mut self, term: WrittenTerm) -> Result<(), AllocError>
        ensures { OnOk result (self.new ≡ self.old ++ term ∷ []) }
    {
        self.items.push(term)?;
        Ok(())
    }

    /// Forgets all terms; their room stays.
    pub fn clear(&mut self)
        ensures { self.new ≡ [] }
    {
        self.items.clear();
    }

    /// The terms, one after another.
    pub fn as_slice(&self) -> &[WrittenTerm]
        ensures { result.now ≡ self.now }
    {
        self.items.as_slice()
    }
}

/// The polynomials of a set that are read and not added yet, as they are written: one at most.
#[derive(Drop)]
pub struct WrittenSet {
    terms: WrittenTerms,
    is_read: bool,
}

impl Model for WrittenSet {
    ghost use Rattle.std.specs.Prelude.{List, [], ◌∷◌, if◌then◌else◌};
    ghost use Rattle.gf_text.specs.declared.tree.WrittenTerm.{WrittenTerm};

    ghost Value = { List (List WrittenTerm) };

    ghost view = { λ p. if p.is_read then p.terms ∷ [] else [] };
}

impl WrittenSet {
    /// No polynomials.
    pub fn new(alloc: Global) -> WrittenSet
        ensures { result ≡ [] }
    {
        WrittenSet {
            terms: WrittenTerms::new(alloc),
            is_read: false,
        }
    }

    /// Takes the terms of a polynomial and its last one, and leaves none. The room of the polynomial before goes to the
    /// next one.
    pub(crate) fn take_with(
        &mut self,
        terms: &mut WrittenTerms,
        last: WrittenTerm,
    ) -> Result<(), AllocError>
        requires { self.old ≡ [] }
        ensures taken { OnOk result (self.new ≡ (terms.old ++ last ∷ []) ∷ []) }
        ensures left { terms.new ≡ [] }
    {
        mem::swap(&mut self.terms, terms);
        terms.clear();
        self.terms.push(last)?;
        self.is_read = true;
        Ok(())
    }

    /// The polynomial, where there is one.
    pub fn last(&self) -> Option<&WrittenTerms>
        ensures { MatchOption result (self.now ≡ []) (λ terms. self.now ≡ terms.now ∷ []) }
    {
        if self.is_read {
            Some(&self.terms)
        } else {
            None
        }
    }

    /// Forgets the polynomial; its room stays.
    pub fn clear(&mut self)
        ensures { self.new ≡ [] }
    {
        self.is_read = false;
    }
}
