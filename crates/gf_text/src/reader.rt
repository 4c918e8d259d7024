//! A reader of rings, sets of polynomials and vectors.
ghost use Rattle.std.specs.Prelude.{◌≡◌, length, IfOk, IfErr, OnOk, OnErr};
ghost use Rattle.gf_text.specs.Tokens.{IsBlank, HasMoreText, rest};
ghost use Rattle.gf_text.specs.TokensRead.{IsTokenRead, IsTokenCause};
ghost use Rattle.gf_text.specs.Rings.{IsRingRead, IsRingCause};
ghost use Rattle.gf_text.specs.Singles.{IsDimensionRead, IsDimensionCause, IsNameRead, IsNameCause};
ghost use Rattle.gf_text.specs.VectorLists.{AreVectorsRead, AreVectorsWithin, IsVectorsCause};
ghost use Rattle.gf_text.specs.Vectors.{IsVectorRead, IsVectorCause, AreEntriesWithin};
ghost use Rattle.gf_text.specs.SetLists.{sets_in, AreAllIn, AreSetsRead, IsSetsCause, AreMarkedSetsRead, IsMarkedSetsCause};
ghost use Rattle.gf_text.specs.Sets.{IsSetRead, IsSetCause, IsMarkedRead, IsMarkedCause, AreIn};

use crate::error::{Cause, Kind, Syntax, TextError, refused_at};
use crate::marked_reader::{marked_at, marked_sets_at};
use crate::names::Ring;
use crate::ring_reader::ring_from;
use crate::set_lists::written_sets_at;
use crate::set_reader::written_at;
use crate::single_reader::{dimension_from, name_from};
use crate::tokens::{Token, begins_token, spaces, word_from};
use crate::vector_reader::{vector_from, vectors_from};
use crate::written::Written;
use gf_poly::MarkedSet;
use gf_vec::IntVec;
use std::alloc::Global;
use std::marker::Model;

/// Reads items of a source, one after another. It is seen as the source and the place up to which it was read.
#[derive(Drop)]
pub struct Reader<'a> {
    source: &'a [u8],
    at: usize,
}

impl<'a> Model for Reader<'a> {
    ghost use Rattle.std.specs.Prelude.{◌≤◌, length};
    ghost use Rattle.gf_text.specs.Tokens.{Position};

    ghost Value = { Position };

    ghost view = { λ r. record { source = r.source.now; at = r.at } };

    ghost invariant = { λ r. r.at ≤ length r.source.now };
}

impl<'a> Reader<'a> {
    /// A reader that begins at the front of the source.
    pub fn new(source: &'a [u8]) -> Reader<'a>
        ensures { result ≡ record { source = source.entry.now; at = 0 } }
    {
        Reader { source, at: 0 }
    }

    /// The next token, where a name is as long as it can be; goes behind it.
    ///
    /// # Errors
    /// `Syntax { at, kind: Ended }` with the length of the source where no token follows, and
    /// `Syntax { at, kind: Unexpected }` at a byte that begins no token. After a refusal the reader is where it was.
    pub fn token(&mut self) -> Result<Token<'a>, TextError>
        ensures ok { IfOk result (λ token. IsTokenRead self.old self.new.at token.text.now token.at) }
        ensures err { IfErr result (IsTokenCause self.old) }
        ensures source { self.new.source ≡ self.old.source }
        ensures unchanged { OnErr result (self.new ≡ self.old) }
    {
        let Some((start, end)) = word_from(self.source, self.at) else {
            return Err(refused_at(self.source.len(), Cause::Ended));
        };
        let text = &self.source[start..end];
        if !begins_token(text) {
            return Err(refused_at(start, Cause::Unexpected));
        }
        self.at = end;
        Ok(Token {
            text,
            at: start as u64,
        })
    }

    /// Reads the ring that stands at the reader's place, and goes behind it.
    ///
    /// # Errors
    /// - `Syntax` at the first token after which no text of a ring goes on: `RepeatedName` where a name stands that was
    ///   there already, `Unexpected` elsewhere, and `Ended` with the length of the source where the text ends before.
    /// - `TooManyVariables` where the ring has more than `MOST_VARIABLES` names, with their number.
    ///
    /// After a refusal the reader is where it was.
    pub fn read_ring(&mut self, alloc: Global) -> Result<Ring, TextError>
        ensures ok { IfOk result (λ ring. IsRingRead self.old self.new.at ring) }
        ensures err { IfErr result (IsRingCause self.old) }
        ensures source { self.new.source ≡ self.old.source }
        ensures unchanged { OnErr result (self.new ≡ self.old) }
    {
        let (ring, at) = ring_from(alloc, self.source, self.at)?;
        self.at = at;
        Ok(ring)
    }

    /// Reads the set that stands at the reader's place, and goes behind it. Like terms are added from the left in the
    /// order in which they are written, and each polynomial is marked at the first of its terms that remains.
    ///
    /// # Errors
    /// - `Syntax`, `TooWide` or `UnknownName` at the first token after which no text of a set goes on: a zero denominator,
    ///   a number past its limit, a letter where a name of the ring may stand and none does, any other token that can't
    ///   stand there; `Ended` with the length of the source where the text ends before.
    /// - `Exponent` where the sum of the exponents of a variable in one term passes `2^31 - 1`, with the sum of those
    ///   before and the one that is added.
    /// - `Overflow` where a sum of coefficients of like terms leaves its range, with its operands.
    ///
    /// After a refusal the reader is where it was.
    pub fn read_set(&mut self, alloc: Global, ring: &Ring) -> Result<Vec<Written>, TextError>
        ensures ok { IfOk result (λ ws. IsSetRead ring.now self.old self.new.at ws.items) }
        ensures variables { IfOk result (λ ws. AreIn (length ring.now) ws.items) }
        ensures source { self.new.source ≡ self.old.source }
        ensures err { IfErr result (IsSetCause ring.now self.old) }
        ensures unchanged { OnErr result (self.new ≡ self.old) }
    {
        let (set, at) = written_at(alloc, ring, self.source, self.at)?;
        self.at = at;
        Ok(set)
    }

    /// Reads the list of sets that stands at the reader's place, sets as `read_set` reads them, and goes behind it.
    ///
    /// # Errors
    /// Those of `read_set`, of the list as a whole: first the faults of its text, then the first exponent of all sets that
    /// passes its limit, then the first sum. After a refusal the reader is where it was.
    pub fn read_sets(&mut self, alloc: Global, ring: &Ring) -> Result<Vec<Vec<Written>>, TextError>
        ensures ok { IfOk result (λ sets. AreSetsRead ring.now self.old self.new.at (sets_in sets.items)) }
        ensures variables { IfOk result (λ sets. AreAllIn (length ring.now) (sets_in sets.items)) }
        ensures source { self.new.source ≡ self.old.source }
        ensures err { IfErr result (IsSetsCause ring.now self.old) }
        ensures unchanged { OnErr result (self.new ≡ self.old) }
    {
        let (sets, at) = written_sets_at(alloc, ring, self.source, self.at)?;
        self.at = at;
        Ok(sets)
    }

    /// Reads the marked set that stands at the reader's place, and goes behind it: a set as `read_set` reads it, of which
    /// no polynomial is zero.
    ///
    /// # Errors
    /// Those of `read_set`; and `ZeroPolynomial` where nothing remains of a polynomial, with the index of the first one
    /// among all polynomials of the set, from 0, and 0 for the set. An index that passes `2^32 - 1` is that.
    ///
    /// After a refusal the reader is where it was.
    pub fn read_marked(&mut self, alloc: Global, ring: &Ring) -> Result<MarkedSet, TextError>
        ensures ok { IfOk result (IsMarkedRead ring.now self.old self.new.at) }
        ensures source { self.new.source ≡ self.old.source }
        ensures err { IfErr result (IsMarkedCause ring.now self.old) }
        ensures unchanged { OnErr result (self.new ≡ self.old) }
    {
        let (set, at) = marked_at(alloc, ring, self.source, self.at)?;
        self.at = at;
        Ok(set)
    }

    /// Reads the list of marked sets that stands at the reader's place, and goes behind it: a list as `read_sets` reads it, of
    /// which no polynomial is zero.
    ///
    /// # Errors
    /// Those of `read_sets`; and `ZeroPolynomial` where nothing remains of a polynomial, with the number of the first set that
    /// has such a one, and the index of the first one among all polynomials of that set, both from 0. What passes
    /// `2^32 - 1` is that.
    ///
    /// After a refusal the reader is where it was.
    pub fn read_marked_sets(
        &mut self,
        alloc: Global,
        ring: &Ring,
    ) -> Result<Vec<MarkedSet>, TextError>
        ensures ok { IfOk result (λ sets. AreMarkedSetsRead ring.now self.old self.new.at sets.items) }
        ensures source { self.new.source ≡ self.old.source }
        ensures err { IfErr result (IsMarkedSetsCause ring.now self.old) }
        ensures unchanged { OnErr result (self.new ≡ self.old) }
    {
        let (sets, at) = marked_sets_at(alloc, ring, self.source, self.at)?;
        self.at = at;
        Ok(sets)
    }

    /// Reads the vector that stands at the reader's place, and goes behind it. Its entries, of which there may be none,
    /// are at most `2^63 - 1` in absolute value.
    ///
    /// # Errors
    /// - `Syntax` at the first token after which no text of a vector goes on: `Unexpected`, or `Ended` with the length of
    ///   the source where the text ends before.
    /// - `TooWide` at a number past `2^63 - 1`, where a number may stand; leading zeros don't count.
    ///
    /// After a refusal the reader is where it was.
    pub fn read_vector(&mut self, alloc: Global) -> Result<IntVec, TextError>
        ensures ok { IfOk result (λ v. IsVectorRead self.old self.new.at v) }
        ensures within { IfOk result (λ v. AreEntriesWithin v) }
        ensures err { IfErr result (IsVectorCause self.old) }
        ensures source { self.new.source ≡ self.old.source }
        ensures unchanged { OnErr result (self.new ≡ self.old) }
    {
        let (vector, at) = vector_from(alloc, self.source, self.at)?;
        self.at = at;
        Ok(vector)
    }

    /// Reads the list of vectors that stands at the reader's place, vectors as `read_vector` reads them, and goes behind it.
    ///
    /// # Errors
    /// - `Syntax` at the first token after which no text of a list of vectors goes on: `Unexpected`, or `Ended` with the
    ///   length of the source where the text ends before.
    /// - `TooWide` at a number past `2^63 - 1`, where a number may stand; leading zeros don't count.
    ///
    /// After a refusal the reader is where it was.
    pub fn read_vectors(&mut self, alloc: Global) -> Result<Vec<IntVec>, TextError>
        ensures ok { IfOk result (λ vs. AreVectorsRead self.old self.new.at vs.items) }
        ensures within { IfOk result (λ vs. AreVectorsWithin vs.items) }
        ensures err { IfErr result (IsVectorsCause self.old) }
        ensures source { self.new.source ≡ self.old.source }
        ensures unchanged { OnErr result (self.new ≡ self.old) }
    {
        let (vectors, at) = vectors_from(alloc, self.source, self.at)?;
        self.at = at;
        Ok(vectors)
    }

    /// Reads the dimension that stands at the reader's place, a number up to `MOST_VARIABLES`, and goes behind it.
    ///
    /// # Errors
    /// - `Syntax` at a token that is no number: `Unexpected`, or `Ended` with the length of the source where none follows.
    /// - `TooWide` at a number past `2^63 - 1`; leading zeros don't count.
    /// - `TooManyVariables` at any other number past `MOST_VARIABLES`, with that number.
    ///
    /// After a refusal the reader is where it was.
    pub fn read_dimension(&mut self) -> Result<u32, TextError>
        ensures ok { IfOk result (λ n. IsDimensionRead self.old self.new.at n) }
        ensures err { IfErr result (IsDimensionCause self.old) }
        ensures source { self.new.source ≡ self.old.source }
        ensures unchanged { OnErr result (self.new ≡ self.old) }
    {
        let (n, at) = dimension_from(self.source, self.at)?;
        self.at = at;
        Ok(n)
    }

    /// Reads the name that stands at the reader's place, as long as it can be, which isn't one of the ring, and goes behind
    /// it.
    ///
    /// # Errors
    /// `Syntax`: `RepeatedName` at a name of the ring, `Unexpected` at any other token, and `Ended` with the length of the
    /// source where none follows. After a refusal the reader is where it was.
    pub fn read_name(&mut self, ring: &Ring) -> Result<&'a [u8], TextError>
        ensures ok { IfOk result (λ name. IsNameRead ring.now self.old self.new.at name.now) }
        ensures err { IfErr result (IsNameCause ring.now self.old) }
        ensures source { self.new.source ≡ self.old.source }
        ensures unchanged { OnErr result (self.new ≡ self.old) }
    {
        let (name, at) = name_from(ring, self.source, self.at)?;
        self.at = at;
        Ok(name)
    }

    /// Whether nothing but white space follows.
    ///
    /// # Errors
    /// Where something else does: `Syntax { at, kind: Unexpected }` at its first byte.
    pub fn end(&mut self) -> Result<(), Syntax>
        ensures end { OnOk result (IsBlank (rest self.old)) }
        ensures more { IfErr result (HasMoreText self.old) }
        ensures same { self.new ≡ self.old }
    {
        let rest = &self.source[self.at..];
        let spaces = spaces(rest);
        if spaces < rest.len() {
            return Err(Syntax {
                at: (self.at + spaces) as u64,
                kind: Kind::Unexpected,
            });
        }
        Ok(())
    }
}
