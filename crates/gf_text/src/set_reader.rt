//! The reading of a set.
ghost use Rattle.std.specs.Prelude.{◌≡◌, ◌≤◌, [], IfOk, IfErr, IfSome, IsTrue, OnOk, length};
ghost use Rattle.gf_text.specs.SetText.{set_at, set_step, token_step, front_step, term_or, name_or, end_step, behind_step, denominator_step, exponent_step};
ghost use Rattle.gf_text.specs.SetText.{is_word, with_factor, next_term, next_polynomial, empty};
ghost use Rattle.gf_text.specs.Given.{Fails};
ghost use Rattle.gf_text.specs.GivenSet.{set_move};
ghost use Rattle.gf_text.specs.Limits.{AreTermsWithin, ArePolynomialsWithin};
ghost use Rattle.gf_text.specs.Pieces.{HasFront, IsBegun, Settles};
ghost use Rattle.gf_text.specs.Sets.{AreSetSums, IsSetRead, IsSetCause, AreIn};

use crate::MOST_VARIABLES;
use crate::combine::Sums;
use crate::error::{Cause, TextError, refused_at};
use crate::fronts::NOWHERE;
use crate::names::Ring;
use crate::pieces::{Front, add_behind, take_piece};
use crate::tokens::{Number, number_of, ring_token_from};
use crate::tree::{Factor, Factors, WrittenSet, WrittenTerm, WrittenTerms};
use crate::written::Written;
use gf_poly::ROOM;
use std::alloc::{AllocError, Global};
use std::mem;

/// What may stand next in a set: the brace; behind it the first polynomial or the end; a polynomial; a term behind a
/// sign; what follows a numerator; a denominator; what follows a `*`; what follows a name; an exponent; what follows a
/// rational number or a power.
#[derive(Clone, Copy)]
pub enum SetPlace {
    Brace,
    First,
    Polynomial,
    Term,
    Number,
    Denominator,
    Star,
    Name,
    Exponent,
    Behind,
}

/// What a token does in a set.
#[derive(Clone, Copy)]
pub enum SetStep {
    Go(SetPlace),
    Done,
    Halt(Cause),
}

/// What was read so far: polynomials that aren't added yet, terms of the one that is read, the sign, the rational number
/// and the powers of the term that is read, and the variable whose exponent isn't read yet.
#[derive(Drop)]
pub struct Part {
    pub polynomials: WrittenSet,
    pub terms: WrittenTerms,
    pub minus: bool,
    pub numer: u128,
    pub denom: u128,
    pub factors: Factors,
    pub variable: u8,
}

/// The greatest numerator and denominator.
const MOST: u128 = (1 << 127) - 1;

/// The greatest exponent.
const MOST_EXPONENT: u128 = (1 << 31) - 1;

/// Whether a token begins with a letter.
fn is_word(t: &[u8]) -> bool
    ensures { result ≡ is_word t.now }
{
    let [first, ..] = t else {
        return false;
    };
    first.is_ascii_alphabetic()
}

impl Part {
    fn new(alloc: Global) -> Part
        ensures { result ≡ empty }
    {
        Part {
            polynomials: WrittenSet::new(alloc),
            terms: WrittenTerms::new(alloc),
            minus: false,
            numer: 1,
            denom: 1,
            factors: Factors::new(alloc),
            variable: 0,
        }
    }

    /// The power of the variable whose name was read.
    fn end_factor(&mut self, exponent: u32) -> Result<(), AllocError>
        ensures { OnOk result (self.new ≡ with_factor self.old exponent) }
    {
        let factor = Factor {
            variable: self.variable,
            exponent,
        };
        self.factors.push(factor)
    }

    /// The term that is read, and none of its powers is left.
    fn term(&mut self, alloc: Global) -> WrittenTerm
        ensures term { result ≡ record { numer = self.old.numer; denom = self.old.denom; factors = self.old.factors; minus = self.old.minus } }
        ensures left { self.new ≡ record (self.old) { factors = [] } }
    {
        WrittenTerm {
            minus: self.minus,
            numer: self.numer,
            denom: self.denom,
            factors: mem::replace(&mut self.factors, Factors::new(alloc)),
        }
    }

    /// A term with this sign begins, of which nothing else is read.
    fn begin_term(&mut self, minus: bool)
        ensures { self.new ≡ record (self.old) { minus = minus; numer = 1; denom = 1 } }
    {
        self.minus = minus;
        self.numer = 1;
        self.denom = 1;
    }

    /// The term is read, and one with this sign begins.
    fn end_term(&mut self, alloc: Global, minus: bool) -> Result<(), AllocError>
        ensures { OnOk result (self.new ≡ next_term self.old minus) }
    {
        let term = self.term(alloc);
        self.terms.push(term)?;
        self.begin_term(minus);
        Ok(())
    }

    /// The polynomial is read.
    fn end_polynomial(&mut self, alloc: Global) -> Result<(), AllocError>
        requires { self.old.polynomials ≡ [] }
        ensures { OnOk result (self.new ≡ next_polynomial self.old) }
    {
        let term = self.term(alloc);
        self.polynomials.take_with(&mut self.terms, term)?;
        self.begin_term(false);
        Ok(())
    }

    /// A name of the ring; another letter can't stand here; another token does something else.
    fn name_or(&mut self, ring: &Ring, t: &[u8], other: SetStep) -> SetStep
        ensures { set_move result self.new ≡ name_or ring.now self.old t.now (set_move other self.old) }
    {
        if let Some(variable) = ring.variable(t) {
            self.variable = variable;
            return SetStep::Go(SetPlace::Name);
        }
        if is_word(t) {
            return SetStep::Halt(Cause::UnknownName);
        }
        other
    }

    /// A number or a name at the front of a term; another token does something else.
    fn term_or(&mut self, ring: &Ring, t: &[u8], other: SetStep) -> SetStep
        ensures { set_move result self.new ≡ term_or ring.now self.old t.now (set_move other self.old) }
    {
        match number_of(t, MOST) {
            Number::None => self.name_or(ring, t, other),
            Number::Wide => SetStep::Halt(Cause::TooWide),
            Number::Within(n) => {
                self.numer = n;
                SetStep::Go(SetPlace::Number)
            }
        }
    }

    /// A sign or a term at the front of a polynomial.
    fn front(&mut self, ring: &Ring, t: &[u8]) -> SetStep
        ensures { set_move result self.new ≡ front_step ring.now self.old t.now }
    {
        if t == b"+".as_slice() {
            self.minus = false;
            return SetStep::Go(SetPlace::Term);
        }
        if t == b"-".as_slice() {
            self.minus = true;
            return SetStep::Go(SetPlace::Term);
        }
        self.term_or(ring, t, SetStep::Halt(Cause::Unexpected))
    }

    /// What follows a term.
    #[inline(always)]
    fn end(&mut self, alloc: Global, t: &[u8]) -> Result<SetStep, AllocError>
        requires { self.old.polynomials ≡ [] }
        ensures { IfOk result (λ m. set_move m self.new ≡ end_step self.old t.now) }
    {
        if t == b"+".as_slice() {
            self.end_term(alloc, false)?;
            return Ok(SetStep::Go(SetPlace::Term));
        }
        if t == b"-".as_slice() {
            self.end_term(alloc, true)?;
            return Ok(SetStep::Go(SetPlace::Term));
        }
        if t == b",".as_slice() {
            self.end_polynomial(alloc)?;
            return Ok(SetStep::Go(SetPlace::Polynomial));
        }
        if t == b"}".as_slice() {
            self.end_polynomial(alloc)?;
            return Ok(SetStep::Done);
        }
        Ok(SetStep::Halt(Cause::Unexpected))
    }

    /// What follows a rational number or a power. No name is looked for where the token begins with no letter.
    #[inline(always)]
    fn behind(&mut self, alloc: Global, ring: &Ring, t: &[u8]) -> Result<SetStep, AllocError>
        requires { self.old.polynomials ≡ [] }
        ensures { IfOk result (λ m. set_move m self.new ≡ behind_step ring.now self.old t.now) }
    {
        if t == b"*".as_slice() {
            return Ok(SetStep::Go(SetPlace::Star));
        }
        // The proof needs that the names are those of a ring: each begins with a letter.
        let _names = ring.names();
        if is_word(t) {
            return Ok(self.name_or(ring, t, SetStep::Halt(Cause::UnknownName)));
        }
        self.end(alloc, t)
    }

    /// A denominator.
    fn denominator(&mut self, t: &[u8]) -> SetStep
        ensures { set_move result self.new ≡ denominator_step self.old t.now }
    {
        match number_of(t, MOST) {
            Number::None => SetStep::Halt(Cause::Unexpected),
            Number::Wide => SetStep::Halt(Cause::TooWide),
            Number::Within(0) => SetStep::Halt(Cause::ZeroDenominator),
            Number::Within(n) => {
                self.denom = n;
                SetStep::Go(SetPlace::Behind)
            }
        }
    }

    /// An exponent.
    fn exponent(&mut self, t: &[u8]) -> Result<SetStep, AllocError>
        ensures { IfOk result (λ m. set_move m self.new ≡ exponent_step self.old t.now) }
    {
        match number_of(t, MOST_EXPONENT) {
            Number::None => Ok(SetStep::Halt(Cause::Unexpected)),
            Number::Wide => Ok(SetStep::Halt(Cause::TooWide)),
            Number::Within(n) => {
                self.end_factor(n as u32)?;
                Ok(SetStep::Go(SetPlace::Behind))
            }
        }
    }

    /// What follows a name.
    fn behind_name(&mut self, alloc: Global, ring: &Ring, t: &[u8]) -> Result<SetStep, AllocError>
        requires { self.old.polynomials ≡ [] }
        ensures { IfOk result (λ m. set_move m self.new ≡ token_step ring.now SetPlace.Name self.old t.now) }
    {
        if t == b"^".as_slice() {
            return Ok(SetStep::Go(SetPlace::Exponent));
        }
        self.end_factor(1)?;
        self.behind(alloc, ring, t)
    }

    /// What a token does.
    fn step(
        &mut self,
        alloc: Global,
        ring: &Ring,
        place: SetPlace,
        t: &[u8],
    ) -> Result<SetStep, AllocError>
        requires { self.old.polynomials ≡ [] }
        ensures { IfOk result (λ m. set_move m self.new ≡ set_step ring.now (place, self.old) t.now) }
    {
        match place {
            SetPlace::Brace => {
                if t == b"{".as_slice() {
                    return Ok(SetStep::Go(SetPlace::First));
                }
                Ok(SetStep::Halt(Cause::Unexpected))
            }
            SetPlace::First => {
                if t == b"}".as_slice() {
                    return Ok(SetStep::Done);
                }
                Ok(self.front(ring, t))
            }
            SetPlace::Polynomial => Ok(self.front(ring, t)),
            SetPlace::Term => Ok(self.term_or(ring, t, SetStep::Halt(Cause::Unexpected))),
            SetPlace::Number => {
                if t == b"/".as_slice() {
                    return Ok(SetStep::Go(SetPlace::Denominator));
                }
                self.behind(alloc, ring, t)
            }
            SetPlace::Denominator => Ok(self.denominator(t)),
            SetPlace::Star => Ok(self.name_or(ring, t, SetStep::Halt(Cause::Unexpected))),
            SetPlace::Name => self.behind_name(alloc, ring, t),
            SetPlace::Exponent => self.exponent(t),
            SetPlace::Behind => self.behind(alloc, ring, t),
        }
    }
}

/// What came of the polynomials of the set that stands in the source from this place on, and the place behind it. Each is
/// added as soon as it is read, so that no more than one is kept as it is written.
fn sums_of_whole(
    alloc: Global,
    ring: &Ring,
    source: &[u8],
    from: usize,
) -> Result<(Sums, usize), TextError>
    requires { from ≤ length source.now }
    ensures ok { IfOk result (λ x. AreSetSums ring.now (record { source = source.now; at = from }) x.1 x.0) }
    ensures err { IfErr result (λ e. Fails e (set_at ring.now source.now from)) }
    ensures forward { IfOk result (λ x. from ≤ x.1) }
    ensures within { IfOk result (λ x. x.1 ≤ length source.now) }
{
    let n = ring.len() as usize;
    // The proof needs that the names are those of a ring.
    let _names = ring.names();
    let mut part = Part::new(alloc);
    let mut place = SetPlace::Brace;
    let mut sums = Sums::new(alloc);
    let mut found = [NOWHERE; MOST_VARIABLES];
    let mut at = from;
    loop {
        let Some((start, end)) = ring_token_from(ring, source, at, &mut found) else {
            return Err(refused_at(source.len(), Cause::Ended));
        };
        match part.step(alloc, ring, place, &source[start..end])? {
            SetStep::Go(next) => place = next,
            SetStep::Done => {
                sums.add_read(alloc, n, &part.polynomials)?;
                return Ok((sums, end));
            }
            SetStep::Halt(cause) => return Err(refused_at(start, cause)),
        }
        sums.add_read(alloc, n, &part.polynomials)?;
        part.polynomials.clear();
        at = end;
    }
}

/// Whether something of a term is read, and all of those before it.
fn has_begun(place: SetPlace) -> bool
    ensures { IsTrue result → IsBegun place }
{
    matches!(place, SetPlace::Name | SetPlace::Number)
}

/// Adds the polynomial that is read, where there is one, to what came of those before it, and sums the terms that are read where they are many. Whether
/// that is done, or needn't be.
fn settle(
    alloc: Global,
    n: usize,
    place: SetPlace,
    part: &mut Part,
    front: &mut Option<Front>,
    sums: &mut Sums,
) -> Result<bool, AllocError>
    requires room { n ≤ ROOM }
    requires within { ArePolynomialsWithin n part.old.polynomials }
    requires terms { IsBegun place → AreTermsWithin n part.old.terms }
    requires known { HasFront n front.old }
    ensures { IfOk result (λ done. IsTrue done → Settles n part.old front.old sums.old part.new front.new sums.new) }
{
    if !add_behind(alloc, n, sums, front, &part.polynomials)? {
        return Ok(false);
    }
    part.polynomials.clear();
    if !has_begun(place) {
        return Ok(true);
    }
    Ok(take_piece(alloc, n, front, &mut part.terms))
}

/// What came of the polynomials of the set that stands in the source from this place on, and the place behind it. Each is
/// summed piece by piece; none where that doesn't tell what comes of one.
fn sums_of_pieces(
    alloc: Global,
    ring: &Ring,
    source: &[u8],
    from: usize,
) -> Result<Option<(Sums, usize)>, TextError>
    requires { from ≤ length source.now }
    ensures ok { IfOk result (λ o. IfSome o (λ x. AreSetSums ring.now (record { source = source.now; at = from }) x.1 x.0)) }
    ensures err { IfErr result (λ e. Fails e (set_at ring.now source.now from)) }
    ensures forward { IfOk result (λ o. IfSome o (λ x. from ≤ x.1)) }
    ensures within { IfOk result (λ o. IfSome o (λ x. x.1 ≤ length source.now)) }
{
    let n = ring.len() as usize;
    // The proof needs that the names are those of a ring.
    let _names = ring.names();
    let mut part = Part::new(alloc);
    let mut place = SetPlace::Brace;
    let mut front: Option<Front> = None;
    let mut sums = Sums::new(alloc);
    let mut found = [NOWHERE; MOST_VARIABLES];
    let mut at = from;
    loop {
        let Some((start, end)) = ring_token_from(ring, source, at, &mut found) else {
            return Err(refused_at(source.len(), Cause::Ended));
        };
        match part.step(alloc, ring, place, &source[start..end])? {
            SetStep::Go(next) => place = next,
            SetStep::Done => {
                if add_behind(alloc, n, &mut sums, &mut front, &part.polynomials)? {
                    return Ok(Some((sums, end)));
                }
                return Ok(None);
            }
            SetStep::Halt(cause) => return Err(refused_at(start, cause)),
        }
        if !settle(alloc, n, place, &mut part, &mut front, &mut sums)? {
            return Ok(None);
        }
        at = end;
    }
}

/// What came of the polynomials of the set that stands in the source from this place on, and the place behind it. Where the
/// pieces of a polynomial don't tell what comes of it, the set is read once more, and its polynomials are kept as they are written.
pub(crate) fn sums_from(
    alloc: Global,
    ring: &Ring,
    source: &[u8],
    from: usize,
) -> Result<(Sums, usize), TextError>
    requires { from ≤ length source.now }
    ensures ok { IfOk result (λ x. AreSetSums ring.now (record { source = source.now; at = from }) x.1 x.0) }
    ensures err { IfErr result (λ e. Fails e (set_at ring.now source.now from)) }
    ensures forward { IfOk result (λ x. from ≤ x.1) }
    ensures within { IfOk result (λ x. x.1 ≤ length source.now) }
{
    match sums_of_pieces(alloc, ring, source, from)? {
        Some(sums) => Ok(sums),
        None => sums_of_whole(alloc, ring, source, from),
    }
}

/// The polynomials of the set that stands in the source from this place on, and the place behind it.
pub(crate) fn written_at(
    alloc: Global,
    ring: &Ring,
    source: &[u8],
    from: usize,
) -> Result<(Vec<Written>, usize), TextError>
    requires { from ≤ length source.now }
    ensures ok { IfOk result (λ x. IsSetRead ring.now (record { source = source.now; at = from }) x.1 x.0.items) }
    ensures variables { IfOk result (λ x. AreIn (length ring.now) x.0.items) }
    ensures err { IfErr result (IsSetCause ring.now (record { source = source.now; at = from })) }
    ensures within { IfOk result (λ x. x.1 ≤ length source.now) }
{
    // The proof needs that the names are those of a ring.
    let _names = ring.names();
    let (sums, end) = sums_from(alloc, ring, source, from)?;
    match sums {
        Sums::Fit(written) => Ok((written, end)),
        Sums::Overflow(overflow) => Err(TextError::Overflow(overflow)),
        Sums::Exponent(overflow) => Err(TextError::Exponent(overflow)),
    }
}
