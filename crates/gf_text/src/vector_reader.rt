//! The reading of a vector.
ghost use Rattle.std.specs.Prelude.{◌≡◌, ◌≤◌, IfOk, IfErr, length};
ghost use Rattle.gf_text.specs.VectorText.{IsVectorText, signed_entry, most_entry, size_step, entry_step, vector_step, vector_at};
ghost use Rattle.gf_text.specs.Machine.{HasOneMeaning};
ghost use Rattle.gf_text.specs.Given.{ReturnsRead};
ghost use Rattle.gf_text.specs.GivenVector.{vector_move};
ghost use Rattle.gf_text.specs.VectorLists.{vectors_from, vectors_at, vectors_first, vectors_inside, AreVectorsRead, AreVectorsWithin, IsVectorsCause};
ghost use Rattle.gf_text.specs.Vectors.{IsVectorRead, IsVectorCause, AreEntriesWithin};

use crate::error::{Cause, TextError, refused_at};
use crate::tokens::{Number, is_mark, number_of, word_from};
use gf_vec::IntVec;
use std::alloc::{AllocError, Global};

/// What may stand next in a vector: the parenthesis; behind it the first entry or the end; an entry; a number behind a
/// `-`; what follows an entry.
#[derive(Clone, Copy)]
pub enum VectorPlace {
    Parenthesis,
    First,
    Entry,
    Negative,
    Behind,
}

/// What a token does in a vector.
#[derive(Clone, Copy)]
pub enum VectorStep {
    Go(VectorPlace),
    Done,
    Halt(Cause),
}

/// The greatest absolute value of an entry.
pub(crate) const MOST_ENTRY: u128 = (1 << 63) - 1;

/// A natural number, or its negative.
fn signed(minus: bool, n: u128) -> i128
    requires { n ≤ most_entry }
    ensures { result ≡ signed_entry minus n }
{
    let size = n as i128;
    if minus { -size } else { size }
}

/// A number, with the sign that stood before it.
fn size(entries: &mut Vec<i128>, minus: bool, t: &[u8]) -> Result<VectorStep, AllocError>
    ensures { IfOk result (λ m. vector_move m entries.new.items ≡ size_step minus entries.old.items t.now) }
{
    match number_of(t, MOST_ENTRY) {
        Number::None => Ok(VectorStep::Halt(Cause::Unexpected)),
        Number::Wide => Ok(VectorStep::Halt(Cause::TooWide)),
        Number::Within(n) => {
            entries.push(signed(minus, n))?;
            Ok(VectorStep::Go(VectorPlace::Behind))
        }
    }
}

/// A sign or a number at the front of an entry.
fn entry(entries: &mut Vec<i128>, t: &[u8]) -> Result<VectorStep, AllocError>
    ensures { IfOk result (λ m. vector_move m entries.new.items ≡ entry_step entries.old.items t.now) }
{
    if t == b"-".as_slice() {
        return Ok(VectorStep::Go(VectorPlace::Negative));
    }
    size(entries, false, t)
}

/// What a token does.
fn step(entries: &mut Vec<i128>, place: VectorPlace, t: &[u8]) -> Result<VectorStep, AllocError>
    ensures { IfOk result (λ m. vector_move m entries.new.items ≡ vector_step (place, entries.old.items) t.now) }
{
    match place {
        VectorPlace::Parenthesis => {
            if t == b"(".as_slice() {
                return Ok(VectorStep::Go(VectorPlace::First));
            }
            Ok(VectorStep::Halt(Cause::Unexpected))
        }
        VectorPlace::First => {
            if t == b")".as_slice() {
                return Ok(VectorStep::Done);
            }
            entry(entries, t)
        }
        VectorPlace::Entry => entry(entries, t),
        VectorPlace::Negative => size(entries, true, t),
        VectorPlace::Behind => {
            if t == b",".as_slice() {
                return Ok(VectorStep::Go(VectorPlace::Entry));
            }
            if t == b")".as_slice() {
                return Ok(VectorStep::Done);
            }
            Ok(VectorStep::Halt(Cause::Unexpected))
        }
    }
}

/// The entries of the vector that stands in the source from this place on, and the place behind it.
fn entries_from(alloc: Global, source: &[u8], from: usize) -> Result<(Vec<i128>, usize), TextError>
    requires { from ≤ length source.now }
    ensures vector { ReturnsRead (λ x. (x.0.items, x.1)) result (vector_at source.now from) }
    ensures forward { IfOk result (λ x. from ≤ x.1) }
    ensures within { IfOk result (λ x. x.1 ≤ length source.now) }
{
    let mut entries = Vec::new(alloc);
    let mut place = VectorPlace::Parenthesis;
    let mut at = from;
    loop {
        let Some((start, end)) = word_from(source, at) else {
            return Err(refused_at(source.len(), Cause::Ended));
        };
        match step(&mut entries, place, &source[start..end])? {
            VectorStep::Go(next) => place = next,
            VectorStep::Done => return Ok((entries, end)),
            VectorStep::Halt(cause) => return Err(refused_at(start, cause)),
        }
        at = end;
    }
}

/// The vector that stands in the source from this place on, and the place behind it.
pub(crate) fn vector_from(
    alloc: Global,
    source: &[u8],
    from: usize,
) -> Result<(IntVec, usize), TextError>
    requires { from ≤ length source.now }
    ensures ok { IfOk result (λ x. IsVectorRead (record { source = source.now; at = from }) x.1 x.0) }
    ensures vector { ReturnsRead (λ x. (x.0, x.1)) result (vector_at source.now from) }
    ensures entries { IfOk result (λ x. AreEntriesWithin x.0) }
    ensures forward { IfOk result (λ x. from ≤ x.1) }
    ensures err { IfErr result (IsVectorCause (record { source = source.now; at = from })) }
    ensures within { IfOk result (λ x. x.1 ≤ length source.now) }
{
    let (entries, end) = entries_from(alloc, source, from)?;
    Ok((IntVec::from_vec(entries), end))
}

/// The vectors of a list from its first item on, which stands in the source from this place on, and the place behind the
/// list.
fn items_from(alloc: Global, source: &[u8], from: usize) -> Result<(Vec<IntVec>, usize), TextError>
    requires { from ≤ length source.now }
    ensures vectors { ReturnsRead (λ x. (x.0.items, x.1)) result (vectors_from vectors_inside source.now from) }
    ensures within { IfOk result (λ x. x.1 ≤ length source.now) }
{
    let mut vectors = Vec::new(alloc);
    let mut at = from;
    loop {
        let (vector, end) = vector_from(alloc, source, at)?;
        vectors.push(vector)?;
        let Some((start, behind)) = word_from(source, end) else {
            return Err(refused_at(source.len(), Cause::Ended));
        };
        let token = &source[start..behind];
        if !is_mark(token, b',') {
            if is_mark(token, b'}') {
                return Ok((vectors, behind));
            }
            return Err(refused_at(start, Cause::Unexpected));
        }
        at = behind;
    }
}

/// The vectors of a list from behind its first brace on, and the place behind the list.
fn behind_brace(
    alloc: Global,
    source: &[u8],
    from: usize,
) -> Result<(Vec<IntVec>, usize), TextError>
    requires { from ≤ length source.now }
    ensures vectors { ReturnsRead (λ x. (x.0.items, x.1)) result (vectors_from vectors_first source.now from) }
    ensures within { IfOk result (λ x. x.1 ≤ length source.now) }
{
    let Some((start, end)) = word_from(source, from) else {
        return Err(refused_at(source.len(), Cause::Ended));
    };
    if is_mark(&source[start..end], b'}') {
        return Ok((Vec::new(alloc), end));
    }
    items_from(alloc, source, from)
}

/// The vectors of the list that stands in the source from this place on, and the place behind it.
fn list_from(alloc: Global, source: &[u8], from: usize) -> Result<(Vec<IntVec>, usize), TextError>
    requires { from ≤ length source.now }
    ensures vectors { ReturnsRead (λ x. (x.0.items, x.1)) result (vectors_at source.now from) }
    ensures within { IfOk result (λ x. x.1 ≤ length source.now) }
{
    let Some((start, end)) = word_from(source, from) else {
        return Err(refused_at(source.len(), Cause::Ended));
    };
    if !is_mark(&source[start..end], b'{') {
        return Err(refused_at(start, Cause::Unexpected));
    }
    behind_brace(alloc, source, end)
}

/// The vectors of the list that stands in the source from this place on, and the place behind it, by the grammar.
pub(crate) fn vectors_from(
    alloc: Global,
    source: &[u8],
    from: usize,
) -> Result<(Vec<IntVec>, usize), TextError>
    requires { from ≤ length source.now }
    ensures ok { IfOk result (λ x. AreVectorsRead (record { source = source.now; at = from }) x.1 x.0.items) }
    ensures entries { IfOk result (λ x. AreVectorsWithin x.0.items) }
    ensures err { IfErr result (IsVectorsCause (record { source = source.now; at = from })) }
    ensures within { IfOk result (λ x. x.1 ≤ length source.now) }
{
    let (vectors, end) = list_from(alloc, source, from)?;
    Ok((vectors, end))
}

/// A text is the text of one vector at most.
pub fn vectors_have_one_meaning()
    ensures { HasOneMeaning IsVectorText }
{}
