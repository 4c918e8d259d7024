//! The reading of lists of ray numbers.
ghost use Rattle.std.specs.Prelude.{◌≡◌, ◌≤◌, IfOk, List, ℕ, length};
ghost use Rattle.gf_fan_files.specs.Lines.{content_from};
ghost use Rattle.gf_fan_files.specs.ConeText.{cone_step};
ghost use Rattle.gf_fan_files.specs.FanText.{the_cones, cones, content_read};
ghost use Rattle.gf_fan_files.specs.Found.{IsReadSo};
ghost use Rattle.gf_fan_files.specs.Given.{cone_state, cone_move};

use crate::error::{FanFileError, Reason, refused};
use crate::places::{content_at, place_of, text_of, token_at};
use gf_text::{Number, number_of};
use std::alloc::{AllocError, Global};
use std::marker::Model;

/// Ray numbers of a cone, seen as their list.
#[derive(Drop)]
pub struct RayNumbers {
    numbers: Vec<u64>,
}

impl Model for RayNumbers {
    ghost use Rattle.std.specs.Prelude.{List, ℕ};

    ghost Value = { List ℕ };

    ghost view = { λ r. r.numbers.items };
}

impl RayNumbers {
    /// The numbers, in the order of the text.
    pub fn as_slice(&self) -> &[u64]
        ensures { result.now ≡ self.now }
    {
        self.numbers.as_slice()
    }

    /// These numbers, which it keeps.
    pub fn of(numbers: Vec<u64>) -> RayNumbers
        ensures { result ≡ numbers.items }
    {
        RayNumbers { numbers }
    }
}

/// Cones as lists of ray numbers, seen as the list of them.
#[derive(Drop)]
pub struct ConeList {
    items: Vec<RayNumbers>,
}

impl Model for ConeList {
    ghost use Rattle.std.specs.Prelude.{List, ℕ};

    ghost Value = { List (List ℕ) };

    ghost view = { λ c. c.items.items };
}

impl ConeList {
    /// The cones, in their order.
    pub fn as_slice(&self) -> &[RayNumbers]
        ensures { result.now ≡ self.now }
    {
        self.items.as_slice()
    }

    /// These cones, which it keeps.
    fn of(items: Vec<RayNumbers>) -> ConeList
        ensures { result ≡ items.items }
    {
        ConeList { items }
    }
}

/// Where the next token of a list stands: before the brace, in it, or behind it.
#[derive(Clone, Copy)]
pub(crate) enum ListPlace {
    Before,
    Inside,
    Closed,
}

/// What a token does in lists of ray numbers.
#[derive(Clone, Copy)]
pub(crate) enum ConeStep {
    Go(ListPlace),
    /// It is the end of the lists.
    Done,
    Halt(Reason),
}

/// The greatest ray number.
pub(crate) const MOST_NUMBER: u128 = (1 << 63) - 1;

/// A number, or the brace at the end.
fn number(numbers: &mut Vec<u64>, t: &[u8]) -> Result<ConeStep, AllocError>
    ensures { IfOk result (λ m. (cs : List (List ℕ)) → cone_move m cs numbers.new.items ≡ cone_step (cone_state ListPlace.Inside cs numbers.old.items) t.now) }
{
    if t == b"}".as_slice() {
        return Ok(ConeStep::Go(ListPlace::Closed));
    }
    match number_of(t, MOST_NUMBER) {
        Number::None => Ok(ConeStep::Halt(Reason::Unexpected)),
        Number::Wide => Ok(ConeStep::Halt(Reason::TooWide)),
        Number::Within(n) => {
            numbers.push(n as u64)?;
            Ok(ConeStep::Go(ListPlace::Inside))
        }
    }
}

/// What a token does, behind these lists and these numbers of the next one.
fn step(
    alloc: Global,
    cones: &mut Vec<RayNumbers>,
    numbers: &mut Vec<u64>,
    place: ListPlace,
    t: &[u8],
) -> Result<ConeStep, AllocError>
    ensures { IfOk result (λ m. cone_move m cones.new.items numbers.new.items ≡ cone_step (cone_state place cones.old.items numbers.old.items) t.now) }
{
    match place {
        ListPlace::Before => {
            if t.is_empty() {
                return Ok(ConeStep::Done);
            }
            if t == b"{".as_slice() {
                numbers.clear();
                return Ok(ConeStep::Go(ListPlace::Inside));
            }
            Ok(ConeStep::Halt(Reason::Unexpected))
        }
        ListPlace::Inside => number(numbers, t),
        ListPlace::Closed => {
            if t == b"\n".as_slice() {
                cones.push(RayNumbers::of(Vec::from_slice(alloc, numbers.as_slice())?))?;
                return Ok(ConeStep::Go(ListPlace::Before));
            }
            Ok(ConeStep::Halt(Reason::Unexpected))
        }
    }
}

/// The lists of the content that begins at this place of the source.
pub(crate) fn cones_from(
    alloc: Global,
    source: &[u8],
    from: usize,
) -> Result<ConeList, FanFileError>
    requires { from ≤ length source.now }
    ensures { IsReadSo (λ v. the_cones v) result (content_read (length source.now) cones (content_from source.now from)) }
{
    let mut cones = Vec::new(alloc);
    let mut numbers = Vec::new(alloc);
    let mut list = ListPlace::Before;
    let (mut place, _) = content_at(source, from);
    loop {
        let Some((token, rest)) = token_at(source, place) else {
            return Err(refused(source.len(), source.len(), Reason::Unexpected));
        };
        let taken = step(
            alloc,
            &mut cones,
            &mut numbers,
            list,
            text_of(source, token),
        )?;
        match taken {
            ConeStep::Go(next) => list = next,
            ConeStep::Done => return Ok(ConeList::of(cones)),
            ConeStep::Halt(reason) => {
                return Err(refused(source.len(), place_of(token), reason));
            }
        }
        place = rest;
    }
}
