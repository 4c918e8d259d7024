//! Lists of numbers in path order, walkers and their parts.
ghost use Rattle.std.specs.Prelude.{◌≡◌};

use gf_number_trees::{NumberError, NumberTree};
use gf_reverse_search::{Mark, Nodes, Split, Walker, list_all, to_root};
use std::alloc::{AllocError, Global};

/// The tree up to a limit, where calls refuse at two numbers.
pub fn tree(alloc: Global, limit: u64, first: u64, second: u64) -> NumberTree
    ensures { result.limit ≡ limit }
{
    NumberTree {
        limit,
        chosen: (first, second),
        alloc,
    }
}

/// Adds a number and a blank.
///
/// # Errors
///
/// `AllocError` if memory runs out.
pub fn push_number(out: &mut Vec<u8>, alloc: Global, number: u64) -> Result<(), AllocError> {
    out.extend_from_slice(format!(in alloc; "{number} ")?.as_bytes())
}

/// The numbers from one on, up to a limit, in path order.
///
/// # Errors
///
/// `Memory` if memory runs out. No number of the tree is chosen to refuse.
pub fn list(alloc: Global, limit: u64, from: u64) -> Result<Vec<u8>, NumberError> {
    let mut out = Vec::new(alloc);
    if 1 <= from && from <= limit {
        let all = list_all(alloc, tree(alloc, limit, 0, 0), from)?;
        for number in &all {
            push_number(&mut out, alloc, *number)?;
        }
    }
    Ok(out)
}

/// The root above a number.
///
/// # Errors
///
/// `Memory` if memory runs out. No number of the tree is chosen to refuse.
pub fn root(alloc: Global, limit: u64, from: u64) -> Result<Vec<u8>, NumberError> {
    let mut out = Vec::new(alloc);
    if 1 <= from && from <= limit {
        let root = to_root(alloc, &tree(alloc, limit, 0, 0), from)?;
        push_number(&mut out, alloc, root)?;
    }
    Ok(out)
}

/// Adds what an iterator gives; whether that is its end.
fn push_next(
    out: &mut Vec<u8>,
    alloc: Global,
    next: Option<Result<u64, NumberError>>,
) -> Result<bool, AllocError> {
    match next {
        Some(Ok(number)) => push_number(out, alloc, number)?,
        Some(Err(refusal)) => {
            out.extend_from_slice(format!(in alloc; "{refusal:?} ")?.as_bytes())?;
        }
        None => {
            out.extend_from_slice(b"end ")?;
            return Ok(true);
        }
    }
    Ok(false)
}

/// Adds where a walker stands, and whether that is listed.
fn push_place(
    out: &mut Vec<u8>,
    alloc: Global,
    walker: &Walker<NumberTree>,
) -> Result<(), AllocError> {
    let here = *walker.position().here;
    let is_at_start = walker.is_at_start();
    let is_listed = matches!(walker.position().mark, Mark::Listed);
    out.extend_from_slice(format!(in alloc; "at {here} {is_at_start} {is_listed} ")?.as_bytes())
}

/// What an iterator gives up to its end; then where its walker stands, and what that gives next.
///
/// # Errors
///
/// `AllocError` if memory runs out for the answer. A refusal by the tree, also for want of memory, is a part of the answer.
pub fn nodes(alloc: Global, limit: u64, chosen: u64) -> Result<Vec<u8>, AllocError> {
    let mut out = Vec::new(alloc);
    if limit < 1 {
        return Ok(out);
    }
    let mut nodes = Nodes::new(alloc, Walker::at(alloc, tree(alloc, limit, chosen, 0), 1));
    for _ in 0..=limit {
        if push_next(&mut out, alloc, nodes.next())? {
            break;
        }
    }
    let mut walker = nodes.into_walker();
    push_place(&mut out, alloc, &walker)?;
    push_steps(&mut out, alloc, &mut walker, 1)?;
    Ok(out)
}

/// Adds what a walker gives in so many steps, or up to its end.
fn push_steps(
    out: &mut Vec<u8>,
    alloc: Global,
    walker: &mut Walker<NumberTree>,
    steps: u64,
) -> Result<(), AllocError> {
    for _ in 0..steps {
        if push_next(out, alloc, walker.advance().transpose())? {
            break;
        }
    }
    Ok(())
}

/// Adds what two parts give, the second twice, and whether the second is at its end then.
fn push_parts(
    out: &mut Vec<u8>,
    alloc: Global,
    mut first: Walker<NumberTree>,
    mut rest: Walker<NumberTree>,
    most: u64,
) -> Result<(), AllocError> {
    push_steps(out, alloc, &mut first, most)?;
    push_steps(out, alloc, &mut rest, most)?;
    push_steps(out, alloc, &mut rest, most)?;
    let is_ended = matches!(rest.split(), Ok(Split::Ended));
    out.extend_from_slice(if is_ended { b"ended" } else { b"further" })
}

/// Adds what comes of a split: what its parts give; or why it has none, where the walker stands, and what that gives then.
fn push_split(
    out: &mut Vec<u8>,
    alloc: Global,
    split: Result<Split<NumberTree>, (Walker<NumberTree>, NumberError)>,
    most: u64,
) -> Result<(), AllocError> {
    match split {
        Ok(Split::Ended) => out.extend_from_slice(b"ended"),
        Ok(Split::Parts { first, rest }) => push_parts(out, alloc, first, rest, most),
        Err((mut walker, refusal)) => {
            push_next(out, alloc, Some(Err(refusal)))?;
            push_place(out, alloc, &walker)?;
            push_steps(out, alloc, &mut walker, 1)
        }
    }
}

/// Where a walker stands, what it gives in so many steps, where it stands then, and what comes of its split.
///
/// # Errors
///
/// `AllocError` if memory runs out for the answer. A refusal by the tree, also for want of memory, is a part of the answer.
pub fn split(alloc: Global, limit: u64, chosen: u64, steps: u64) -> Result<Vec<u8>, AllocError> {
    let mut out = Vec::new(alloc);
    if limit < 1 {
        return Ok(out);
    }
    let mut walker = Walker::at(alloc, tree(alloc, limit, chosen, 0), 1);
    push_place(&mut out, alloc, &walker)?;
    push_steps(&mut out, alloc, &mut walker, steps)?;
    push_place(&mut out, alloc, &walker)?;
    push_split(&mut out, alloc, walker.split(), limit.saturating_add(1))?;
    Ok(out)
}
