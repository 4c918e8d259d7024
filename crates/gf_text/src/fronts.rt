//! How much of a name stands at the places of a source, where no byte of the source is compared with the name again and again.
//!
//! A table says of each place of a long name how much from there on is the front of the name. Where a front of the name was found in the source, the
//! table says what stands at the places inside it, so that only the bytes behind it are left to be compared.
ghost use Rattle.std.specs.Prelude.{◌≡◌, ◌≤◌, IfOk, List, ℕ, drop, length};
ghost use Rattle.gf_text.specs.Fronts.{IsFound, IsKnown, IsTable, common_front};

use std::alloc::{AllocError, Global};

/// The fewest bytes of a name that has a table.
const LONG: usize = 64;

/// A place of a source, and how many of a name's first bytes were found there.
#[derive(Clone, Copy)]
pub struct Found {
    pub at: usize,
    pub size: usize,
}

/// Nothing is found yet.
pub(crate) const NOWHERE: Found = Found { at: 0, size: 0 };

/// What is known of how many of a name's first bytes stand at a place.
#[derive(Clone, Copy)]
pub enum Known {
    /// So many.
    Exactly(usize),
    /// So many, and maybe more.
    AtLeast(usize),
}

/// How many bytes two texts have in common at their fronts.
fn common_front(left: &[u8], right: &[u8]) -> usize
    ensures { result ≡ common_front left.now right.now }
{
    let most = left.len().min(right.len());
    let mut size = 0;
    while size < most {
        if left[size] != right[size] {
            return size;
        }
        size += 1;
    }
    most
}

/// What the table of a name and a place where it was looked for say of another place.
fn known_at(table: &[usize], found: Found, at: usize) -> Known
    ensures { (name source : List ℕ) → IsTable name table.now → IsFound name source found → IsKnown result (common_front name (drop at source)) }
{
    if at < found.at || at - found.at >= table.len() {
        return Known::AtLeast(0);
    }
    let inside = at - found.at;
    let left = found.size.saturating_sub(inside);
    let size = table[inside];
    if size < left {
        Known::Exactly(size)
    } else {
        Known::AtLeast(left)
    }
}

/// How many of the name's first bytes the source has from this place on. The place where most of it was compared is kept.
pub(crate) fn front_at(
    name: &[u8],
    table: &[usize],
    source: &[u8],
    at: usize,
    found: &mut Found,
) -> usize
    requires within { at ≤ length source.now }
    requires table { IsTable name.now table.now }
    requires known { IsFound name.now source.now found.old }
    ensures value { result ≡ common_front name.now (drop at source.now) }
    ensures known { IsFound name.now source.now found.new }
{
    match known_at(table, *found, at) {
        Known::Exactly(size) => size,
        Known::AtLeast(least) => {
            let size = least + common_front(&name[least..], &source[at + least..]);
            *found = Found { at, size };
            size
        }
    }
}

/// The table of a long name: for each of its places, how much from there on is the front of the name. That of a short one is empty.
///
/// # Errors
/// Where memory runs out.
pub(crate) fn table_of(alloc: Global, name: &[u8]) -> Result<Vec<usize>, AllocError>
    ensures { IfOk result (λ table. IsTable name.now table.items) }
{
    if name.len() < LONG {
        return Ok(Vec::new(alloc));
    }
    let mut table = Vec::with_capacity(alloc, name.len())?;
    let mut found = NOWHERE;
    for at in 0..name.len() {
        let size = front_at(name, table.as_slice(), name, at, &mut found);
        table.push(size)?;
    }
    Ok(table)
}
