//! The variables that occur in the marks of a basis, as a least common multiple.
ghost use Rattle.std.specs.Prelude.{◌≡◌, ◌<◌, ◌≤◌, ◌+◌, length};
ghost use Rattle.gf_saturate.specs.Marks.{HaveLongHeads, CoverHeads, CoverFreeHeads};

use crate::elimination::is_free;
use crate::narrowing::narrowed;
use gf_poly::{Marked, Mono, ROOM};
use std::alloc::Global;

/// The least common multiple of the marks, in `n` variables.
pub(crate) fn marks_of(alloc: Global, n: u32, items: &[Marked]) -> Mono
    requires room { n ≤ ROOM }
    requires heads { HaveLongHeads n items.now }
    ensures long { length result ≡ n }
    ensures covers { CoverHeads items.now result }
{
    let mut all = Mono::one(alloc, n as usize);
    'members: for i in 0..items.len() {
        all = all.lcm(items[i].head());
    }
    all
}

/// The least common multiple of those marks in which the variable after the first `n` doesn't occur, in `n + 1` variables; 1 where there are none.
fn free_marks(alloc: Global, n: u32, items: &[Marked]) -> Mono
    requires room { n < ROOM }
    requires heads { HaveLongHeads (n + 1) items.now }
    ensures long { length result ≡ n + 1 }
    ensures covers { CoverFreeHeads n items.now result }
{
    let mut all = Mono::one(alloc, n as usize + 1);
    'members: for i in 0..items.len() {
        let b = &items[i];
        if is_free(n, b) {
            all = all.lcm(b.head());
        }
    }
    all
}

/// The least common multiple of those marks in which the variable after the first `n` doesn't occur, in the first `n` variables; 1 where there are
/// none.
pub(crate) fn marks_left_over(alloc: Global, n: u32, items: &[Marked]) -> Mono
    requires room { n < ROOM }
    requires heads { HaveLongHeads (n + 1) items.now }
    ensures long { length result ≡ n }
    ensures covers { CoverFreeHeads n items.now result }
{
    let all = free_marks(alloc, n, items);
    narrowed(alloc, n, &all)
}
