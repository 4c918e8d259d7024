//! Lists that are born with their room.

ghost use Rattle.std.specs.Prelude.{◌≡◌, [], IfSome};

use std::alloc::Global;

/// An empty list with room for so many, if there is memory.
pub fn with_room<T>(alloc: Global, n: usize) -> Option<Vec<T>>
    ensures { IfSome result (λ list. list.items ≡ []) }
{
    match Vec::with_capacity(alloc, n) {
        Ok(list) => Some(list),
        Err(_) => None,
    }
}
