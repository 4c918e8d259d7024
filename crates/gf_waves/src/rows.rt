//! Pieces put before and behind rows.
ghost use Rattle.std.specs.Prelude.{◌≡◌, ◌<◌, ◌≤◌, ◌+◌, length, [], ◌∷◌, ◌++◌};
ghost use Rattle.std.specs.VecDeque.{deque_capacity};

use gf_reverse_search::{Piece, Tree};
use std::collections::VecDeque;

/// Puts a piece behind a row that has room.
pub fn push<T: Tree>(row: &mut VecDeque<Piece<T>>, piece: Piece<T>)
    requires { length row.old.items < deque_capacity row.old }
    ensures items { row.new.items ≡ row.old.items ++ piece ∷ [] }
    ensures room { deque_capacity row.old ≤ deque_capacity row.new }
{
    if row.push_back(piece).is_err() {
        unreachable!();
    }
}

/// Puts a piece before a row that has room.
pub fn push_before<T: Tree>(row: &mut VecDeque<Piece<T>>, piece: Piece<T>)
    requires { length row.old.items < deque_capacity row.old }
    ensures items { row.new.items ≡ piece ∷ row.old.items }
    ensures room { deque_capacity row.old ≤ deque_capacity row.new }
{
    if row.push_front(piece).is_err() {
        unreachable!();
    }
}

/// Puts pieces before a row that has room for them.
pub fn put_before<T: Tree>(row: &mut VecDeque<Piece<T>>, mut pieces: Vec<Piece<T>>)
    requires { length pieces.items + length row.old.items ≤ deque_capacity row.old }
    ensures items { row.new.items ≡ pieces.items ++ row.old.items }
    ensures room { deque_capacity row.old ≤ deque_capacity row.new }
{
    while let Some(piece) = pieces.pop() {
        push_before(row, piece);
    }
}

/// Moves the pieces of a row behind another that has room for them.
pub fn move_behind<T: Tree>(row: &mut VecDeque<Piece<T>>, pieces: &mut VecDeque<Piece<T>>)
    requires { length row.old.items + length pieces.old.items ≤ deque_capacity row.old }
    ensures items { row.new.items ≡ row.old.items ++ pieces.old.items }
    ensures room { deque_capacity row.old ≤ deque_capacity row.new }
    ensures empty { pieces.new.items ≡ [] }
    ensures kept { deque_capacity pieces.new ≡ deque_capacity pieces.old }
{
    if row.append(pieces).is_err() {
        unreachable!();
    }
}

/// Puts the pieces of a row behind another that has room for them.
pub fn put_behind<T: Tree>(row: &mut VecDeque<Piece<T>>, mut pieces: VecDeque<Piece<T>>)
    requires { length row.old.items + length pieces.items ≤ deque_capacity row.old }
    ensures items { row.new.items ≡ row.old.items ++ pieces.items }
    ensures room { deque_capacity row.old ≤ deque_capacity row.new }
{
    move_behind(row, &mut pieces);
}
