//! The bases that are ready in front of a list, and their pieces, worked out side by side before the first of them is written.
ghost use Rattle.std.specs.Prelude.{◌≡◌, ◌+◌, ◌<◌, ℕ, Bool, length, List, [], ◌∷◌, IfOk, IfErr, IfSome, All};
ghost use Rattle.gf_poly.specs.Marking.{MarkedPolynomials};
ghost use Rattle.gf_facets_theory.specs.Regions.{Region};
ghost use Rattle.gf_reverse_theory.specs.Upward.{IsNodeIn};
ghost use Rattle.gf_subtree.specs.Answers.{IsRefusedEarly, IsRowKept};
ghost use Rattle.gf_subtree.specs.Rows.{Row, AreLeftIn, ideal_in, row_left_at_most};
ghost use Rattle.gfan_lists.specs.Ahead.{AreAhead, AreWorkedOutAt, HasVariables, IsNextTaken, IsWorkedFrom};

use crate::bases::item_piece;
use gf_cone::Region;
use gf_front::Refusal;
use gf_poly::MarkedSet;
use gf_subtree::{WaveError, Waves};
use gf_text::Ring;
use gf_waves::Gate;
use std::alloc::Global;
use std::collections::VecDeque;
use std::thread::{self, Threads};

/// A basis that was taken out of a list.
#[derive(Drop)]
pub(crate) struct Taken {
    pub(crate) basis: MarkedSet,
    /// No basis is written before it.
    pub(crate) is_first: bool,
    /// Its piece, or why there is none, where that is worked out already.
    pub(crate) piece: Option<Result<Vec<u8>, Refusal>>,
}

// ---- pieces

/// Works out the piece of a basis.
fn work_out(alloc: Global, ring: &Ring, region: &Region, certified: bool, taken: &mut Taken)
    requires variables { taken.old.basis.variables ≡ length ring.now }
    requires region { length region.now.root ≡ length ring.now }
    ensures { IsWorkedFrom certified ring.now region.now taken.old taken.new }
{
    let piece = item_piece(alloc, ring, &taken.basis, region, taken.is_first, certified);
    taken.piece = Some(piece);
}

/// The pieces of several bases, by so many workers.
fn work_all<R: Threads + Sync>(
    rt: &R,
    alloc: Global,
    ring: &Ring,
    region: &Region,
    certified: bool,
    workers: usize,
    taken: &mut [Taken],
)
    requires some { 0 < workers }
    requires variables { All (HasVariables (length ring.now)) taken.old }
    requires region { length region.now.root ≡ length ring.now }
    ensures { AreWorkedOutAt certified ring.now region.now taken.old taken.new }
{
    let each = |_: usize, one: &mut Taken|
        requires { HasVariables (length ring.now) one.now × (length region.now.root ≡ length ring.now) }
        ensures { IsWorkedFrom certified ring.entry.now region.entry.now one.entry.now one.exit.now }
    { work_out(alloc, ring, region, certified, one) };
    thread::for_each_mut(rt, taken, workers, &each);
}

// ---- the bases that are ready

/// Takes the bases that are ready in front out of a list, behind the one that was taken, as far as there is room.
fn take_ready<'g, R: Threads + Sync, G: Gate>(
    rt: &R,
    waves: &mut Waves<'g, G>,
    taken: &mut Vec<Taken>,
)
    requires { 0 < length taken.old.items }
    ensures some { 0 < length taken.new.items }
    ensures workers { waves.new.frontier.workers ≡ waves.old.frontier.workers }
    ensures ahead { (certified : Bool) (ring : List (List ℕ)) (k : Region) (is_first : Bool) (row : Row)
        → AreAhead certified ring k is_first taken.old.items row waves.old
        → AreAhead certified ring k is_first taken.new.items row waves.new }
{
    'ready: while taken.len() < taken.capacity() && waves.is_served() {
        match waves.next_written(rt) {
            Ok(Some(basis)) => {
                let next = Taken {
                    basis,
                    is_first: false,
                    piece: None,
                };
                if taken.push(next).is_err() {
                    unreachable!();
                }
            }
            Ok(None) => return,
            Err(_) => return,
        }
    }
}

/// The bases that were taken, and those that are ready behind them, with their pieces.
fn worked_ahead<'g, R: Threads + Sync, G: Gate>(
    rt: &R,
    alloc: Global,
    ring: &Ring,
    waves: &mut Waves<'g, G>,
    region: &Region,
    certified: bool,
    mut taken: Vec<Taken>,
) -> VecDeque<Taken>
    requires some { 0 < length taken.items }
    requires workers { 0 < waves.old.frontier.workers }
    requires variables { (is_first : Bool) × (row : Row) × AreAhead certified ring.now region.now is_first taken.items row waves.old
        × ((v : MarkedPolynomials) → IsNodeIn (ideal_in row) v → v.variables ≡ length ring.now) }
    requires region { length region.now.root ≡ length ring.now }
    ensures some { 0 < length result.items }
    ensures ahead { (is_first : Bool) (row : Row) → AreAhead certified ring.now region.now is_first taken.items row waves.old
        → AreAhead certified ring.now region.now is_first result.items row waves.new }
{
    take_ready(rt, waves, &mut taken);
    let workers = waves.workers() as usize;
    work_all(
        rt,
        alloc,
        ring,
        region,
        certified,
        workers,
        taken.as_mut_slice(),
    );
    VecDeque::from_vec(taken)
}

/// The next basis of a list, without its piece.
///
/// # Errors
///
/// Those of `Waves::next_written`.
fn given<'g, R: Threads + Sync, G: Gate>(
    rt: &R,
    waves: &mut Waves<'g, G>,
    is_first: bool,
) -> Result<Option<Taken>, WaveError>
    ensures ok { IfOk result (λ o. (certified : Bool) (ring : List (List ℕ)) (k : Region) (row : Row) → IsRowKept row waves.old
        → IsNextTaken certified ring k is_first row waves.old o [] waves.new) }
    ensures fewer { IfOk result (λ o. IfSome o (λ _. row_left_at_most waves.new < row_left_at_most waves.old)) }
    ensures early { IfErr result (λ e. (nodes : List MarkedPolynomials) → AreLeftIn waves.old nodes
        → IsRefusedEarly (ideal_in waves.old) waves.old.pairs nodes e) }
{
    match waves.next_written(rt)? {
        Some(basis) => Ok(Some(Taken {
            basis,
            is_first,
            piece: None,
        })),
        None => Ok(None),
    }
}

/// A list with a basis alone, and room for so many; or the basis, where there is no memory for that.
fn alone(alloc: Global, taken: Taken, room: usize) -> Result<Vec<Taken>, Taken>
    ensures ok { IfOk result (λ all. all.items ≡ taken ∷ []) }
    ensures err { IfErr result (λ t. t ≡ taken) }
{
    let Ok(mut all) = Vec::with_capacity(alloc, room) else {
        return Err(taken);
    };
    match all.push(taken) {
        Ok(()) => Ok(all),
        Err(failed) => Err(failed.value),
    }
}

/// The next basis of a list: the first of those that were taken ahead, or else of those that are left.
///
/// Where several workers are asked for certificates and more bases are ready behind it, these are taken ahead, and their pieces are worked
/// out side by side with its own.
///
/// # Errors
///
/// Those of `Waves::next_written`, where none is taken ahead.
pub(crate) fn next_taken<'g, R: Threads + Sync, G: Gate>(
    rt: &R,
    alloc: Global,
    ring: &Ring,
    waves: &mut Waves<'g, G>,
    ahead: &mut VecDeque<Taken>,
    region: &Region,
    is_first: bool,
    certified: bool,
) -> Result<Option<Taken>, WaveError>
    requires variables { (v : MarkedPolynomials) → IsNodeIn (ideal_in waves.old) v → v.variables ≡ length ring.now }
    requires region { length region.now.root ≡ length ring.now }
    ensures ok { IfOk result (λ o. (row : Row) → AreAhead certified ring.now region.now is_first ahead.old.items row waves.old
        → IsNextTaken certified ring.now region.now is_first row waves.old o ahead.new.items waves.new) }
    ensures fewer { IfOk result (λ o. IfSome o (λ _. row_left_at_most waves.new + length ahead.new.items
        < row_left_at_most waves.old + length ahead.old.items)) }
    ensures none { IfErr result (λ e. (row : Row) → AreAhead certified ring.now region.now is_first ahead.old.items row waves.old
        → IsRowKept row waves.old) }
    ensures early { IfErr result (λ e. (nodes : List MarkedPolynomials) → AreLeftIn waves.old nodes
        → IsRefusedEarly (ideal_in waves.old) waves.old.pairs nodes e) }
{
    if let Some(taken) = ahead.pop_front() {
        return Ok(Some(taken));
    }
    let Some(taken) = given(rt, waves, is_first)? else {
        return Ok(None);
    };
    if !certified || waves.workers() < 2 || !waves.is_served() {
        return Ok(Some(taken));
    }
    match alone(alloc, taken, waves.ready() as usize + 1) {
        Ok(all) => {
            *ahead = worked_ahead(rt, alloc, ring, waves, region, certified, all);
            Ok(ahead.pop_front())
        }
        Err(taken) => Ok(Some(taken)),
    }
}
