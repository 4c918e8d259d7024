//! What `_bases` writes for an input, basis by basis.
ghost use Rattle.std.specs.Prelude.{◌≡◌, ◌≤◌, [], length, List, None, IfOk, IfErr, OnOk, MatchResult};
ghost use Rattle.std.specs.Io.KnownBytes.{Appends};
ghost use Rattle.gf_poly.specs.Polynomial.{Terms};
ghost use Rattle.gf_poly.specs.Marking.{MarkedPolynomials};
ghost use Rattle.gf_text.specs.PrintedSets.{basis_text};
ghost use Rattle.gf_text.specs.Sets.{AreIn};
ghost use Rattle.gfan_common.specs.Forms.{generators_of};
ghost use Rattle.gfan_lists.specs.Certificates.{IsItemRefusalIn};
ghost use Rattle.gfan_lists.specs.Ahead.{IsWorkedOut};
ghost use Rattle.gfan_lists.specs.BasesWriting.{basis_piece, end_piece, GoesOnBehind, IsListWrittenBehind, IsListStoppedBehind, IsPieceOf, IsBasisWritten};
ghost use Rattle.gf_lists_theory.specs.Starts.{IsFirstBasis};
ghost use Rattle.gfan_lists.specs.BasesWriting.{IsUnwritten, IsBasisUnwritten, HasRoomFor, IsOneLess, IsFull};
ghost use Rattle.gfan_lists.specs.Bases.{IsRootRefusal};
ghost use Rattle.gfan_common.specs.Refused.{IsUnnamed};

use crate::ahead::{Taken, next_taken};
use crate::certificates::push_certified;
use gf_cone::Region;
use gf_front::Refusal;
use gf_groebner_walk::basis_by_several_ways;
use gf_order::Order;
use gf_outside::{Sink, WriteFault, write_all};
use gf_poly::MarkedSet;
use gf_subtree::Waves;
use gf_text::{Printer, Ring, Written};
use gf_waves::Gate;
use gfan_common::refused::Refused;
use gfan_common::written_sets::polynomials;
use std::alloc::{AllocError, Global};
use std::collections::VecDeque;
use std::thread::Threads;

/// The options of `_bases`.
#[derive(Clone, Copy, Debug)]
pub struct ListOptions {
    /// So many bases are written at most, where it is given.
    pub limit: Option<u64>,
    /// How many pairs each run of Buchberger's algorithm settles at most.
    pub pairs: u64,
    /// Each basis is followed by its weight, and by the facets that a flip may cross, each with a witness.
    pub certified: bool,
}

// ---- how many may be written

/// How many bases may still be written.
#[derive(Clone, Copy, Debug)]
enum Room {
    Endless,
    Limited { limit: u64, left: u64 },
}

impl Room {
    fn of(limit: Option<u64>) -> Room
        ensures { HasRoomFor limit result [] }
    {
        match limit {
            None => Room::Endless,
            Some(limit) => Room::Limited { limit, left: limit },
        }
    }

    /// The room once one more is written; where there is none for it the list comes to its limit.
    fn with_one_more(self) -> Result<Room, Refusal>
        ensures ok { IfOk result (IsOneLess self) }
        ensures err { IfErr result (IsFull self) }
    {
        match self {
            Room::Endless => Ok(Room::Endless),
            Room::Limited { limit, left } => {
                if left == 0 {
                    return Err(Refusal::ListLimit { written: limit });
                }
                Ok(Room::Limited {
                    limit,
                    left: left - 1,
                })
            }
        }
    }
}

// ---- pieces of the output

/// Offers a piece to the output.
fn offer<K: Sink>(output: &mut K, piece: &[u8]) -> Result<(), Refusal>
    ensures all { OnOk result (Appends (K.held output.old) (K.held output.new) piece.now) }
    ensures err { IfErr result (IsUnwritten (K.held output.old) (K.held output.new) (K.faults output.old)
        (K.faults output.new) piece.now) }
    ensures calm { OnOk result (K.faults output.new ≡ K.faults output.old) }
{
    match write_all(output, piece) {
        Ok(()) => Ok(()),
        Err(WriteFault) => Err(Refusal::WriteFault),
    }
}

/// Room for the piece of a basis, so that most texts grow in place.
const PIECE: usize = 1024;

/// The piece of a basis alone: with the first one the line of the ring and a brace, with each other one what parts them.
fn piece(
    alloc: Global,
    ring: &Ring,
    basis: &MarkedSet,
    is_first: bool,
) -> Result<Vec<u8>, AllocError>
    requires { basis.now.variables ≡ length ring.now }
    ensures { IfOk result (λ text. text.items ≡ basis_piece ring.now is_first (basis_text ring.now basis.now.items)) }
{
    let mut text = Vec::with_capacity(alloc, PIECE)?;
    if is_first {
        Printer::ring(&mut text, ring)?;
        text.push(b'{')?;
    } else {
        text.extend_from_slice(b"\n,\n")?;
    }
    Printer::basis(&mut text, ring, basis)?;
    Ok(text)
}

/// The piece of a basis, with its certificates in the region where they are asked for.
pub(crate) fn item_piece(
    alloc: Global,
    ring: &Ring,
    basis: &MarkedSet,
    region: &Region,
    is_first: bool,
    certified: bool,
) -> Result<Vec<u8>, Refusal>
    requires variables { basis.now.variables ≡ length ring.now }
    requires region { length region.now.root ≡ basis.now.variables }
    ensures ok { IfOk result (λ text. IsPieceOf certified ring.now region.now is_first basis.now text.items) }
    ensures err { IfErr result (IsItemRefusalIn certified region.now basis.now) }
{
    let mut text = piece(alloc, ring, basis, is_first)?;
    if certified {
        push_certified(&mut text, alloc, basis, region)?;
    }
    Ok(text)
}

/// The piece of a basis that was taken out of the list: the one that is worked out already, or else it is worked out now.
fn made(
    alloc: Global,
    ring: &Ring,
    taken: Taken,
    region: &Region,
    certified: bool,
) -> Result<Vec<u8>, Refusal>
    requires variables { taken.basis.variables ≡ length ring.now }
    requires region { length region.now.root ≡ taken.basis.variables }
    requires worked { IsWorkedOut certified ring.now region.now taken }
    ensures ok { IfOk result (λ text. IsPieceOf certified ring.now region.now taken.is_first taken.basis text.items) }
    ensures err { IfErr result (IsItemRefusalIn certified region.now taken.basis) }
{
    let Taken {
        basis,
        is_first,
        piece,
    } = taken;
    match piece {
        Some(made) => made,
        None => item_piece(alloc, ring, &basis, region, is_first, certified),
    }
}

/// Writes the piece of a basis that was taken out of the list.
fn write_taken<K: Sink>(
    alloc: Global,
    ring: &Ring,
    taken: Taken,
    region: &Region,
    certified: bool,
    output: &mut K,
) -> Result<(), Refusal>
    requires variables { taken.basis.variables ≡ length ring.now }
    requires region { length region.now.root ≡ taken.basis.variables }
    requires worked { IsWorkedOut certified ring.now region.now taken }
    ensures all { OnOk result (IsBasisWritten certified ring.now region.now taken.is_first taken.basis (K.held output.old)
        (K.held output.new)) }
    ensures err { IfErr result (IsBasisUnwritten certified ring.now region.now taken.is_first taken.basis (K.held output.old)
        (K.held output.new) (K.faults output.old) (K.faults output.new)) }
    ensures calm { OnOk result (K.faults output.new ≡ K.faults output.old) }
{
    let text = made(alloc, ring, taken, region, certified)?;
    offer(output, &text)
}

// ---- the job

/// The basis of the set's ideal by degree and then lex, at which the list begins.
pub(crate) fn first_basis(
    alloc: Global,
    ring: &Ring,
    set: &[Written],
    pairs: u64,
) -> Result<MarkedSet, Refused>
    requires { AreIn (length ring.now) set.now }
    ensures ok { IfOk result (IsFirstBasis (length ring.now) (generators_of set.now)) }
    ensures err { IfErr result (λ e. IsRootRefusal (length ring.now) (generators_of set.now) pairs e.refusal) }
    ensures told { IfErr result IsUnnamed }
{
    let generators = polynomials(alloc, set)?;
    match basis_by_several_ways(alloc, ring.len(), &generators, &Order::deglex(), pairs) {
        Ok(root) => Ok(root),
        Err(error) => Err(Refused::from(error)),
    }
}

/// The piece that ends the list: a closing brace, with the line of the ring and the opening one where no basis was written.
fn end_piece(alloc: Global, ring: &Ring, is_first: bool) -> Result<Vec<u8>, AllocError>
    ensures { IfOk result (λ text. text.items ≡ end_piece ring.now is_first) }
{
    let mut text = Vec::new(alloc);
    if is_first {
        Printer::ring(&mut text, ring)?;
        text.push(b'{')?;
    }
    text.extend_from_slice(b"}\n")?;
    Ok(text)
}

/// Writes what is left of the list of all bases of an ideal in a region: the first of them with the ring, each other one behind a line end,
/// a comma and a line end, and last the brace that ends the list. Where none is left, the ring and two braces.
///
/// # Errors
///
/// Those of the list from there on, as `perform` has them.
pub(crate) fn write_waves<'g, R: Threads + Sync, K: Sink, G: Gate>(
    rt: &R,
    alloc: Global,
    ring: &Ring,
    mut waves: Waves<'g, G>,
    region: &Region,
    options: ListOptions,
    output: &mut K,
) -> Result<(), Refused>
    requires row { (before : List MarkedPolynomials) × (fs : List Terms) × GoesOnBehind before (length ring.now) region.now fs options.pairs waves }
    ensures done { OnOk result ((before : List MarkedPolynomials) (fs : List Terms) →
        GoesOnBehind before (length ring.now) region.now fs options.pairs waves.entry
        → IsListWrittenBehind before options ring.now region.now fs (K.held output.old) (K.held output.new)) }
    ensures stopped { IfErr result (λ e. (before : List MarkedPolynomials) (fs : List Terms) →
        GoesOnBehind before (length ring.now) region.now fs options.pairs waves.entry
        → IsListStoppedBehind before options ring.now region.now fs (K.held output.old) (K.held output.new) (K.faults output.old)
        (K.faults output.new) e.refusal) }
    ensures told { IfErr result IsUnnamed }
    ensures calm { MatchResult result (λ _. K.faults output.new ≡ K.faults output.old)
        (λ e. (e.refusal ≡ Refusal.WriteFault → ⊥) → K.faults output.new ≡ K.faults output.old) }
{
    let mut room = Room::of(options.limit);
    let mut ahead = VecDeque::new(alloc);
    let mut is_first = true;
    'list: while let Some(taken) = next_taken(
        rt,
        alloc,
        ring,
        &mut waves,
        &mut ahead,
        region,
        is_first,
        options.certified,
    )? {
        room = room.with_one_more()?;
        write_taken(alloc, ring, taken, region, options.certified, output)?;
        is_first = false;
    }
    let end = end_piece(alloc, ring, is_first)?;
    offer(output, &end)?;
    Ok(())
}
