//! The command `_interactive`: a session over the bases of an ideal, which starts at the basis of a file.
ghost use Rattle.std.specs.Prelude.{◌≡◌, ℕ, List, length, IfOk, IfErr, OnOk};
ghost use Rattle.gf_basis_states.specs.BasisRules.{IsBasisState};
ghost use Rattle.gf_frame.specs.Seen.{output_seen};
ghost use Rattle.gfan_interactive.specs.Interactive.{IsOpening, IsUnopened, IsSessionHeld, IsSessionCutOff, of_session, input_seen, IsConversed};
ghost use Rattle.gfan_interactive.specs.Interactive.{IsNotConversed};
ghost use Rattle.gfan_common.specs.ReducedSets.{IsReducedAsRead};
ghost use Rattle.gfan_common.specs.Refused.{IsOfSource};

use gf_basis_states::{BasisState, BasisStates, push_prompt};
use gf_front::Refusal;
use gf_items::{RingAndMarked, ring_and_marked};
use gf_outside::{Sink, Source, WriteFault, write_all};
use gf_poly::MarkedSet;
use gf_session::{SessionError, converse};
use gf_text::{Printer, Ring};
use gf_tree::TreeError;
use gfan_common::reduced_sets::reduced_basis;
use gfan_common::refused::{Refused, of_check, of_tree};
use std::alloc::{AllocError, Global};

/// The refusal by which a session is cut off, as one of the run.
fn of_session(error: SessionError<TreeError>) -> Refusal
    ensures { result ≡ of_session error }
{
    match error {
        SessionError::ReadFault => Refusal::ReadFault,
        SessionError::InputTooLong => Refusal::InputTooLong,
        SessionError::WriteFault => Refusal::WriteFault,
        SessionError::Memory => Refusal::Memory,
        SessionError::Refused(error) => of_tree(error),
    }
}

/// The basis of the set, as the place at which a session starts.
fn start_of(alloc: Global, set: &MarkedSet) -> Result<BasisState, Refusal>
    ensures ok { IfOk result (IsReducedAsRead set.now) }
    ensures err { (pairs : ℕ) → IfErr result (IsUnopened pairs set.now) }
{
    let basis = match reduced_basis(alloc, set, 0) {
        Ok(basis) => basis,
        Err(error) => return Err(of_check(error)),
    };
    match BasisState::new(alloc, basis) {
        Ok(start) => Ok(start),
        Err(error) => Err(of_tree(error)),
    }
}

/// The text before the first line: the ring in a line, and what is printed for the first basis.
fn opening(alloc: Global, ring: &Ring, start: &BasisState) -> Result<Vec<u8>, AllocError>
    requires { start.now.variables ≡ length ring.now }
    ensures { IfOk result (λ text. IsOpening ring.now start.now text.items) }
{
    let mut text = Vec::new(alloc);
    Printer::ring(&mut text, ring)?;
    push_prompt(&mut text, ring, start.basis(), start.crossable(), 0)?;
    Ok(text)
}

/// Writes the opening, and holds the session.
fn talk<S: Source, K: Sink>(
    alloc: Global,
    ring: &Ring,
    start: BasisState,
    text: &[u8],
    pairs: u64,
    input: &mut S,
    output: &mut K,
) -> Result<(), Refusal>
    requires place { IsBasisState (length ring.now) start }
    requires opening { IsOpening ring.now start text.now }
    ensures held { OnOk result (IsSessionHeld ring.now start (input_seen (S.left input.old) (S.given input.old) (S.faults input.old))
        (input_seen (S.left input.new) (S.given input.new) (S.faults input.new)) (output_seen (K.held output.old) (K.faults output.old))
        (output_seen (K.held output.new) (K.faults output.new))) }
    ensures calm { OnOk result (K.faults output.new ≡ K.faults output.old) }
    ensures cut { IfErr result (IsSessionCutOff pairs ring.now start (input_seen (S.left input.old) (S.given input.old) (S.faults input.old))
        (input_seen (S.left input.new) (S.given input.new) (S.faults input.new)) (output_seen (K.held output.old) (K.faults output.old))
        (output_seen (K.held output.new) (K.faults output.new))) }
{
    match write_all(output, text) {
        Ok(()) => {
            let states = BasisStates { ring, pairs, alloc };
            match converse(alloc, &states, start, input, output) {
                Ok(()) => Ok(()),
                Err(error) => Err(of_session(error)),
            }
        }
        Err(WriteFault) => Err(Refusal::WriteFault),
    }
}

/// Holds a session over the bases of the ideal of a file's basis; `source` is the text of the file. It writes the ring in a line and the
/// lines for the basis. Then it reads lines, one byte with each read, and answers each line before it reads the next, until `q` or the end
/// of the input.
///
/// The set of the text is a reduced Gröbner basis for its marking, up to factors of its members and their order; it is printed monic and
/// arranged. For a basis the normals that a flip may cross are printed, each with its number, and how many crossings were not undone. A
/// number crosses to the basis on the other side; `u` goes back to the previous basis, by a flip back, which gives exactly that basis. Each
/// flip may settle `pairs` pairs.
///
/// # Errors
///
/// Before anything is written, and before the input is read:
///
/// - `Syntax`, `TooWide`, `UnknownName`, `TooManyVariables` if and only if `source` isn't the text of a ring and of a set in it: at the
///   first token after which no such text continues. `ZeroPolynomial` if all terms of a polynomial of the set cancel: the index of the
///   first one.
/// - `Inconsistent`, `NotReduced`, `NotBasis` if and only if the set isn't such a basis, each with the first place, unless numbers of the
///   checks don't fit.
///
/// In the session, at the end of a piece, so that each line before the last one has its answer and nothing of the answer to the last one is
/// written:
///
/// - `ReadFault`: a read failed.
/// - `InputTooLong` if and only if more than 67,108,864 bytes were read.
///
/// And at any time:
///
/// - `Overflow`, `ExponentOverflow`, `ConeOverflow`: the operands of an operation of the text or the checks don't fit; or those of a flip
///   across a facet of a basis to which the last line refers, or of the system that decides whether a flip may cross it.
/// - `PairBudget`: such a flip has more pairs to settle.
/// - `WriteFault`: a write failed, or wrote nothing; a prefix of the transcript is written.
/// - `Memory`: memory runs out.
pub fn perform<S: Source, K: Sink>(
    alloc: Global,
    source: &[u8],
    pairs: u64,
    input: &mut S,
    output: &mut K,
) -> Result<(), Refused>
    ensures done { OnOk result (IsConversed source.now (input_seen (S.left input.old) (S.given input.old) (S.faults input.old))
        (input_seen (S.left input.new) (S.given input.new) (S.faults input.new)) (output_seen (K.held output.old) (K.faults output.old))
        (output_seen (K.held output.new) (K.faults output.new))) }
    ensures stopped { (name : List ℕ) → IfErr result (λ e. IsNotConversed name pairs source.now
        (input_seen (S.left input.old) (S.given input.old) (S.faults input.old)) (input_seen (S.left input.new) (S.given input.new) (S.faults input.new))
        (output_seen (K.held output.old) (K.faults output.old)) (output_seen (K.held output.new) (K.faults output.new)) e.refusal) }
    ensures told { IfErr result (IsOfSource source.now) }
{
    let RingAndMarked { ring, set } = ring_and_marked(alloc, source)?;
    let start = match start_of(alloc, &set) {
        Ok(start) => start,
        Err(refusal) => {
            return Err(Refused {
                refusal,
                ring: Some(ring),
            });
        }
    };
    let text = opening(alloc, &ring, &start)?;
    match talk(alloc, &ring, start, &text, pairs, input, output) {
        Ok(()) => Ok(()),
        Err(refusal) => Err(Refused {
            refusal,
            ring: Some(ring),
        }),
    }
}
