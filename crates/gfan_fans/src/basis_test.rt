//! The output of `_tropicalintersection --basistest` for an input.
ghost use Rattle.std.specs.Prelude.{◌≡◌, ◌∷◌, [], None, length, IfOk, IfErr};
ghost use Rattle.gf_text.specs.Sets.{AreIn};
ghost use Rattle.gf_frame.specs.Commands.{IsAnswerFor, IsUnanswered, IsAnswered, IsRefusedOn};
ghost use Rattle.gfan_common.specs.Refused.{IsOfSource};
ghost use Rattle.gfan_fans.specs.BasisTest.{of_initial, of_basis_test, basis_test_text, basis_test_command};

use crate::tropical::{nonzero_polynomials, of_tropical};
use gf_front::Refusal;
use gf_initial_monomials::InitialError;
use gf_items::{RingAndSet, ring_and_set};
use gf_text::{Printer, Ring, Written};
use gf_tropical_basis_test::{BasisTestError, Verdict, tropical_basis};
use gfan_common::checks::check_degrees;
use gfan_common::refused::{Refused, of_basis, of_tree};
use std::alloc::{AllocError, Global};
use std::thread::Threads;

/// The budget of pairs of each run of Buchberger's algorithm, and of each flip.
const PAIRS: u64 = 100_000_000;

/// The refusal at a basis and a cone, as one of the run.
fn of_initial(error: InitialError) -> Refusal
    ensures { result ≡ of_initial error }
{
    match error {
        InitialError::Cone(o) => Refusal::ConeOverflow {
            row: o.row,
            op: o.op,
            left: o.left,
            right: o.right,
        },
        InitialError::Wide(wide) => Refusal::WideVector(wide),
        InitialError::Entry { index, value } => Refusal::WideRoot {
            index: index as u64,
            value,
        },
        InitialError::Saturation(error) => of_basis(error),
        InitialError::Memory => Refusal::Memory,
    }
}

/// The refusal of the test, as one of the run.
fn of_basis_test(error: BasisTestError) -> Refusal
    ensures { result ≡ of_basis_test error }
{
    match error {
        BasisTestError::Prevariety(error) => of_tropical(error),
        BasisTestError::Root(error) => of_basis(error),
        BasisTestError::Search(error) => of_tree(error),
        BasisTestError::Initial(error) => of_initial(error),
        BasisTestError::Memory => Refusal::Memory,
    }
}

/// The text of a verdict: `1`; or `0`, and the vector on the next line.
fn verdict_text(alloc: Global, verdict: &Verdict) -> Result<Vec<u8>, AllocError>
    ensures { IfOk result (λ text. text.items ≡ basis_test_text verdict.now) }
{
    let mut text = Vec::new(alloc);
    match verdict {
        Verdict::Yes => text.extend_from_slice(b"1\n")?,
        Verdict::No(v) => {
            text.extend_from_slice(b"0\n")?;
            Printer::vector(&mut text, v)?;
            text.push(b'\n')?;
        }
    }
    Ok(text)
}

/// The output for what is read.
fn text_of<R: Threads + Sync>(
    rt: &R,
    alloc: Global,
    ring: &Ring,
    set: Vec<Written>,
) -> Result<Vec<u8>, Refusal>
    requires { AreIn (length ring.now) set.items }
    ensures ok { IfOk result (λ text. IsAnswerFor basis_test_command (ring.now, (set.items, None)) text.items) }
    ensures err { IfErr result (IsUnanswered basis_test_command (ring.now, (set.items, None))) }
{
    let n = ring.len();
    let list = nonzero_polynomials(alloc, n, set)?;
    check_degrees(true, &None, &list)?;
    let verdict = match tropical_basis(rt, alloc, n, &list, PAIRS) {
        Ok(verdict) => verdict,
        Err(error) => return Err(of_basis_test(error)),
    };
    let text = verdict_text(alloc, &verdict)?;
    Ok(text)
}

/// `1` and a line end if the polynomials of the source's set are a tropical basis of their ideal. Otherwise `0`, and in the next line a
/// vector of their tropical prevariety at which the initial ideal has a polynomial with a single term: the first one at which the test
/// arrives. Each run of Buchberger's algorithm, and each flip, may settle 100,000,000 pairs.
///
/// # Errors
///
/// - `Syntax`, `TooWide`, `UnknownName`, `TooManyVariables` if and only if the source isn't the text of a ring and of a set in it: at the
///   first token after which no such text continues.
/// - `ZeroPolynomial` if and only if all terms of a polynomial cancel: the index of the first one.
/// - `NotHomogeneous` if and only if no polynomial is zero and one isn't homogeneous: the index of the first one, its deglex greatest
///   monomial, and the first one after that of another degree.
/// - `Overflow`, `ExponentOverflow`: the operands of a sum of the text, or of an operation of a run or a flip, don't fit.
/// - `PairBudget`: a run or a flip has more pairs to settle.
/// - `ConeOverflow`: an operation leaves its range that finds the rays of a system of the prevariety, or those of the intersection of a
///   maximal cone of the prevariety with the closed cone of a basis; or one of the system of a normal does.
/// - `WideVector`: a partial sum of the rays of a face leaves the range.
/// - `WideRoot` for the first entry, of the first such vector at which the test arrives, that is greater than `2^63` in absolute value.
/// - `Memory`: memory runs out.
pub fn answer<R: Threads + Sync>(rt: &R, alloc: Global, source: &[u8]) -> Result<Vec<u8>, Refused>
    ensures ok { IfOk result (λ text. IsAnswered basis_test_command (source.now ∷ []) text.items) }
    ensures err { IfErr result (λ e. IsRefusedOn basis_test_command (source.now ∷ []) e.refusal) }
    ensures told { IfErr result (IsOfSource source.now) }
{
    let RingAndSet { ring, set, .. } = ring_and_set(alloc, source, false)?;
    match text_of(rt, alloc, &ring, set) {
        Ok(text) => Ok(text),
        Err(refusal) => Err(Refused {
            refusal,
            ring: Some(ring),
        }),
    }
}
