//! The public calls, and the law that makes their answers exact.
//!
//! `strict` asks the pivoting engine first, whose candidate is judged by exact arithmetic; where it has none that is right,
//! the system is solved by elimination from the start. With few columns and few rows elimination is the quicker one, and comes
//! first. So an answer is exact whatever the engine does, and a refusal is an operation of the elimination.
ghost use Rattle.std.specs.Prelude.{◌≡◌, ◌≤◌, ◌+◌, IfOk, IfErr, IfSome, length};
ghost use Rattle.gf_gordan.specs.declared.error.GordanError.TheVariants.{Memory};
ghost use Rattle.gf_gordan.specs.Alternative.{AreRows, GordansAlternative};
ghost use Rattle.gf_gordan.specs.Answers.{IsAlternative};
ghost use Rattle.gf_gordan.specs.Steps.{Failed};
ghost use Rattle.gf_gordan.specs.Equations.{IsStepOn};
ghost use Rattle.gf_gordan.specs.Sizes.{HaveEntriesUpTo};

use crate::answer::Answer;
use crate::check::{is_refutation, is_solution};
use crate::error::GordanError;
use crate::found::Found;
use crate::pivoting::candidate;
use crate::recursion::solve;
use crate::small::small_candidate;
use crate::workspace::Workspace;
use gf_vec::{IntVec, VecError};
use std::alloc::{AllocError, Global};

/// With at most so many columns, and at most `FEW_ROWS` rows, elimination is quicker than the pivoting engine.
const FEW_COLUMNS: u32 = 3;

/// With more rows the pivoting engine is quicker, however few columns there are.
const FEW_ROWS: usize = 40;

/// A solution or multipliers, by elimination.
///
/// # Errors
/// An operation that leaves the range; want of memory.
fn eliminated(
    alloc: Global,
    n: u32,
    rows: &[IntVec],
    equations: &[IntVec],
) -> Result<Answer, GordanError>
    requires rows { AreRows n rows.now }
    requires equations { AreRows n equations.now }
    ensures ok { IfOk result (IsAlternative n rows.now equations.now) }
    ensures err { IfErr result (Failed (IsStepOn (length rows.now + length equations.now) n rows.now equations.now)) }
{
    let all = (rows.len() + equations.len()) as u64;
    let found = solve(&mut Workspace::new(alloc), all, n as usize, rows, equations)?;
    match found {
        Found::Point(v) => Ok(Answer::Point(v)),
        Found::Farkas(ms) => {
            let (first, second) = ms.as_slice().split_at(rows.len());
            let rows = IntVec::from_slice(alloc, first)?;
            let equations = IntVec::from_slice(alloc, second)?;
            Ok(Answer::Farkas { rows, equations })
        }
    }
}

/// What `strict` answers, by elimination alone.
///
/// Each row and equation has `n` entries.
///
/// # Errors
/// `Cone` names an operation of the elimination that leaves the range; with at most three columns and entries of at most
/// 500 in absolute value there is none. `Memory` may come at any time.
pub fn strict_plain(
    alloc: Global,
    n: u32,
    rows: &[IntVec],
    equations: &[IntVec],
) -> Result<Answer, GordanError>
    requires rows { AreRows n rows.now }
    requires equations { AreRows n equations.now }
    ensures ok { IfOk result (IsAlternative n rows.now equations.now) }
    ensures err { IfErr result (Failed (IsStepOn (length rows.now + length equations.now) n rows.now equations.now)) }
    ensures three_columns { n ≤ 3 → HaveEntriesUpTo 500 rows.now → HaveEntriesUpTo 500 equations.now → IfErr result (λ e. e ≡ Memory) }
{
    eliminated(alloc, n, rows, equations)
}

/// The answer that a candidate is, divided by its content, where it is one.
///
/// # Errors
/// An operation that leaves the range; want of memory.
fn judged(
    alloc: Global,
    n: usize,
    rows: &[IntVec],
    equations: &[IntVec],
    candidate: Found,
) -> Result<Option<Answer>, VecError>
    requires rows { AreRows n rows.now }
    requires equations { AreRows n equations.now }
    ensures { IfOk result (λ a. IfSome a (IsAlternative n rows.now equations.now)) }
{
    match candidate {
        Found::Point(mut v) => {
            v.primitive();
            if v.as_slice().len() == n && is_solution(rows, equations, v.as_slice())? {
                return Ok(Some(Answer::Point(v)));
            }
            Ok(None)
        }
        Found::Farkas(mut multipliers) => {
            multipliers.primitive();
            let whole = multipliers.as_slice();
            if whole.len() < rows.len() || whole.len() - rows.len() != equations.len() {
                return Ok(None);
            }
            let (ms, es) = whole.split_at(rows.len());
            if is_refutation(alloc, n, rows, equations, ms, es)? {
                let rows = IntVec::from_slice(alloc, ms)?;
                let equations = IntVec::from_slice(alloc, es)?;
                return Ok(Some(Answer::Farkas { rows, equations }));
            }
            Ok(None)
        }
    }
}

/// The answer that a candidate of the pivoting engine is, if there is one and it is right.
fn answered(
    alloc: Global,
    n: usize,
    rows: &[IntVec],
    equations: &[IntVec],
    candidate: Result<Option<Found>, AllocError>,
) -> Option<Answer>
    requires rows { AreRows n rows.now }
    requires equations { AreRows n equations.now }
    ensures { IfSome result (IsAlternative n rows.now equations.now) }
{
    match candidate {
        Ok(Some(found)) => match judged(alloc, n, rows, equations, found) {
            Ok(answer) => answer,
            Err(_error) => None,
        },
        _ => None,
    }
}

/// The answer that the pivoting engine finds, on small numbers or else on larger ones, if it finds one.
fn pivoted(alloc: Global, n: usize, rows: &[IntVec], equations: &[IntVec]) -> Option<Answer>
    requires rows { AreRows n rows.now }
    requires equations { AreRows n equations.now }
    ensures { IfSome result (IsAlternative n rows.now equations.now) }
{
    let small = small_candidate(alloc, n, rows, equations);
    if let Some(answer) = answered(alloc, n, rows, equations, small) {
        return Some(answer);
    }
    answered(
        alloc,
        n,
        rows,
        equations,
        candidate(alloc, n, rows, equations),
    )
}

/// A vector on which every row is positive and every equation zero, or multipliers that show that there is none.
///
/// Each row and equation has `n` entries. The answer is `Point` with such a vector, or `Farkas`: a multiplier of each row,
/// none negative and not all zero, and a multiplier of each equation, which together give the zero vector and are divided
/// by their content (Gordan's alternative). `gordans_alternative` says that exactly one of the two exists.
///
/// # Errors
/// `Cone` names an operation of the elimination that leaves the range; with at most three columns and entries of at most
/// 500 in absolute value there is none. `Memory` may come at any time.
pub fn strict(
    alloc: Global,
    n: u32,
    rows: &[IntVec],
    equations: &[IntVec],
) -> Result<Answer, GordanError>
    requires rows { AreRows n rows.now }
    requires equations { AreRows n equations.now }
    ensures ok { IfOk result (IsAlternative n rows.now equations.now) }
    ensures err { IfErr result (Failed (IsStepOn (length rows.now + length equations.now) n rows.now equations.now)) }
    ensures three_columns { n ≤ 3 → HaveEntriesUpTo 500 rows.now → HaveEntriesUpTo 500 equations.now → IfErr result (λ e. e ≡ Memory) }
{
    if n > FEW_COLUMNS || rows.len() > FEW_ROWS {
        return match pivoted(alloc, n as usize, rows, equations) {
            Some(answer) => Ok(answer),
            None => strict_plain(alloc, n, rows, equations),
        };
    }
    match strict_plain(alloc, n, rows, equations) {
        Err(GordanError::Cone(step)) => match pivoted(alloc, n as usize, rows, equations) {
            Some(answer) => Ok(answer),
            None => Err(GordanError::Cone(step)),
        },
        answer => answer,
    }
}

/// What `strict` answers, where a guess of the caller's is judged first.
///
/// A guess of any length is taken; one that isn't right costs time and changes nothing else.
///
/// # Errors
/// Those of `strict`.
pub fn strict_guessed(
    alloc: Global,
    n: u32,
    rows: &[IntVec],
    equations: &[IntVec],
    guess: Option<Found>,
) -> Result<Answer, GordanError>
    requires rows { AreRows n rows.now }
    requires equations { AreRows n equations.now }
    ensures ok { IfOk result (IsAlternative n rows.now equations.now) }
    ensures err { IfErr result (Failed (IsStepOn (length rows.now + length equations.now) n rows.now equations.now)) }
    ensures three_columns { n ≤ 3 → HaveEntriesUpTo 500 rows.now → HaveEntriesUpTo 500 equations.now → IfErr result (λ e. e ≡ Memory) }
{
    if let Some(found) = guess
        && let Ok(Some(answer)) = judged(alloc, n as usize, rows, equations, found)
    {
        return Ok(answer);
    }
    strict(alloc, n, rows, equations)
}

/// Gordan's alternative: each system has a solution or Farkas multipliers, and none has both.
///
/// It does nothing; its contract is the law.
pub fn gordans_alternative()
    ensures { GordansAlternative }
{}
