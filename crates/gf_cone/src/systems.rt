//! The system of a normal, solved.
ghost use Rattle.std.specs.Prelude.{◌≡◌, ◌<◌, ◌≤◌, ◌++◌, ◌<ℤ◌, ℤ, ◌∷◌, [], List, pos, neg_ℤ, length, All, IfOk, IfErr, IfSome, IsNone};
ghost use Rattle.gf_int_theory.specs.Range.{InRange};
ghost use Rattle.gf_vec.specs.Vector.{dot};
ghost use Rattle.gf_gordan.specs.Alternative.{AreRows, IsSolution, IsSolvable};
ghost use Rattle.gf_gordan.specs.Steps.{Failed};
ghost use Rattle.gf_gordan.specs.Sizes.{HaveEntriesUpTo};
ghost use Rattle.gf_gordan.specs.declared.error.GordanError.TheVariants.{Memory};
ghost use Rattle.gf_facets_theory.specs.Normals.{others_of};
ghost use Rattle.gf_cone.specs.Answers.{AnswersSystem, IsNormalStep};

use crate::answer::FlipAnswer;
use gf_gordan::{Answer, GordanError, strict};
use gf_vec::IntVec;
use std::alloc::{AllocError, Global};
use std::slice::from_ref;

/// The list, and copies of more vectors.
///
/// # Errors
/// Want of memory.
pub fn with_copies(list: Vec<IntVec>, from: &[IntVec]) -> Result<Vec<IntVec>, AllocError>
    ensures { IfOk result (λ more. more.items ≡ list.items ++ from.now) }
{
    let mut more = list;
    'copies: for i in 0..from.len() {
        more.push(from[i].copy()?)?;
    }
    Ok(more)
}

/// Copies of all vectors but that at an index.
///
/// # Errors
/// Want of memory.
pub(crate) fn others(
    alloc: Global,
    vectors: &[IntVec],
    at: usize,
) -> Result<Vec<IntVec>, AllocError>
    requires { at < length vectors.now }
    ensures { IfOk result (λ list. list.items ≡ others_of at vectors.now) }
{
    let (front, back) = vectors.split_at(at);
    let (_, rest) = back.split_at(1);
    let list = with_copies(Vec::with_capacity(alloc, vectors.len())?, front)?;
    with_copies(list, rest)
}

/// Minus a number.
fn negative(x: i128) -> i128
    requires { InRange x }
    ensures { result ≡ neg_ℤ x }
{
    -x
}

/// A vector that is positive on the rows and zero on the normal, or a multiple of the normal as a combination of the rows.
///
/// # Errors
/// `Cone` names a step of the system of the rows, with the normal as the one equation, that leaves the range; `Memory` may
/// come at any time.
pub(crate) fn solved(
    alloc: Global,
    n: u32,
    rows: &[IntVec],
    normal: &IntVec,
) -> Result<FlipAnswer, GordanError>
    requires widths { AreRows n rows.now }
    requires width { length normal.now ≡ n }
    requires positive { (w : List ℤ) × All (λ t. pos 0 <ℤ dot t w) rows.now × (pos 0 <ℤ dot normal.now w) }
    ensures ok { IfOk result (AnswersSystem n rows.now normal.now) }
    ensures err { IfErr result (Failed (IsNormalStep n rows.now normal.now)) }
    ensures three_columns { n ≤ 3 → HaveEntriesUpTo 500 rows.now → HaveEntriesUpTo 500 (normal.now ∷ []) → IfErr result (λ e. e ≡ Memory) }
{
    match strict(alloc, n, rows, from_ref(normal))? {
        Answer::Point(witness) => Ok(FlipAnswer::Yes { witness }),
        Answer::Farkas {
            rows: multipliers,
            equations,
        } => {
            let times = negative(equations.as_slice()[0]);
            Ok(FlipAnswer::No { times, multipliers })
        }
    }
}

/// A vector that is positive on the rows and zero on the normal, or none where there is none.
///
/// # Errors
/// `Cone` names a step of the system of the rows, with the normal as the one equation, that leaves the range; `Memory` may
/// come at any time.
pub(crate) fn solution_at(
    alloc: Global,
    n: u32,
    rows: &[IntVec],
    normal: &IntVec,
) -> Result<Option<IntVec>, GordanError>
    requires widths { AreRows n rows.now }
    requires width { length normal.now ≡ n }
    ensures yes { IfOk result (λ o. IfSome o (IsSolution n rows.now (normal.now ∷ []))) }
    ensures no { IfOk result (λ o. IsNone o → IsSolvable n rows.now (normal.now ∷ []) → ⊥) }
    ensures err { IfErr result (Failed (IsNormalStep n rows.now normal.now)) }
    ensures three_columns { n ≤ 3 → HaveEntriesUpTo 500 rows.now → HaveEntriesUpTo 500 (normal.now ∷ []) → IfErr result (λ e. e ≡ Memory) }
{
    match strict(alloc, n, rows, from_ref(normal))? {
        Answer::Point(witness) => Ok(Some(witness)),
        Answer::Farkas {
            rows: _multipliers,
            equations: _of_equations,
        } => Ok(None),
    }
}
