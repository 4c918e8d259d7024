//! Whether a marking has a positive weight.
ghost use Rattle.std.specs.Prelude.{◌≡◌, ◌↔◌, [], IfOk, IfErr, IsTrue};
ghost use Rattle.gf_gordan.specs.Alternative.{AreRows};
ghost use Rattle.gf_gordan.specs.Steps.{Failed};
ghost use Rattle.gf_poly.specs.Marking.{Each, HasMarkedTerm};
ghost use Rattle.gf_ideal_theory.specs.Marks.{IsRealisable};
ghost use Rattle.gf_reduced.specs.Markings.{GivesMarks, IsWeightAnswer, IsMarkingStep, system_beside, IsRealisableBeside, IsAnswerBeside, IsStepBeside};
ghost use Rattle.gf_reduced.specs.Refusals.{IsSetWeightRefusal, IsSystemWithinLimits, IsWeightRefusalBeside};
ghost use Rattle.gf_reduced.specs.declared.error.CheckError.TheVariants.{Memory};

use crate::error::CheckError;
use gf_cone::{rows, with_copies, with_units};
use gf_gordan::{Answer, GordanError, gordans_alternative, strict};
use gf_poly::MarkedSet;
use gf_vec::IntVec;
use std::alloc::{AllocError, Global};

/// The rows of the marking, polynomial by polynomial, and within one in the order of its terms; then these rows; then the unit vectors.
fn system(alloc: Global, marked: &MarkedSet, beside: &[IntVec]) -> Result<Vec<IntVec>, AllocError>
    ensures rows { IfOk result (λ all. all.items ≡ system_beside marked.now.variables beside.now marked.now.items) }
    ensures marked { IfOk result (λ _. Each HasMarkedTerm marked.now.items) }
{
    let all = with_copies(rows(alloc, marked)?, beside)?;
    with_units(alloc, all, marked.variables() as usize)
}

/// A positive weight that gives the marking and on which each of the given rows is positive, or multipliers which show that there is none.
///
/// # Errors
/// `Cone`: a step of the elimination of the system, the marking's rows, then the given rows, then the unit vectors, leaves its range.
/// `Memory`: memory runs out.
fn weight_beside(
    alloc: Global,
    marked: &MarkedSet,
    beside: &[IntVec],
) -> Result<Answer, GordanError>
    requires { AreRows marked.now.variables beside.now }
    ensures ok { IfOk result (IsAnswerBeside marked.now.variables beside.now marked.now.items) }
    ensures marked { IfOk result (λ _. Each HasMarkedTerm marked.now.items) }
    ensures err { IfErr result (Failed (IsStepBeside marked.now.variables beside.now marked.now.items)) }
{
    // Exactly one of the two answers exists.
    gordans_alternative();
    // The members have their variables.
    let _ = marked.items();
    let all = system(alloc, marked, beside)?;
    let answer = strict(alloc, marked.variables(), &all, &[])?;
    Ok(answer)
}

/// A positive weight that gives the marking, or multipliers which show that there is none.
///
/// # Errors
/// `Cone`: a step of the elimination of the marking's system, its rows and then the unit vectors, leaves its range. `Memory`: memory runs
/// out.
fn weight_or_none(alloc: Global, marked: &MarkedSet) -> Result<Answer, GordanError>
    ensures ok { IfOk result (IsWeightAnswer marked.now.variables marked.now.items) }
    ensures err { IfErr result (Failed (IsMarkingStep marked.now.variables marked.now.items)) }
{
    // The members have their variables.
    let _ = marked.items();
    weight_beside(alloc, marked, &[])
}

/// Whether some positive weight gives the marking.
///
/// # Errors
///
/// `Cone`: a step of the elimination of the marking's system, its rows and then the unit vectors, leaves its range. `Memory`: memory runs
/// out.
pub(crate) fn has_weight(alloc: Global, marked: &MarkedSet) -> Result<bool, GordanError>
    ensures ok { IfOk result (λ r. IsTrue r ↔ IsRealisable marked.now.variables marked.now.items) }
    ensures err { IfErr result (Failed (IsMarkingStep marked.now.variables marked.now.items)) }
{
    let answer = weight_or_none(alloc, marked)?;
    match answer {
        Answer::Point(_) => Ok(true),
        Answer::Farkas { .. } => Ok(false),
    }
}

/// A positive integer vector that gives the marking, with an entry for each variable: by it each marked monomial weighs more than the other
/// ones of its polynomial. `set` is the number by which an error names the set.
///
/// # Errors
///
/// - `Inconsistent` if and only if there is no such vector, with multipliers that show it: of the marking's rows (each marked exponent
///   vector minus an unmarked one, polynomial by polynomial, in the order of the terms) and then of the unit vectors. None is negative, not
///   all are zero, the combination is the zero vector, and their content is 1 (Gordan's alternative).
/// - `Cone`: a step of the elimination of the system of these rows and unit vectors leaves its range; it holds the operands.
/// - `Memory`: memory runs out.
#[tactic(auto, using(crate::proofs::RefusalLaws::weight_only_memory))]
pub fn positive(alloc: Global, marked: &MarkedSet, set: u32) -> Result<IntVec, CheckError>
    ensures ok { IfOk result (GivesMarks marked.now.variables marked.now.items) }
    ensures realisable { IfOk result (λ _. IsRealisable marked.now.variables marked.now.items) }
    ensures err { IfErr result (IsSetWeightRefusal set marked.now) }
    ensures complete { IsRealisable marked.now.variables marked.now.items
        → IsSystemWithinLimits marked.now → IfErr result (λ e. e ≡ Memory) }
{
    let answer = weight_or_none(alloc, marked)?;
    match answer {
        Answer::Point(vector) => Ok(vector),
        Answer::Farkas {
            rows: multipliers,
            equations: _none,
        } => Err(CheckError::Inconsistent { set, multipliers }),
    }
}

/// A positive integer vector that gives the marking, and on which each of the given rows, with an entry for each variable, is positive.
///
/// # Errors
///
/// - `Inconsistent` if and only if there is no such vector, with the number `set` and multipliers that show it: of the marking's rows, of
///   the given rows, and then of the unit vectors.
/// - `Cone`: a step of the elimination of the system of all these rows leaves its range.
/// - `Memory`: memory runs out.
pub(crate) fn positive_beside(
    alloc: Global,
    marked: &MarkedSet,
    set: u32,
    beside: &[IntVec],
) -> Result<IntVec, CheckError>
    requires { AreRows marked.now.variables beside.now }
    ensures ok { IfOk result (λ _. IsRealisableBeside marked.now.variables beside.now marked.now.items) }
    ensures err { IfErr result (IsWeightRefusalBeside beside.now set marked.now) }
{
    let answer = weight_beside(alloc, marked, beside)?;
    match answer {
        Answer::Point(vector) => Ok(vector),
        Answer::Farkas {
            rows: multipliers,
            equations: _none,
        } => Err(CheckError::Inconsistent { set, multipliers }),
    }
}
