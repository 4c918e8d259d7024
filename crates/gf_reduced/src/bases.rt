//! Whether a marked set is a Gröbner basis for its marking, and whether it is the reduced one.
ghost use Rattle.std.specs.Prelude.{◌≡◌, ◌↔◌, ◌<◌, ◌^◌, [], length, IfOk, IfErr, OnOk, IsTrue};
ghost use Rattle.gf_gordan.specs.Alternative.{AreRows};
ghost use Rattle.gf_poly.specs.Marking.{IsArranged};
ghost use Rattle.gf_division.specs.NormalForms.{HasSomeWeight};
ghost use Rattle.gf_reduced.specs.Forms.{monic_set};
ghost use Rattle.gf_reduced.specs.Markings.{IsMarkedGroebnerBasis, IsBasisOf, IsReducedBasisOf, IsRealisableBeside};
ghost use Rattle.gf_reduced.specs.Pairs.{MembersShareVariables};
ghost use Rattle.gf_reduced.specs.Criteria.{AreAllPassed};
ghost use Rattle.gf_reduced.specs.Terms.{AreReduced};
ghost use Rattle.gf_reduced.specs.Refusals.{IsTestRefusal, IsReducedBasisRefusal, IsReducedRefusal, IsReducedRefusalBeside, IsPairsFault, IsTermsFault};
ghost use Rattle.gf_reduced.specs.Refusals.{AreChecksWithinLimits, AreChecksWithinLimitsBeside};
ghost use Rattle.gf_reduced.specs.declared.error.CheckError.TheVariants.{Memory};

use crate::criteria::are_all_passed;
use crate::error::CheckError;
use crate::forms::monic_forms;
use crate::pairs::first_failing;
use crate::terms::first_offending;
use crate::weights::{has_weight, positive, positive_beside};
use gf_poly::{Marked, MarkedSet};
use gf_vec::IntVec;
use std::alloc::Global;

/// Whether the set is a Gröbner basis of the ideal that it generates, for its marking: some positive weight sets each marked monomial above
/// the other ones of its polynomial, and for each member of the ideal each of its monomials of greatest weight is divisible by a marked
/// monomial. Marked coefficients may be any nonzero fractions.
///
/// The answer doesn't depend on which weight gives the marking (Fukuda, Jensen, Thomas, *Computing Gröbner fans*, 2). The test is
/// Buchberger's criterion, without the pairs whose marks are coprime, and without those whose least common multiple is divisible by the
/// mark of a member before both.
///
/// # Errors
///
/// - `Cone`: a step of the elimination of the marking's system, its rows and then the unit vectors, leaves its range.
/// - `Overflow`, `Exponent`: there is such a weight, and the operands of a division that makes a member monic, of an S-polynomial of two
///   monic members, or of a step of its reduction don't fit.
/// - `Memory`: memory runs out.
#[tactic(auto, using(crate::proofs::RefusalLaws::test_only_memory))]
pub fn is_marked_basis(alloc: Global, marked: &MarkedSet) -> Result<bool, CheckError>
    ensures ok { IfOk result (λ r. IsTrue r ↔ IsMarkedGroebnerBasis marked.now.variables marked.now.items) }
    ensures err { IfErr result (IsTestRefusal marked.now) }
    ensures complete { AreChecksWithinLimits marked.now → IfErr result (λ e. e ≡ Memory) }
{
    // The members have their variables.
    let _ = marked.items();
    if !has_weight(alloc, marked)? {
        return Ok(false);
    }
    let forms = monic_forms(alloc, marked)?;
    let are = are_all_passed(alloc, forms.items())?;
    Ok(are)
}

/// Refuses a set with a pair whose S-polynomial has a nonzero normal form. The pairs that no criterion settles decide whether there is one;
/// only if there is, all pairs are visited in order to find the first.
fn require_pairs(alloc: Global, by: &[Marked], set: u32) -> Result<(), CheckError>
    requires few { length by.now < 2 ^ 32 }
    requires marked { HasSomeWeight by.now }
    requires variables { MembersShareVariables by.now }
    ensures ok { OnOk result (AreAllPassed by.now) }
    ensures err { IfErr result (IsPairsFault set by.now) }
{
    if are_all_passed(alloc, by)? {
        return Ok(());
    }
    match first_failing(alloc, by)? {
        None => Ok(()),
        Some(pair) => Err(CheckError::NotBasis {
            set,
            first: pair.first as u32,
            second: pair.second as u32,
            remainder: pair.remainder,
        }),
    }
}

/// Refuses a set with a term that is divisible by a mark.
fn require_terms(by: &[Marked], set: u32) -> Result<(), CheckError>
    requires few { length by.now < 2 ^ 32 }
    requires variables { MembersShareVariables by.now }
    ensures ok { OnOk result (AreReduced by.now) }
    ensures err { IfErr result (IsTermsFault set by.now) }
{
    match first_offending(by) {
        None => Ok(()),
        Some(found) => Err(CheckError::NotReduced {
            set,
            polynomial: found.polynomial as u32,
            term: found.term,
        }),
    }
}

/// The monic form of a marked set, arranged, if the set is a Gröbner basis of its ideal for its marking: each polynomial is divided by its
/// marked coefficient, and the polynomials are in the order of the program. The set has fewer than `2^32` polynomials, and `set` is the
/// number by which an error names it.
///
/// # Errors
///
/// In this order:
///
/// - `Overflow`: the quotient of a coefficient by the marked one leaves its range.
/// - `Inconsistent` if and only if no positive weight gives the marking, with multipliers of the marking's rows and then of the unit
///   vectors that show it; `Cone` if a step of the elimination of this system leaves its range.
/// - `NotBasis` if and only if the S-polynomial of two of the monic polynomials has a nonzero normal form: the first such pair, by the
///   index of the first polynomial and then by that of the second, with the normal form. `Overflow` or `Exponent` if the operands of an
///   operation of these S-polynomials and their reductions don't fit.
///
/// `Memory`, at any time: memory runs out.
pub fn require_basis(alloc: Global, marked: &MarkedSet, set: u32) -> Result<MarkedSet, CheckError>
    requires { length marked.now.items < 2 ^ 32 }
    ensures value { IfOk result (IsArranged (monic_set marked.now)) }
    ensures basis { IfOk result (IsBasisOf marked.now) }
    ensures err { IfErr result (IsReducedBasisRefusal set marked.now) }
    ensures complete { AreChecksWithinLimits marked.now
        → IsMarkedGroebnerBasis marked.now.variables marked.now.items → IfErr result (λ e. e ≡ Memory) }
{
    // The members have their variables.
    let _ = marked.items();
    let forms = monic_forms(alloc, marked)?;
    let _ = positive(alloc, marked, set)?;
    require_pairs(alloc, forms.items(), set)?;
    let arranged = forms.arrange()?;
    Ok(arranged)
}

/// What `require_reduced` returns.
fn reduced(
    alloc: Global,
    marked: &MarkedSet,
    set: u32,
    rows: &[IntVec],
) -> Result<MarkedSet, CheckError>
    requires few { length marked.now.items < 2 ^ 32 }
    requires rows { AreRows marked.now.variables rows.now }
    ensures value { IfOk result (IsArranged (monic_set marked.now)) }
    ensures basis { IfOk result (IsReducedBasisOf marked.now) }
    ensures terms { IfOk result (λ _. AreReduced marked.now.items) }
    ensures weight { IfOk result (λ _. IsRealisableBeside marked.now.variables rows.now marked.now.items) }
    ensures err { IfErr result (IsReducedRefusalBeside rows.now set marked.now) }
    ensures alone { rows.now ≡ [] → IfErr result (IsReducedRefusal set marked.now) }
{
    // The members have their variables.
    let _ = marked.items();
    let forms = monic_forms(alloc, marked)?;
    let _ = positive_beside(alloc, marked, set, rows)?;
    require_terms(marked.items(), set)?;
    require_pairs(alloc, forms.items(), set)?;
    let arranged = forms.arrange()?;
    Ok(arranged)
}

/// The monic form of a marked set, arranged, if the set is the reduced Gröbner basis of its ideal for its marking, up to factors of its
/// members and their order, and some positive weight gives the marking on which each of the rows is positive: each polynomial is divided by
/// its marked coefficient, and the polynomials are in the order of the program. The set has fewer than `2^32` polynomials, each row has an
/// entry for each variable, and `set` is the number by which an error names the set.
///
/// # Errors
///
/// In this order:
///
/// - `Overflow`: the quotient of a coefficient by the marked one leaves its range.
/// - `Inconsistent` if and only if no such weight gives the marking, with multipliers of the marking's rows, of the given rows, and then of
///   the unit vectors that show it; `Cone` if a step of the elimination of this system leaves its range.
/// - `NotReduced` if and only if a marked monomial divides a term of another polynomial, or an unmarked term of its own: the first
///   polynomial with such a term, and its first such term, where the marked term comes first and the others follow in descending deglex
///   order.
/// - `NotBasis` if and only if the S-polynomial of two of the monic polynomials has a nonzero normal form: the first such pair, by the
///   index of the first polynomial and then by that of the second, with the normal form. `Overflow` or `Exponent` if the operands of an
///   operation of these S-polynomials and their reductions don't fit.
///
/// `Memory`, at any time: memory runs out.
pub fn require_reduced(
    alloc: Global,
    marked: &MarkedSet,
    set: u32,
    rows: &[IntVec],
) -> Result<MarkedSet, CheckError>
    requires few { length marked.now.items < 2 ^ 32 }
    requires rows { AreRows marked.now.variables rows.now }
    ensures value { IfOk result (IsArranged (monic_set marked.now)) }
    ensures basis { IfOk result (IsReducedBasisOf marked.now) }
    ensures terms { IfOk result (λ _. AreReduced marked.now.items) }
    ensures weight { IfOk result (λ _. IsRealisableBeside marked.now.variables rows.now marked.now.items) }
    ensures err { IfErr result (IsReducedRefusalBeside rows.now set marked.now) }
    ensures alone { rows.now ≡ [] → IfErr result (IsReducedRefusal set marked.now) }
    ensures complete { AreChecksWithinLimitsBeside rows.now marked.now
        → IsRealisableBeside marked.now.variables rows.now marked.now.items
        → IsMarkedGroebnerBasis marked.now.variables marked.now.items → AreReduced marked.now.items
        → IfErr result (λ e. e ≡ Memory) }
{
    // The members have their variables.
    let _ = marked.items();
    reduced(alloc, marked, set, rows)
}
