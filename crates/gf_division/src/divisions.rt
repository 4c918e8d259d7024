//! Division with cofactors.

ghost use Rattle.std.specs.Prelude.{◌≡◌, ◌<◌, ◌++◌, [], length, replicate, IfOk, IfErr, OnOk};
ghost use Rattle.gf_poly.specs.Polynomial.{SamePolynomial, HasVariables, KeepsVariables, IsDescending};
ghost use Rattle.gf_ideal_theory.specs.Marks.{HasPositiveWeight};
ghost use Rattle.gf_ideal_theory.specs.NormalForms.{IsNormalForm};
ghost use Rattle.gf_division.specs.Steps.{IsReductionRefusal};
ghost use Rattle.gf_division.specs.NormalForms.{HasSomeWeight, HaveSameVariables};
ghost use Rattle.gf_division.specs.Divisions.{cofactor_sum, AreForms, HaveVariablesOf, IsDivisionByRule, AreCofactors, AreSums, KeepForms, IsDivisionRefusal};
ghost use Rattle.gf_division.specs.Divisions.{IsSumRefusal, with_quotient, lists_of};

use crate::dividend::Dividend;
use crate::reducers::seek;
use gf_poly::{Marked, MarkedSet, Poly, PolyError, Polys, Term};
use std::alloc::{AllocError, Global};

/// What a division gives.
#[derive(Drop)]
pub struct Division {
    /// What is left: no marked monomial divides a monomial of it.
    pub remainder: Poly,
    /// One polynomial for each member of the set.
    pub cofactors: Polys,
}

/// No quotients yet, for as many members.
fn no_quotient(alloc: Global, members: usize) -> Result<Vec<Vec<Term>>, AllocError>
    ensures { IfOk result (λ qs. lists_of qs.items ≡ replicate members []) }
{
    let mut lists = Vec::with_capacity(alloc, members)?;
    'members: for _ in 0..members {
        lists.push(Vec::new(alloc))?;
    }
    Ok(lists)
}

/// Adds a quotient of the member at the index k.
fn add_quotient(lists: &mut Vec<Vec<Term>>, k: usize, quotient: Term) -> Result<(), AllocError>
    requires { k < length lists.old.items }
    ensures { OnOk result (lists_of lists.new.items ≡ with_quotient (lists_of lists.old.items) k quotient) }
{
    let list = &mut lists[k];
    list.push(quotient)?;
    Ok(())
}

/// The sums of the quotients.
fn sums(alloc: Global, lists: Vec<Vec<Term>>) -> Result<Vec<Poly>, PolyError>
    ensures value { IfOk result (λ hs. AreSums (lists_of lists.items) hs.items) }
    ensures forms { IfOk result (λ hs. KeepForms (lists_of lists.items) hs.items) }
    ensures cause { IfErr result (IsSumRefusal (lists_of lists.items)) }
{
    let mut cofactors = Vec::with_capacity(alloc, lists.len())?;
    'members: for list in lists {
        let cofactor = Poly::from_terms(list)?;
        cofactors.push(cofactor)?;
    }
    Ok(cofactors)
}

/// What is left of `f`, and the quotients of the steps that the rule takes.
fn divided(alloc: Global, f: Poly, by: &[Marked]) -> Result<(Poly, Vec<Vec<Term>>), PolyError>
    requires marked { HasSomeWeight by.now }
    requires variables { HaveSameVariables f by.now }
    ensures remainder { IfOk result (λ d. IsNormalForm by.now f d.0) }
    ensures descending { IfOk result (λ d. IsDescending d.0) }
    ensures variables { IfOk result (λ d. KeepsVariables f d.0) }
    ensures quotients { IfOk result (λ d. IsDivisionByRule by.now f (lists_of d.1.items) d.0) }
    ensures forms { IfOk result (λ d. HaveVariablesOf f (lists_of d.1.items)) }
    ensures cause { IfErr result (IsReductionRefusal by.now f) }
{
    let mut rest = Dividend::new(alloc, f);
    let mut lists = no_quotient(alloc, by.len())?;
    'steps: while let Some(j) = seek(&mut rest, by, &None)? {
        let member = &by[j];
        let quotient = rest.step(member)?;
        add_quotient(&mut lists, j, quotient)?;
    }
    Ok((rest.into_poly()?, lists))
}

/// The division of `f` by the set: `f` is the remainder plus the sum of the cofactors times the members.
///
/// The remainder is the normal form of `f`. Each step of it that takes a term of `f` away by a member adds the quotient
/// of that term by the marked monomial to the cofactor of the member. The marked coefficients are 1, and some positive
/// weight sets each marked monomial above the other ones of its polynomial.
///
/// # Errors
///
/// `Overflow` and `Exponent` only where two numbers of a step by the set, from a polynomial that such steps lead to,
/// don't fit, or `Overflow` where the sum of two quotients of one cofactor at one monomial doesn't; it holds them.
pub fn divide(alloc: Global, f: &Poly, by: &MarkedSet) -> Result<Division, PolyError>
    requires marked { HasPositiveWeight by.now.variables by.now.items }
    requires variables { HasVariables by.now.variables f.now }
    ensures sum { IfOk result (λ d. SamePolynomial f.now (d.remainder ++ cofactor_sum d.cofactors by.now.items)) }
    ensures remainder { IfOk result (λ d. IsNormalForm by.now.items f.now d.remainder) }
    ensures descending { IfOk result (λ d. IsDescending d.remainder) }
    ensures variables { IfOk result (λ d. HasVariables by.now.variables d.remainder) }
    ensures cofactors { IfOk result (λ d. AreCofactors by.now.items f.now d.remainder d.cofactors) }
    ensures indices { IfOk result (λ d. length d.cofactors ≡ length by.now.items) }
    ensures forms { IfOk result (λ d. AreForms by.now.variables d.cofactors) }
    ensures cause { IfErr result (IsDivisionRefusal by.now.items f.now) }
{
    let (remainder, quotients) = divided(alloc, f.copy()?, by.items())?;
    let cofactors = Polys::new(sums(alloc, quotients)?);
    Ok(Division {
        remainder,
        cofactors,
    })
}
