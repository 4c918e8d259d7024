//! Remainders: no mark divides a monomial of what is left. Each term is taken by the first member whose mark divides it, and then the
//! order in which terms are taken makes no difference to what is left. So a long reduction takes the greatest by an order in which
//! the marks are greatest: equal terms meet before they are reduced.

ghost use Rattle.std.specs.Prelude.{◌≡◌, IfOk, IfErr, IfSome, IsTrue, OnOk};
ghost use Rattle.gf_poly.specs.Polynomial.{IsDescending, KeepsVariables};
ghost use Rattle.gf_ideal_theory.specs.NormalForms.{IsNormalForm};
ghost use Rattle.gf_division.specs.Steps.{IsReductionRefusal};
ghost use Rattle.gf_division.specs.NormalForms.{HasSomeWeight, HaveSameVariables};
ghost use Rattle.gf_division.specs.Dividends.{split_of, joined_terms};
ghost use Rattle.gf_division.specs.Reducers.{AreIrreducible, ShareVariables, IsReducibleFirst};
ghost use Rattle.gf_division.specs.Remainders.{IsRemainder, IsWorkedOn, IsNextStep, IsWorkRefusal};
ghost use Rattle.gf_division.specs.Tables.{table_of, IsReducibleAt};

use crate::chains::stride;
use crate::dividend::Dividend;
use crate::front::Guide;
use crate::reducers::{reducer_of, seek};
use crate::table::Table;
use gf_poly::{Marked, Mono, Poly, PolyError, Term};
use std::alloc::{AllocError, Global};
use std::cmp::Ordering;

/// The first member that reduces the term at `x`, where the polynomial has one; the index is at that term then.
fn reducer_at(
    rest: &mut Dividend,
    x: &Mono,
    by: &[Marked],
    spared: &Option<Mono>,
) -> Result<Option<usize>, AllocError>
    requires variables { ShareVariables (split_of rest.old) by.now spared.now }
    ensures same { OnOk result (joined_terms (split_of rest.new) ≡ joined_terms (split_of rest.old)) }
    ensures found { IfOk result (λ o. IfSome o (IsReducibleFirst by.now spared.now (split_of rest.new))) }
{
    match rest.go_to(x)? {
        Ordering::Equal => {}
        _ => return Ok(None),
    }
    match rest.next() {
        Some(t) => {
            // Called for the proof alone: what `exponents` ensures says that each exponent is below 2^31, by which reductions
            // are shown to end.
            let _ = t.mono.exponents();
            Ok(reducer_of(&t.mono, by, spared))
        }
        None => Ok(None),
    }
}

/// The index goes to the foremost term that waits and that a member reduces; answers the index of the first such member.
fn next_waiting(
    alloc: Global,
    rest: &mut Dividend,
    by: &[Marked],
    spared: &Option<Mono>,
) -> Result<Option<usize>, AllocError>
    requires variables { ShareVariables (split_of rest.old) by.now spared.now }
    ensures same { OnOk result (joined_terms (split_of rest.new) ≡ joined_terms (split_of rest.old)) }
    ensures found { IfOk result (λ o. IfSome o (IsReducibleFirst by.now spared.now (split_of rest.new))) }
{
    'waiting: for _ in 0..rest.waiting() {
        let x = match rest.foremost(alloc) {
            Some(x) => x,
            None => continue,
        };
        let found = reducer_at(rest, &x, by, spared)?;
        if let Some(j) = found {
            return Ok(Some(j));
        }
    }
    Ok(None)
}

/// The index goes to the foremost term that waits and that a member reduces, and else to the first term that one reduces; answers
/// the index of the first such member.
fn next(
    alloc: Global,
    rest: &mut Dividend,
    by: &[Marked],
    spared: &Option<Mono>,
) -> Result<Option<usize>, AllocError>
    requires variables { ShareVariables (split_of rest.old) by.now spared.now }
    ensures same { OnOk result (joined_terms (split_of rest.new) ≡ joined_terms (split_of rest.old)) }
    ensures found { IfOk result (IsNextStep by.now spared.now (split_of rest.new)) }
{
    if let Some(j) = next_waiting(alloc, rest, by, spared)? {
        return Ok(Some(j));
    }
    rest.rewind()?;
    seek(rest, by, spared)
}

/// Steps by the rule, so many at most; whether no member reduces a term any more.
fn by_rule(
    alloc: Global,
    rest: &mut Dividend,
    by: &[Marked],
    spared: &Option<Mono>,
    most: u64,
) -> Result<bool, PolyError>
    requires variables { ShareVariables (split_of rest.old) by.now spared.now }
    requires above { AreIrreducible by.now spared.now (split_of rest.old).above }
    ensures worked { OnOk result (IsWorkedOn by.now spared.now (split_of rest.old) (split_of rest.new)) }
    ensures done { IfOk result (λ d. IsTrue d → AreIrreducible by.now spared.now (joined_terms (split_of rest.new))) }
    ensures cause { IfErr result (IsWorkRefusal by.now spared.now (joined_terms (split_of rest.old))) }
{
    let mut left = most;
    'steps: while left > 0 {
        left -= 1;
        match seek(rest, by, spared)? {
            Some(j) => {
                let others = stride(alloc, rest, by, j, spared, left)?;
                left = left.saturating_sub(others);
            }
            None => return Ok(true),
        }
    }
    Ok(false)
}

/// Steps by the guide, until no member reduces a term.
fn by_guide(
    alloc: Global,
    rest: &mut Dividend,
    by: &[Marked],
    spared: &Option<Mono>,
) -> Result<(), PolyError>
    requires marked { HasSomeWeight by.now }
    requires variables { ShareVariables (split_of rest.old) by.now spared.now }
    ensures worked { OnOk result (IsWorkedOn by.now spared.now (split_of rest.old) (split_of rest.new)) }
    ensures done { OnOk result (AreIrreducible by.now spared.now (joined_terms (split_of rest.new))) }
    ensures cause { IfErr result (IsWorkRefusal by.now spared.now (joined_terms (split_of rest.old))) }
{
    'steps: while let Some(j) = next(alloc, rest, by, spared)? {
        let _ = stride(alloc, rest, by, j, spared, u64::MAX)?;
    }
    Ok(())
}

/// Steps by the guide at terms that wait, until none does or the index has passed many terms; whether it has.
fn while_near(
    alloc: Global,
    rest: &mut Dividend,
    by: &[Marked],
    spared: &Option<Mono>,
) -> Result<bool, PolyError>
    requires marked { HasSomeWeight by.now }
    requires variables { ShareVariables (split_of rest.old) by.now spared.now }
    ensures worked { OnOk result (IsWorkedOn by.now spared.now (split_of rest.old) (split_of rest.new)) }
    ensures cause { IfErr result (IsWorkRefusal by.now spared.now (joined_terms (split_of rest.old))) }
{
    'steps: while let Some(j) = next_waiting(alloc, rest, by, spared)? {
        let _ = stride(alloc, rest, by, j, spared, u64::MAX)?;
        if rest.is_far() {
            return Ok(true);
        }
    }
    Ok(false)
}

/// The foremost term that waits and that a member reduces, and the index of the first such member.
fn next_in(
    alloc: Global,
    table: &mut Table,
    by: &[Marked],
    spared: &Option<Mono>,
) -> Option<(Term, usize)>
    requires variables { ShareVariables (table_of table.old) by.now spared.now }
    ensures same { table_of table.new ≡ table_of table.old }
    ensures found { IfSome result (λ r. IsReducibleAt by.now spared.now (joined_terms (table_of table.old)) r.0 r.1) }
{
    'waiting: for _ in 0..table.waiting() {
        let x = match table.foremost(alloc) {
            Some(x) => x,
            None => continue,
        };
        if let Some(t) = table.term_at(x) {
            // As in `reducer_at`.
            let _ = t.mono.exponents();
            if let Some(j) = reducer_of(&t.mono, by, spared) {
                return Some((t, j));
            }
        }
    }
    None
}

/// Steps in a table by the guide, while a member reduces a term that waits.
fn through(
    alloc: Global,
    table: &mut Table,
    by: &[Marked],
    spared: &Option<Mono>,
) -> Result<(), PolyError>
    requires marked { HasSomeWeight by.now }
    requires variables { ShareVariables (table_of table.old) by.now spared.now }
    ensures worked { OnOk result (IsWorkedOn by.now spared.now (table_of table.old) (table_of table.new)) }
    ensures cause { IfErr result (IsWorkRefusal by.now spared.now (joined_terms (table_of table.old))) }
{
    'steps: while let Some((t, j)) = next_in(alloc, table, by, spared) {
        let member = &by[j];
        table.step(&t, member)?;
    }
    Ok(())
}

/// Steps by the guide, with the polynomial in a table.
fn by_table(
    alloc: Global,
    rest: &mut Dividend,
    by: &[Marked],
    spared: &Option<Mono>,
    guide: &Guide,
) -> Result<(), PolyError>
    requires marked { HasSomeWeight by.now }
    requires variables { ShareVariables (split_of rest.old) by.now spared.now }
    ensures worked { OnOk result (IsWorkedOn by.now spared.now (split_of rest.old) (split_of rest.new)) }
    ensures cause { IfErr result (IsWorkRefusal by.now spared.now (joined_terms (split_of rest.old))) }
{
    let f = rest.take(alloc)?;
    let mut table = Table::new(alloc, f, guide, by)?;
    through(alloc, &mut table, by, spared)?;
    let left = table.into_poly(alloc)?;
    *rest = Dividend::new(alloc, left);
    Ok(())
}

/// Steps by the guide at terms that wait; where the index passes many terms, the rest of them in a table.
fn shortened(
    alloc: Global,
    rest: &mut Dividend,
    by: &[Marked],
    spared: &Option<Mono>,
    guide: &Guide,
) -> Result<(), PolyError>
    requires marked { HasSomeWeight by.now }
    requires variables { ShareVariables (split_of rest.old) by.now spared.now }
    ensures worked { OnOk result (IsWorkedOn by.now spared.now (split_of rest.old) (split_of rest.new)) }
    ensures cause { IfErr result (IsWorkRefusal by.now spared.now (joined_terms (split_of rest.old))) }
{
    rest.watch(alloc, guide, by)?;
    if while_near(alloc, rest, by, spared)? {
        return by_table(alloc, rest, by, spared, guide);
    }
    Ok(())
}

/// Steps until no member reduces a term that isn't spared.
pub(crate) fn work_off(
    alloc: Global,
    rest: &mut Dividend,
    by: &[Marked],
    spared: &Option<Mono>,
    guide: &mut Guide,
) -> Result<(), PolyError>
    requires marked { HasSomeWeight by.now }
    requires variables { ShareVariables (split_of rest.old) by.now spared.now }
    requires above { AreIrreducible by.now spared.now (split_of rest.old).above }
    ensures worked { OnOk result (IsWorkedOn by.now spared.now (split_of rest.old) (split_of rest.new)) }
    ensures done { OnOk result (AreIrreducible by.now spared.now (joined_terms (split_of rest.new))) }
    ensures cause { IfErr result (IsWorkRefusal by.now spared.now (joined_terms (split_of rest.old))) }
{
    if by_rule(alloc, rest, by, spared, guide.patience())? {
        return Ok(());
    }
    guide.find(alloc, by);
    shortened(alloc, rest, by, spared, guide)?;
    by_guide(alloc, rest, by, spared)
}

/// The remainder of `f` by these members: steps by them lead to it, and no marked monomial divides a monomial of it. It is worked
/// out in the place of `f`.
///
/// The members are monic, some weight sets each mark above the rest, and they have the variables of `f`. Each step takes a term by
/// the first member whose mark divides it. Other members may lead to another remainder, unless they are a Gröbner basis for their
/// marking (Cox, Little, O'Shea, *Ideals, Varieties, and Algorithms*, 2.6); but which term is taken makes no difference, so it is the
/// normal form by the rule, which takes the deglex greatest one. So do the first steps here; a reduction that is longer takes the
/// greatest by the guide's order, which merges equal terms before they are reduced.
///
/// # Errors
///
/// `Overflow` and `Exponent` only where two numbers of a step by the members, from a polynomial that such steps lead to, don't
/// fit; it holds them.
pub fn remainder(
    alloc: Global,
    f: Poly,
    by: &[Marked],
    guide: &mut Guide,
) -> Result<Poly, PolyError>
    requires marked { HasSomeWeight by.now }
    requires variables { HaveSameVariables f by.now }
    ensures value { IfOk result (IsRemainder by.now f) }
    ensures normal_form { IfOk result (IsNormalForm by.now f) }
    ensures descending { IfOk result IsDescending }
    ensures variables { IfOk result (KeepsVariables f) }
    ensures cause { IfErr result (IsReductionRefusal by.now f) }
{
    let mut rest = Dividend::new(alloc, f);
    work_off(alloc, &mut rest, by, &None, guide)?;
    Ok(rest.into_poly()?)
}
