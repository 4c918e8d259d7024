//! Many steps at once. A member of two terms with the coefficients 1 and 1 or -1 turns a term into one other term; where it reduces
//! that one too, and so on, the steps are a chain, and its end is known at once.

ghost use Rattle.std.specs.Prelude.{◌≡◌, ◌+◌, ◌-◌, ◌*◌, ◌<◌, ◌≤◌, ◌^◌, length, IfErr, IfSome, OnOk, IsTrue};
ghost use Rattle.gf_frac.specs.Fraction.{one_ℚ};
ghost use Rattle.gf_division.specs.Dividends.{split_of, joined_terms};
ghost use Rattle.gf_division.specs.Reducers.{ShareVariables, IsReducibleFirst};
ghost use Rattle.gf_division.specs.Remainders.{IsWorkedOn, IsWorkRefusal};
ghost use Rattle.gf_division.specs.Chains.{IsUnit, IsPair, AreAlong, turned as turned_by, IsMissed, AreMissed, IsOutside};
ghost use Rattle.gf_division.specs.Chains.{IsSpareOutside, IsJump, IsJumped, LeavesLess, IsFrontOf};

use crate::dividend::{Dividend, is_greater};
use crate::front::monomial;
use gf_frac::Frac;
use gf_poly::{Marked, Mono, PolyError, ROOM, Term};
use std::alloc::{AllocError, Global};

/// The greatest exponent.
const MOST: u32 = (1 << 31) - 1;

/// Fewer steps than these are taken one after another.
const FEW: u32 = 16;

/// So many steps, and the term that they lead to.
#[derive(Drop)]
struct Jump {
    steps: u32,
    to: Term,
}

/// Whether the number is 1 or -1.
fn is_unit(a: &Frac) -> bool
    ensures { IsTrue result → IsUnit a.now }
{
    *a == Frac::ONE || *a == Frac::ONE.neg()
}

/// The term that isn't marked, where there is one such term, and the coefficients are 1 and 1 or -1.
fn other_of(member: &Marked) -> Option<&Term>
    ensures { IfSome result (λ u. IsPair member.now u.now) }
{
    let i = member.index();
    let terms = member.poly().terms();
    if terms.len() != 2 {
        return None;
    }
    let marked = &terms[i];
    let other = &terms[1 - i];
    if marked.coef == Frac::ONE && is_unit(&other.coef) {
        return Some(other);
    }
    None
}

/// After how many steps at most the mark still divides, and no exponent is above the limit.
fn bound(x: &[u32], mark: &[u32], other: &[u32], most: u32) -> u32 {
    let mut steps = most;
    'variables: for i in 0..x.len().min(mark.len()).min(other.len()) {
        let (e, l, t) = (x[i], mark[i], other[i]);
        if t < l {
            steps = steps.min(e.saturating_sub(l) / (l - t));
        } else if l < t {
            steps = steps.min(MOST.saturating_sub(e) / (t - l));
        }
    }
    steps
}

/// After how many of these steps an earlier mark still doesn't divide.
fn bound_before(x: &[u32], mark: &[u32], other: &[u32], earlier: &[u32], most: u32) -> u32 {
    let mut steps = 0;
    let n = x.len().min(mark.len()).min(other.len()).min(earlier.len());
    'variables: for i in 0..n {
        let (e, l, t, m) = (x[i], mark[i], other[i], earlier[i]);
        if e < m {
            if t <= l {
                return most;
            }
            steps = steps.max((m - 1 - e) / (t - l));
        }
    }
    steps.min(most)
}

/// The product.
fn times(a: u32, b: u32) -> u64
    ensures value { result ≡ a * b }
    ensures bound { result ≤ (2 ^ 32 - 1) * (2 ^ 32 - 1) }
{
    u64::from(a) * u64::from(b)
}

/// An exponent after so many steps, each of which takes one number away and adds another; none if it is negative.
fn moved(e: u32, mark: u32, other: u32, steps: u32) -> Option<u32> {
    let up = times(steps, other) + u64::from(e);
    let down = times(steps, mark);
    if up < down {
        return None;
    }
    let left = up - down;
    if left > u64::from(MOST) {
        return None;
    }
    Some(left as u32)
}

/// The monomial after so many steps, if its exponents are within the limit.
fn end_of(alloc: Global, x: &[u32], mark: &[u32], other: &[u32], steps: u32) -> Option<Mono> {
    let n = x.len();
    if n > ROOM || mark.len() != n || other.len() != n {
        return None;
    }
    let mut all = [0; ROOM];
    'variables: for i in 0..n {
        all[i] = moved(x[i], mark[i], other[i], steps)?;
    }
    monomial(alloc, &all[..n])
}

/// Whether so many steps lead from the exponent `x` to `z`, each of which takes one number away and adds another.
fn is_moved(x: u32, z: u32, mark: u32, other: u32, steps: u32) -> bool
    ensures { IsTrue result → x + steps * other ≡ z + steps * mark }
{
    times(steps, other) + u64::from(x) == times(steps, mark) + u64::from(z)
}

/// Whether so many steps lead from `x` to `z`, each of which takes the exponents of the mark away and adds the other ones.
fn are_along(steps: u32, mark: &[u32], other: &[u32], x: &[u32], z: &[u32]) -> bool
    ensures along { IsTrue result → AreAlong steps mark.now other.now x.now z.now }
    ensures variables { IsTrue result → length z.now ≡ length x.now }
{
    let n = x.len();
    if mark.len() != n {
        return false;
    }
    if other.len() != n {
        return false;
    }
    if z.len() != n {
        return false;
    }
    'variables: for i in 0..n {
        if !is_moved(x[i], z[i], mark[i], other[i], steps) {
            return false;
        }
    }
    true
}

/// The greatest number of these steps after which the term stays between its neighbours and ahead of those that wait.
fn widest(
    alloc: Global,
    rest: &Dividend,
    x: &[u32],
    mark: &[u32],
    other: &[u32],
    most: u32,
) -> u32 {
    let mut low = 0u32;
    let mut high = most;
    let mut middle = most;
    'halvings: for _ in 0..33 {
        if low >= high {
            break;
        }
        let stays = match end_of(alloc, x, mark, other, middle) {
            Some(end) => rest.stays_at(&end),
            None => false,
        };
        if stays {
            low = middle;
        } else {
            high = middle.saturating_sub(1);
        }
        middle = high.saturating_sub(high.saturating_sub(low) / 2);
    }
    low
}

/// How many steps by the member at the index `j` are taken at once.
fn reach(
    alloc: Global,
    rest: &Dividend,
    by: &[Marked],
    j: usize,
    x: &Mono,
    other: &Mono,
    most: u32,
) -> u32
    requires { j < length by.now }
{
    let mark = by[j].head().exponents();
    let (x, other) = (x.exponents(), other.exponents());
    let mut steps = bound(x, mark, other, most);
    'members: for i in 0..j {
        if steps < FEW {
            return 0;
        }
        steps = bound_before(x, mark, other, by[i].head().exponents(), steps);
    }
    if steps < FEW {
        return 0;
    }
    widest(alloc, rest, x, mark, other, steps)
}

/// Whether some exponent of the mark is greater than those of both monomials.
fn is_missed(mark: &[u32], x: &[u32], z: &[u32]) -> bool
    ensures { IsTrue result → IsMissed mark.now x.now z.now }
{
    'variables: for i in 0..mark.len().min(x.len()).min(z.len()) {
        if x[i] < mark[i] {
            if z[i] < mark[i] {
                return true;
            }
        }
    }
    false
}

/// Whether this is so of the mark of each member before the index `j`.
fn are_missed(by: &[Marked], j: usize, x: &[u32], z: &[u32]) -> bool
    requires { j < length by.now }
    ensures { IsTrue result → AreMissed by.now j x.now z.now }
{
    'members: for i in 0..j {
        let member = &by[i];
        if !is_missed(member.head().exponents(), x, z) {
            return false;
        }
    }
    true
}

/// Whether `y` is greater than both, or less than both.
fn is_outside(y: &Mono, x: &Mono, z: &Mono) -> bool
    ensures { IsTrue result → IsOutside y.now x.now z.now }
{
    if is_greater(y, x) {
        return is_greater(y, z);
    }
    if is_greater(x, y) {
        return is_greater(z, y);
    }
    false
}

/// Whether this is so of the spared monomial, where there is one.
fn is_spare_outside(spared: &Option<Mono>, x: &Mono, z: &Mono) -> bool
    ensures { IsTrue result → IsSpareOutside spared.now x.now z.now }
{
    match spared {
        Some(y) => is_outside(y, x, z),
        None => true,
    }
}

/// The coefficient after so many steps by a member whose other coefficient is 1.
fn turned_by_one(coef: &Frac, steps: u32) -> Frac
    ensures { result ≡ turned_by one_ℚ steps coef.now }
{
    if steps % 2 == 1 {
        return coef.neg();
    }
    *coef
}

/// The coefficient after so many steps: each takes it times that of the other term away.
fn turned(coef: &Frac, other: &Frac, steps: u32) -> Frac
    requires { IsUnit other.now }
    ensures { result ≡ turned_by other.now steps coef.now }
{
    if *other == Frac::ONE {
        return turned_by_one(coef, steps);
    }
    *coef
}

/// Steps by the member at the index `j`, which reduces the first term below the index, if many may be taken at once.
fn jump_of(
    alloc: Global,
    rest: &Dividend,
    by: &[Marked],
    j: usize,
    spared: &Option<Mono>,
    most: u32,
) -> Option<Jump>
    requires variables { ShareVariables (split_of rest.now) by.now spared.now }
    requires found { IsReducibleFirst by.now spared.now (split_of rest.now) j }
    ensures { IfSome result (λ r. IsJump by.now j spared.now (split_of rest.now) r.steps r.to) }
{
    let first = rest.next()?;
    let member = &by[j];
    let other = other_of(member)?;
    let (x, mark) = (&first.mono, member.head());
    let steps = reach(alloc, rest, by, j, x, &other.mono, most);
    if steps < FEW {
        return None;
    }
    let (e, l, t) = (x.exponents(), mark.exponents(), other.mono.exponents());
    let end = end_of(alloc, e, l, t, steps)?;
    let z = end.exponents();
    if !are_along(steps, l, t, e, z) {
        return None;
    }
    if !mark.divides(&end) {
        return None;
    }
    if !are_missed(by, j, e, z) {
        return None;
    }
    if !is_spare_outside(spared, x, &end) {
        return None;
    }
    if !rest.has_room(&end) {
        return None;
    }
    let coef = turned(&first.coef, &other.coef, steps);
    Some(Jump {
        steps,
        to: Term { coef, mono: end },
    })
}

/// Takes the first term below the index along by steps of the member at the index `j`, which reduces it, as many at once as may be, and at
/// most so many; how many. The member reduces what is the first term then.
///
/// # Errors
///
/// `AllocError` if memory runs out; nothing is promised of the polynomial then.
fn leap(
    alloc: Global,
    rest: &mut Dividend,
    by: &[Marked],
    j: usize,
    spared: &Option<Mono>,
    most: u64,
) -> Result<u64, AllocError>
    requires variables { ShareVariables (split_of rest.old) by.now spared.now }
    requires found { IsReducibleFirst by.now spared.now (split_of rest.old) j }
    ensures { OnOk result (IsJumped by.now j spared.now (split_of rest.old) (split_of rest.new)) }
{
    let most = most.min(u64::from(MOST)) as u32;
    match jump_of(alloc, rest, by, j, spared, most) {
        Some(jump) => {
            rest.replace_next(jump.to)?;
            Ok(u64::from(jump.steps))
        }
        None => Ok(0),
    }
}

/// A step by the member at the index `j`, which reduces the first term below the index; before it others by that member, if they may be taken
/// at once, and at most so many; how many others.
///
/// # Errors
///
/// `Overflow` and `Exponent` only where two numbers of such a step don't fit, which it holds. `Memory` if memory runs out.
pub fn stride(
    alloc: Global,
    rest: &mut Dividend,
    by: &[Marked],
    j: usize,
    spared: &Option<Mono>,
    most: u64,
) -> Result<u64, PolyError>
    requires variables { ShareVariables (split_of rest.old) by.now spared.now }
    requires found { IsReducibleFirst by.now spared.now (split_of rest.old) j }
    ensures worked { OnOk result (IsWorkedOn by.now spared.now (split_of rest.old) (split_of rest.new)) }
    ensures above { OnOk result (IsFrontOf (split_of rest.new).above (split_of rest.old).above) }
    ensures work { OnOk result (LeavesLess by.now (joined_terms (split_of rest.old)) (joined_terms (split_of rest.new))) }
    ensures cause { IfErr result (IsWorkRefusal by.now spared.now (joined_terms (split_of rest.old))) }
{
    let others = leap(alloc, rest, by, j, spared, most)?;
    let member = &by[j];
    let _ = rest.step(member)?;
    Ok(others)
}
