//! Differences of two monomials in the saturation that are proposed before bases are made: Buchberger's algorithm on vectors, each of which is
//! divided at once by what its two monomials share.
//!
//! Each proposal is in the saturation; which ones are found isn't said.
ghost use Rattle.std.specs.Prelude.{◌≡◌, ◌<◌, ◌≤◌, OnOk, IfOk, IfSome, length};
ghost use Rattle.gf_order.specs.Comparisons.{HasEntries};
ghost use Rattle.gf_buchberger.specs.Tasks.{HaveRingVariables};
ghost use Rattle.gf_saturate.specs.Proposals.{IsProposal, AreProposals, IsStart};

use crate::stages::copies;
use crate::vectors::{Vector, given_vector, sum, written};
use gf_buchberger::are_coprime;
use gf_order::Order;
use gf_poly::{Mono, Poly, PolyError, ROOM};
use std::alloc::{AllocError, Global};
use std::cmp::{Ordering, Reverse};
use std::collections::BinaryHeap;

/// The most pairs that are taken.
const PAIRS: u64 = 100_000;

/// The most steps of one reduction.
const STEPS: u32 = 1000;

/// A pair of members by their indices, or a given vector by its index twice; what is of the least level is taken first.
#[derive(Clone, Copy, Debug, PartialEq, Eq, PartialOrd, Ord)]
pub struct Waiting {
    pub level: i128,
    pub second: usize,
    pub first: usize,
}

/// The members so far, which of them are redundant, since the first monomial of a later one divides theirs, and the pairs that wait.
#[derive(Drop)]
pub struct Work {
    pub members: Vec<Vector>,
    pub redundant: Vec<bool>,
    pub queue: BinaryHeap<Reverse<Waiting>>,
}

/// Whether the member at index `k` is redundant.
fn is_redundant(redundant: &[bool], k: usize) -> bool {
    match redundant.get(k) {
        Some(yes) => *yes,
        None => false,
    }
}

/// The vector, or its negative, the greater monomial first; nothing where both are 1.
fn oriented(n: u32, set: &[Poly], order: &Order, v: Vector) -> Option<Vector>
    requires room { n ≤ ROOM }
    requires variables { HaveRingVariables n set.now }
    requires entries { HasEntries n order.now }
    requires vector { IsProposal n set.now v }
    ensures { IfSome result (IsProposal n set.now) }
{
    match order.cmp(v.first.exponents(), v.second.exponents()) {
        Ordering::Equal => None,
        Ordering::Greater => Some(v),
        Ordering::Less => {
            let Vector { first, second } = v;
            Some(Vector {
                first: second,
                second: first,
            })
        }
    }
}

/// The index of a member that isn't redundant and whose first monomial divides `x`.
fn divisor(n: u32, set: &[Poly], members: &[Vector], redundant: &[bool], x: &Mono) -> Option<usize>
    requires members { AreProposals n set.now members.now }
    requires long { length x.now ≡ n }
    ensures { IfSome result (λ i. i < length members.now) }
{
    'members: for i in 0..members.len() {
        let v = &members[i];
        if v.first.divides(x) && !is_redundant(redundant, i) {
            return Some(i);
        }
    }
    None
}

/// The vector, one of whose monomials a member reduces; nothing where none does, or an exponent doesn't fit.
fn reduced_once(
    n: u32,
    set: &[Poly],
    members: &[Vector],
    redundant: &[bool],
    v: &Vector,
) -> Option<Vector>
    requires variables { HaveRingVariables n set.now }
    requires members { AreProposals n set.now members.now }
    requires vector { IsProposal n set.now v.now }
    ensures { IfSome result (IsProposal n set.now) }
{
    if let Some(i) = divisor(n, set, members, redundant, &v.first) {
        let by = &members[i];
        return sum(n, set, v, &by.second, &by.first);
    }
    if let Some(j) = divisor(n, set, members, redundant, &v.second) {
        let by = &members[j];
        return sum(n, set, v, &by.first, &by.second);
    }
    None
}

/// The vector, reduced by the members; nothing where nothing is left.
fn reduced(
    n: u32,
    set: &[Poly],
    order: &Order,
    members: &[Vector],
    redundant: &[bool],
    v: Vector,
) -> Option<Vector>
    requires room { n ≤ ROOM }
    requires variables { HaveRingVariables n set.now }
    requires entries { HasEntries n order.now }
    requires members { AreProposals n set.now members.now }
    requires vector { IsProposal n set.now v }
    ensures { IfSome result (IsProposal n set.now) }
{
    let mut left = v;
    'steps: for _ in 0..STEPS {
        let Some(turned) = oriented(n, set, order, left) else {
            return None;
        };
        let Some(next) = reduced_once(n, set, members, redundant, &turned) else {
            return Some(turned);
        };
        left = next;
    }
    None
}

/// Whether `z` makes the pair of the last mark `head` with another one superfluous, whose least common multiple is `multiple`: it divides that,
/// and its own pair with `head` has a smaller one, or the same and comes before it or is of coprime marks.
fn covers(z: &Mono, head: &Mono, multiple: &Mono, before: bool) -> bool
    requires left { length z.now ≡ length multiple.now }
    requires right { length head.now ≡ length multiple.now }
{
    if !z.divides(multiple) {
        return false;
    }
    before || z.lcm(head).degree() < multiple.degree() || are_coprime(z, head)
}

/// Whether a member covers the pair of the one at index `i` with a new one.
fn is_covered(
    n: u32,
    set: &[Poly],
    members: &[Vector],
    redundant: &[bool],
    head: &Mono,
    multiple: &Mono,
    i: usize,
) -> bool
    requires members { AreProposals n set.now members.now }
    requires head { length head.now ≡ n }
    requires multiple { length multiple.now ≡ n }
{
    'members: for k in 0..members.len() {
        let v = &members[k];
        if k != i && covers(&v.first, head, multiple, k < i) && !is_redundant(redundant, k) {
            return true;
        }
    }
    false
}

/// The pairs of a new member with those that aren't redundant wait, unless they are covered or of coprime marks.
fn push_pairs(
    queue: &mut BinaryHeap<Reverse<Waiting>>,
    n: u32,
    set: &[Poly],
    order: &Order,
    members: &[Vector],
    redundant: &[bool],
    head: &Mono,
) -> Result<(), AllocError>
    requires room { n ≤ ROOM }
    requires entries { HasEntries n order.now }
    requires members { AreProposals n set.now members.now }
    requires head { length head.now ≡ n }
{
    'members: for i in 0..members.len() {
        let v = &members[i];
        if is_redundant(redundant, i) || are_coprime(&v.first, head) {
            continue;
        }
        let multiple = v.first.lcm(head);
        if is_covered(n, set, members, redundant, head, &multiple, i) {
            continue;
        }
        queue.push(Reverse(Waiting {
            level: order.level(multiple.exponents()),
            second: members.len(),
            first: i,
        }))?;
    }
    Ok(())
}

/// Marks the members as redundant whose first monomial `head` divides.
fn mark_redundant(n: u32, set: &[Poly], redundant: &mut Vec<bool>, members: &[Vector], head: &Mono)
    requires members { AreProposals n set.now members.now }
    requires head { length head.now ≡ n }
{
    'members: for k in 0..redundant.len().min(members.len()) {
        let v = &members[k];
        if !redundant[k] && head.divides(&v.first) {
            redundant[k] = true;
        }
    }
}

/// Adds a member; its pairs wait.
fn add(n: u32, set: &[Poly], order: &Order, work: &mut Work, v: Vector) -> Result<(), AllocError>
    requires room { n ≤ ROOM }
    requires entries { HasEntries n order.now }
    requires members { AreProposals n set.now work.old.members.items }
    requires vector { IsProposal n set.now v }
    ensures { OnOk result (AreProposals n set.now work.new.members.items) }
{
    push_pairs(
        &mut work.queue,
        n,
        set,
        order,
        work.members.as_slice(),
        work.redundant.as_slice(),
        &v.first,
    )?;
    mark_redundant(
        n,
        set,
        &mut work.redundant,
        work.members.as_slice(),
        &v.first,
    );
    work.redundant.push(false)?;
    work.members.push(v)?;
    Ok(())
}

/// Whether the mark of another member divides the least common multiple of the marks at `i` and `j`, and its own with each of them is smaller.
fn is_passed_over(
    n: u32,
    set: &[Poly],
    members: &[Vector],
    redundant: &[bool],
    i: usize,
    j: usize,
) -> bool
    requires members { AreProposals n set.now members.now }
    requires first { i < length members.now }
    requires second { j < length members.now }
{
    let x = &members[i];
    let y = &members[j];
    let multiple = x.first.lcm(&y.first);
    let degree = multiple.degree();
    'members: for k in 0..members.len() {
        let z = &members[k];
        if z.first.divides(&multiple)
            && x.first.lcm(&z.first).degree() < degree
            && y.first.lcm(&z.first).degree() < degree
            && !is_redundant(redundant, k)
        {
            return true;
        }
    }
    false
}

/// What is left of a pair, or of a given vector; nothing where nothing is, or the pair is superfluous.
fn left_of(
    n: u32,
    set: &[Poly],
    order: &Order,
    given: &[Vector],
    work: &Work,
    pair: Waiting,
) -> Option<Vector>
    requires room { n ≤ ROOM }
    requires variables { HaveRingVariables n set.now }
    requires entries { HasEntries n order.now }
    requires given { AreProposals n set.now given.now }
    requires members { AreProposals n set.now work.now.members.items }
    ensures { IfSome result (IsProposal n set.now) }
{
    let members = work.members.as_slice();
    let redundant = work.redundant.as_slice();
    let (i, j) = (pair.first, pair.second);
    if i == j {
        if given.len() <= i {
            return None;
        }
        return reduced(n, set, order, members, redundant, given[i].copy());
    }
    if members.len() <= i || members.len() <= j {
        return None;
    }
    if is_passed_over(n, set, members, redundant, i, j) {
        return None;
    }
    let y = &members[j];
    let Some(difference) = sum(n, set, &members[i], &y.second, &y.first) else {
        return None;
    };
    reduced(n, set, order, members, redundant, difference)
}

/// The work, after as many pairs.
fn settled(
    n: u32,
    set: &[Poly],
    order: &Order,
    given: &[Vector],
    start: Work,
    pairs: u64,
) -> Result<Work, AllocError>
    requires room { n ≤ ROOM }
    requires variables { HaveRingVariables n set.now }
    requires entries { HasEntries n order.now }
    requires given { AreProposals n set.now given.now }
    requires members { AreProposals n set.now start.members.items }
    ensures { IfOk result (λ work. AreProposals n set.now work.members.items) }
{
    let mut work = start;
    'pairs: for _ in 0..pairs {
        let Some(Reverse(pair)) = work.queue.pop() else {
            return Ok(work);
        };
        let Some(v) = left_of(n, set, order, given, &work, pair) else {
            continue;
        };
        add(n, set, order, &mut work, v)?;
    }
    Ok(work)
}

/// The polynomials as vectors; nothing where one isn't the difference of two monomials.
fn given_vectors(alloc: Global, n: u32, set: &[Poly]) -> Result<Option<Vec<Vector>>, AllocError>
    requires { HaveRingVariables n set.now }
    ensures { IfOk result (λ o. IfSome o (λ all. AreProposals n set.now all.items)) }
{
    let mut all = Vec::with_capacity(alloc, set.len())?;
    'polynomials: for i in 0..set.len() {
        let f = &set[i];
        let Some(v) = given_vector(n, set, f) else {
            return Ok(None);
        };
        all.push(v)?;
    }
    Ok(Some(all))
}

/// No members, and the given vectors wait.
fn beginning(
    alloc: Global,
    n: u32,
    set: &[Poly],
    order: &Order,
    given: &[Vector],
) -> Result<Work, AllocError>
    requires room { n ≤ ROOM }
    requires entries { HasEntries n order.now }
    requires given { AreProposals n set.now given.now }
    ensures { IfOk result (λ work. AreProposals n set.now work.members.items) }
{
    let mut queue = BinaryHeap::new(alloc);
    'vectors: for i in 0..given.len() {
        let v = &given[i];
        queue.push(Reverse(Waiting {
            level: order.level(v.first.exponents()),
            second: i,
            first: i,
        }))?;
    }
    Ok(Work {
        members: Vec::new(alloc),
        redundant: Vec::new(alloc),
        queue,
    })
}

/// The polynomials of the set, and the members that aren't redundant.
fn with_members(alloc: Global, n: u32, set: &[Poly], work: &Work) -> Result<Vec<Poly>, PolyError>
    requires variables { HaveRingVariables n set.now }
    requires members { AreProposals n set.now work.now.members.items }
    ensures { IfOk result (λ all. IsStart n set.now all.items) }
{
    let mut all = copies(alloc, set)?;
    let members = work.members.as_slice();
    let redundant = work.redundant.as_slice();
    'members: for i in 0..members.len() {
        if is_redundant(redundant, i) {
            continue;
        }
        let f = written(alloc, &members[i])?;
        all.push(f)?;
    }
    Ok(all)
}

/// The work on these polynomials; nothing where one isn't the difference of two monomials.
fn proposed(
    alloc: Global,
    n: u32,
    set: &[Poly],
    order: &Order,
    pairs: u64,
) -> Result<Option<Work>, AllocError>
    requires room { n ≤ ROOM }
    requires variables { HaveRingVariables n set.now }
    requires entries { HasEntries n order.now }
    ensures { IfOk result (λ o. IfSome o (λ work. AreProposals n set.now work.members.items)) }
{
    let Some(given) = given_vectors(alloc, n, set)? else {
        return Ok(None);
    };
    let start = beginning(alloc, n, set, order, given.as_slice())?;
    let work = settled(n, set, order, given.as_slice(), start, pairs.min(PAIRS))?;
    Ok(Some(work))
}

/// The polynomials, and more in the saturation of their ideal; nothing where one of them isn't the difference of two monomials.
pub(crate) fn with_proposals(
    alloc: Global,
    n: u32,
    set: &[Poly],
    order: &Order,
    pairs: u64,
) -> Option<Vec<Poly>>
    requires room { n ≤ ROOM }
    requires variables { HaveRingVariables n set.now }
    requires entries { HasEntries n order.now }
    ensures { IfSome result (λ all. IsStart n set.now all.items) }
{
    let Ok(Some(work)) = proposed(alloc, n, set, order, pairs) else {
        return None;
    };
    match with_members(alloc, n, set, &work) {
        Ok(all) => Some(all),
        Err(_) => None,
    }
}
