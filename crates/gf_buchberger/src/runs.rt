//! A run of Buchberger's algorithm: its members, and the pairs that it settles.

ghost use Rattle.std.specs.Prelude.{◌≡◌, ◌≢◌, ◌<◌, ◌^◌, [], length, IfOk, IfErr, IfSome, OnOk, IsTrue};
ghost use Rattle.gf_exponents_theory.specs.Exponents.{AreCoprime};
ghost use Rattle.gf_poly.specs.declared.error.PolyError.TheVariants.{Memory};
ghost use Rattle.gf_ideal_theory.specs.Reduction.{HasOneMonomial};
ghost use Rattle.gf_buchberger.specs.Covered.{IsCovered};
ghost use Rattle.gf_buchberger.specs.Progress.{IsWorkedThrough, IsStop};
ghost use Rattle.gf_buchberger.specs.Runs.{AreReducers, IsMultipleAt, IsReducedPair, IsPairWorkedOff, IsSettlingRefusal, AreComparable};
ghost use Rattle.gf_buchberger.specs.Runs.{MembersHaveSomeVariables, state_of, IsState, PairsPushed, IsJoinable, IsJoined, IsTakenUp};
ghost use Rattle.gf_buchberger.specs.Runs.{IsLeftOfPair, IsLeftOfMembers};
ghost use Rattle.gf_buchberger.specs.Runs.{CountsAsSettled, IsChain, IsExcused, IsSettledBy, IsSomeRun};

use crate::covered::Redundant;
use crate::left::{left_of, left_of_wide};
use crate::members::{Members, Multiples};
use crate::pairs::PairTable;
use crate::queue::{Queue, Strategy, Waiting};
use crate::sugars::Sugars;
use gf_division::{Guide, remainder, s_poly};
use gf_order::Order;
use gf_poly::{Marked, Mono, PolyError};
use gf_whole_division::{Ranking, whole_remainder_of_pair};
use gf_wide_division::{Beyond, Precedence, wide_remainder_of_pair};
use std::alloc::{AllocError, Global};

/// The members so far, the marks of their pairs, and the pairs that wait.
#[derive(Drop)]
pub struct Run {
    pub members: Members,
    pub table: PairTable,
    pub queue: Queue,
    pub strategy: Strategy,
    pub sugars: Sugars,
    pub redundant: Redundant,
    pub numbers: Arithmetic,
    pub guide: Guide,
}

/// By which numbers polynomials are reduced.
#[derive(Drop)]
pub enum Arithmetic {
    /// By fractions of 128 bits.
    Narrow,
    /// Once coefficients are long by whole numbers of 512 bits, and else by fractions of 128 bits. From then on `Memory` is told in place of an operation
    /// that is refused, since in fractions alone another one may be refused first.
    Mixed,
    /// Once coefficients are long by whole numbers of 512 bits; else by fractions of 128 bits, and by those of 512 bits where they overflow, with the
    /// order in which terms are reduced then.
    Wide(Precedence),
}

/// Why not all pairs are settled.
#[derive(Drop)]
pub enum Stop {
    /// The budget is spent: the run as it stands, one of whose pairs was taken out.
    Spent(Run),
    /// An operation was refused.
    Refused(PolyError),
}

/// Whether no variable occurs in both monomials.
pub fn are_coprime(x: &Mono, y: &Mono) -> bool
    requires { length x.now ≡ length y.now }
    ensures { IsTrue result → AreCoprime x.now y.now }
{
    let (x, y) = (x.exponents(), y.exponents());
    'variables: for i in 0..x.len() {
        if x[i].min(y[i]) != 0 {
            return false;
        }
    }
    true
}

/// Whether the member has no monomial but the marked one.
pub fn is_single(member: &Marked) -> bool
    ensures { IsTrue result → HasOneMonomial member.now }
{
    // Called for the proof alone: what `head` ensures says that the mark is that of a term.
    let _ = member.head();
    member.poly().terms().len() == 1
}

/// Whether both members have no monomial but the marked one.
fn are_single(b: &Marked, c: &Marked) -> bool
    ensures { IsTrue result → HasOneMonomial b.now × HasOneMonomial c.now }
{
    is_single(b) && is_single(c)
}

/// Adds the pairs of the member at `second` with those before it, unless they are covered; `excess` is by how much its sugar exceeds the degree of
/// its mark.
fn push_pairs(
    queue: &mut Queue,
    strategy: Strategy,
    order: &Order,
    members: &[Marked],
    sugars: &Sugars,
    redundant: &Redundant,
    second: usize,
    excess: u64,
) -> Result<(), AllocError>
    requires room { second < 2 ^ 32 }
    requires inside { second < length members.now }
    requires comparable { AreComparable order.now members.now }
    ensures { OnOk result (PairsPushed strategy order.now members.now queue.old queue.new second second) }
{
    let head = members[second].head();
    'members: for i in 0..second {
        let multiple = members[i].head().lcm(head);
        if redundant.covers(members, &multiple, i, second) {
            continue;
        }
        queue.push(Waiting {
            key: strategy.key(order, &multiple, sugars.of_pair(i, excess)),
            second: second as u32,
            first: i as u32,
        })?;
    }
    Ok(())
}

/// What is left of the S-polynomial of the members at i and j, reduced by these whole multiples: nothing where the remainder is zero, else its monic
/// form in 128 bits, marked at its greatest monomial. None where a number leaves its range, or if memory runs out.
fn left_by_multiples(
    alloc: Global,
    order: &Order,
    by: &Multiples,
    i: usize,
    j: usize,
) -> Option<Option<Marked>>
    requires first { i < length by.now.members.items }
    requires second { j < length by.now.members.items }
    requires reducers { AreReducers order.now by.now.members.items }
    ensures { IfSome result (IsLeftOfMembers order.now by.now.members.items i j) }
{
    let found = whole_remainder_of_pair(
        alloc,
        &by.members[i],
        &by.members[j],
        &by.members,
        &by.ranking,
    );
    let Ok(r) = found else {
        return None;
    };
    match left_of(order, r) {
        Ok(left) => Some(left),
        Err(_) => None,
    }
}

impl Run {
    /// The run that has no members yet. With an order of terms it reduces by whole multiples of its members, once their coefficients are long.
    pub fn new(
        alloc: Global,
        strategy: Strategy,
        numbers: Arithmetic,
        guide: Guide,
        ranking: Option<Ranking>,
    ) -> Run
        ensures members { result.members.items ≡ [] }
        ensures table { result.table ≡ record { members = 0; marks = [] } }
        ensures queue { result.queue ≡ [] }
        ensures strategy { result.strategy ≡ strategy }
    {
        Run {
            members: Members::new(alloc, ranking),
            table: PairTable::new(alloc),
            queue: Queue::new(alloc),
            strategy,
            sugars: Sugars::new(alloc),
            redundant: Redundant::new(alloc),
            numbers,
            guide,
        }
    }

    /// Whether the run has gone over to whole numbers, and doesn't tell which operation is refused.
    pub fn is_silent(&self) -> bool {
        matches!(self.numbers, Arithmetic::Mixed) && self.members.have_begun()
    }

    /// Adds a member; its pairs wait, unless they are covered.
    ///
    /// # Errors
    ///
    /// `Memory` if memory runs out, or if there are 2^32 - 1 members already; no other.
    fn append(&mut self, alloc: Global, order: &Order, member: Marked) -> Result<(), PolyError>
        requires state { IsState (state_of self.old) }
        requires variables { IsJoinable order.now member self.old.members.items }
        ensures ok { OnOk result (IsJoined order.now member (state_of self.old) (state_of self.new)) }
        ensures cause { IfErr result (λ e. e ≡ Memory) }
    {
        let second = self.table.members();
        if second == u32::MAX {
            return Err(PolyError::Memory);
        }
        let excess = self.sugars.add(self.strategy, member.head())?;
        self.redundant.add(self.members.marked(), member.head())?;
        self.table.add_member()?;
        self.members.push(alloc, member)?;
        push_pairs(
            &mut self.queue,
            self.strategy,
            order,
            self.members.marked(),
            &self.sugars,
            &self.redundant,
            second as usize,
            excess,
        )?;
        Ok(())
    }

    /// Adds what is left of a polynomial as a new member, unless nothing is left.
    ///
    /// # Errors
    ///
    /// `Memory` if memory runs out, or if there are 2^32 - 1 members already; no other.
    pub fn take_up(
        &mut self,
        alloc: Global,
        order: &Order,
        left: Option<Marked>,
    ) -> Result<(), PolyError>
        requires state { IsState (state_of self.old) }
        requires variables { IfSome left (λ b. IsJoinable order.now b self.old.members.items) }
        ensures ok { OnOk result (IsTakenUp order.now left (state_of self.old) (state_of self.new)) }
        ensures cause { IfErr result (λ e. e ≡ Memory) }
    {
        match left {
            Some(member) => self.append(alloc, order, member),
            None => Ok(()),
        }
    }

    /// Whether the pair of the members at p and q counts as settled.
    fn counts(&self, p: u32, q: u32) -> bool
        requires state { IsState (state_of self.now) }
        requires first { p < length self.now.members.items }
        requires second { q < length self.now.members.items }
        requires other { p ≢ q }
        requires variables { MembersHaveSomeVariables self.now.members.items }
        ensures { IsTrue result → CountsAsSettled (state_of self.now) p q }
    {
        let (lower, upper) = if p < q { (p, q) } else { (q, p) };
        self.table.is_settled(lower, upper)
            || are_coprime(
                self.members.at(p as usize).head(),
                self.members.at(q as usize).head(),
            )
    }

    /// Whether the mark of the member at k divides the least common multiple of the marks at i and j, and its pairs with
    /// both count as settled.
    fn is_chain(&self, multiple: &Mono, i: u32, j: u32, k: u32) -> bool
        requires state { IsState (state_of self.now) }
        requires first { i < length self.now.members.items }
        requires second { j < length self.now.members.items }
        requires third { k < length self.now.members.items }
        requires variables { MembersHaveSomeVariables self.now.members.items }
        requires multiple { IsMultipleAt (state_of self.now) i j multiple.now }
        ensures { IsTrue result → IsChain (state_of self.now) i j k }
    {
        if k == i || k == j {
            return false;
        }
        if !self.members.at(k as usize).head().divides(multiple) {
            return false;
        }
        self.counts(i, k) && self.counts(k, j)
    }

    /// Whether the pair of the members at i and j is found covered.
    fn is_covered(&self, i: u32, j: u32) -> bool
        requires first { i < length self.now.members.items }
        requires second { j < length self.now.members.items }
        requires variables { MembersHaveSomeVariables self.now.members.items }
        ensures { IsTrue result → IsCovered self.now.members.items i j }
    {
        let (b, c) = (
            self.members.at(i as usize).head(),
            self.members.at(j as usize).head(),
        );
        self.redundant
            .covers(self.members.marked(), &b.lcm(c), i as usize, j as usize)
    }

    /// Whether the pair of i and j needs no reduction.
    fn is_excused(&self, i: u32, j: u32) -> bool
        requires state { IsState (state_of self.now) }
        requires first { i < length self.now.members.items }
        requires second { j < length self.now.members.items }
        requires variables { MembersHaveSomeVariables self.now.members.items }
        ensures { IsTrue result → IsExcused (state_of self.now) i j }
    {
        let (b, c) = (
            self.members.at(i as usize).head(),
            self.members.at(j as usize).head(),
        );
        if are_coprime(b, c) {
            return true;
        }
        if are_single(self.members.at(i as usize), self.members.at(j as usize)) {
            return true;
        }
        let multiple = b.lcm(c);
        'members: for k in 0..self.table.members() {
            if self.is_chain(&multiple, i, j, k) {
                return true;
            }
        }
        false
    }

    /// What is left of the S-polynomial of the members at i and j, reduced by the members in fractions of 128 bits: nothing where the remainder is
    /// zero, else the monic form of the remainder, marked at its greatest monomial.
    fn narrow_left(
        &mut self,
        alloc: Global,
        order: &Order,
        i: u32,
        j: u32,
    ) -> Result<Option<Marked>, PolyError>
        requires first { i < length self.old.members.items }
        requires second { j < length self.old.members.items }
        requires reducers { AreReducers order.now self.old.members.items }
        ensures same { state_of self.new ≡ state_of self.old }
        ensures ok { IfOk result (IsLeftOfPair order.now (state_of self.old) i j) }
        ensures cause { IfErr result (IsSettlingRefusal order.now (state_of self.old) i j) }
    {
        let s = s_poly(
            alloc,
            self.members.at(i as usize),
            self.members.at(j as usize),
        )?;
        let r = remainder(alloc, s, self.members.marked(), &mut self.guide)?;
        left_of(order, r)
    }

    /// What is left of the S-polynomial of the members at i and j, reduced by the members in fractions of 512 bits: nothing where the remainder is
    /// zero, else the monic form of the remainder, in 128 bits and marked at its greatest monomial. `Beyond` where a number leaves its range, or if
    /// memory runs out.
    fn wide_left(
        &self,
        alloc: Global,
        order: &Order,
        i: u32,
        j: u32,
        first: &Precedence,
    ) -> Result<Option<Marked>, Beyond>
        requires first { i < length self.now.members.items }
        requires second { j < length self.now.members.items }
        requires reducers { AreReducers order.now self.now.members.items }
        ensures { IfOk result (IsLeftOfPair order.now (state_of self.now) i j) }
    {
        let r = wide_remainder_of_pair(
            alloc,
            self.members.at(i as usize),
            self.members.at(j as usize),
            self.members.marked(),
            first,
        )?;
        left_of_wide(alloc, order, &r)
    }

    /// What is left of the S-polynomial of the members at i and j by a reduction in fractions of 512 bits; none where the run has narrow numbers
    /// alone, where a number leaves its range, or if memory runs out.
    #[cold]
    #[inline(never)]
    fn left_in_wide_run(
        &self,
        alloc: Global,
        order: &Order,
        i: u32,
        j: u32,
    ) -> Option<Option<Marked>>
        requires first { i < length self.now.members.items }
        requires second { j < length self.now.members.items }
        requires reducers { AreReducers order.now self.now.members.items }
        ensures { IfSome result (IsLeftOfPair order.now (state_of self.now) i j) }
    {
        match &self.numbers {
            Arithmetic::Narrow | Arithmetic::Mixed => None,
            Arithmetic::Wide(first) => match self.wide_left(alloc, order, i, j, first) {
                Ok(left) => Some(left),
                Err(_) => None,
            },
        }
    }

    /// What is left of the S-polynomial of the members at i and j, reduced by whole multiples of the members; none where there are none, where a
    /// number leaves its range, or if memory runs out.
    fn whole_left(&self, alloc: Global, order: &Order, i: u32, j: u32) -> Option<Option<Marked>>
        requires first { i < length self.now.members.items }
        requires second { j < length self.now.members.items }
        requires reducers { AreReducers order.now self.now.members.items }
        ensures { IfSome result (IsLeftOfPair order.now (state_of self.now) i j) }
    {
        match self.members.multiples() {
            Some(by) => left_by_multiples(alloc, order, by, i as usize, j as usize),
            None => None,
        }
    }

    /// What is left of the S-polynomial of the members at i and j: in fractions of 128 bits, and where they overflow in wide ones, if the run has
    /// them.
    fn left_in_fractions(
        &mut self,
        alloc: Global,
        order: &Order,
        i: u32,
        j: u32,
    ) -> Result<Option<Marked>, PolyError>
        requires first { i < length self.old.members.items }
        requires second { j < length self.old.members.items }
        requires reducers { AreReducers order.now self.old.members.items }
        ensures same { state_of self.new ≡ state_of self.old }
        ensures ok { IfOk result (IsLeftOfPair order.now (state_of self.old) i j) }
        ensures cause { IfErr result (IsSettlingRefusal order.now (state_of self.old) i j) }
    {
        match self.narrow_left(alloc, order, i, j) {
            Ok(left) => Ok(left),
            Err(refusal) => match self.left_in_wide_run(alloc, order, i, j) {
                Some(left) => Ok(left),
                None if self.is_silent() => Err(PolyError::Memory),
                None => Err(refusal),
            },
        }
    }

    /// What is left of the S-polynomial of the members at i and j: by whole multiples of the members, where there are some and the numbers fit, else
    /// in fractions.
    fn left_of_pair(
        &mut self,
        alloc: Global,
        order: &Order,
        i: u32,
        j: u32,
    ) -> Result<Option<Marked>, PolyError>
        requires first { i < length self.old.members.items }
        requires second { j < length self.old.members.items }
        requires reducers { AreReducers order.now self.old.members.items }
        ensures same { state_of self.new ≡ state_of self.old }
        ensures ok { IfOk result (IsLeftOfPair order.now (state_of self.old) i j) }
        ensures cause { IfErr result (IsSettlingRefusal order.now (state_of self.old) i j) }
    {
        match self.whole_left(alloc, order, i, j) {
            Some(left) => Ok(left),
            None => self.left_in_fractions(alloc, order, i, j),
        }
    }

    /// Reduces the S-polynomial of the members at i and j; what is left is a new member.
    fn reduce_pair(&mut self, alloc: Global, order: &Order, i: u32, j: u32) -> Result<(), PolyError>
        requires state { IsState (state_of self.old) }
        requires first { i < length self.old.members.items }
        requires second { j < length self.old.members.items }
        requires reducers { AreReducers order.now self.old.members.items }
        ensures ok { OnOk result (IsReducedPair order.now (state_of self.old) (state_of self.new) i j) }
        ensures cause { IfErr result (IsSettlingRefusal order.now (state_of self.old) i j) }
    {
        let left = self.left_of_pair(alloc, order, i, j)?;
        self.take_up(alloc, order, left)
    }

    /// Reduces the pair of i and j, unless it needs no reduction.
    fn work_off(&mut self, alloc: Global, order: &Order, i: u32, j: u32) -> Result<(), PolyError>
        requires state { IsState (state_of self.old) }
        requires first { i < length self.old.members.items }
        requires second { j < length self.old.members.items }
        requires reducers { AreReducers order.now self.old.members.items }
        ensures ok { OnOk result (IsPairWorkedOff order.now (state_of self.old) (state_of self.new) i j) }
        ensures cause { IfErr result (IsSettlingRefusal order.now (state_of self.old) i j) }
    {
        if self.is_excused(i, j) {
            return Ok(());
        }
        self.reduce_pair(alloc, order, i, j)
    }

    /// Works the pair of i and j off, and marks it as settled.
    fn settle(&mut self, alloc: Global, order: &Order, i: u32, j: u32) -> Result<(), PolyError>
        requires state { IsState (state_of self.old) }
        requires pair { i < j }
        requires second { j < length self.old.members.items }
        requires reducers { AreReducers order.now self.old.members.items }
        ensures ok { OnOk result (IsSettledBy order.now (state_of self.old) (state_of self.new) i j) }
        ensures cause { IfErr result (IsSettlingRefusal order.now (state_of self.old) i j) }
    {
        self.work_off(alloc, order, i, j)?;
        self.table.settle(i, j);
        Ok(())
    }
}

/// Settles the pairs that wait, those of least degree first, and at most `budget` of them.
///
/// The order is good on the generators of the run.
///
/// # Errors
///
/// `Spent` exactly where one more would have to be settled; `Refused` only at an operation of a pair whose operands
/// don't fit, or for want of memory.
pub fn settle_all(alloc: Global, start: Run, order: &Order, budget: u64) -> Result<Run, Stop>
    requires { IsSomeRun order.now (state_of start) }
    ensures done { IfOk result (λ run. IsWorkedThrough order.now budget (state_of start) (state_of run)) }
    ensures stop { IfErr result (IsStop order.now budget (state_of start)) }
{
    let mut run = start;
    let mut done = 0;
    'pairs: while let Some(pair) = run.queue.pop() {
        let (i, j) = (pair.first, pair.second);
        // Never so, since no pair waits twice; the proof isn't shown this, and counts a pair once that is settled here.
        if run.table.is_settled(i, j) {
            continue;
        }
        // Members that came after the pair may cover it; it isn't marked, so that what is answered where the budget is spent lists it.
        if run.is_covered(i, j) {
            continue;
        }
        if done == budget {
            return Err(Stop::Spent(run));
        }
        run.sugars.current = pair.key.degree;
        if let Err(refusal) = run.settle(alloc, order, i, j) {
            return Err(Stop::Refused(refusal));
        }
        done += 1;
    }
    Ok(run)
}
