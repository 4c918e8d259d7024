//! A polynomial that is being reduced, with an index in it.

ghost use Rattle.std.specs.Prelude.{false, zero, ◌≡◌, ◌≢◌, ◌≤◌, [], ◌++◌, length, reverse, MatchOption, IfOk, IfErr, IsTrue, OnOk};
ghost use Rattle.gf_frac.specs.Fraction.{◌-ℚ◌, ◌*ℚ◌, zero_ℚ};
ghost use Rattle.gf_exponents_theory.specs.Exponents.{plus};
ghost use Rattle.std.specs.declared.cmp.Ordering.TheVariants.{Greater};
ghost use Rattle.gf_exponents_theory.specs.Orders.{deglex};
ghost use Rattle.gf_poly.specs.Marking.{head_of};
ghost use Rattle.gf_poly.specs.Polynomial.{coefficient as coefficient_at, IsDescending, HasVariables};
ghost use Rattle.gf_poly.specs.Sums.{PushesNonzero};
ghost use Rattle.gf_division.specs.Steps.{IsStepRefusal};
ghost use Rattle.gf_division.specs.Dividends.{split_of, joined_terms, IsSound, IsTermInFront, DividesFirst, AreOver, AreOverProducts, PassesOne, FirstIs};
ghost use Rattle.gf_division.specs.Dividends.{Descends, MovesUp, TakesFromFirst, IsFirstRefusal, TakesAway, IsDifferenceRefusal, IsScalingOverflow, Subtracts};
ghost use Rattle.gf_division.specs.Dividends.{IsSubtractionRefusal, SharesVariables, TakesStep};
ghost use Rattle.gf_division.specs.Chains.{IsOverRest, HasRoom, IsReplaced};

use crate::front::{Front, Guide};
use gf_frac::{Frac, Overflow};
use gf_poly::{Marked, Mono, Poly, PolyError, Term};
use std::alloc::{AllocError, Global};
use std::cmp::Ordering;
use std::mem;

/// The terms above the index, the greatest first, and the terms below it, the greatest last.
///
/// A step of reduction works at the index: it copies no term, and moves none that it doesn't pass. Where monomials wait to be
/// reduced, one that a step adds waits too. Since then it is counted how many terms were passed, and how many were taken away.
#[derive(Drop)]
pub struct Dividend {
    above: Vec<Term>,
    below: Vec<Term>,
    front: Option<Front>,
    passed: u64,
    taken: u64,
}

/// How many terms that are passed take as long as one that is taken away in a table.
const FAR: u64 = 32;

/// How many terms are taken away at least before a table is worth its making.
const FEW: u64 = 64;

/// The product; by 1, from either side, it is the other number.
#[inline(always)]
pub(crate) fn product(a: &Frac, b: &Frac) -> Result<Frac, Overflow>
    ensures value { IfOk result (λ x. x ≡ a.now *ℚ b.now) }
    ensures overflow { IfErr result (IsScalingOverflow a.now b.now) }
{
    if *a == Frac::ONE {
        return Ok(*b);
    }
    if *b == Frac::ONE {
        return Ok(*a);
    }
    a.mul(b)
}

/// Whether `x` is greater than `y`.
pub(crate) fn is_greater(x: &Mono, y: &Mono) -> bool
    ensures { IsTrue result → deglex x.now y.now ≡ Greater }
{
    match x.compare(y) {
        Ordering::Greater => true,
        _ => false,
    }
}

/// Adds what is left of the term once `coef` is taken away, unless nothing is left; of equal numbers nothing is.
fn push_difference(above: &mut Vec<Term>, t: Term, coef: &Frac) -> Result<(), PolyError>
    ensures ok { OnOk result (PushesNonzero above.old.items above.new.items (record { coef = t.coef -ℚ coef.now; mono = t.mono })) }
    ensures cause { IfErr result (IsDifferenceRefusal t.coef coef.now) }
{
    if t.coef == *coef {
        return Ok(());
    }
    let difference = t.coef.sub(coef)?;
    if difference.is_zero() {
        return Ok(());
    }
    above.push(Term {
        coef: difference,
        mono: t.mono,
    })?;
    Ok(())
}

/// The terms above the index and those below it, in one list.
fn joined(above: Vec<Term>, below: Vec<Term>) -> Result<Vec<Term>, AllocError>
    ensures { IfOk result (λ h. h.items ≡ above.items ++ reverse below.items) }
{
    let mut all = above;
    let mut rest = below;
    'terms: while let Some(t) = rest.pop() {
        all.push(t)?;
    }
    Ok(all)
}

impl Dividend {
    /// The polynomial with the index above all terms; nothing is copied.
    pub fn new(alloc: Global, f: Poly) -> Dividend
        ensures value { split_of result ≡ record { above = []; below = f } }
        ensures descending { IsDescending f }
    {
        let mut below = f.into_terms();
        below.reverse();
        Dividend {
            above: Vec::new(alloc),
            below,
            front: None,
            passed: 0,
            taken: 0,
        }
    }

    /// The polynomial; nothing is copied, and terms that are still below the index are moved.
    ///
    /// # Errors
    ///
    /// `AllocError` if memory runs out.
    pub fn into_poly(self) -> Result<Poly, AllocError>
        requires { IsDescending (joined_terms (split_of self)) }
        ensures { IfOk result (λ f. f ≡ joined_terms (split_of self)) }
    {
        let Dividend { above, below, .. } = self;
        let terms = joined(above, below)?;
        Ok(Poly::from_descending(terms))
    }

    /// The first term below the index.
    pub fn next(&self) -> Option<&Term>
        ensures { MatchOption result ((split_of self.now).below ≡ []) (λ t. IsTermInFront (split_of self.now).below t.now) }
    {
        let n = self.below.len();
        if n == 0 {
            return None;
        }
        Some(&self.below[n - 1])
    }

    /// Moves the index below the first term that is below it; where there is none, nothing changes.
    ///
    /// # Errors
    ///
    /// `AllocError` if memory runs out; nothing is promised of the polynomial then.
    pub fn advance(&mut self) -> Result<(), AllocError>
        requires { (split_of self.old).below ≢ [] }
        ensures { OnOk result (PassesOne (split_of self.old) (split_of self.new)) }
    {
        if let Some(t) = self.below.pop() {
            self.above.push(t)?;
            self.passed = self.passed.wrapping_add(1);
        }
        Ok(())
    }

    /// Moves the index above the last term that is above it.
    fn retreat(&mut self) -> Result<(), AllocError>
        requires { self.old.above.items ≢ [] }
        ensures { OnOk result (PassesOne (split_of self.new) (split_of self.old)) }
    {
        if let Some(t) = self.above.pop() {
            self.below.push(t)?;
            self.passed = self.passed.wrapping_add(1);
        }
        Ok(())
    }

    /// Whether the terms after the first one below the index are less than `x`.
    fn is_over_next(&self, x: &Mono) -> bool
        ensures { IsTrue result → IsDescending (split_of self.now).below → IsOverRest x.now (split_of self.now).below }
    {
        let n = self.below.len();
        if n == 0 {
            return false;
        }
        if n == 1 {
            return true;
        }
        is_greater(x, &self.below[n - 2].mono)
    }

    /// Whether the terms descend with `x` in place of the first monomial below the index.
    pub(crate) fn has_room(&self, x: &Mono) -> bool
        requires { IsDescending (joined_terms (split_of self.now)) }
        ensures { IsTrue result → HasRoom (split_of self.now) x.now }
    {
        if self.has_passed(x) {
            return false;
        }
        self.is_over_next(x)
    }

    /// Whether `x` is between the terms beside the first one below the index, and comes before all monomials that wait.
    pub(crate) fn stays_at(&self, x: &Mono) -> bool {
        let is_ahead = match &self.front {
            Some(front) => front.is_ahead(x),
            None => true,
        };
        is_ahead && self.is_over_next(x) && !self.has_passed(x)
    }

    /// The first term below the index is this one from now on.
    ///
    /// # Errors
    ///
    /// `AllocError` if memory runs out; nothing is promised of the polynomial then.
    pub(crate) fn replace_next(&mut self, t: Term) -> Result<(), AllocError>
        requires { (split_of self.old).below ≢ [] }
        ensures { OnOk result (IsReplaced t (split_of self.old) (split_of self.new)) }
    {
        if let Some(_) = self.below.pop() {
            self.below.push(t)?;
        }
        Ok(())
    }

    /// How the first term below the index compares with `x`; where there is none it counts as less.
    fn compare_next(&self, x: &Mono) -> Ordering
        ensures { FirstIs (split_of self.now).below x.now result }
    {
        match self.next() {
            Some(t) => t.mono.compare(x),
            None => Ordering::Less,
        }
    }

    /// Whether the last term above the index isn't greater than `x`.
    fn has_passed(&self, x: &Mono) -> bool
        ensures yes { IsTrue result → self.now.above.items ≢ [] }
        ensures no { result ≡ false → IsDescending self.now.above.items → AreOver x.now self.now.above.items }
    {
        let n = self.above.len();
        if n == 0 {
            return false;
        }
        match self.above[n - 1].mono.compare(x) {
            Ordering::Greater => false,
            _ => true,
        }
    }

    /// Moves the index down to the first term that isn't greater than `x`, and answers how that one compares with it.
    ///
    /// # Errors
    ///
    /// `AllocError` if memory runs out; nothing is promised of the polynomial then.
    pub fn descend(&mut self, x: &Mono) -> Result<Ordering, AllocError>
        ensures { IfOk result (Descends x.now (split_of self.old) (split_of self.new)) }
    {
        'terms: loop {
            match self.compare_next(x) {
                Ordering::Greater => self.advance()?,
                unpassed => return Ok(unpassed),
            }
        }
    }

    /// Moves the index up until all terms above it are greater than `x`.
    fn ascend(&mut self, x: &Mono) -> Result<(), AllocError>
        requires { IsDescending self.old.above.items }
        ensures moves { OnOk result (MovesUp (split_of self.old) (split_of self.new)) }
        ensures over { OnOk result (AreOver x.now self.new.above.items) }
    {
        'terms: while self.has_passed(x) {
            self.retreat()?;
        }
        Ok(())
    }

    /// Moves the index up until `n` terms are above it.
    fn rise(&mut self, n: usize) -> Result<(), AllocError>
        requires { n ≤ length self.old.above.items }
        ensures moves { OnOk result (MovesUp (split_of self.old) (split_of self.new)) }
        ensures index { OnOk result (length self.new.above.items ≡ n) }
    {
        'terms: while self.above.len() > n {
            self.retreat()?;
        }
        Ok(())
    }

    /// Takes `coef` from the coefficient of the first term below the index; what is left of the term goes above it.
    fn take_from_next(&mut self, coef: &Frac) -> Result<(), PolyError>
        requires { (split_of self.old).below ≢ [] }
        ensures ok { OnOk result (TakesFromFirst coef.now (split_of self.old) (split_of self.new)) }
        ensures cause { IfErr result (IsFirstRefusal (split_of self.old).below coef.now) }
    {
        match self.below.pop() {
            Some(t) => push_difference(&mut self.above, t, coef),
            None => Ok(()),
        }
    }

    /// A new monomial waits, where some do.
    fn wait(&mut self, x: &Mono) -> Result<(), AllocError>
        ensures { OnOk result (split_of self.new ≡ split_of self.old) }
    {
        match &mut self.front {
            Some(front) => front.push(x),
            None => Ok(()),
        }
    }

    /// From now on monomials that a mark divides wait to be reduced, the greatest by the guide first: those that are there, and those
    /// that steps add.
    pub(crate) fn watch(
        &mut self,
        alloc: Global,
        guide: &Guide,
        by: &[Marked],
    ) -> Result<(), AllocError>
        ensures { OnOk result (split_of self.new ≡ split_of self.old) }
    {
        let mut front = Front::new(alloc, guide, by)?;
        'above: for i in 0..self.above.len() {
            front.push(&self.above[i].mono)?;
        }
        'below: for i in 0..self.below.len() {
            front.push(&self.below[i].mono)?;
        }
        self.front = Some(front);
        self.passed = 0;
        self.taken = 0;
        Ok(())
    }

    /// Takes the polynomial out; zero stays.
    pub(crate) fn take(&mut self, alloc: Global) -> Result<Poly, AllocError>
        requires { IsDescending (joined_terms (split_of self.old)) }
        ensures { IfOk result (λ f. f ≡ joined_terms (split_of self.old)) }
    {
        let all = mem::replace(self, Dividend::new(alloc, Poly::zero(alloc)));
        all.into_poly()
    }

    /// Whether the index passes so many terms for those that are taken away that a table is faster.
    pub(crate) fn is_far(&self) -> bool {
        self.passed / FAR > self.taken.saturating_add(FEW)
    }

    /// How many monomials wait.
    pub(crate) fn waiting(&self) -> usize {
        match &self.front {
            Some(front) => front.len(),
            None => 0,
        }
    }

    /// Takes the greatest monomial out that waits.
    pub(crate) fn foremost(&mut self, alloc: Global) -> Option<Mono>
        ensures { split_of self.new ≡ split_of self.old }
    {
        match &mut self.front {
            Some(front) => front.pop(alloc),
            None => None,
        }
    }

    /// Moves the index to the first term that isn't greater than `x`, and answers how that one compares with it.
    ///
    /// # Errors
    ///
    /// `AllocError` if memory runs out; nothing is promised of the polynomial then.
    pub fn go_to(&mut self, x: &Mono) -> Result<Ordering, AllocError>
        requires { IsDescending (joined_terms (split_of self.old)) }
        ensures { OnOk result (joined_terms (split_of self.new) ≡ joined_terms (split_of self.old)) }
    {
        self.ascend(x)?;
        self.descend(x)
    }

    /// Moves the index above all terms.
    ///
    /// # Errors
    ///
    /// `AllocError` if memory runs out; nothing is promised of the polynomial then.
    pub fn rewind(&mut self) -> Result<(), AllocError>
        ensures above { OnOk result ((split_of self.new).above ≡ []) }
        ensures same { OnOk result (joined_terms (split_of self.new) ≡ joined_terms (split_of self.old)) }
    {
        self.rise(0)
    }

    /// Takes `coef` times `mono` away, which is below the terms above the index; the index is below it then.
    fn take_away(&mut self, coef: &Frac, mono: Mono) -> Result<(), PolyError>
        requires sound { IsSound (length mono) (split_of self.old) }
        requires over { AreOver mono self.old.above.items }
        requires nonzero { coef.now ≢ zero_ℚ }
        ensures ok { OnOk result (TakesAway coef.now mono (split_of self.old) (split_of self.new)) }
        ensures cause { IfErr result (IsDifferenceRefusal (coefficient_at (joined_terms (split_of self.old)) mono) coef.now) }
    {
        match self.descend(&mono)? {
            Ordering::Equal => self.take_from_next(coef),
            _ => {
                self.wait(&mono)?;
                self.above.push(Term {
                    coef: coef.neg(),
                    mono,
                })?;
                Ok(())
            }
        }
    }

    /// Takes `coef` times `shift` times the sum of `terms` away, in one pass from the index down.
    ///
    /// # Errors
    ///
    /// `Overflow` and `Exponent` where a product of `coef` and a coefficient, one of `shift` and a monomial, or a difference of coefficients leaves
    /// its range; it holds the operands. `Memory` if memory runs out.
    pub fn subtract(&mut self, coef: &Frac, shift: &Mono, terms: &[Term]) -> Result<(), PolyError>
        requires sound { IsSound (length shift.now) (split_of self.old) }
        requires variables { HasVariables (length shift.now) terms.now }
        requires descending { IsDescending terms.now }
        requires over { AreOverProducts shift.now terms.now self.old.above.items }
        requires nonzero { coef.now ≢ zero_ℚ }
        ensures ok { OnOk result (Subtracts coef.now shift.now terms.now (split_of self.old) (split_of self.new)) }
        ensures cause { IfErr result (IsSubtractionRefusal (joined_terms (split_of self.old)) coef.now shift.now terms.now) }
    {
        'terms: for i in 0..terms.len() {
            let t = &terms[i];
            let difference = product(coef, &t.coef)?;
            let mono = shift.mul(&t.mono)?;
            self.take_away(&difference, mono)?;
            self.taken = self.taken.wrapping_add(1);
        }
        Ok(())
    }

    /// The quotient of the first term below the index by `by`, which divides it.
    fn quotient(&self, by: &Mono) -> Term
        requires sound { IsSound (length by.now) (split_of self.now) }
        requires divides { DividesFirst by.now (split_of self.now).below }
        ensures coefficient { coefficient_at (joined_terms (split_of self.now)) (head_of (split_of self.now).below zero) ≡ result.coef }
        ensures nonzero { result.coef ≢ zero_ℚ }
        ensures product { plus result.mono by.now ≡ head_of (split_of self.now).below zero }
        ensures variables { length result.mono ≡ length by.now }
    {
        match self.next() {
            Some(t) => Term {
                coef: t.coef,
                mono: t.mono.quotient(by),
            },
            None => unreachable!(),
        }
    }

    /// The step at the first term below the index by `by`, whose mark divides it; answers the quotient of the term by the
    /// mark. No term is above the index that wasn't there.
    ///
    /// # Errors
    ///
    /// `Overflow` and `Exponent` only where two numbers of this step don't fit, which it holds. `Memory` if memory runs out.
    pub fn step(&mut self, by: &Marked) -> Result<Term, PolyError>
        requires variables { SharesVariables by.now (split_of self.old) }
        requires divides { DividesFirst by.now.head (split_of self.old).below }
        ensures step { IfOk result (λ q. TakesStep by.now (split_of self.old) q (split_of self.new)) }
        ensures cause { IfErr result (IsStepRefusal (joined_terms (split_of self.old)) by.now (head_of (split_of self.old).below zero)) }
    {
        let quotient = self.quotient(by.head());
        let terms = by.poly().terms();
        let first = &terms[0];
        let greatest = quotient.mono.mul(&first.mono)?;
        self.ascend(&greatest)?;
        let index = self.above.len();
        self.subtract(&quotient.coef, &quotient.mono, terms)?;
        self.rise(index)?;
        Ok(quotient)
    }
}
