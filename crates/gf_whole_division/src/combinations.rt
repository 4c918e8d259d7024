//! Sums of multiples of polynomials with whole coefficients.
//!
//! Lists ascend by the ranks of their terms, so that like terms meet; but what is proved rests on no order.

ghost use Rattle.std.specs.Prelude.{◌≡◌, ◌<◌, ◌++◌, ◌+ℤ◌, ◌*ℤ◌, [], false, length, IfOk, OnOk, IsTrue};
ghost use Rattle.gf_frac.specs.Fraction.{whole};
ghost use Rattle.gf_poly.specs.Polynomial.{SamePolynomial, times, times_term};
ghost use Rattle.gf_whole_division.specs.Combinations.{IsMoved, IsSumWith, IsTotal};
ghost use Rattle.gf_whole_division.specs.Values.{whole_terms, term_value};

use crate::ranking::{Rank, Ranking};
use crate::terms::{Beyond, WholeTerm, is_product, product, sum};
use gf_poly::Mono;
use gf_whole::Whole;
use std::alloc::Global;
use std::cmp::Ordering;

/// A whole number times a monomial, with the rank of this.
#[derive(Drop)]
pub struct Multiplier {
    pub factor: Whole,
    pub mono: Mono,
    pub rank: Rank,
}

impl Multiplier {
    /// The product with a term.
    fn of(&self, alloc: Global, t: &WholeTerm, ranking: &Ranking) -> Result<WholeTerm, Beyond>
        ensures { IfOk result (λ r. term_value r ≡ times_term (whole self.now.factor) self.now.mono (term_value t.now)) }
    {
        if self.mono.exponents().len() != t.mono().exponents().len() {
            return Err(Beyond);
        }
        let mono = self.mono.mul(t.mono())?;
        let rank = ranking.sum(&mono, &self.rank, &t.rank)?;
        let coef = product(t.coef(), &self.factor)?;
        let term = WholeTerm::new(alloc, coef, mono, rank)?;
        Ok(term)
    }

    /// The product with a term, and another number.
    fn plus(&self, t: &WholeTerm, other: &Whole) -> Result<Whole, Beyond>
        ensures { IfOk result (λ z. z ≡ other.now +ℤ t.now.kept.value.coef *ℤ self.now.factor) }
    {
        let coef = product(t.coef(), &self.factor)?;
        sum(other, &coef)
    }
}

/// Terms that are added up: those above an index, the greatest first, and those below it, the greatest last, which are to be multiplied still.
#[derive(Drop)]
pub struct Halves {
    pub above: Vec<WholeTerm>,
    pub below: Vec<WholeTerm>,
}

impl Halves {
    /// Moves the first term below the index above it, times a number.
    fn pass(&mut self, by: &Whole) -> Result<(), Beyond>
        ensures moved { OnOk result (IsMoved (whole by.now) self.old self.new) }
        ensures shorter { OnOk result (0 < length self.old.below.items → length self.new.below.items < length self.old.below.items) }
    {
        if let Some(first) = self.below.pop() {
            let mut t = first;
            t.scale(by)?;
            self.above.push(t)?;
        }
        Ok(())
    }

    /// Whether there is a term below the index, and the first one is of greater rank.
    fn is_next_greater(&self, rank: &Rank) -> bool
        ensures { IsTrue result → 0 < length self.now.below.items }
    {
        let n = self.below.len();
        if n == 0 {
            return false;
        }
        matches!(self.below[n - 1].rank.compare(rank), Ordering::Greater)
    }

    /// Whether the first term below the index is of this rank.
    fn is_next_equal(&self, rank: &Rank) -> bool {
        match self.below.last() {
            Some(t) => matches!(t.rank.compare(rank), Ordering::Equal),
            None => false,
        }
    }

    /// Moves the index down to the first term that isn't of greater rank.
    fn descend(&mut self, by: &Whole, rank: &Rank) -> Result<(), Beyond>
        ensures { OnOk result (IsMoved (whole by.now) self.old self.new) }
    {
        'terms: while self.is_next_greater(rank) {
            self.pass(by)?;
        }
        Ok(())
    }

    /// Adds the product with a term, whose monomial the first term below the index has, to that one.
    fn merge(&mut self, by: &Whole, m: &Multiplier, t: &WholeTerm) -> Result<(), Beyond>
        ensures { OnOk result (IsSumWith (whole by.now) self.old self.new
            (times_term (whole m.now.factor) m.now.mono (term_value t.now))) }
    {
        let Some(first) = self.below.pop() else {
            return Err(Beyond);
        };
        let mut s = first;
        if !is_product(s.mono(), &m.mono, t.mono()) {
            return Err(Beyond);
        }
        s.scale(by)?;
        let coef = m.plus(t, s.coef())?;
        if coef.is_zero() {
            return Ok(());
        }
        s.set_coef(coef);
        self.above.push(s)?;
        Ok(())
    }

    /// Adds the product with a term.
    fn add(
        &mut self,
        alloc: Global,
        by: &Whole,
        m: &Multiplier,
        t: &WholeTerm,
        ranking: &Ranking,
    ) -> Result<(), Beyond>
        ensures { OnOk result (IsSumWith (whole by.now) self.old self.new
            (times_term (whole m.now.factor) m.now.mono (term_value t.now))) }
    {
        let rank = m.rank.plus(&t.rank);
        self.descend(by, &rank)?;
        if self.is_next_equal(&rank) {
            return self.merge(by, m, t);
        }
        let new = m.of(alloc, t, ranking)?;
        self.above.push(new)?;
        Ok(())
    }

    /// Whether no term is below the index.
    fn is_done(&self) -> bool
        ensures yes { IsTrue result → self.now.below.items ≡ [] }
        ensures no { result ≡ false → 0 < length self.now.below.items }
    {
        self.below.is_empty()
    }

    /// Moves the index below all terms, unless those below it are to be multiplied by 1.
    fn finish(&mut self, by: &Whole) -> Result<(), Beyond>
        ensures { OnOk result (IsTotal (whole by.now) self.old self.new) }
    {
        if by.is_one() {
            return Ok(());
        }
        'terms: while !self.is_done() {
            self.pass(by)?;
        }
        Ok(())
    }

    /// The terms in one list, ascending by their ranks.
    fn joined(self) -> Result<Vec<WholeTerm>, Beyond>
        ensures { IfOk result (λ h. SamePolynomial (whole_terms h.items) (whole_terms self.above.items ++ whole_terms self.below.items)) }
    {
        let Halves {
            mut above,
            mut below,
        } = self;
        'terms: while let Some(t) = above.pop() {
            below.push(t)?;
        }
        Ok(below)
    }
}

/// The polynomial times a whole number.
///
/// # Errors
///
/// `Beyond` if a coefficient reaches 2^512, or if there is no memory.
pub fn scaled(alloc: Global, terms: Vec<WholeTerm>, by: &Whole) -> Result<Vec<WholeTerm>, Beyond>
    ensures { IfOk result (λ h. SamePolynomial (whole_terms h.items) (times (whole by.now) [] (whole_terms terms.items))) }
{
    let mut all = Halves {
        above: Vec::with_capacity(alloc, terms.len())?,
        below: terms,
    };
    all.finish(by)?;
    all.joined()
}

/// The polynomial divided by a divisor of its coefficients.
///
/// # Errors
///
/// `Beyond` if a division is not found to be exact, or if there is no memory.
pub fn divided(alloc: Global, terms: &[WholeTerm], by: &Whole) -> Result<Vec<WholeTerm>, Beyond>
    ensures { IfOk result (λ h. whole_terms terms.now ≡ times (whole by.now) [] (whole_terms h.items)) }
{
    let mut out = Vec::with_capacity(alloc, terms.len())?;
    let mut i = 0;
    'terms: while i < terms.len() {
        let t = &terms[i];
        let share = t.divided(alloc, by)?;
        out.push(share)?;
        i += 1;
    }
    Ok(out)
}

/// The sum of `by` times one polynomial and `m` times another one, with like terms combined where the two lists show them at the same rank.
///
/// # Errors
///
/// `Beyond` if a coefficient reaches 2^512, if the degree of a product leaves the room of an exponent, if terms of equal rank have different
/// monomials, or if there is no memory.
pub fn combined(
    alloc: Global,
    old: Vec<WholeTerm>,
    by: &Whole,
    more: &[WholeTerm],
    m: &Multiplier,
    ranking: &Ranking,
) -> Result<Vec<WholeTerm>, Beyond>
    ensures { IfOk result (λ h. SamePolynomial (whole_terms h.items)
        (times (whole by.now) [] (whole_terms old.items) ++ times (whole m.now.factor) m.now.mono (whole_terms more.now))) }
{
    let mut all = Halves {
        above: Vec::with_capacity(alloc, old.len().saturating_add(more.len()))?,
        below: old,
    };
    let mut j = more.len();
    'terms: while j > 0 {
        j -= 1;
        let t = &more[j];
        all.add(alloc, by, m, t, ranking)?;
    }
    all.finish(by)?;
    all.joined()
}
