//! A polynomial with wide coefficients that is being reduced.

ghost use Rattle.std.specs.Prelude.{◌≡◌, ◌≢◌, ◌<◌, ◌≤◌, [], length, IfOk, IfSome, OnOk};
ghost use Rattle.std.specs.List.{insert};
ghost use Rattle.gf_frac.specs.Fraction.{zero_ℚ};
ghost use Rattle.gf_exponents_theory.specs.Exponents.{Divides};
ghost use Rattle.gf_poly.specs.Polynomial.{IsDescending, HasVariables};
ghost use Rattle.gf_ideal_theory.specs.Reduction.{IsSPolynomial};
ghost use Rattle.gf_division.specs.Dividends.{joined_terms, IsSound, Descends, TakesAway, Subtracts, SharesVariables};
ghost use Rattle.gf_division.specs.SPolynomials.{SharePairVariables, KeepsPairVariables, AreLcmCofactors};
ghost use Rattle.gf_division.specs.Tables.{StepsFrom, IsCutBefore};
ghost use Rattle.gf_wide_division.specs.Dividends.{uncut, cut_at, dividend_of, TakesAt};
ghost use Rattle.gf_wide_division.specs.Values.{term_value, value_terms};

use crate::polynomial::WidePoly;
use crate::precedence::Precedence;
use crate::reducers::is_open;
use crate::terms::{Beyond, WideTerm, difference, one, product};
use gf_poly::{Marked, Mono, Poly, Term};
use gf_wide::WideFrac;
use std::alloc::Global;
use std::cmp::Ordering;

/// The terms of the polynomial, the greatest by deglex first; of each it is kept whether it waits to be reduced.
///
/// Contracts see a polynomial under reduction with the index above all of its terms.
#[derive(Drop)]
pub struct WideDividend {
    terms: Vec<WideTerm>,
}

/// The cofactors of two monomials: what each is multiplied by to give their least common multiple.
fn cofactors(x: &Mono, y: &Mono) -> (Mono, Mono)
    requires { length x.now ≡ length y.now }
    ensures { AreLcmCofactors x.now y.now result.0 result.1 }
{
    let multiple = x.lcm(y);
    (multiple.quotient(x), multiple.quotient(y))
}

impl WideDividend {
    /// The polynomial `f`, to be reduced by these members, but not at the spared monomial.
    ///
    /// # Errors
    ///
    /// `Beyond` if memory runs out.
    pub fn new(
        alloc: Global,
        f: &Poly,
        by: &[Marked],
        spared: &Option<Mono>,
    ) -> Result<WideDividend, Beyond>
        ensures value { IfOk result (λ d. dividend_of d ≡ uncut f.now) }
        ensures descending { IsDescending f.now }
    {
        let all = f.terms();
        let mut terms = Vec::with_capacity(alloc, all.len())?;
        let mut i = 0;
        'terms: while i < all.len() {
            let t = &all[i];
            let coef = WideFrac::new(&t.coef);
            let waits = is_open(&t.mono, by, spared);
            let mono = t.mono.copy();
            terms.push(WideTerm { coef, mono, waits })?;
            i += 1;
        }
        Ok(WideDividend { terms })
    }

    /// The polynomial `f` with wide coefficients, to be reduced by these members, but not at the spared monomial.
    ///
    /// # Errors
    ///
    /// `Beyond` if memory runs out.
    pub fn of_poly(
        alloc: Global,
        f: &WidePoly,
        by: &[Marked],
        spared: &Option<Mono>,
    ) -> Result<WideDividend, Beyond>
        ensures value { IfOk result (λ d. dividend_of d ≡ uncut f.now) }
        ensures descending { IsDescending f.now }
    {
        let all = f.terms();
        let mut terms = Vec::with_capacity(alloc, all.len())?;
        let mut i = 0;
        'terms: while i < all.len() {
            let t = &all[i];
            let coef = t.coef.copy();
            let waits = is_open(&t.mono, by, spared);
            let mono = t.mono.copy();
            terms.push(WideTerm { coef, mono, waits })?;
            i += 1;
        }
        Ok(WideDividend { terms })
    }

    /// The zero polynomial.
    fn zero(alloc: Global) -> WideDividend
        ensures { dividend_of result ≡ uncut [] }
    {
        WideDividend {
            terms: Vec::new(alloc),
        }
    }

    /// The S-polynomial of two monic marked polynomials, to be reduced by these members.
    ///
    /// # Errors
    ///
    /// `Beyond` where the working of a product or a difference of coefficients reaches 2^512, or a sum of two exponents reaches 2^31, or if memory
    /// runs out.
    pub fn of_pair(
        alloc: Global,
        b: &Marked,
        c: &Marked,
        by: &[Marked],
    ) -> Result<WideDividend, Beyond>
        requires { SharePairVariables b.now c.now }
        ensures value { IfOk result (λ d. IsSPolynomial b.now c.now (joined_terms (dividend_of d))) }
        ensures descending { IfOk result (λ d. IsDescending (joined_terms (dividend_of d))) }
        ensures variables { IfOk result (λ d. KeepsPairVariables b.now c.now (joined_terms (dividend_of d))) }
    {
        let (of_b, of_c) = cofactors(b.head(), c.head());
        let one = one();
        let mut rest = WideDividend::zero(alloc);
        rest.subtract(&one.neg(), &of_b, b.poly().terms(), by, &None)?;
        rest.subtract(&one, &of_c, c.poly().terms(), by, &None)?;
        Ok(rest)
    }

    /// The polynomial.
    pub fn into_poly(self) -> WidePoly
        requires { IsDescending (joined_terms (dividend_of self)) }
        ensures { result ≡ joined_terms (dividend_of self) }
    {
        let WideDividend { terms } = self;
        WidePoly::of(terms)
    }

    /// A copy of the term that is taken first of those that wait.
    pub fn foremost(&self, first: &Precedence) -> Option<WideTerm>
        ensures { IfSome result (λ t. IsCutBefore (joined_terms (dividend_of self.now)) (term_value t)) }
    {
        let i = self.index_of_foremost(first)?;
        let t = &self.terms[i];
        Some(t.copy())
    }

    /// The index of the term that is taken first of those that wait.
    fn index_of_foremost(&self, first: &Precedence) -> Option<usize>
        ensures { IfSome result (λ i. i < length self.now.terms.items) }
    {
        let mut found = None;
        'terms: for i in 0..self.terms.len() {
            if !self.terms[i].waits {
                continue;
            }
            found = Some(self.first_of(first, found, i));
        }
        found
    }

    /// Of the index that is found already and the index `i`, the one whose term is taken first.
    fn first_of(&self, first: &Precedence, found: Option<usize>, i: usize) -> usize
        requires found { IfSome found (λ k. k < length self.now.terms.items) }
        requires next { i < length self.now.terms.items }
        ensures { result < length self.now.terms.items }
    {
        match found {
            Some(k) => {
                if first.is_before(&self.terms[i].mono, &self.terms[k].mono) {
                    i
                } else {
                    k
                }
            }
            None => i,
        }
    }

    /// The index of the first term that isn't greater than `x`, and how that one compares with it; where there is none it counts as less.
    fn index(&self, x: &Mono) -> (usize, Ordering)
        ensures inside { result.0 ≤ length self.now.terms.items }
        ensures index { Descends x.now (dividend_of self.now) (cut_at result.0 (value_terms self.now.terms.items)) result.1 }
    {
        let mut i = 0;
        'terms: while i < self.terms.len() {
            match self.terms[i].mono.compare(x) {
                Ordering::Greater => i += 1,
                Ordering::Equal => return (i, Ordering::Equal),
                Ordering::Less => return (i, Ordering::Less),
            }
        }
        (i, Ordering::Less)
    }

    /// Takes `coef` from the coefficient of the term at an index; where nothing is left there is no term.
    fn take_from(&mut self, index: usize, coef: &WideFrac) -> Result<(), Beyond>
        requires { index < length self.old.terms.items }
        ensures { OnOk result (TakesAt coef.now index (value_terms self.old.terms.items) (value_terms self.new.terms.items)) }
    {
        let t = self.terms.remove(index);
        let left = difference(&t.coef, coef)?;
        if left.is_zero() {
            return Ok(());
        }
        let rest = WideTerm {
            coef: left,
            mono: t.mono.copy(),
            waits: t.waits,
        };
        self.terms.insert(index, rest)?;
        Ok(())
    }

    /// Puts a new term at an index.
    fn put(&mut self, index: usize, new: WideTerm) -> Result<(), Beyond>
        requires { index ≤ length self.old.terms.items }
        ensures { OnOk result (self.new.terms.items ≡ insert self.old.terms.items index new) }
    {
        self.terms.insert(index, new)?;
        Ok(())
    }

    /// Takes `coef` times `mono` away; a new term waits, or doesn't.
    fn take_away(&mut self, coef: &WideFrac, mono: Mono, waits: bool) -> Result<(), Beyond>
        requires sound { IsSound (length mono) (dividend_of self.old) }
        requires nonzero { coef.now ≢ zero_ℚ }
        ensures { OnOk result (TakesAway coef.now mono (dividend_of self.old) (dividend_of self.new)) }
    {
        let (index, order) = self.index(&mono);
        let new = WideTerm {
            coef: coef.neg(),
            mono,
            waits,
        };
        match order {
            Ordering::Equal => self.take_from(index, coef),
            _ => self.put(index, new),
        }
    }

    /// Takes `coef` times `shift` times the sum of `terms` away; a new term waits where a member of `by` reduces it.
    ///
    /// # Errors
    ///
    /// `Beyond` where the working of a product or a difference of coefficients reaches 2^512, or a sum of two exponents reaches 2^31, or if memory
    /// runs out; nothing is promised of the polynomial then.
    pub fn subtract(
        &mut self,
        coef: &WideFrac,
        shift: &Mono,
        terms: &[Term],
        by: &[Marked],
        spared: &Option<Mono>,
    ) -> Result<(), Beyond>
        requires sound { IsSound (length shift.now) (dividend_of self.old) }
        requires variables { HasVariables (length shift.now) terms.now }
        requires descending { IsDescending terms.now }
        requires nonzero { coef.now ≢ zero_ℚ }
        ensures { OnOk result (Subtracts coef.now shift.now terms.now (dividend_of self.old) (dividend_of self.new)) }
    {
        'terms: for i in 0..terms.len() {
            let t = &terms[i];
            let difference = product(coef, &t.coef)?;
            let mono = shift.mul(&t.mono)?;
            let waits = is_open(&mono, by, spared);
            self.take_away(&difference, mono, waits)?;
        }
        Ok(())
    }

    /// The step of reduction at a term of the polynomial by `member`, whose mark divides it: the quotient of the term by the mark, times `member`, is
    /// taken away.
    ///
    /// # Errors
    ///
    /// `Beyond` where the working of a product or a difference of coefficients reaches 2^512, or a sum of two exponents reaches 2^31, or if memory
    /// runs out; nothing is promised of the polynomial then.
    pub fn step(
        &mut self,
        t: &WideTerm,
        member: &Marked,
        by: &[Marked],
        spared: &Option<Mono>,
    ) -> Result<(), Beyond>
        requires there { IsCutBefore (joined_terms (dividend_of self.old)) (term_value t.now) }
        requires variables { SharesVariables member.now (dividend_of self.old) }
        requires divides { Divides member.now.head t.now.mono }
        ensures { OnOk result (StepsFrom member.now (joined_terms (dividend_of self.old)) (term_value t.now) (dividend_of self.new)) }
    {
        let quotient = t.mono.quotient(member.head());
        self.subtract(&t.coef, &quotient, member.poly().terms(), by, spared)
    }
}
