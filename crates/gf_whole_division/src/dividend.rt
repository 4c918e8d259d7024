//! A polynomial under reduction, up to a factor.

ghost use Rattle.std.specs.Prelude.{◌≡◌, ◌↔◌, ◌++◌, ◌∷◌, [], ◌<◌, ◌-◌, length, pos, IfOk, IfSome, OnOk, IsTrue};
ghost use Rattle.gf_frac.specs.Fraction.{whole};
ghost use Rattle.gf_exponents_theory.specs.Exponents.{Divides, degree as total_degree};
ghost use Rattle.gf_poly.specs.Polynomial.{SamePolynomial, times};
ghost use Rattle.gf_whole_division.specs.Values.{whole_terms, HasNone, IsMultipleOf};
ghost use Rattle.gf_whole_division.specs.Reductions.{IsDividedAt, KeepsReached, terms_of};

use crate::combinations::{Multiplier, combined, divided, scaled};
use crate::members::WholeMember;
use crate::ranking::Ranking;
use crate::terms::{Beyond, WholeTerm, differ};
use gf_poly::Mono;
use gf_whole::Whole;
use std::alloc::Global;
use std::mem;

/// The terms that no member divides, and those that wait, in ascending order.
#[derive(Drop)]
pub struct WholeDividend {
    done: Vec<WholeTerm>,
    rest: Vec<WholeTerm>,
    words: usize,
}

/// Whether the mark divides `x`, whose degree is given: a mark of greater degree doesn't.
fn is_divided(x: &Mono, degree: u64, mark: &Mono) -> bool
    requires variables { length mark.now ≡ length x.now }
    requires degree { degree ≡ total_degree x.now }
    ensures { IsTrue result ↔ Divides mark.now x.now }
{
    if degree < mark.degree() {
        return false;
    }
    mark.divides(x)
}

/// The index of the first member whose mark divides `x`, if there is one.
///
/// # Errors
///
/// `Beyond` if a mark before that one has another number of variables than `x`.
pub fn divisor_of(x: &Mono, by: &[WholeMember]) -> Result<Option<usize>, Beyond>
    ensures { IfOk result (λ found. IfSome found (IsDividedAt by.now x.now)) }
{
    let degree = x.degree();
    'members: for j in 0..by.len() {
        let member = &by[j];
        let mark = member.head();
        if mark.exponents().len() != x.exponents().len() {
            return Err(Beyond);
        }
        if is_divided(x, degree, mark) {
            return Ok(Some(j));
        }
    }
    Ok(None)
}

/// Whether no term has the monomial `x`.
fn has_none(terms: &[WholeTerm], x: &Mono) -> bool
    ensures { IsTrue result → HasNone x.now (whole_terms terms.now) }
{
    'terms: for i in 0..terms.len() {
        let t = &terms[i];
        if !differ(x, t.mono()) {
            return false;
        }
    }
    true
}

/// A divisor of all coefficients, mostly the greatest one, of those of a list and this one.
fn content(terms: &[WholeTerm], with: Whole) -> Whole {
    let mut found = with;
    'terms: for t in terms {
        if found.is_one() {
            return found;
        }
        found = t.coef().divisor(&found);
    }
    found
}

impl WholeDividend {
    /// The polynomial with these terms, ascending by their ranks.
    pub fn new(alloc: Global, terms: Vec<WholeTerm>) -> WholeDividend
        ensures { SamePolynomial (terms_of result) (whole_terms terms.items) }
    {
        WholeDividend {
            done: Vec::new(alloc),
            rest: terms,
            words: 0,
        }
    }

    /// Whether no term waits.
    pub fn is_done(&self) -> bool
        ensures { IsTrue result ↔ (self.now.rest.items ≡ []) }
    {
        self.rest.is_empty()
    }

    /// Passes the greatest term that waits; nothing changes if none does.
    ///
    /// # Errors
    ///
    /// `Beyond` if there is no memory.
    pub fn pass(&mut self) -> Result<(), Beyond>
        ensures { OnOk result (SamePolynomial (terms_of self.new) (terms_of self.old)) }
    {
        match self.rest.pop() {
            Some(t) => {
                self.done.push(t)?;
                Ok(())
            }
            None => Ok(()),
        }
    }

    /// Takes both parts by a number, and adds a multiple of a polynomial.
    fn add(
        &mut self,
        alloc: Global,
        by: &Whole,
        more: &[WholeTerm],
        m: &Multiplier,
        ranking: &Ranking,
    ) -> Result<(), Beyond>
        ensures { OnOk result (SamePolynomial (terms_of self.new)
            (times (whole by.now) [] (terms_of self.old) ++ times (whole m.now.factor) m.now.mono (whole_terms more.now))) }
    {
        if !by.is_one() {
            let done = mem::replace(&mut self.done, Vec::new(alloc));
            self.done = scaled(alloc, done, by)?;
        }
        let rest = mem::replace(&mut self.rest, Vec::new(alloc));
        self.rest = combined(alloc, rest, by, more, m, ranking)?;
        Ok(())
    }

    /// The step at the greatest term that waits, by the first member whose mark divides it; where none does, the term is passed.
    ///
    /// # Errors
    ///
    /// `Beyond` if a coefficient reaches 2^512, if an exponent or a degree leaves its range, if another term has the same monomial, or if there is
    /// no memory.
    pub fn reduce(
        &mut self,
        alloc: Global,
        by: &[WholeMember],
        ranking: &Ranking,
    ) -> Result<(), Beyond>
        requires { 0 < length self.old.rest.items }
        ensures { OnOk result (KeepsReached by.now (terms_of self.old) (terms_of self.new)) }
    {
        let last = self.rest.len() - 1;
        let t = &self.rest[last];
        let (x, coef) = (t.mono(), t.coef());
        let found = divisor_of(x, by)?;
        let Some(j) = found else {
            return self.pass();
        };
        if coef.is_zero() {
            return Err(Beyond);
        }
        if !has_none(&self.done, x) {
            return Err(Beyond);
        }
        if !has_none(&self.rest[..last], x) {
            return Err(Beyond);
        }
        let member = &by[j];
        let (lead, terms) = member.multiple();
        let (_, factor, share) = lead.common(coef);
        let mono = x.quotient(member.head());
        let rank = ranking.rank(&mono)?;
        let m = Multiplier {
            factor: share.neg(),
            mono,
            rank,
        };
        self.add(alloc, &factor, terms, &m, ranking)
    }

    /// Divides by a common divisor of all coefficients, where one is found.
    fn divide(&mut self, alloc: Global) -> Result<(), Beyond>
        ensures { OnOk result (IsMultipleOf (terms_of self.new) (terms_of self.old)) }
    {
        let first = content(&self.rest, Whole::new(0));
        let found = content(&self.done, first);
        if found.is_zero() || found.is_one() {
            return Ok(());
        }
        let done = divided(alloc, &self.done, &found)?;
        let rest = divided(alloc, &self.rest, &found)?;
        self.done = done;
        self.rest = rest;
        Ok(())
    }

    /// Divides by a common divisor of all coefficients once the coefficient of the greatest waiting term has grown by 128 bits.
    ///
    /// # Errors
    ///
    /// `Beyond` if a division is not found to be exact, or if there is no memory.
    pub fn shorten(&mut self, alloc: Global) -> Result<(), Beyond>
        ensures { OnOk result (IsMultipleOf (terms_of self.new) (terms_of self.old)) }
    {
        let words = match self.rest.last() {
            Some(t) => t.coef().words(),
            None => return Ok(()),
        };
        if words < self.words.saturating_add(2) {
            return Ok(());
        }
        self.divide(alloc)?;
        self.words = match self.rest.last() {
            Some(t) => t.coef().words(),
            None => 0,
        };
        Ok(())
    }

    /// The terms, where none waits.
    pub fn into_terms(self) -> Vec<WholeTerm>
        requires { self.rest.items ≡ [] }
        ensures { whole_terms result.items ≡ terms_of self }
    {
        let WholeDividend { done, .. } = self;
        done
    }
}
