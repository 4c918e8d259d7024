//! A long polynomial that is being reduced, as a table of its coefficients: a step costs what it changes, however many terms there are.

ghost use Rattle.std.specs.Prelude.{◌≡◌, ◌≢◌, [], length, IfOk, IfErr, IfSome, OnOk};
ghost use Rattle.gf_frac.specs.Fraction.{◌-ℚ◌, zero_ℚ};
ghost use Rattle.gf_exponents_theory.specs.Exponents.{Divides};
ghost use Rattle.gf_poly.specs.Polynomial.{coefficient as coefficient_at, IsDescending, HasVariables};
ghost use Rattle.gf_division.specs.Steps.{IsStepRefusal};
ghost use Rattle.gf_division.specs.Dividends.{joined_terms, IsSound, TakesAway, IsDifferenceOverflow, IsDifferenceRefusal, Subtracts, IsSubtractionRefusal};
ghost use Rattle.gf_division.specs.Dividends.{SharesVariables};
ghost use Rattle.gf_division.specs.Tables.{table_of, coefficient_in, Puts, IsCutBefore, StepsFrom};

use crate::dividend::product;
use crate::front::{Front, Guide};
use gf_frac::{Frac, Overflow};
use gf_poly::{Marked, Mono, Poly, PolyError, Term};
use std::alloc::{AllocError, Global};
use std::cmp::Ordering;
use std::collections::BTreeMap;

/// A monomial as a key: the greatest by deglex comes first.
#[derive(Drop)]
pub struct Key {
    mono: Mono,
}

impl PartialEq for Key {
    ghost use Rattle.std.specs.Prelude.{◌==◌};
    ghost use Rattle.std.specs.Cmp.Rules.{comparing};
    ghost use Rattle.std.specs.Ordering.{on, eq_of_both};
    ghost use Rattle.std.proofs.Common.{rules};
    ghost use lib.Pointwise.{pointwise};
    ghost use Rattle.gf_exponents_theory.specs.Exponents.{degree};

    ghost eq = { eq_of_both (on (λ k. degree k.mono) ◌==◌) (on (λ k. k.mono) (pointwise ◌==◌)) };

    ghost laws = { Prim.search (comparing, rules) };

    fn eq(&self, other: &Key) -> bool {
        self.mono.degree() == other.mono.degree() && self.mono.exponents() == other.mono.exponents()
    }
}

impl Eq for Key {
    ghost use Rattle.std.specs.Cmp.Rules.{comparing};
    ghost use Rattle.std.proofs.Common.{rules};

    ghost laws = { Prim.search (comparing, rules) };
}

impl PartialOrd for Key {
    ghost use Rattle.std.specs.Cmp.{partial_order_from_own_ties};
    ghost use Rattle.std.specs.Cmp.Lexicographic.{slice_cmp};
    ghost use Rattle.std.specs.Cmp.Rules.{comparing};
    ghost use Rattle.std.specs.Ordering.{nat_cmp, on, flip_args, then_cmp, as_partial_cmp};
    ghost use Rattle.std.proofs.Common.{rules};
    ghost use Rattle.gf_exponents_theory.specs.Exponents.{degree};

    ghost partial_cmp = { as_partial_cmp (then_cmp (flip_args (on (λ k. degree k.mono) nat_cmp)) (flip_args (on (λ k. k.mono) (slice_cmp nat_cmp)))) };

    ghost laws = { partial_order_from_own_ties (Prim.search (comparing, rules)) (Prim.search (comparing, rules)) };

    fn partial_cmp(&self, other: &Key) -> Option<Ordering> {
        Some(self.cmp(other))
    }
}

impl Ord for Key {
    ghost use Rattle.std.specs.Cmp.Lexicographic.{slice_cmp};
    ghost use Rattle.std.specs.Cmp.Rules.{comparing};
    ghost use Rattle.std.specs.Ordering.{nat_cmp, on, flip_args, then_cmp};
    ghost use Rattle.std.proofs.Common.{rules};
    ghost use Rattle.gf_exponents_theory.specs.Exponents.{degree};

    ghost cmp = { then_cmp (flip_args (on (λ k. degree k.mono) nat_cmp)) (flip_args (on (λ k. k.mono) (slice_cmp nat_cmp))) };

    ghost total = { Prim.search (comparing, rules) };

    ghost matches_partial_cmp = { Prim.search (comparing, rules) };

    ghost matches_eq = { Prim.search (comparing, rules) };

    fn cmp(&self, other: &Key) -> Ordering {
        other.mono.compare(&self.mono)
    }
}

/// The coefficient at each monomial of the polynomial, and the monomials that wait to be reduced.
#[derive(Drop)]
pub struct Table {
    entries: BTreeMap<Key, Frac>,
    front: Front,
}

/// The difference; of equal numbers it is zero.
fn difference(a: &Frac, b: &Frac) -> Result<Frac, Overflow>
    ensures value { IfOk result (λ x. x ≡ a.now -ℚ b.now) }
    ensures overflow { IfErr result (IsDifferenceOverflow a.now b.now) }
{
    if *a == *b {
        return Ok(Frac::ZERO);
    }
    a.sub(b)
}

impl Table {
    /// The polynomial as a table; each of its monomials waits that a mark divides.
    ///
    /// # Errors
    ///
    /// `AllocError` if memory runs out.
    pub fn new(alloc: Global, f: Poly, guide: &Guide, by: &[Marked]) -> Result<Table, AllocError>
        ensures { IfOk result (λ t. table_of t ≡ record { above = []; below = f }) }
    {
        let mut front = Front::new(alloc, guide, by)?;
        let mut entries = BTreeMap::new(alloc);
        let mut rest = f.into_terms();
        'terms: while let Some(t) = rest.pop() {
            front.push(&t.mono)?;
            entries.insert(Key { mono: t.mono }, t.coef)?;
        }
        Ok(Table { entries, front })
    }

    /// The polynomial of the table.
    ///
    /// # Errors
    ///
    /// `AllocError` if memory runs out.
    pub fn into_poly(self, alloc: Global) -> Result<Poly, AllocError>
        requires { IsDescending (joined_terms (table_of self)) }
        ensures { IfOk result (λ f. f ≡ joined_terms (table_of self)) }
    {
        let Table { entries, front: _ } = self;
        let mut rest = entries;
        let mut terms = Vec::with_capacity(alloc, rest.len())?;
        'entries: while let Some((key, coef)) = rest.pop_first() {
            terms.push(Term {
                coef,
                mono: key.mono,
            })?;
        }
        Ok(Poly::from_descending(terms))
    }

    /// How many monomials wait.
    pub fn waiting(&self) -> usize {
        self.front.len()
    }

    /// Takes the greatest monomial out that waits.
    pub fn foremost(&mut self, alloc: Global) -> Option<Mono>
        ensures { table_of self.new ≡ table_of self.old }
    {
        self.front.pop(alloc)
    }

    /// The coefficient at the key, where there is a term.
    fn coefficient(&self, key: &Key) -> Option<Frac>
        ensures { result ≡ coefficient_in key.now self.now.entries.entries }
    {
        self.entries.get(key).copied()
    }

    /// The term at `x`, if there is one.
    pub fn term_at(&self, x: Mono) -> Option<Term>
        requires { IsDescending (joined_terms (table_of self.now)) }
        ensures { IfSome result (IsCutBefore (joined_terms (table_of self.now))) }
    {
        let key = Key { mono: x };
        match self.coefficient(&key) {
            Some(coef) => Some(Term {
                coef,
                mono: key.mono,
            }),
            None => None,
        }
    }

    /// From now on this is the coefficient at the key; where it is zero there is no term.
    fn put(&mut self, key: Key, coef: Frac) -> Result<(), AllocError>
        ensures { OnOk result (Puts key coef self.old.entries.entries self.new.entries.entries) }
    {
        if coef.is_zero() {
            self.entries.remove(&key);
        } else {
            self.entries.insert(key, coef)?;
        }
        Ok(())
    }

    /// Takes `coef` times `mono` away; a new monomial waits.
    fn take_away(&mut self, coef: &Frac, mono: Mono) -> Result<(), PolyError>
        requires sound { IsSound (length mono) (table_of self.old) }
        requires nonzero { coef.now ≢ zero_ℚ }
        ensures ok { OnOk result (TakesAway coef.now mono (table_of self.old) (table_of self.new)) }
        ensures cause { IfErr result (IsDifferenceRefusal (coefficient_at (joined_terms (table_of self.old)) mono) coef.now) }
    {
        let key = Key { mono };
        match self.coefficient(&key) {
            Some(c) => {
                let left = difference(&c, coef)?;
                self.put(key, left)?;
            }
            None => {
                self.front.push(&key.mono)?;
                self.put(key, coef.neg())?;
            }
        }
        Ok(())
    }

    /// Takes `coef` times `shift` times the sum of `terms` away.
    fn subtract(&mut self, coef: &Frac, shift: &Mono, terms: &[Term]) -> Result<(), PolyError>
        requires sound { IsSound (length shift.now) (table_of self.old) }
        requires variables { HasVariables (length shift.now) terms.now }
        requires descending { IsDescending terms.now }
        requires nonzero { coef.now ≢ zero_ℚ }
        ensures ok { OnOk result (Subtracts coef.now shift.now terms.now (table_of self.old) (table_of self.new)) }
        ensures cause { IfErr result (IsSubtractionRefusal (joined_terms (table_of self.old)) coef.now shift.now terms.now) }
    {
        'terms: for i in 0..terms.len() {
            let t = &terms[i];
            let difference = product(coef, &t.coef)?;
            let mono = shift.mul(&t.mono)?;
            self.take_away(&difference, mono)?;
        }
        Ok(())
    }

    /// The step at a term of the polynomial by `by`, whose mark divides it.
    ///
    /// # Errors
    ///
    /// `Overflow` and `Exponent` only where two numbers of this step don't fit, which it holds. `Memory` if memory runs out.
    pub fn step(&mut self, t: &Term, by: &Marked) -> Result<(), PolyError>
        requires there { IsCutBefore (joined_terms (table_of self.old)) t.now }
        requires variables { SharesVariables by.now (table_of self.old) }
        requires divides { Divides by.now.head t.now.mono }
        ensures step { OnOk result (StepsFrom by.now (joined_terms (table_of self.old)) t.now (table_of self.new)) }
        ensures cause { IfErr result (IsStepRefusal (joined_terms (table_of self.old)) by.now t.now.mono) }
    {
        let quotient = t.mono.quotient(by.head());
        self.subtract(&t.coef, &quotient, by.poly().terms())
    }
}
