//! Marked polynomials, beside each a multiple of it with whole coefficients.

ghost use Rattle.std.specs.Prelude.{◌≡◌, ◌≢◌, ◌≤◌, [], length, pos, IfOk};
ghost use Rattle.gf_frac.specs.Fraction.{whole};
ghost use Rattle.gf_poly.specs.Polynomial.{times_term};
ghost use Rattle.gf_poly.specs.Marking.{HasMarkedTerm};
ghost use Rattle.gf_whole_division.specs.Values.{term_value, IsWholeMultiple};

use crate::ranking::{Rank, Ranking};
use crate::terms::{Beyond, WholeTerm, product, share};
use gf_poly::{Marked, Mono, Term};
use gf_whole::Whole;
use std::alloc::Global;
use std::cmp::Ordering;
use std::marker::Model;

/// A marked polynomial, and a multiple of it with whole coefficients.
#[derive(Drop)]
pub struct WholeMember {
    marked: Marked,
    lead: Whole,
    terms: Vec<WholeTerm>,
}

impl Model for WholeMember {
    ghost use Rattle.gf_poly.specs.Marking.{MarkedPolynomial};
    ghost use Rattle.gf_whole_division.specs.Values.{IsWholeMultiple};

    ghost Value = { MarkedPolynomial };

    ghost view = { λ m. m.marked };

    ghost invariant = { λ m. IsWholeMultiple m.lead m.terms.items m.marked.poly };
}

/// A common multiple of the denominators, which isn't zero.
fn multiple_of_denominators(terms: &[Term]) -> Result<Whole, Beyond>
    ensures { IfOk result (λ k. k ≢ pos 0) }
{
    let mut all = Whole::new(1);
    'terms: for i in 0..terms.len() {
        let (_, _, left) = all.common(&Whole::new(terms[i].coef.denom()));
        all = product(&all, &left)?;
    }
    if all.is_zero() {
        return Err(Beyond);
    }
    Ok(all)
}

/// The term times a multiple of its denominator.
fn raised(alloc: Global, t: &Term, by: &Whole, ranking: &Ranking) -> Result<WholeTerm, Beyond>
    ensures { IfOk result (λ r. term_value r ≡ times_term (whole by.now) [] t.now) }
{
    let denominator = Whole::new(t.coef.denom());
    let numerator = Whole::new(t.coef.numer());
    let times = share(by, &denominator)?;
    let coef = product(&numerator, &times)?;
    let mono = t.mono.copy();
    let rank = ranking.rank(&t.mono)?;
    let term = WholeTerm::new(alloc, coef, mono, rank)?;
    Ok(term)
}

/// The index in an ascending list where a term with this rank belongs.
fn index_of(terms: &[WholeTerm], rank: &Rank) -> usize
    ensures { result ≤ length terms.now }
{
    let mut i = terms.len();
    'terms: while i > 0 {
        match terms[i - 1].rank.compare(rank) {
            Ordering::Greater => i -= 1,
            _ => return i,
        }
    }
    0
}

/// A factor that isn't zero, and the terms of the polynomial times it, which have whole coefficients, ascending by their ranks.
///
/// # Errors
///
/// `Beyond` if a number reaches 2^512, if the degree of a monomial leaves the room of an exponent, or if there is no memory.
pub fn whole_multiple(
    alloc: Global,
    terms: &[Term],
    ranking: &Ranking,
) -> Result<(Whole, Vec<WholeTerm>), Beyond>
    ensures { IfOk result (λ r. IsWholeMultiple r.0 r.1.items terms.now) }
{
    let by = multiple_of_denominators(terms)?;
    let mut out = Vec::with_capacity(alloc, terms.len())?;
    let mut i = 0;
    'terms: while i < terms.len() {
        let t = &terms[i];
        let multiple = raised(alloc, t, &by, ranking)?;
        let index = index_of(&out, &multiple.rank);
        out.insert(index, multiple)?;
        i += 1;
    }
    Ok((by, out))
}

impl WholeMember {
    /// The marked polynomial, with a multiple of it that has whole coefficients.
    ///
    /// # Errors
    ///
    /// `Beyond` if a number reaches 2^512, if the degree of a monomial leaves the room of an exponent, or if there is no memory.
    pub fn new(alloc: Global, marked: &Marked, ranking: &Ranking) -> Result<WholeMember, Beyond>
        ensures { IfOk result (λ m. m ≡ marked.now) }
    {
        let (lead, terms) = whole_multiple(alloc, marked.poly().terms(), ranking)?;
        let marked = marked.copy()?;
        Ok(WholeMember {
            marked,
            lead,
            terms,
        })
    }

    /// The marked monomial.
    pub fn head(&self) -> &Mono
        ensures value { result.now ≡ self.now.head }
        ensures marked { HasMarkedTerm self.now }
    {
        self.marked.head()
    }

    /// The factor of the multiple, and its terms, ascending by their ranks.
    pub fn multiple(&self) -> (&Whole, &[WholeTerm])
        ensures { IsWholeMultiple result.0.now result.1.now self.now.poly }
    {
        (&self.lead, self.terms.as_slice())
    }
}
