//! What is counted of a list of marked sets.
ghost use Rattle.std.specs.Prelude.{◌≡◌, map, max, min, length, if◌then◌else◌};
ghost use Rattle.gf_small.specs.Degrees.{greatest, total_degree as degree_of};
ghost use Rattle.gf_small.specs.Counts.{degree_of_set as set_degree_of, count_of_terms, AreSetCounts};

use crate::degrees::total_degree;
use gf_poly::{Marked, MarkedSet};

/// Statistics of a list of marked sets.
#[derive(Clone, Copy, Debug, PartialEq, Eq)]
pub struct Stats {
    /// The number of sets.
    pub bases: u64,
    /// The number of variables.
    pub variables: u64,
    /// The dimension of the space of the vectors by which each polynomial of each set is homogeneous.
    pub homogeneity: u64,
    /// The greatest total degree of a polynomial; 0 if there is none.
    pub max_degree: u64,
    /// The least total degree of a set, where the total degree of a set is the greatest one of its polynomials; 0 if there is no set.
    pub min_degree: u64,
    /// The greatest number of polynomials of a set; 0 if there is no set.
    pub max_polynomials: u64,
    /// The greatest number of terms of a set, counted over all its polynomials; 0 if there is no set.
    pub max_terms: u128,
}

/// The counts of a list of sets.
#[derive(Clone, Copy, Debug, PartialEq, Eq)]
pub(crate) struct Counts {
    pub(crate) max_degree: u64,
    pub(crate) min_degree: u64,
    pub(crate) max_polynomials: u64,
    pub(crate) max_terms: u128,
}

/// The total degree of a set: the greatest total degree of its polynomials; 0 if it has none. A degree is a sum of exponents.
pub fn degree_of_set(items: &[Marked]) -> u64
    ensures { result ≡ greatest (map (λ b. degree_of b.poly) items.now) }
{
    let mut most = 0;
    'members: for i in 0..items.len() {
        most = most.max(total_degree(items[i].poly().terms()));
    }
    most
}

/// The number of terms of a polynomial.
fn term_count(b: &Marked) -> u64
    ensures { result ≡ length b.now.poly }
{
    b.poly().terms().len() as u64
}

/// The number of terms of a set. There are fewer than `2^64` polynomials with fewer than `2^64` terms each.
fn terms_of_set(items: &[Marked]) -> u128
    ensures { result ≡ count_of_terms items.now }
{
    let mut sum = 0;
    'members: for i in 0..items.len() {
        sum += u128::from(term_count(&items[i]));
    }
    sum
}

/// The counts with those of one more set.
fn with_set(counts: &Counts, is_first: bool, set: &MarkedSet) -> Counts
    ensures max_degree { result.max_degree ≡ max counts.now.max_degree (set_degree_of set.now) }
    ensures min_degree { result.min_degree ≡ (if is_first then set_degree_of set.now else min counts.now.min_degree (set_degree_of set.now)) }
    ensures max_polynomials { result.max_polynomials ≡ max counts.now.max_polynomials (length set.now.items) }
    ensures max_terms { result.max_terms ≡ max counts.now.max_terms (count_of_terms set.now.items) }
{
    let items = set.items();
    let degree = degree_of_set(items);
    Counts {
        max_degree: counts.max_degree.max(degree),
        min_degree: if is_first {
            degree
        } else {
            counts.min_degree.min(degree)
        },
        max_polynomials: counts.max_polynomials.max(items.len() as u64),
        max_terms: counts.max_terms.max(terms_of_set(items)),
    }
}

/// The counts of the sets.
pub(crate) fn counts_of(sets: &[MarkedSet]) -> Counts
    ensures { AreSetCounts sets.now result }
{
    let mut counts = Counts {
        max_degree: 0,
        min_degree: 0,
        max_polynomials: 0,
        max_terms: 0,
    };
    'sets: for i in 0..sets.len() {
        counts = with_set(&counts, i == 0, &sets[i]);
    }
    counts
}
