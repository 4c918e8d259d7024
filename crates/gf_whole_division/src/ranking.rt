//! Which term of two is the greater one. Nothing is promised of it.

use crate::terms::Beyond;
use gf_poly::Mono;
use std::cmp::Ordering;

/// How a term stands among others: products of monomials have the sums of ranks.
#[derive(Clone, Copy)]
pub struct Rank {
    heft: i64,
    key: i128,
}

/// An order of terms: by a weight, and of equally heavy ones by lex or revlex.
#[derive(Drop)]
pub struct Ranking {
    weight: Vec<i64>,
    by_revlex: bool,
}

impl Rank {
    /// The rank of the product.
    pub fn plus(&self, other: &Rank) -> Rank {
        Rank {
            heft: self.heft.wrapping_add(other.heft),
            key: self.key.wrapping_add(other.key),
        }
    }

    /// How it compares: the greater rank is that of the greater term.
    pub fn compare(&self, other: &Rank) -> Ordering {
        if self.heft < other.heft {
            return Ordering::Less;
        }
        if self.heft > other.heft {
            return Ordering::Greater;
        }
        if self.key < other.key {
            return Ordering::Less;
        }
        if self.key > other.key {
            return Ordering::Greater;
        }
        Ordering::Equal
    }
}

/// How many bits of a key an exponent has, where there are so many variables.
fn bits(variables: usize) -> u32 {
    let n = variables.clamp(1, 127) as u32;
    (127 / n).min(31)
}

impl Ranking {
    /// By this weight and then lex, or revlex. A weight of fewer entries than there are variables counts zeros for the rest.
    pub fn by(weight: Vec<i64>, by_revlex: bool) -> Ranking {
        Ranking { weight, by_revlex }
    }

    /// The rank of a monomial.
    ///
    /// # Errors
    ///
    /// `Beyond` if its degree leaves the room of an exponent.
    pub fn rank(&self, mono: &Mono) -> Result<Rank, Beyond> {
        let exponents = mono.exponents();
        let bits = bits(exponents.len());
        if mono.degree() >= 1u64.wrapping_shl(bits) {
            return Err(Beyond);
        }
        let mut heft = 0i64;
        'weights: for (w, e) in self.weight.iter().zip(exponents) {
            heft = heft.wrapping_add(w.wrapping_mul(i64::from(*e)));
        }
        let mut key = 0i128;
        if self.by_revlex {
            'last_first: for e in exponents.iter().rev() {
                key = key.wrapping_shl(bits).wrapping_sub(i128::from(*e));
            }
        } else {
            'first_first: for e in exponents.iter() {
                key = key.wrapping_shl(bits).wrapping_add(i128::from(*e));
            }
        }
        Ok(Rank { heft, key })
    }

    /// The rank of a product, of which the ranks of the factors are given.
    ///
    /// # Errors
    ///
    /// `Beyond` if its degree leaves the room of an exponent.
    pub fn sum(&self, mono: &Mono, x: &Rank, y: &Rank) -> Result<Rank, Beyond> {
        let bits = bits(mono.exponents().len());
        if mono.degree() >= 1u64.wrapping_shl(bits) {
            return Err(Beyond);
        }
        Ok(x.plus(y))
    }
}
