//! Polynomials over the rational numbers, in up to `ROOM` variables.
//!
//! A polynomial is the list of its terms, descending in deglex: the total degree first, then the first exponent that
//! differs. Start at `Poly::from_terms`. The words of the contracts are in `specs/Polynomial.antt`: what a list of terms
//! stands for is its coefficient at each monomial.
#![tactic(auto)]

ghost use Rattle.std.specs.Prelude.{◌≡◌};

mod collect;
mod descending;
mod error;
mod filling;
mod laws;
mod lists;
mod marked;
mod marked_set;
mod merge;
mod monomial;
mod polynomial;
mod products;

pub use descending::descend;
pub use error::PolyError;
pub use filling::filled;
use gf_frac::Frac;
pub use laws::{unique_initial_forms, unique_terms};
pub use lists::{Pairs, Polys};
pub use marked::Marked;
pub use marked_set::{MarkedSet, copied};
pub use monomial::{ExponentOverflow, Mono};
pub use polynomial::Poly;

/// The number of variables that a monomial has room for, without an allocation.
pub const ROOM: usize = 25;

/// A term of a polynomial: a coefficient and a monomial.
#[derive(Drop)]
pub struct Term {
    pub coef: Frac,
    pub mono: Mono,
}

impl Term {
    /// An equal term.
    pub fn copy(&self) -> Term
        ensures { result ≡ self.now }
    {
        Term {
            coef: self.coef,
            mono: self.mono.copy(),
        }
    }
}
