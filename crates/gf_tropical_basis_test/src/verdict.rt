//! The verdict of the test.
use gf_vec::IntVec;

/// Whether polynomials are a tropical basis of their ideal.
#[derive(Drop)]
pub enum Verdict {
    /// They are: at each vector of their prevariety the initial ideal has no polynomial with a single term.
    Yes,
    /// They are not: this vector of the prevariety, with an entry for each variable, is one at which the initial ideal has such a polynomial.
    No(IntVec),
}
