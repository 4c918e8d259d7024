//! Polynomials as they are read: zero, or marked at the first term that remains.
use gf_poly::Marked;

/// A polynomial that was read.
#[derive(Drop)]
pub enum Written {
    /// Nothing of it remains.
    Zero,
    /// What remains of it, marked at the first of its terms, as written, that remains.
    Nonzero(Marked),
}
