//! Whether a term is open to a reduction.

use gf_poly::{Marked, Mono};

/// Whether a mark divides `x`, which isn't spared; a mark in other variables doesn't. Nothing is promised of it.
pub fn is_open(x: &Mono, by: &[Marked], spared: &Option<Mono>) -> bool {
    if let Some(y) = spared {
        if y.exponents() == x.exponents() {
            return false;
        }
    }
    let degree = x.degree();
    'members: for j in 0..by.len() {
        let mark = by[j].head();
        if mark.degree() <= degree
            && mark.exponents().len() == x.exponents().len()
            && mark.divides(x)
        {
            return true;
        }
    }
    false
}
