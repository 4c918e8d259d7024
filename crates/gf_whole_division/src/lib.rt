//! Reductions in whole numbers: what is left of a generator, or of an S-polynomial, up to a factor.
//!
//! A `WholeMember` is a marked polynomial, beside it a multiple of it with whole coefficients; contracts see the marked polynomial. A
//! `WholeDividend` is a multiple, with whole coefficients, of a polynomial that steps by such members lead to. A step takes the multiple
//! by the cofactor of a leading coefficient, in place of a division by it, so that no fractions are formed; common factors are taken out
//! from time to time. At the end the coefficients are divided by the leading one, and only these quotients have to fit 127 bits.
//!
//! Contracts see polynomials by their coefficients alone, so that nothing rests on the order of the terms: it makes the merging of two
//! lists find like terms, and reductions end. Each call answers, or it is `Beyond`, about which nothing is stated.
#![tactic(auto)]

mod combinations;
mod dividend;
mod members;
mod ranking;
mod remainders;
mod terms;

pub use members::WholeMember;
pub use ranking::Ranking;
pub use remainders::{whole_remainder, whole_remainder_of_pair};
pub use terms::Beyond;
