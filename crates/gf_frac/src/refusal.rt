//! The operations, and the refusal of one whose working leaves the range.

use super::fractions::Frac;

/// An operation on two fractions.
#[derive(Clone, Copy, Debug, PartialEq, Eq)]
pub enum Op {
    Add,
    Sub,
    Mul,
    Div,
}

/// An operation whose working leaves the range, with its operands.
#[derive(Clone, Copy, Debug, PartialEq, Eq)]
pub struct Overflow {
    pub op: Op,
    pub left: Frac,
    pub right: Frac,
}
