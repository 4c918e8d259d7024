//! Lists of marked polynomials in the same variables.

ghost use Rattle.std.specs.Prelude.{◌≡◌, IfOk};
ghost use Rattle.gf_poly.specs.Marking.{HaveVariables, IsArranged};

use super::marked::Marked;
use std::alloc::{AllocError, Global};
use std::marker::Model;

/// Marked polynomials, with their number of variables.
#[derive(Drop)]
pub struct MarkedSet {
    variables: u32,
    items: Vec<Marked>,
}

impl Model for MarkedSet {
    ghost use Rattle.gf_poly.specs.Marking.{MarkedPolynomials, HaveVariables};

    ghost Value = { MarkedPolynomials };

    ghost view = { λ s. record { variables = s.variables; items = s.items.items } };

    ghost invariant = { λ s. HaveVariables s.variables s.items.items };
}

/// Equal marked polynomials, in their order.
///
/// # Errors
/// Want of memory.
pub fn copied(alloc: Global, items: &[Marked]) -> Result<Vec<Marked>, AllocError>
    ensures { IfOk result (λ h. h.items ≡ items.now) }
{
    let mut out = Vec::with_capacity(alloc, items.len())?;
    'items: for i in 0..items.len() {
        let item = items[i].copy()?;
        out.push(item)?;
    }
    Ok(out)
}

impl MarkedSet {
    /// The list of these, each of which has `n` variables.
    pub fn new(n: u32, items: Vec<Marked>) -> MarkedSet
        requires { HaveVariables n items.items }
        ensures { result ≡ record { variables = n; items = items.items } }
    {
        MarkedSet {
            variables: n,
            items,
        }
    }

    /// The number of variables.
    pub fn variables(&self) -> u32
        ensures { result ≡ self.now.variables }
    {
        self.variables
    }

    /// The marked polynomials.
    pub fn items(&self) -> &[Marked]
        ensures value { result.now ≡ self.now.items }
        ensures variables { HaveVariables self.now.variables self.now.items }
    {
        self.items.as_slice()
    }

    /// The marked polynomials alone; nothing is copied.
    pub fn into_items(self) -> Vec<Marked>
        ensures value { result.items ≡ self.items }
        ensures variables { HaveVariables self.variables self.items }
    {
        let MarkedSet {
            variables: _number,
            items,
        } = self;
        items
    }

    /// An equal list.
    ///
    /// # Errors
    /// `AllocError` if memory runs out.
    pub fn copy(&self) -> Result<MarkedSet, AllocError>
        ensures { IfOk result (λ s. s ≡ self.now) }
    {
        let items = copied(*self.items.allocator(), self.items())?;
        Ok(MarkedSet {
            variables: self.variables,
            items,
        })
    }

    /// The list of these members in ascending lexicographic order of the exponents of their marked monomials: the first exponent that differs
    /// decides.
    ///
    /// # Errors
    /// `AllocError` if memory runs out.
    pub fn arrange(self) -> Result<MarkedSet, AllocError>
        ensures { IfOk result (IsArranged self) }
    {
        let MarkedSet { variables, items } = self;
        let mut all = items;
        all.sort_by(|x, y| x.head().compare_by_lex(y.head()))?;
        Ok(MarkedSet {
            variables,
            items: all,
        })
    }
}
