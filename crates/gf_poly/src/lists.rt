//! Lists of polynomials, and of pairs of indices.

ghost use Rattle.std.specs.Prelude.{◌≡◌};

use super::polynomial::Poly;
use std::marker::Model;

/// A list of polynomials.
#[derive(Drop)]
pub struct Polys {
    items: Vec<Poly>,
}

impl Model for Polys {
    ghost use Rattle.std.specs.Prelude.{List};
    ghost use Rattle.gf_poly.specs.Polynomial.{Terms};

    ghost Value = { List Terms };

    ghost view = { λ p. p.items.items };
}

impl Polys {
    /// The list of these polynomials.
    pub fn new(items: Vec<Poly>) -> Polys
        ensures { result ≡ items.items }
    {
        Polys { items }
    }

    /// The polynomials.
    pub fn items(&self) -> &[Poly]
        ensures { result.now ≡ self.now }
    {
        self.items.as_slice()
    }
}

/// A list of pairs of indices.
#[derive(Drop)]
pub struct Pairs {
    items: Vec<(u32, u32)>,
}

impl Model for Pairs {
    ghost use Rattle.std.specs.Prelude.{List, ℕ};

    ghost Value = { List (ℕ × ℕ) };

    ghost view = { λ p. p.items.items };
}

impl Pairs {
    /// The list of these pairs.
    pub fn new(items: Vec<(u32, u32)>) -> Pairs
        ensures { result ≡ items.items }
    {
        Pairs { items }
    }

    /// The pairs.
    pub fn items(&self) -> &[(u32, u32)]
        ensures { result.now ≡ self.now }
    {
        self.items.as_slice()
    }
}
