//! Polynomials, the basis by degree of the ideal that they generate, and the region of all positive vectors.
ghost use Rattle.std.specs.Prelude.{◌≡◌, IfSome};
ghost use Rattle.gf_buchberger.specs.Tasks.{HaveRingVariables};
ghost use Rattle.gf_facets_theory.specs.Regions.{all_positive};
ghost use Rattle.gf_flip.specs.Reached.{IsReachedByFlips};
ghost use Rattle.gf_reverse_theory.specs.Upward.{IsNode};

use gf_buchberger::basis;
use gf_cone::Region;
use gf_order::Order;
use gf_poly::{MarkedSet, Poly};
use gf_rows::fields;
use std::alloc::Global;

/// The polynomials of a set.
pub(crate) fn polynomials(alloc: Global, n: u32, text: &str) -> Option<Vec<Poly>>
    ensures { IfSome result (λ fs. HaveRingVariables n fs.items) }
{
    let set = fields::polynomials(alloc, n, text)?;
    Some(set)
}

/// The basis by degree, then lex.
pub(crate) fn start(alloc: Global, n: u32, list: &[Poly]) -> Option<MarkedSet>
    requires { HaveRingVariables n list.now }
    ensures reached { IfSome result (IsReachedByFlips list.now) }
    ensures node { IfSome result (IsNode (all_positive n)) }
{
    let order = Order::deglex();
    match basis(alloc, n, list, &order, 1000) {
        Ok(set) => Some(set),
        Err(_) => None,
    }
}

/// All positive vectors of `n` entries.
pub(crate) fn positive(alloc: Global, n: u32) -> Option<Region>
    ensures { IfSome result (λ k. k ≡ all_positive n) }
{
    Region::positive(alloc, n).ok()
}
