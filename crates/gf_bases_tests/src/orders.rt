//! Orders that suit all polynomials.
ghost use Rattle.std.specs.Prelude.{◌≡◌, ◌≤ℤ◌, pos, length, All, List, IfSome, IsTrue};
ghost use Rattle.gf_order.specs.Comparisons.{HasEntries};
ghost use Rattle.gf_order.specs.Weights.{AreBounded};
ghost use Rattle.gf_poly.specs.Polynomial.{Terms};
ghost use Rattle.gf_buchberger.specs.Tasks.{HaveRingVariables, IsSuited};

use gf_order::Order;
use gf_rows::fields;
use gf_vec::IntVec;
use std::alloc::Global;

/// Lex.
fn by_lex(_n: u32) -> Order
    ensures entries { HasEntries _n result }
    ensures suited { (fs : List Terms) → HaveRingVariables _n fs → IsSuited result _n fs }
{
    Order::lex()
}

/// Deglex.
fn by_deglex(_n: u32) -> Order
    ensures entries { HasEntries _n result }
    ensures suited { (fs : List Terms) → HaveRingVariables _n fs → IsSuited result _n fs }
{
    Order::deglex()
}

/// Whether no entry is positive.
fn is_downward(entries: &[i128]) -> bool
    ensures { IsTrue result → All (λ k. k ≤ℤ pos 0) entries.now }
{
    entries.iter().all(|k| *k <= 0)
}

/// The order along the facet with this normal.
fn by_facet(_n: u32, normal: IntVec) -> Order
    requires width { length normal ≡ _n }
    requires bounded { AreBounded normal }
    requires downward { All (λ k. k ≤ℤ pos 0) normal }
    ensures entries { HasEntries _n result }
    ensures suited { (fs : List Terms) → HaveRingVariables _n fs → IsSuited result _n fs }
{
    Order::facet(normal)
}

/// The order of `n` variables that is `lex`, `deglex`, or `facet (0,-1,0)`: along the facet with this normal, no entry of which is positive.
pub(crate) fn order(alloc: Global, n: u32, text: &str) -> Option<Order>
    ensures entries { IfSome result (HasEntries n) }
    ensures suited { IfSome result (λ order. (fs : List Terms) → HaveRingVariables n fs → IsSuited order n fs) }
{
    match text {
        "lex" => Some(by_lex(n)),
        "deglex" => Some(by_deglex(n)),
        _ => {
            let normal = fields::weight(alloc, n, text.strip_prefix("facet ")?)?;
            if !is_downward(normal.as_slice()) {
                return None;
            }
            Some(by_facet(n, normal))
        }
    }
}
