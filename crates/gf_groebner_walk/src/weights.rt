//! The weight of an order that is lex, or a weight with ties broken by lex.

ghost use Rattle.std.specs.Prelude.{IfOk, IsTrue};
ghost use Rattle.gf_order.specs.Comparisons.{HasEntries, is_weight_before_lex};
ghost use Rattle.gf_groebner_walk.specs.Weights.{IsWeightBeforeLex};

use gf_order::Order;
use gf_vec::IntVec;
use std::alloc::{AllocError, Global};

/// The weight by which an order in `n` variables compares before it compares by lex; zeros if it is lex.
///
/// # Errors
/// Only when memory runs out.
pub(crate) fn weight_of(alloc: Global, n: u32, order: &Order) -> Result<IntVec, AllocError>
    requires entries { HasEntries n order.now }
    requires by_lex { IsTrue (is_weight_before_lex order.now) }
    ensures { IfOk result (IsWeightBeforeLex order.now n) }
{
    match order.weight_before_lex() {
        Some(weight) => {
            let same = weight.copy()?;
            Ok(same)
        }
        None => {
            let zeros = vec![in alloc; 0; n as usize]?;
            Ok(IntVec::from_vec(zeros))
        }
    }
}
