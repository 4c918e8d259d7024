//! The initial forms of the members of a basis.
ghost use Rattle.std.specs.Prelude.{◌≡◌, IfOk, length};
ghost use Rattle.gf_order.specs.Weights.{AreBounded};
ghost use Rattle.gf_saturate.specs.Tasks.{HaveRingVariables};
ghost use Rattle.gf_initial_monomials.specs.Outcomes.{AreFormsAt};

use gf_poly::{MarkedSet, Poly};
use gf_vec::IntVec;
use std::alloc::{AllocError, Global};

/// The initial forms of the members at a vector; its entries are at most `2^63` in absolute value.
pub(crate) fn forms_at(
    alloc: Global,
    basis: &MarkedSet,
    v: &IntVec,
) -> Result<Vec<Poly>, AllocError>
    requires bounded { AreBounded v.now }
    requires long { length v.now ≡ basis.now.variables }
    ensures forms { IfOk result (λ all. AreFormsAt v.now basis.now.items all.items) }
    ensures variables { IfOk result (λ all. HaveRingVariables basis.now.variables all.items) }
{
    let items = basis.items();
    let mut all = Vec::with_capacity(alloc, items.len())?;
    'members: for i in 0..items.len() {
        let form = items[i].poly().initial_form(v)?;
        all.push(form)?;
    }
    Ok(all)
}
