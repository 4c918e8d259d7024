//! The members of a set made monic.
ghost use Rattle.std.specs.Prelude.{◌≡◌, IfOk, IfErr};
ghost use Rattle.gf_poly.specs.Marking.{Each, HasMarkedTerm, IsMonicCause};
ghost use Rattle.gf_division.specs.MonicForms.{HasSomeVariables};
ghost use Rattle.gf_reduced.specs.Forms.{monic_of, monic_set, IsFormRefusal};

use gf_poly::{Marked, MarkedSet, PolyError};
use std::alloc::Global;

/// The polynomial divided by its marked coefficient.
fn monic_form(b: &Marked) -> Result<Marked, PolyError>
    requires { HasSomeVariables b.now }
    ensures value { IfOk result (λ c. c ≡ monic_of b.now) }
    ensures marked { IfOk result (λ _. HasMarkedTerm b.now) }
    ensures cause { IfErr result (IsMonicCause b.now) }
{
    // The terms of both descend: the accessor says so.
    let _ = b.head();
    let form = b.monic()?;
    let _ = form.head();
    Ok(form)
}

/// The members divided by their marked coefficients.
///
/// # Errors
///
/// `Overflow`: the quotient of a coefficient by the marked one leaves its range. `Memory`: memory runs out.
pub(crate) fn monic_forms(alloc: Global, marked: &MarkedSet) -> Result<MarkedSet, PolyError>
    ensures value { IfOk result (λ forms. forms ≡ monic_set marked.now) }
    ensures marked { IfOk result (λ _. Each HasMarkedTerm marked.now.items) }
    ensures cause { IfErr result (IsFormRefusal marked.now.items) }
{
    let items = marked.items();
    let mut forms = Vec::with_capacity(alloc, items.len())?;
    'members: for i in 0..items.len() {
        let form = monic_form(&items[i])?;
        forms.push(form)?;
    }
    Ok(MarkedSet::new(marked.variables(), forms))
}
