//! The polynomials of marked sets.
ghost use Rattle.std.specs.Prelude.{◌≡◌, ◌≢◌, [], All, IfOk};
ghost use Rattle.gf_poly.specs.Polynomial.{HasVariables};
ghost use Rattle.gf_poly.specs.Marking.{polys};

use gf_poly::{MarkedSet, Poly};
use std::alloc::{AllocError, Global};

/// The polynomials of a marked set in their order, without their marks. None of them is zero, since each has a marked term.
///
/// # Errors
///
/// Only when memory runs out.
pub fn polynomials(alloc: Global, set: &MarkedSet) -> Result<Vec<Poly>, AllocError>
    ensures value { IfOk result (λ fs. fs.items ≡ polys set.now.items) }
    ensures some { IfOk result (λ fs. All (λ f. f ≢ []) fs.items) }
    ensures variables { IfOk result (λ fs. All (HasVariables set.now.variables) fs.items) }
{
    let items = set.items();
    let mut found = Vec::with_capacity(alloc, items.len())?;
    'members: for b in items {
        let _ = b.head();
        let f = b.poly().copy()?;
        found.push(f)?;
    }
    Ok(found)
}
