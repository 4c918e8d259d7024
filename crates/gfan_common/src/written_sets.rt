//! The polynomials of sets that are read.
ghost use Rattle.std.specs.Prelude.{◌≡◌, IfOk};
ghost use Rattle.gfan_common.specs.Forms.{generators_of, polynomial_of};

use gf_poly::Poly;
use gf_text::Written;
use std::alloc::{AllocError, Global};

/// The polynomial that is read; zero if all its terms cancel.
fn polynomial(alloc: Global, read: &Written) -> Result<Poly, AllocError>
    ensures { IfOk result (λ f. f ≡ polynomial_of read.now) }
{
    match read {
        Written::Zero => Ok(Poly::zero(alloc)),
        Written::Nonzero(marked) => marked.poly().copy(),
    }
}

/// The polynomials of a set that is read, in their order, without their marks; a polynomial is zero if all its terms cancel.
///
/// # Errors
///
/// Only when memory runs out.
pub fn polynomials(alloc: Global, set: &[Written]) -> Result<Vec<Poly>, AllocError>
    ensures { IfOk result (λ fs. fs.items ≡ generators_of set.now) }
{
    let mut found = Vec::with_capacity(alloc, set.len())?;
    'polynomials: for i in 0..set.len() {
        let f = polynomial(alloc, &set[i])?;
        found.push(f)?;
    }
    Ok(found)
}
