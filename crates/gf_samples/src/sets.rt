//! Lists of polynomials, and marked sets.

ghost use Rattle.std.specs.Prelude.{◌≡◌, IfOk};
ghost use Rattle.gf_poly.specs.Marking.{Each};
ghost use Rattle.gf_poly.specs.Polynomial.{HasVariables};
ghost use Rattle.gf_samples.specs.Rows.{IsSetIn};

use crate::terms::{lists, poly};
use gf_poly::{Marked, MarkedSet, Poly, PolyError};
use std::alloc::Global;

/// The sums of the terms of these rows, one after another.
///
/// # Errors
///
/// As those of `poly`.
#[tactic(auto, using(crate::proofs::PushLaws::polys_push))]
pub fn polys<const N: usize>(
    alloc: Global,
    lists: &[&[(i128, [u32; N])]],
) -> Result<Vec<Poly>, PolyError>
    ensures { IfOk result (λ fs. Each (HasVariables N) fs.items) }
{
    let mut found = Vec::with_capacity(alloc, lists.len())?;
    'lists: for i in 0..lists.len() {
        let f = poly(alloc, lists[i])?;
        found.push(f)?;
    }
    Ok(found)
}

/// The sum of the terms of these rows, marked at the exponents of the first of them.
///
/// # Errors
///
/// As those of `poly`; `Memory` also where there is no row, or where nothing remains at those exponents.
pub fn marked<const N: usize>(alloc: Global, rows: &[(i128, [u32; N])]) -> Result<Marked, PolyError>
    ensures { IfOk result (λ b. HasVariables N b.poly) }
{
    let f = poly(alloc, rows)?;
    if rows.is_empty() {
        return Err(PolyError::Memory);
    }
    let (_, head) = rows[0];
    let terms = f.terms();
    let mut index = 0;
    'terms: for i in 0..terms.len() {
        let t = &terms[i];
        if t.mono.exponents() == head.as_slice() {
            index = i;
            break;
        }
        index = i + 1;
    }
    if index >= f.terms().len() {
        return Err(PolyError::Memory);
    }
    Ok(Marked::mark(f, index))
}

/// The set of polynomials in `n` variables that are marked so.
///
/// # Errors
///
/// As those of `marked`.
#[tactic(auto, using(crate::proofs::PushLaws::members_push))]
pub fn marked_set<const N: usize>(
    alloc: Global,
    n: u32,
    members: &[&[(i128, [u32; N])]],
) -> Result<MarkedSet, PolyError>
    requires { n ≡ N }
    ensures { IfOk result (IsSetIn N) }
{
    let mut items = Vec::with_capacity(alloc, members.len())?;
    'members: for i in 0..members.len() {
        let member = marked(alloc, members[i])?;
        items.push(member)?;
    }
    Ok(MarkedSet::new(n, items))
}

/// Whether the members of the set are these: of each the index of the marked term and the terms, as `lists` takes them.
pub fn lists_members<const N: usize>(
    set: &MarkedSet,
    members: &[(usize, &[(i128, i128, [u32; N])])],
) -> bool {
    let items = set.items();
    if items.len() != members.len() {
        return false;
    }
    for i in 0..items.len() {
        let (index, rows) = members[i];
        if items[i].index() != index || !lists(items[i].poly(), rows) {
            return false;
        }
    }
    true
}
