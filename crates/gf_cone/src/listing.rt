//! Normals: the rows divided by their contents, ascending and each once.
ghost use Rattle.std.specs.Prelude.{◌≡◌, ◌↔◌, ◌⊎◌, ℕ, List, ℤ, length, Contains, All, IfOk};
ghost use Rattle.gf_poly.specs.Polynomial.{HasVariables};
ghost use Rattle.gf_poly.specs.Marking.{HasMarkedTerm};
ghost use Rattle.gf_facets_theory.specs.Rows.{row_between, rows_of_terms};
ghost use Rattle.gf_facets_theory.specs.Normals.{Ascends, AreNormals};
ghost use Rattle.gf_facets_theory.specs.MarkedBases.{AreCanonical};
ghost use Rattle.gf_cone.specs.Small.{IsSmall};
ghost use Rattle.gf_cone.specs.Placing.{IsPlacing, Gathers};

use crate::SpareVectors;
use crate::marking::difference;
use gf_poly::{Marked, MarkedSet, Mono};
use gf_vec::IntVec;
use std::alloc::{AllocError, Global};
use std::cmp::Ordering;

/// Where a vector goes into an ascending list: before that at an index, or nowhere, since it is there.
#[derive(Drop)]
enum Placing {
    New(usize),
    Known,
}

/// Where a vector goes into an ascending list, which is halved until it is found.
fn index_in(list: &[IntVec], v: &IntVec) -> Placing
    requires { Ascends list.now }
    ensures { IsPlacing list.now v.now result }
{
    let mut low = 0;
    let mut high = list.len();
    'indices: while low < high {
        let middle = low + (high - low) / 2;
        match list[middle].lex_cmp(v) {
            Ordering::Less => low = middle + 1,
            Ordering::Equal => return Placing::Known,
            Ordering::Greater => high = middle,
        }
    }
    Placing::New(low)
}

/// An ascending list with one more vector, unless it has it; then the vector is spare.
///
/// # Errors
/// Want of memory.
fn with_vector(
    list: Vec<IntVec>,
    v: IntVec,
    spare: &mut SpareVectors,
) -> Result<Vec<IntVec>, AllocError>
    requires { Ascends list.items }
    ensures rises { IfOk result (λ more. Ascends more.items) }
    ensures has { IfOk result (λ more. (a : List ℤ) → Contains more.items a ↔ ((a ≡ v) ⊎ Contains list.items a)) }
{
    match index_in(list.as_slice(), &v) {
        Placing::Known => {
            spare.keep(v);
            Ok(list)
        }
        Placing::New(index) => {
            let mut more = list;
            more.insert(index, v)?;
            Ok(more)
        }
    }
}

/// An ascending list with the normal of two monomials, unless they are the same or the list has it.
///
/// # Errors
/// Want of memory.
fn with_normal(
    alloc: Global,
    list: Vec<IntVec>,
    x: &Mono,
    y: &Mono,
    spare: &mut SpareVectors,
) -> Result<Vec<IntVec>, AllocError>
    requires widths { length x.now ≡ length y.now }
    requires rises { Ascends list.items }
    requires small { All IsSmall list.items }
    ensures gathers { IfOk result (λ more. Gathers list.items (row_between x.now y.now) more.items) }
    ensures small { IfOk result (λ more. All IsSmall more.items) }
{
    if x.is_same(y) {
        return Ok(list);
    }
    let entries = spare.room(alloc, x.exponents().len())?;
    let mut normal = difference(entries, x, y)?;
    normal.primitive();
    let more = with_vector(list, normal, spare)?;
    Ok(more)
}

/// An ascending list with the normals of a member.
///
/// # Errors
/// Want of memory.
fn with_normals(
    alloc: Global,
    list: Vec<IntVec>,
    b: &Marked,
    spare: &mut SpareVectors,
) -> Result<Vec<IntVec>, AllocError>
    requires variables { (n : ℕ) × HasVariables n b.now.poly }
    requires rises { Ascends list.items }
    requires small { All IsSmall list.items }
    ensures gathers { IfOk result (λ more. Gathers list.items (rows_of_terms b.now.head b.now.poly) more.items) }
    ensures small { IfOk result (λ more. All IsSmall more.items) }
    ensures marked { HasMarkedTerm b.now }
{
    let head = b.head();
    let terms = b.poly().terms();
    let mut more = list;
    'terms: for i in 0..terms.len() {
        let t = &terms[i];
        more = with_normal(alloc, more, head, &t.mono, spare)?;
    }
    Ok(more)
}

/// The normals of a marked set, ascending, each once, in the memory of spare vectors. The list has room for one of each member, and as many more as there are
/// variables.
///
/// # Errors
/// Want of memory.
pub(crate) fn normals(
    alloc: Global,
    set: &MarkedSet,
    spare: &mut SpareVectors,
) -> Result<Vec<IntVec>, AllocError>
    ensures normals { IfOk result (λ ns. AreNormals set.now.items ns.items) }
    ensures small { IfOk result (λ ns. All IsSmall ns.items) }
    ensures canonical { IfOk result (λ _. AreCanonical set.now.variables set.now.items) }
{
    let items = set.items();
    let room = items.len().saturating_add(set.variables() as usize);
    let empty = Vec::with_capacity(alloc, room)?;
    let mut all = empty;
    'members: for i in 0..items.len() {
        all = with_normals(alloc, all, &items[i], spare)?;
    }
    Ok(all)
}
