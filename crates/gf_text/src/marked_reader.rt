//! The reading of marked sets: no polynomial of one is zero.
ghost use Rattle.std.specs.Prelude.{◌≡◌, ◌≤◌, ◌-◌, ◌^◌, min, IfOk, IfErr, length};
ghost use Rattle.gf_text.specs.SetLists.{sets_in, AreAllIn, AreMarkedSets, IsZeroCauseOf, AreMarkedSetsRead, IsMarkedSetsCause};
ghost use Rattle.gf_text.specs.Sets.{IsMarkedRead, IsMarkedCause, AreIn, AreNonzero, IsZeroCause};

use crate::error::TextError;
use crate::names::Ring;
use crate::set_lists::written_sets_at;
use crate::set_reader::written_at;
use crate::written::Written;
use gf_poly::MarkedSet;
use std::alloc::Global;

/// A place as an index; past the greatest index that one.
fn index_of(place: usize) -> u32
    ensures { result ≡ min place (2 ^ 32 - 1) }
{
    u32::try_from(place).unwrap_or(u32::MAX)
}

/// The set of these polynomials in n variables, of which none is zero; it has this number.
fn marked_from(
    alloc: Global,
    n: u32,
    set: u32,
    written: Vec<Written>,
) -> Result<MarkedSet, TextError>
    requires { AreIn n written.items }
    ensures ok { IfOk result (λ s. AreNonzero written.items s.items) }
    ensures variables { IfOk result (λ s. s.variables ≡ n) }
    ensures err { IfErr result (IsZeroCause set written.items) }
{
    let mut items = Vec::with_capacity(alloc, written.len())?;
    'polynomials: for next in written {
        match next {
            Written::Nonzero(marked) => items.push(marked)?,
            Written::Zero => {
                return Err(TextError::ZeroPolynomial {
                    set,
                    index: index_of(items.len()),
                });
            }
        }
    }
    Ok(MarkedSet::new(n, items))
}

/// The marked set that stands in the source from this place on, and the place behind it.
pub(crate) fn marked_at(
    alloc: Global,
    ring: &Ring,
    source: &[u8],
    from: usize,
) -> Result<(MarkedSet, usize), TextError>
    requires { from ≤ length source.now }
    ensures ok { IfOk result (λ x. IsMarkedRead ring.now (record { source = source.now; at = from }) x.1 x.0) }
    ensures err { IfErr result (IsMarkedCause ring.now (record { source = source.now; at = from })) }
    ensures within { IfOk result (λ x. x.1 ≤ length source.now) }
{
    let n = ring.len();
    let (written, end) = written_at(alloc, ring, source, from)?;
    Ok((marked_from(alloc, n, 0, written)?, end))
}

/// The sets of these polynomials in n variables, of which none is zero.
fn all_marked(alloc: Global, n: u32, sets: Vec<Vec<Written>>) -> Result<Vec<MarkedSet>, TextError>
    requires { AreAllIn n (sets_in sets.items) }
    ensures ok { IfOk result (λ all. AreMarkedSets n (sets_in sets.items) all.items) }
    ensures err { IfErr result (IsZeroCauseOf n (sets_in sets.items)) }
{
    let mut all = Vec::with_capacity(alloc, sets.len())?;
    'sets: for written in sets {
        let set = index_of(all.len());
        let marked = marked_from(alloc, n, set, written)?;
        all.push(marked)?;
    }
    Ok(all)
}

/// The marked sets of the list that stands in the source from this place on, and the place behind it.
pub(crate) fn marked_sets_at(
    alloc: Global,
    ring: &Ring,
    source: &[u8],
    from: usize,
) -> Result<(Vec<MarkedSet>, usize), TextError>
    requires { from ≤ length source.now }
    ensures ok { IfOk result (λ x. AreMarkedSetsRead ring.now (record { source = source.now; at = from }) x.1 x.0.items) }
    ensures err { IfErr result (IsMarkedSetsCause ring.now (record { source = source.now; at = from })) }
    ensures within { IfOk result (λ x. x.1 ≤ length source.now) }
{
    let n = ring.len();
    let (sets, end) = written_sets_at(alloc, ring, source, from)?;
    Ok((all_marked(alloc, n, sets)?, end))
}
