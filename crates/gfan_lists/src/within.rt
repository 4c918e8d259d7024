//! `_bases --within`: the region that the vectors of a file cut out, and the first basis in it.
ghost use Rattle.std.specs.Prelude.{◌≡◌, ◌⊎◌, length, IfOk, IfErr};
ghost use Rattle.gf_poly.specs.Marking.{polys};
ghost use Rattle.gf_gordan.specs.Alternative.{AreRows};
ghost use Rattle.gf_text.specs.Sets.{AreIn};
ghost use Rattle.gf_reduced.specs.Markings.{IsMarkedGroebnerBasis};
ghost use Rattle.gf_weights.specs.Roots.{IsRegionOf};
ghost use Rattle.gf_items.specs.Checks.{FirstFails};
ghost use Rattle.gfan_common.specs.Forms.{generators_of};
ghost use Rattle.gf_lists_theory.specs.Starts.{StartsIn};
ghost use Rattle.gfan_common.specs.Refused.{IsUnnamed};
ghost use Rattle.gfan_common.specs.ToolForms.{for_each};
ghost use Rattle.gfan_lists.specs.Within.{of_region, IsNoRegion, IsRegionRootRefusal, IsGivenRegionRootRefusal};

use crate::given_basis::reduced_of;
use gf_cone::Region;
use gf_front::Refusal;
use gf_groebner_walk::root_in;
use gf_poly::MarkedSet;
use gf_text::{Ring, Written};
use gf_vec::IntVec;
use gf_weights::{RegionError, region_of};
use gfan_common::checks::check_each;
use gfan_common::marked_sets;
use gfan_common::refused::Refused;
use gfan_common::written_sets::polynomials;
use std::alloc::Global;

// ---- the region

/// The refusal of a region, as one of the run.
fn of_region(error: RegionError) -> Refusal
    ensures { result ≡ of_region error }
{
    match error {
        RegionError::Empty { multipliers } => Refusal::EmptyRegion { multipliers },
        RegionError::WideRoot { index, value } => Refusal::WideRoot {
            index: u64::from(index),
            value,
        },
        RegionError::Cone(o) => Refusal::ConeOverflow {
            row: o.row,
            op: o.op,
            left: o.left,
            right: o.right,
        },
        RegionError::Wide(wide) => Refusal::WideVector(wide),
        RegionError::Memory => Refusal::Memory,
    }
}

/// The region that vectors, each with an entry for each variable, cut out of the positive ones in `n` variables.
fn region_for(alloc: Global, n: u32, rows: &[IntVec]) -> Result<Region, Refusal>
    requires { AreRows n rows.now }
    ensures ok { IfOk result (IsRegionOf n rows.now) }
    ensures err { IfErr result (IsNoRegion n rows.now) }
{
    match region_of(alloc, n, rows) {
        Ok(region) => Ok(region),
        Err(error) => Err(of_region(error)),
    }
}

/// The region that vectors cut out of the positive ones in `n` variables; each is checked to have an entry for each variable.
pub(crate) fn region_by(alloc: Global, n: u32, rows: &[IntVec]) -> Result<Region, Refusal>
    ensures form { IfOk result (λ _. AreRows n rows.now) }
    ensures ok { IfOk result (IsRegionOf n rows.now) }
    ensures err { IfErr result (λ r. FirstFails (for_each n rows.now) r ⊎ IsNoRegion n rows.now r) }
{
    check_each(n, rows)?;
    region_for(alloc, n, rows)
}

// ---- the first basis

/// The basis of the set's ideal for the root of the region, ties broken by lex, at which the list starts.
pub(crate) fn root_of(
    alloc: Global,
    ring: &Ring,
    set: &[Written],
    region: &Region,
    pairs: u64,
) -> Result<MarkedSet, Refused>
    requires set { AreIn (length ring.now) set.now }
    requires width { length region.now.root ≡ length ring.now }
    ensures ok { IfOk result (StartsIn (length ring.now) region.now (generators_of set.now)) }
    ensures err { IfErr result (λ e. IsRegionRootRefusal (length ring.now) region.now (generators_of set.now) pairs e.refusal) }
    ensures told { IfErr result IsUnnamed }
{
    let generators = polynomials(alloc, set)?;
    match root_in(alloc, ring.len(), &generators, region, pairs) {
        Ok(root) => Ok(root),
        Err(error) => Err(Refused::from(error)),
    }
}

/// The basis of the ideal of a marked Gröbner basis for the root of the region, ties broken by lex: the set is checked and reduced, and
/// that basis is computed from the reduced one, which need not be in the region. The set has fewer than `2^32` members.
pub(crate) fn given_root_of(
    alloc: Global,
    marked: &MarkedSet,
    region: &Region,
    pairs: u64,
) -> Result<MarkedSet, Refusal>
    requires { length region.now.root ≡ marked.now.variables }
    ensures basis { IfOk result (λ _. IsMarkedGroebnerBasis marked.now.variables marked.now.items) }
    ensures root { IfOk result (StartsIn marked.now.variables region.now (polys marked.now.items)) }
    ensures err { IfErr result (IsGivenRegionRootRefusal region.now marked.now pairs) }
{
    let reduced = reduced_of(alloc, marked)?;
    let generators = marked_sets::polynomials(alloc, &reduced)?;
    match root_in(alloc, reduced.variables(), &generators, region, pairs) {
        Ok(root) => Ok(root),
        Err(error) => Err(Refused::from(error).refusal),
    }
}
