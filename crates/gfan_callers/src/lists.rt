//! Callers of the list of bases by several workers.
ghost use Rattle.std.specs.Prelude.{◌≡◌, ◌≤◌, IfOk};
ghost use Rattle.gf_reverse_theory.specs.Upward.{IsNode};
ghost use Rattle.gf_reverse_theory.specs.Lists.{IsListOfBases};
ghost use Rattle.gf_tree.specs.Parents.{IsRootFor};
ghost use Rattle.gf_tree.specs.Walks.{AreLeft, walk_at};

use gf_cone::Region;
use gf_poly::MarkedSet;
use gf_subtree::{WaveError, Waves};
use gf_waves::Gate;
use std::alloc::Global;
use std::thread::Threads;

/// A basis and all below it, each once, in the order of their paths, as so many workers list them: what a single walker before the basis has left, and from
/// the root the list of all bases of the ideal in the region.
///
/// The set is a marked reduced basis, for some weight of the region, of the ideal that it generates. Each flip may settle `pairs` pairs.
///
/// # Errors
///
/// As for `Waves::next_written`; `Memory` also where the list has no room.
pub fn listed_by_workers<R: Threads + Sync, G: Gate>(
    rt: &R,
    alloc: Global,
    top: MarkedSet,
    region: &Region,
    workers: u32,
    pairs: u64,
    gate: &G,
) -> Result<Vec<MarkedSet>, WaveError>
    requires basis { IsNode region.now top }
    requires some { 1 ≤ workers }
    requires most { workers ≤ 64 }
    ensures below { IfOk result (λ v. AreLeft (walk_at top region.now pairs) v.items) }
    ensures all { IfOk result (λ v. IsRootFor region.now top top → IsListOfBases region.now top v.items) }
{
    let mut waves = Waves::new(alloc, top, region, workers, pairs, gate)?;
    let mut all = Vec::new(alloc);
    while let Some(basis) = waves.next_written(rt)? {
        all.push(basis)?;
    }
    Ok(all)
}

/// How many workers the list of a basis and of all below it has, once its first basis is given: as many as are asked for.
///
/// The set is as for `listed_by_workers`.
///
/// # Errors
///
/// As for `Waves::next_written`.
pub fn workers_of_list<R: Threads + Sync, G: Gate>(
    rt: &R,
    alloc: Global,
    top: MarkedSet,
    region: &Region,
    workers: u32,
    pairs: u64,
    gate: &G,
) -> Result<u32, WaveError>
    requires basis { IsNode region.now top }
    requires some { 1 ≤ workers }
    requires most { workers ≤ 64 }
    ensures { IfOk result (λ number. number ≡ workers) }
{
    let mut waves = Waves::new(alloc, top, region, workers, pairs, gate)?;
    waves.next_written(rt)?;
    Ok(waves.workers())
}
