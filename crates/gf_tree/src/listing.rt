//! The list of all bases.
ghost use Rattle.std.specs.Prelude.{◌≡◌, IfOk, IfErr};
ghost use Rattle.gf_reverse_theory.specs.Upward.{IsNode, fan_of};
ghost use Rattle.gf_reverse_theory.specs.Lists.{IsListOfBases};
ghost use Rattle.gf_tree.specs.Refusals.{IsTreeRefusal, IsTreeWithinLimits};
ghost use Rattle.gf_tree.specs.Walks.{AreLeft, walk_at};
ghost use Rattle.gf_flip.specs.declared.error.TreeError.TheVariants.{Memory};

use crate::{TreeError, Walker, to_root};
use gf_cone::Region;
use gf_poly::MarkedSet;
use std::alloc::Global;

/// A basis and all bases below it, each once, in the order of their paths.
fn listed_below(
    alloc: Global,
    top: MarkedSet,
    region: &Region,
    pairs: u64,
) -> Result<Vec<MarkedSet>, TreeError>
    requires { IsNode region.now top }
    ensures value { IfOk result (λ v. AreLeft (walk_at top region.now pairs) v.items) }
    ensures cause { IfErr result (IsTreeRefusal (fan_of region.now top) pairs) }
{
    let mut walker = Walker::at(alloc, top, region, pairs)?;
    let mut all = Vec::new(alloc);
    while let Some(basis) = walker.advance()? {
        all.push(basis)?;
    }
    Ok(all)
}

/// What `list_bases` returns.
fn listed(
    alloc: Global,
    set: MarkedSet,
    region: &Region,
    pairs: u64,
) -> Result<Vec<MarkedSet>, TreeError>
    requires { IsNode region.now set }
    ensures value { IfOk result (λ v. IsListOfBases region.now set v.items) }
    ensures cause { IfErr result (IsTreeRefusal (fan_of region.now set) pairs) }
{
    let root = to_root(alloc, set, region, pairs)?;
    listed_below(alloc, root, region, pairs)
}

/// The marked reduced Gröbner bases, in a region, of the ideal of a basis, each once, in the order of their paths; the first one is the
/// root.
///
/// The set is the marked reduced Gröbner basis, for some weight of the region, of the ideal that it generates. Each flip may settle `pairs`
/// pairs.
///
/// # Errors
///
/// - `Overflow`, `Exponent`: the operands of an operation of a flip at a basis of this ideal, across a flippable normal, don't fit.
/// - `PairBudget`: such a flip has more than `pairs` pairs to settle.
/// - `Cone`: a step of the system that decides whether a flip may cross a facet of such a basis leaves its range.
/// - `Memory`: memory runs out.
#[tactic(auto, using(crate::proofs::RefusalLaws::only_memory))]
pub fn list_bases(
    alloc: Global,
    set: MarkedSet,
    region: &Region,
    pairs: u64,
) -> Result<Vec<MarkedSet>, TreeError>
    requires { IsNode region.now set }
    ensures value { IfOk result (λ v. IsListOfBases region.now set v.items) }
    ensures cause { IfErr result (IsTreeRefusal (fan_of region.now set) pairs) }
    ensures complete { IsTreeWithinLimits (fan_of region.now set) pairs → IfErr result (λ e. e ≡ Memory) }
{
    listed(alloc, set, region, pairs)
}
