//! The way up from a basis, and the root above it.
ghost use Rattle.std.specs.Prelude.{◌≡◌, ◌↔◌, IfOk, IfErr};
ghost use Rattle.gf_reverse_theory.specs.Upward.{IsNode, fan_of};
ghost use Rattle.gf_tree.specs.Parents.{IsParentTold, IsRootFor, IsRootBasis};
ghost use Rattle.gf_tree.specs.Refusals.{IsTreeRefusal, IsWayRefused, IsTreeWithinLimits};
ghost use Rattle.gf_flip.specs.declared.error.TreeError.TheVariants.{Memory};
ghost use Rattle.gf_tree.specs.declared.above.Parent.TheVariants.{Root};

use crate::node::cone_of;
use crate::steps::{arrived, crossed, way_in, way_up};
use crate::{BasisTree, Node, Parent, TreeError};
use gf_cone::Region;
use gf_flip::SpareLists;
use gf_poly::MarkedSet;
use std::alloc::Global;

/// What `parent` returns.
fn above(tree: &BasisTree, set: &MarkedSet) -> Result<Parent, TreeError>
    requires { IsNode tree.now.region set.now }
    ensures value { IfOk result (IsParentTold tree.now.region set.now) }
    ensures cause { IfErr result (IsTreeRefusal (fan_of tree.now.region set.now) tree.now.pairs) }
{
    let cone = cone_of(tree.alloc, set, &tree.region)?;
    let facet = match way_in(tree, set, &cone)? {
        Some(facet) => facet,
        None => return Ok(Parent::Root),
    };
    let basis = crossed(
        tree,
        set,
        &facet.normal,
        &facet.witness,
        &mut SpareLists::new(tree.alloc),
    )?;
    Ok(Parent::Up {
        normal: facet.normal,
        basis,
    })
}

/// The root above a basis.
fn ascended(tree: &BasisTree, set: MarkedSet) -> Result<MarkedSet, TreeError>
    requires { IsNode tree.now.region set }
    ensures value { IfOk result (IsRootFor tree.now.region set) }
    ensures way { IfErr result (IsWayRefused tree.now.region tree.now.pairs set) }
{
    let mut node = Node::of(tree.alloc, set, &tree.region);
    'up: while let Some(facet) = way_up(tree, &node)? {
        node = arrived(tree, &node, &facet)?;
    }
    Ok(node.into_basis())
}

/// The parent of a basis in the tree of the marked reduced Gröbner bases of its ideal in a region.
///
/// The set is the marked reduced basis, for some weight of the region, of the ideal that it generates. The way up crosses the facet with
/// the lexicographically least normal that a flip may cross inside the region and that is negative at its root. There is no such normal if
/// and only if the set is the basis for the root of the region, ties broken by lex, the root of the tree (Fukuda, Jensen, Thomas,
/// *Computing Gröbner fans*, 3). The flip may settle `pairs` pairs.
///
/// # Errors
///
/// Each at a basis of this ideal:
///
/// - `Overflow`, `Exponent`: the operands of an operation of a flip across a flippable normal don't fit.
/// - `PairBudget`: such a flip has more than `pairs` pairs to settle.
/// - `Cone`: a step of the system that decides whether a flip may cross the facet of a normal leaves its range.
/// - `Memory`: memory runs out.
#[tactic(auto, using(crate::proofs::RefusalLaws::only_memory, crate::proofs::ParentLaws::roots_told))]
pub fn parent(
    alloc: Global,
    set: &MarkedSet,
    region: &Region,
    pairs: u64,
) -> Result<Parent, TreeError>
    requires { IsNode region.now set.now }
    ensures value { IfOk result (IsParentTold region.now set.now) }
    ensures root { IfOk result (λ p. p ≡ Root ↔ IsRootBasis region.now set.now) }
    ensures cause { IfErr result (IsTreeRefusal (fan_of region.now set.now) pairs) }
    ensures complete { IsTreeWithinLimits (fan_of region.now set.now) pairs → IfErr result (λ e. e ≡ Memory) }
{
    let tree = BasisTree {
        alloc,
        region: region.copy()?,
        pairs,
    };
    above(&tree, set)
}

/// The root of the tree of the bases of the ideal of a basis: its basis for the root of the region, ties broken by lex.
///
/// The set is the marked reduced basis, for some weight of the region, of the ideal that it generates. Each step of the way up is a flip,
/// which may settle `pairs` pairs.
///
/// # Errors
///
/// Each at the set, or at a basis on the way up from it:
///
/// - `Overflow`, `Exponent`: the operands of an operation of a flip across a flippable normal don't fit.
/// - `PairBudget`: such a flip has more than `pairs` pairs to settle.
/// - `Cone`: a step of the system that decides whether a flip may cross the facet of a normal leaves its range.
/// - `Memory`: memory runs out.
#[tactic(auto, using(crate::proofs::RefusalLaws::only_memory, crate::proofs::RefusalLaws::way_only))]
pub fn to_root(
    alloc: Global,
    set: MarkedSet,
    region: &Region,
    pairs: u64,
) -> Result<MarkedSet, TreeError>
    requires { IsNode region.now set }
    ensures value { IfOk result (IsRootFor region.now set) }
    ensures way { IfErr result (IsWayRefused region.now pairs set) }
    ensures cause { IfErr result (IsTreeRefusal (fan_of region.now set) pairs) }
    ensures complete { IsTreeWithinLimits (fan_of region.now set) pairs → IfErr result (λ e. e ≡ Memory) }
{
    let tree = BasisTree {
        alloc,
        region: region.copy()?,
        pairs,
    };
    ascended(&tree, set)
}
