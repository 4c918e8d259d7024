//! The steps of the search: the way up from a basis, and the basis across a facet.
ghost use Rattle.std.specs.Prelude.{IfOk, IfErr, IfSome, Some};
ghost use Rattle.gf_facets_theory.specs.Facets.{IsFlippable};
ghost use Rattle.gf_facets_theory.specs.Normals.{Ascends};
ghost use Rattle.gf_cone.specs.Cones.{IsConeOf};
ghost use Rattle.gf_reverse_theory.specs.Upward.{IsNode, fan_of};
ghost use Rattle.gf_reverse_theory.specs.Answers.{IsAcross, IsWayAnswer};
ghost use Rattle.gf_tree.specs.Indices.{IsVectorIndex, AreDownward};
ghost use Rattle.gf_tree.specs.Parents.{IsBelowTold, IsLedBack};
ghost use Rattle.gf_tree.specs.Refusals.{IsTreeRefusal, IsRefusedAtBasis};

use crate::node::{Facet, Neighbour, cone_near, cone_of};
use crate::{BasisTree, Node, Store, TreeError};
use gf_cone::SpareVectors;
use gf_flip::{SpareLists, flip_near};
use gf_known_cone::KnownCone;
use gf_poly::MarkedSet;
use gf_vec::IntVec;
use std::alloc::AllocError;
use std::cmp::Ordering;

/// The index of a vector in an ascending list, by bisection.
fn index_of(list: &[IntVec], v: &IntVec) -> Option<usize>
    requires { Ascends list.now }
    ensures { IsVectorIndex list.now v.now result }
{
    let mut low = 0;
    let mut high = list.len();
    'indices: while low < high {
        let middle = low + (high - low) / 2;
        match list[middle].lex_cmp(v) {
            Ordering::Less => low = middle + 1,
            Ordering::Equal => return Some(middle),
            Ordering::Greater => high = middle,
        }
    }
    None
}

/// The cone that a node has of its basis, if it was made in the region of the tree.
fn cone_in<'a>(tree: &BasisTree, node: &'a Node) -> Option<&'a KnownCone>
    ensures { IfSome result (λ c. IsConeOf node.now.variables tree.now.region node.now.items c.now) }
{
    match &node.cone {
        Some(cone) => {
            if cone.is_within(&tree.region) {
                Some(cone)
            } else {
                None
            }
        }
        None => None,
    }
}

/// The neighbour across a flippable normal. It is found faster if `inside` is in the relative interior of the facet.
pub(crate) fn crossed(
    tree: &BasisTree,
    set: &MarkedSet,
    normal: &IntVec,
    inside: &IntVec,
    spare: &mut SpareLists,
) -> Result<MarkedSet, TreeError>
    requires node { IsNode tree.now.region set.now }
    requires flippable { IsFlippable set.now.variables tree.now.region set.now.items normal.now }
    ensures ok { IfOk result (λ w. IsAcross tree.now.region set.now normal.now (Some w)) }
    ensures cause { IfErr result (IsTreeRefusal (fan_of tree.now.region set.now) tree.now.pairs) }
    ensures at { IfErr result (IsRefusedAtBasis tree.now.region tree.now.pairs set.now) }
{
    let across = flip_near(
        tree.alloc,
        set,
        normal,
        inside.as_slice(),
        tree.pairs,
        spare,
    )?;
    Ok(across)
}

/// The neighbour across a flippable normal, with its cone.
pub(crate) fn arrived(tree: &BasisTree, node: &Node, facet: &Facet) -> Result<Node, TreeError>
    requires node { IsNode tree.now.region node.now }
    requires flippable { IsFlippable node.now.variables tree.now.region node.now.items facet.now }
    ensures ok { IfOk result (λ w. IsAcross tree.now.region node.now facet.now (Some w)) }
    ensures cause { IfErr result (IsRefusedAtBasis tree.now.region tree.now.pairs node.now) }
{
    let mut none = Store::new(tree.alloc);
    let basis = crossed(
        tree,
        &node.basis,
        &facet.normal,
        &facet.witness,
        &mut none.lists,
    )?;
    let cone = cone_near(
        tree,
        &basis,
        &facet.witness,
        &facet.normal,
        &mut none.vectors,
    )?;
    Ok(Node {
        basis,
        cone: Some(cone),
    })
}

/// What `below` returns, by the cone of the basis.
fn below_in(
    tree: &BasisTree,
    set: &MarkedSet,
    cone: &KnownCone,
    normal: &IntVec,
    spare: &mut SpareLists,
) -> Result<Option<Neighbour>, TreeError>
    requires node { IsNode tree.now.region set.now }
    requires cone { IsConeOf set.now.variables tree.now.region set.now.items cone.now }
    ensures ok { IfOk result (IsBelowTold tree.now.region set.now normal.now) }
    ensures cause { IfErr result (IsRefusedAtBasis tree.now.region tree.now.pairs set.now) }
{
    let list = cone.normals();
    let index = match index_of(list, normal) {
        Some(index) => index,
        None => return Ok(None),
    };
    match tree.region.sign(&list[index]) {
        Ordering::Less => return Ok(None),
        _ => {}
    }
    let crossing = cone.crossing(index)?;
    match crossing {
        Some(witness) => {
            let basis = crossed(tree, set, normal, &witness, spare)?;
            Ok(Some(Neighbour { basis, witness }))
        }
        None => Ok(None),
    }
}

/// The neighbour across a facet that leads down from a basis; none if no flip may cross the facet, or if the neighbour is towards the root.
pub(crate) fn below(
    tree: &BasisTree,
    node: &Node,
    normal: &IntVec,
    spare: &mut SpareLists,
) -> Result<Option<Neighbour>, TreeError>
    requires { IsNode tree.now.region node.now }
    ensures ok { IfOk result (IsBelowTold tree.now.region node.now normal.now) }
    ensures cause { IfErr result (IsRefusedAtBasis tree.now.region tree.now.pairs node.now) }
{
    match cone_in(tree, node) {
        Some(cone) => below_in(tree, &node.basis, cone, normal, spare),
        None => {
            let cone = cone_of(tree.alloc, &node.basis, &tree.region)?;
            below_in(tree, &node.basis, &cone, normal, spare)
        }
    }
}

/// The way up, by the cone of the basis: the least flippable normal that is negative at the root.
pub(crate) fn way_in(
    tree: &BasisTree,
    set: &MarkedSet,
    cone: &KnownCone,
) -> Result<Option<Facet>, TreeError>
    requires node { IsNode tree.now.region set.now }
    requires cone { IsConeOf set.now.variables tree.now.region set.now.items cone.now }
    ensures ok { IfOk result (IsWayAnswer tree.now.region set.now) }
    ensures cause { IfErr result (IsTreeRefusal (fan_of tree.now.region set.now) tree.now.pairs) }
    ensures at { IfErr result (IsRefusedAtBasis tree.now.region tree.now.pairs set.now) }
{
    let way = match cone.way(&tree.region)? {
        Some(way) => way,
        None => return Ok(None),
    };
    let normal = cone.normals()[way.index].copy()?;
    Ok(Some(Facet {
        normal,
        witness: way.witness,
    }))
}

/// The way up.
pub(crate) fn way_up(tree: &BasisTree, node: &Node) -> Result<Option<Facet>, TreeError>
    requires { IsNode tree.now.region node.now }
    ensures ok { IfOk result (IsWayAnswer tree.now.region node.now) }
    ensures cause { IfErr result (IsRefusedAtBasis tree.now.region tree.now.pairs node.now) }
{
    match cone_in(tree, node) {
        Some(cone) => way_in(tree, &node.basis, cone),
        None => {
            let cone = cone_of(tree.alloc, &node.basis, &tree.region)?;
            way_in(tree, &node.basis, &cone)
        }
    }
}

/// A neighbour with its cone, if the facet that was crossed is its way up; `back` is the normal of this facet as a facet of the neighbour,
/// and `normal` the one on the other side. The cone knows a vector in the relative interior of the facet, and keeps what is computed. If
/// the facet isn't the way up, the memory of the neighbour is kept for later steps.
pub(crate) fn led_back(
    tree: &BasisTree,
    neighbour: Neighbour,
    normal: &IntVec,
    back: &IntVec,
    store: &mut Store,
) -> Result<Option<Node>, TreeError>
    requires { IsNode tree.now.region neighbour }
    ensures ok { IfOk result (IsLedBack tree.now.region neighbour back.now) }
    ensures cause { IfErr result (IsRefusedAtBasis tree.now.region tree.now.pairs neighbour) }
{
    let Neighbour { basis, witness } = neighbour;
    let mut cone = cone_near(tree, &basis, &witness, normal, &mut store.vectors)?;
    let index = match index_of(cone.normals(), back) {
        Some(index) => index,
        None => return Ok(None),
    };
    match cone.is_way_up(index, &tree.region)? {
        true => Ok(Some(Node {
            basis,
            cone: Some(cone),
        })),
        false => {
            store.leave(basis, Some(cone));
            Ok(None)
        }
    }
}

/// What `downward` returns, by the cone of the basis.
fn downward_in(
    tree: &BasisTree,
    set: &MarkedSet,
    cone: &KnownCone,
    spare: &mut SpareVectors,
) -> Result<Vec<IntVec>, AllocError>
    requires node { IsNode tree.now.region set.now }
    requires cone { IsConeOf set.now.variables tree.now.region set.now.items cone.now }
    ensures { IfOk result (λ ns. AreDownward tree.now.region.root set.now.items ns.items) }
{
    let list = cone.normals();
    let mut out = Vec::with_capacity(tree.alloc, list.len())?;
    'normals: for i in 0..list.len() {
        let item = &list[i];
        match tree.region.sign(item) {
            Ordering::Less => continue,
            _ => {}
        }
        let normal = spare.copy(tree.alloc, item)?;
        out.push(normal)?;
    }
    Ok(out)
}

/// The normals of a basis that aren't negative at the root, each once, ascending. Each child is across the facet of one of them. The memory
/// of spare vectors is used.
pub(crate) fn downward(
    tree: &BasisTree,
    node: &Node,
    spare: &mut SpareVectors,
) -> Result<Vec<IntVec>, AllocError>
    requires { IsNode tree.now.region node.now }
    ensures { IfOk result (λ ns. AreDownward tree.now.region.root node.now.items ns.items) }
{
    match cone_in(tree, node) {
        Some(cone) => downward_in(tree, &node.basis, cone, spare),
        None => {
            let cone = cone_of(tree.alloc, &node.basis, &tree.region)?;
            downward_in(tree, &node.basis, &cone, spare)
        }
    }
}
