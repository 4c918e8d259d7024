//! The search for the next node, from a node whose children up to a mark are listed.
ghost use Rattle.std.specs.Prelude.{◌↔◌, [], ◌∷◌, IsTrue, IfOk, IfSome, IfErr};
ghost use Rattle.gf_reverse_search.specs.declared.mark.Mark.TheVariants.{After};
ghost use Rattle.gf_reverse_search.specs.Left.{IsBelowMark};
ghost use Rattle.gf_reverse_search.specs.Walk.{IsNextChild, IsTurn, FindsNext, IsRefused};

use crate::{Depth, Mark, Tree};

/// What one turn of the search for the next node finds.
#[derive(Drop)]
enum Turn<N, L> {
    Child(N),
    Up(L, N),
    End,
}

/// Whether a child's label comes after what a mark has listed.
pub fn is_past<T: Tree>(tree: &T, mark: &Mark<T::Label>, label: &T::Label) -> bool
    ensures { IsTrue result ↔ IsBelowMark T.before mark.now (label.now ∷ []) }
{
    match mark {
        Mark::Before => true,
        Mark::After(listed) => tree.precedes(listed, label),
        Mark::Listed => true,
        Mark::Finished => false,
    }
}

/// The child of a node under the least label past a mark.
fn next_child<T: Tree>(
    tree: &T,
    node: &T::Node,
    mark: &Mark<T::Label>,
) -> Result<Option<T::Node>, T::Error>
    requires { T.is_node tree.now node.now }
    ensures ok { IfOk result (IsNextChild T.before (T.up tree.now) node.now mark.now) }
    ensures err { IfErr result (T.refuses tree.now node.now) }
{
    if let Mark::Finished = mark {
        return Ok(None);
    }
    let labels = tree.labels(node)?;
    for label in &labels {
        if is_past(tree, mark, label) {
            if let Some(child) = tree.child(node, label)? {
                return Ok(Some(child));
            }
        }
    }
    Ok(None)
}

/// The next child, or else the way up.
fn take_turn<T: Tree>(
    tree: &T,
    node: &T::Node,
    mark: &Mark<T::Label>,
    depth: &Depth,
) -> Result<Turn<T::Node, T::Label>, T::Error>
    requires { T.is_node tree.now node.now }
    ensures ok { IfOk result (IsTurn T.before (T.up tree.now) node.now mark.now depth.now) }
    ensures err { IfErr result (T.refuses tree.now node.now) }
{
    if let Some(child) = next_child(tree, node, mark)? {
        return Ok(Turn::Child(child));
    }
    if depth.is_zero() {
        return Ok(Turn::End);
    }
    match tree.parent(node)? {
        Some((label, parent)) => Ok(Turn::Up(label, parent)),
        None => Ok(Turn::End),
    }
}

/// The next node and its depth, from a node whose children up to a label are listed.
///
/// It goes up until a node has a child past the mark, and holds one node on the way.
fn climb<T: Tree>(
    tree: &T,
    start: T::Node,
    label: T::Label,
    start_depth: Depth,
) -> Result<Option<(T::Node, Depth)>, T::Error>
    requires { T.is_node tree.now start }
    ensures next { IfOk result (FindsNext T.before (T.up tree.now) start (After label) start_depth) }
    ensures node { IfOk result (λ o. IfSome o (λ p. T.is_node tree.now p.0)) }
    ensures err { IfErr result (IsRefused (T.up tree.now) (T.refuses tree.now) start start_depth) }
{
    let mut node = start;
    let mut mark = Mark::After(label);
    let mut depth = start_depth;
    loop {
        match take_turn(tree, &node, &mark, &depth)? {
            Turn::Child(child) => {
                depth.raise()?;
                return Ok(Some((child, depth)));
            }
            Turn::Up(label, parent) => {
                depth.lower();
                mark = Mark::After(label);
                node = parent;
            }
            Turn::End => return Ok(None),
        }
    }
}

/// The next node after `node` and its depth, where the node and its children up to the mark are listed: the child under the least label past the
/// mark, or else the next child of a node on the way up, by at most `depth` steps; none where there is none.
///
/// # Errors
///
/// What a call of the tree is refused by at the node, or at a node above it by at most `depth` steps. Any call may be refused for want of memory.
#[tactic(auto, using(crate::proofs::RefusalLaws::refused_here))]
pub fn find_next<T: Tree>(
    tree: &T,
    node: &T::Node,
    mark: &Mark<T::Label>,
    depth: &Depth,
) -> Result<Option<(T::Node, Depth)>, T::Error>
    requires is_node { T.is_node tree.now node.now }
    requires listed { IsBelowMark T.before mark.now [] → ⊥ }
    ensures next { IfOk result (FindsNext T.before (T.up tree.now) node.now mark.now depth.now) }
    ensures node { IfOk result (λ o. IfSome o (λ p. T.is_node tree.now p.0)) }
    ensures err { IfErr result (IsRefused (T.up tree.now) (T.refuses tree.now) node.now depth.now) }
{
    match take_turn(tree, node, mark, depth)? {
        Turn::Child(child) => {
            let mut below = depth.copy()?;
            below.raise()?;
            Ok(Some((child, below)))
        }
        Turn::Up(label, parent) => {
            let mut above = depth.copy()?;
            above.lower();
            climb(tree, parent, label, above)
        }
        Turn::End => Ok(None),
    }
}
