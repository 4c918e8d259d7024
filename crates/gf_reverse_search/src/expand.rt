//! A walker expanded: its node, a walker for each child's subtree, and what follows.
ghost use Rattle.std.specs.Prelude.{option_to_list, ◌≡◌, ◌+◌, ◌<◌, ◌≤◌, ◌∷◌, length, [], true, false, IfOk, IfErr, OnOk, OnErr, IsTrue};
ghost use Rattle.std.specs.Vec.{vec_capacity};
ghost use Rattle.gf_reverse_search.specs.declared.expand.Piece.TheVariants.{Under, Ready};
ghost use Rattle.gf_reverse_search.specs.declared.mark.Mark.TheVariants.{Before};
ghost use Rattle.gf_reverse_search.specs.Left.{IsBelowMark};
ghost use Rattle.gf_reverse_search.specs.Walk.{HasNoChild, IsRefused};
ghost use Rattle.gf_reverse_search.specs.Pieces.{ArePiecesBelow, Expands, Follows, GoesDown, IsAdded, IsFollowed, IsRise, Opens, RefusesAt};

use crate::search::is_past;
use crate::{Depth, Mark, ReusingTree, Tree, Walker};
use std::alloc::Global;

/// A piece of a list.
#[derive(Drop)]
pub enum Piece<T: Tree> {
    /// A node.
    Ready(T::Node),
    /// What a walker has left.
    Under(Walker<T>),
    /// What a walker has left whose expansion was refused.
    Refused(Walker<T>, T::Error),
}

/// Adds a node's child under a label, with its subtree, if there is one. Whether there is.
///
/// # Errors
///
/// What a call at the node was refused by; nothing is added.
fn add_child<T: ReusingTree>(
    tree: &T,
    node: &T::Node,
    label: &T::Label,
    depth: &Depth,
    pieces: &mut Vec<Piece<T>>,
    store: &mut T::Store,
) -> Result<bool, T::Error>
    requires is_node { T.is_node tree.now node.now }
    requires room { length pieces.old.items < vec_capacity pieces.old }
    ensures added { IfOk result (IsAdded T.up tree.now node.now label.now pieces.old.items pieces.new.items) }
    ensures room { vec_capacity pieces.old ≤ vec_capacity pieces.new }
    ensures unchanged { OnErr result (pieces.new.items ≡ pieces.old.items) }
    ensures refused { IfErr result (T.refuses tree.now node.now) }
{
    let Some(here) = tree.child_by(node, label, store)? else {
        return Ok(false);
    };
    let child = Walker {
        tree: tree.again()?,
        here,
        mark: Mark::Before,
        depth: depth.none(),
    };
    if pieces.push(Piece::Under(child)).is_err() {
        unreachable!();
    }
    Ok(true)
}

/// Leaves the memory of a label and of those behind it.
fn leave_labels<T: ReusingTree>(
    tree: &T,
    first: T::Label,
    rest: Vec<T::Label>,
    store: &mut T::Store,
) {
    tree.leave_label(first, store);
    'labels: for label in rest {
        tree.leave_label(label, store);
    }
}

/// The children past a mark, each with its subtree, and the mark after the last. At most so many: whether there are no more.
///
/// # Errors
///
/// What a call at the node was refused by; the children before stay.
fn list_children<T: ReusingTree>(
    tree: &T,
    node: &T::Node,
    mark: &mut Mark<T::Label>,
    depth: &Depth,
    pieces: &mut Vec<Piece<T>>,
    most: usize,
    store: &mut T::Store,
) -> Result<bool, T::Error>
    requires is_node { T.is_node tree.now node.now }
    requires empty { pieces.old.items ≡ [] }
    requires room { most ≤ vec_capacity pieces.old }
    requires listed { IsBelowMark T.before mark.old [] → ⊥ }
    ensures listed { IsBelowMark T.before mark.new [] → ⊥ }
    ensures below { ArePiecesBelow T.before T.up tree.now node.now mark.old pieces.new.items mark.new }
    ensures few { length pieces.new.items ≤ most }
    ensures room { vec_capacity pieces.old ≤ vec_capacity pieces.new }
    ensures all { IfOk result (λ b. b ≡ true → HasNoChild T.before (T.up tree.now) node.now mark.new) }
    ensures full { IfOk result (λ b. b ≡ false → most ≤ length pieces.new.items) }
    ensures refused { IfErr result (T.refuses tree.now node.now) }
{
    if let Mark::Finished = mark {
        return Ok(true);
    }
    let mut labels = tree.labels_by(node, store)?;
    while !labels.is_empty() {
        let label = labels.remove(0);
        if is_past(tree, mark, &label) {
            if pieces.len() >= most {
                leave_labels(tree, label, labels, store);
                return Ok(false);
            }
            if add_child(tree, node, &label, depth, pieces, store)? {
                *mark = Mark::After(label);
                continue;
            }
        }
        tree.leave_label(label, store);
    }
    Ok(true)
}

/// One step up from a node, if its depth isn't none and it has a parent.
///
/// # Errors
///
/// What a call at the node was refused by; the depth stays.
fn rise<T: Tree>(
    tree: &T,
    node: &T::Node,
    depth: &mut Depth,
) -> Result<Option<(T::Label, T::Node)>, T::Error>
    requires is_node { T.is_node tree.now node.now }
    ensures risen { IfOk result (IsRise (T.up tree.now) node.now depth.old depth.new) }
    ensures unchanged { OnErr result (depth.new ≡ depth.old) }
    ensures refused { IfErr result (T.refuses tree.now node.now) }
{
    if depth.is_zero() {
        return Ok(None);
    }
    match tree.parent(node)? {
        Some(above) => {
            depth.lower();
            Ok(Some(above))
        }
        None => Ok(None),
    }
}

/// What follows the children that were listed: nothing, a walker, or a refusal.
#[tactic(auto, using(crate::proofs::RefusalLaws::refused_here))]
fn follow<T: ReusingTree>(
    walker: Walker<T>,
    listed: Result<bool, T::Error>,
    count: usize,
    most: usize,
    store: &mut T::Store,
) -> Option<Piece<T>>
    requires all { IfOk listed (λ b. b ≡ true → HasNoChild T.before (T.up walker.tree) walker.here walker.mark) }
    requires full { IfOk listed (λ b. b ≡ false → most ≤ count) }
    requires refused { IfErr listed (T.refuses walker.tree walker.here) }
    ensures { Follows T.before T.up (RefusesAt T.up T.refuses) walker (most ≤ count) (option_to_list result) }
{
    match listed {
        Err(refusal) => return Some(Piece::Refused(walker, refusal)),
        Ok(false) => return Some(Piece::Under(walker)),
        Ok(true) => {}
    }
    let Walker {
        tree,
        here,
        mark,
        mut depth,
    } = walker;
    match rise(&tree, &here, &mut depth) {
        Err(refusal) => {
            let walker = Walker {
                tree,
                here,
                mark,
                depth,
            };
            Some(Piece::Refused(walker, refusal))
        }
        Ok(Some((label, parent))) => {
            tree.leave(here, store);
            Some(Piece::Under(Walker {
                tree,
                here: parent,
                mark: Mark::After(label),
                depth,
            }))
        }
        Ok(None) => {
            tree.leave(here, store);
            None
        }
    }
}

/// What follows the children that were listed is put behind them.
fn push_rest<T: ReusingTree>(
    walker: Walker<T>,
    listed: Result<bool, T::Error>,
    pieces: &mut Vec<Piece<T>>,
    most: usize,
    store: &mut T::Store,
)
    requires all { IfOk listed (λ b. b ≡ true → HasNoChild T.before (T.up walker.tree) walker.here walker.mark) }
    requires full { IfOk listed (λ b. b ≡ false → most ≤ length pieces.old.items) }
    requires refused { IfErr listed (T.refuses walker.tree walker.here) }
    requires room { length pieces.old.items < vec_capacity pieces.old }
    ensures follows { IsFollowed T.before T.up (RefusesAt T.up T.refuses) most walker pieces.old.items pieces.new.items }
    ensures few { length pieces.new.items ≤ length pieces.old.items + 1 }
    ensures room { vec_capacity pieces.old ≤ vec_capacity pieces.new }
{
    let Some(rest) = follow(walker, listed, pieces.len(), most, store) else {
        return;
    };
    if pieces.push(rest).is_err() {
        unreachable!();
    }
}

/// The children past a listed walker's mark, each with its subtree, and what follows them.
fn go_down<T: ReusingTree>(
    walker: Walker<T>,
    pieces: &mut Vec<Piece<T>>,
    most: usize,
    store: &mut T::Store,
)
    requires empty { pieces.old.items ≡ [] }
    requires room { most + 1 ≤ vec_capacity pieces.old }
    requires listed { IsBelowMark T.before walker.mark [] → ⊥ }
    ensures down { GoesDown T.before T.up (RefusesAt T.up T.refuses) most walker pieces.new.items }
    ensures few { length pieces.new.items ≤ most + 1 }
    ensures room { vec_capacity pieces.old ≤ vec_capacity pieces.new }
{
    let Walker {
        tree,
        here,
        mut mark,
        depth,
    } = walker;
    let listed = list_children(&tree, &here, &mut mark, &depth, pieces, most, store);
    let walker = Walker {
        tree,
        here,
        mark,
        depth,
    };
    push_rest(walker, listed, pieces, most, store);
}

/// Whether nothing follows the children that were listed: all are, and the walker is at its top.
fn is_over<E>(listed: &Result<bool, E>, depth: &Depth) -> bool
    ensures all { IsTrue result → IfOk listed.now (λ b. b ≡ true) }
    ensures told { IsTrue result → IfErr listed.now (λ _. ⊥) }
    ensures top { IsTrue result → depth.now ≡ 0 }
{
    match listed {
        Ok(true) => depth.is_zero(),
        Ok(false) => false,
        Err(_refusal) => false,
    }
}

/// Puts a node in front.
fn put_first<T: Tree>(pieces: &mut Vec<Piece<T>>, node: T::Node)
    requires { length pieces.old.items < vec_capacity pieces.old }
    ensures { pieces.new.items ≡ Ready node ∷ pieces.old.items }
{
    if pieces.insert(0, Piece::Ready(node)).is_err() {
        unreachable!();
    }
}

/// A walker at its start in pieces: its node, its children, each with its subtree, and what follows. The node is copied where a walker goes on with it.
///
/// # Errors
///
/// Want of memory for the copy. The walker comes back as it was.
fn open<T: ReusingTree>(
    walker: Walker<T>,
    pieces: &mut Vec<Piece<T>>,
    most: usize,
    store: &mut T::Store,
) -> Result<(), (Walker<T>, T::Error)>
    requires empty { pieces.old.items ≡ [] }
    requires room { most + 2 ≤ vec_capacity pieces.old }
    requires start { walker.mark ≡ Before }
    ensures opens { OnOk result (Opens T.before T.up (RefusesAt T.up T.refuses) most walker pieces.new.items) }
    ensures few { OnOk result (length pieces.new.items ≤ most + 2) }
    ensures unchanged { IfErr result (λ p. p.0 ≡ walker) }
    ensures refused { IfErr result (λ p. T.is_memory p.1) }
{
    let Walker {
        tree,
        here,
        mark: start,
        depth,
    } = walker;
    let mut mark = Mark::Listed;
    let listed = list_children(&tree, &here, &mut mark, &depth, pieces, most, store);
    if is_over(&listed, &depth) {
        put_first(pieces, tree.bare(here, store));
        return Ok(());
    }
    match tree.copy(&here) {
        Ok(node) => {
            let walker = Walker {
                tree,
                here,
                mark,
                depth,
            };
            push_rest(walker, listed, pieces, most, store);
            put_first(pieces, node);
            Ok(())
        }
        Err(refusal) => {
            let walker = Walker {
                tree,
                here,
                mark: start,
                depth,
            };
            Err((walker, refusal))
        }
    }
}

impl<T: ReusingTree> Walker<T> {
    /// The walker in pieces: its node, where it stands before it; the children past its mark, each with its subtree, but at most so many;
    /// and what follows them. A refusal of the tree stands where the sequential list would meet it. The store is the tree's own: what is left
    /// there serves the next expansion.
    ///
    /// # Errors
    ///
    /// What a call at the walker's node was refused by before anything was listed. The walker comes back as it was.
    pub fn expand(
        self,
        alloc: Global,
        most: usize,
        store: &mut T::Store,
    ) -> Result<Vec<Piece<T>>, (Walker<T>, T::Error)>
        requires { most ≤ 4096 }
        ensures expands { IfOk result (λ ps. Expands T.before T.up (RefusesAt T.up T.refuses) most self ps.items) }
        ensures few { IfOk result (λ ps. length ps.items ≤ most + 2) }
        ensures unchanged { IfErr result (λ p. p.0 ≡ self) }
        ensures refused { IfErr result (λ p. IsRefused (T.up self.tree) (T.refuses self.tree) self.here self.depth p.1) }
    {
        let mut pieces = Vec::new(alloc);
        if let Err(refusal) = pieces.reserve(most + 2) {
            return Err((self, T::Error::from(refusal)));
        }
        if !self.is_at_start() {
            go_down(self, &mut pieces, most, store);
            return Ok(pieces);
        }
        match open(self, &mut pieces, most, store) {
            Ok(()) => Ok(pieces),
            Err(refused) => Err(refused),
        }
    }
}
