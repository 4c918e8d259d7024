//! Lists of bases: walkers, several workers, parents.
ghost use Rattle.std.specs.Prelude.{◌≡◌, IfSome};
ghost use Rattle.gf_facets_theory.specs.Regions.{all_positive};
ghost use Rattle.gf_reverse_theory.specs.Upward.{IsNode};

use crate::answers::add;
use crate::sets::{polynomials, positive, start};
use gf_poly::MarkedSet;
use gf_rows::texts;
use gf_subtree::Waves;
use gf_tree::{Bases, Mark, Node, Parent, Split, TreeError, Walker, list_bases, parent};
use gf_waves::FreeGate;
use std::alloc::Global;
use std::thread::Threads;

/// The basis by degree of a set: the root of its tree.
fn root(alloc: Global, n: u32, set: &str) -> Option<MarkedSet>
    ensures { IfSome result (IsNode (all_positive n)) }
{
    let list = polynomials(alloc, n, set)?;
    start(alloc, n, &list)
}

/// The kind of a refusal.
fn kind(refusal: &TreeError) -> &'static str {
    match refusal {
        TreeError::PairBudget { .. } => "spent",
        _ => "refused",
    }
}

/// The next basis, or that there is none, or why.
fn next(alloc: Global, given: &Result<Option<MarkedSet>, TreeError>) -> Option<String> {
    match given {
        Ok(Some(basis)) => texts::set(alloc, basis),
        Ok(None) => texts::text(alloc, "end"),
        Err(refusal) => texts::text(alloc, kind(refusal)),
    }
}

/// Where a walker stands.
fn position(alloc: Global, walker: &Walker) -> Option<String> {
    let position = walker.position();
    let basis = texts::set(alloc, position.here)?;
    let mark = match position.mark {
        Mark::Before => "before",
        Mark::After(_) => "below",
        Mark::Listed => "listed",
        Mark::Finished => "finished",
    };
    format!(in alloc; "{mark} {basis}").ok()
}

/// Adds the bases that a walker has left, fewer than 1000.
fn add_left(alloc: Global, walker: Walker, text: &mut String) -> Option<()> {
    let mut bases = Bases::new(walker);
    for _ in 0..1000 {
        match bases.next() {
            Some(Ok(basis)) => add(text, &texts::set(alloc, &basis)?)?,
            Some(Err(_)) => return None,
            None => return Some(()),
        }
    }
    None
}

/// Adds what a walker gives in turn: at `advance` the next basis, at `position` where it stands.
fn add_steps(alloc: Global, walker: &mut Walker, asked: &str, text: &mut String) -> Option<()> {
    for step in asked.split("; ") {
        let answer = match step {
            "advance" => next(alloc, &walker.advance())?,
            "position" => position(alloc, walker)?,
            _ => return None,
        };
        add(text, &answer)?;
    }
    Some(())
}

/// Adds what both parts of a walker have left; where that is refused the kind of the refusal, and what the walker gives then.
fn add_parts(alloc: Global, walker: Walker, asked: &str, text: &mut String) -> Option<()> {
    match walker.split() {
        Ok(Split::Ended) => None,
        Ok(Split::Parts { first, rest }) => {
            add_left(alloc, first, text)?;
            add_left(alloc, rest, text)
        }
        Err((mut same, refusal)) => {
            add(text, kind(&refusal))?;
            add_steps(alloc, &mut same, asked, text)
        }
    }
}

/// What a walker gives in turn, and then in two parts, if more is asked.
fn walked(alloc: Global, mut walker: Walker, asked: &str, more: &[&str]) -> Option<String> {
    let mut text = String::new(alloc);
    add_steps(alloc, &mut walker, asked, &mut text)?;
    if let [asked] = more {
        add_parts(alloc, walker, asked, &mut text)?;
    }
    Some(text)
}

/// What so many workers give in turn: at `next` the next basis, at `ready` how many are ready.
pub(crate) fn waves_told<R: Threads + Sync>(
    rt: &R,
    alloc: Global,
    fields: &[&str],
) -> Option<String> {
    let [n, set, workers, pairs, asked] = fields else {
        return None;
    };
    let (n, workers) = (n.parse::<u32>().ok()?, workers.parse::<u32>().ok()?);
    if workers < 1 || workers > 64 {
        return None;
    }
    let root = root(alloc, n, set)?;
    let region = positive(alloc, n)?;
    let pairs = pairs.parse::<u64>().ok()?;
    let mut waves = Waves::new(alloc, root, &region, workers, pairs, &FreeGate).ok()?;
    let mut text = String::new(alloc);
    for step in asked.split("; ") {
        let answer = match step {
            "next" => next(alloc, &waves.next_written(rt))?,
            "ready" => texts::text(alloc, waves.ready())?,
            _ => return None,
        };
        add(&mut text, &answer)?;
    }
    Some(text)
}

/// A walker before the root.
fn walker_at(alloc: Global, n: u32, root: MarkedSet, pairs: u64) -> Option<Walker>
    requires { IsNode (all_positive n) root }
    ensures { IfSome result (λ w. w.region ≡ all_positive n) }
{
    let region = positive(alloc, n)?;
    match Walker::at(alloc, root, &region, pairs) {
        Ok(walker) => Some(walker),
        Err(_) => None,
    }
}

/// The basis at an index of the list below the root.
fn basis_at(alloc: Global, n: u32, root: MarkedSet, index: u32) -> Option<MarkedSet>
    requires { IsNode (all_positive n) root }
    ensures { IfSome result (IsNode (all_positive n)) }
{
    let mut walker = walker_at(alloc, n, root, 1000)?;
    'steps: for _ in 0..index {
        if walker.advance().is_err() {
            return None;
        }
    }
    match walker.advance() {
        Ok(basis) => basis,
        Err(_) => None,
    }
}

/// What is above the basis at an index of the list below the root, by a flip with a budget of pairs.
fn above(alloc: Global, n: u32, root: MarkedSet, index: u32, pairs: u64) -> Option<String>
    requires { IsNode (all_positive n) root }
{
    let region = positive(alloc, n)?;
    let basis = basis_at(alloc, n, root, index)?;
    match parent(alloc, &basis, &region, pairs) {
        Ok(Parent::Root) => texts::text(alloc, "root"),
        Ok(Parent::Up { normal, basis }) => {
            let normal = texts::vector(alloc, &normal)?;
            let basis = texts::set(alloc, &basis)?;
            format!(in alloc; "{normal} {basis}").ok()
        }
        Err(refusal) => texts::text(alloc, kind(&refusal)),
    }
}

/// A value that may go to another thread.
fn sent<T: Send>(value: T) -> T
    ensures { result ≡ value }
{
    value
}

/// What a call gives on the root of a tree and a budget of pairs.
fn of_root(
    alloc: Global,
    call: &str,
    n: u32,
    root: MarkedSet,
    pairs: u64,
    fields: &[&str],
) -> Option<String>
    requires { IsNode (all_positive n) root }
{
    let region = positive(alloc, n)?;
    match (call, fields) {
        ("count", []) => {
            let bases = list_bases(alloc, root, &region, pairs).ok()?;
            texts::text(alloc, bases.len())
        }
        ("parent", [index]) => above(alloc, n, root, index.parse::<u32>().ok()?, pairs),
        ("walker", [asked, more @ ..]) => {
            walked(alloc, walker_at(alloc, n, root, pairs)?, asked, more)
        }
        ("node", []) => {
            let node = sent(Node::of(alloc, root, &region));
            texts::set(alloc, &node.into_basis())
        }
        _ => None,
    }
}

/// What a call gives on the tree of the bases of a set in so many variables, with a budget of pairs.
pub(crate) fn told(alloc: Global, call: &str, fields: &[&str]) -> Option<String> {
    let [n, set, pairs, fields @ ..] = fields else {
        return None;
    };
    let n = n.parse::<u32>().ok()?;
    let root = root(alloc, n, set)?;
    of_root(alloc, call, n, root, pairs.parse::<u64>().ok()?, fields)
}
