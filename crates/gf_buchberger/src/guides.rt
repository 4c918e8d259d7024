//! The order of a run, as one that tells which terms a long reduction takes first, in narrow, in wide or in whole numbers.

ghost use Rattle.gf_order.specs.Comparisons.{HasEntries};

use gf_division::Guide;
use gf_order::Order;
use gf_poly::ROOM;
use gf_whole_division::Ranking;
use gf_wide_division::Precedence;
use std::alloc::{AllocError, Global};

/// How heavy each variable is by the order: 0 by lex and revlex.
fn weights(alloc: Global, n: usize, order: &Order) -> Result<Vec<i64>, AllocError>
    requires { HasEntries n order.now }
{
    let mut weights = Vec::new(alloc);
    if n > ROOM {
        return Ok(weights);
    }
    'variables: for i in 0..n {
        let mut unit = [0; ROOM];
        unit[i] = 1;
        let weight = match i64::try_from(order.level(&unit[..n])) {
            Ok(weight) => weight,
            Err(_) => 0,
        };
        weights.push(weight)?;
    }
    Ok(weights)
}

/// Whether the level of each variable is 1. Nothing is promised of it.
fn have_level_one(n: usize, order: &Order) -> bool
    requires { HasEntries n order.now }
{
    if n > ROOM {
        return false;
    }
    'variables: for i in 0..n {
        let mut unit = [0; ROOM];
        unit[i] = 1;
        if order.level(&unit[..n]) != 1 {
            return false;
        }
    }
    true
}

/// Whether the order compares degrees first, so that pairs come by degree as they come by the order. Nothing is promised of it.
pub fn is_by_degree(n: u32, order: &Order) -> bool
    requires { HasEntries n order.now }
{
    have_level_one(n as usize, order)
}

/// The order of a run in `n` variables, as a guide that tells which terms a long reduction takes first.
///
/// # Errors
///
/// `AllocError` if memory runs out.
pub fn guide_of(alloc: Global, n: u32, order: &Order) -> Result<Guide, AllocError>
    requires { HasEntries n order.now }
{
    let weights = weights(alloc, n as usize, order)?;
    Ok(Guide::by(weights, order.is_by_revlex()))
}

/// The order of a run in `n` variables, as a precedence that tells which terms a reduction in wide numbers takes first.
///
/// # Errors
///
/// `AllocError` if memory runs out.
pub fn precedence_of(alloc: Global, n: u32, order: &Order) -> Result<Precedence, AllocError>
    requires { HasEntries n order.now }
{
    let weights = weights(alloc, n as usize, order)?;
    Ok(Precedence::by(weights, order.is_by_revlex()))
}

/// The order of a run in `n` variables, as a ranking of the terms of reductions in whole numbers; none if memory runs out.
pub fn ranking_of(alloc: Global, n: u32, order: &Order) -> Option<Ranking>
    requires { HasEntries n order.now }
{
    match weights(alloc, n as usize, order) {
        Ok(weights) => Some(Ranking::by(weights, order.is_by_revlex())),
        Err(_) => None,
    }
}
