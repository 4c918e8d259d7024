//! Rows of `_buchberger` whose budget of pairs is spent.
use crate::rows::Row;
use crate::runs::Runner;
use gf_front::{BuchbergerOptions, Job, Refusal};
use gfan_sets::buchberger::answer;
use std::alloc::{AllocError, Global};
use std::thread::Threads;

/// The options of the words, if they are those of `_buchberger`.
fn options_of(alloc: Global, words: &[String]) -> Option<BuchbergerOptions> {
    match gf_front::words(alloc, words) {
        Ok(Job::Buchberger(options)) => Some(options),
        _ => None,
    }
}

/// How many members a spent budget leaves, and how many pairs.
fn left(refusal: &Refusal) -> Option<(u64, u64)> {
    match refusal {
        Refusal::PairBudget { basis, unsettled } => {
            Some((basis.items().len() as u64, unsettled.items().len() as u64))
        }
        _ => None,
    }
}

/// How many pairs so many members have; at most so many as a `u64` holds.
fn pairs_of(members: u64) -> u64 {
    members.saturating_mul(members.saturating_sub(1)) / 2
}

/// Whether a refusal leaves all pairs of its members but as many as the budget, and one at least.
fn is_spent(refusal: &Refusal, budget: u64) -> bool {
    match left(refusal) {
        Some((members, pairs)) => pairs > 0 && pairs.checked_add(budget) == Some(pairs_of(members)),
        None => false,
    }
}

impl<'r, R: Threads + Sync> Runner<'r, R> {
    /// Whether the run of a row ends as the row says, with a report that begins so; and the answer to its input, by the options of its words but this budget,
    /// is that the budget is spent, with all pairs left but as many as the budget, and one at least.
    ///
    /// # Errors
    ///
    /// `AllocError` if memory runs out for what the run is called with or for what is kept of its end. Want of memory in the run is one of its ends.
    pub fn is_budget_spent(&self, row: &Row, budget: &str) -> Result<bool, AllocError> {
        let (Ok(pairs), Some(options)) = (
            budget.parse::<u64>(),
            options_of(self.alloc, &row.call.words),
        ) else {
            return Ok(false);
        };
        let options = BuchbergerOptions { pairs, ..options };
        let is_spent = match answer(self.alloc, &row.call.input, options) {
            Ok(_) => false,
            Err(refused) => is_spent(&refused.refusal, pairs),
        };
        Ok(is_spent && self.begins_right(row)?)
    }
}
