//! The reduced Gröbner basis, by another run where numbers of the first one don't fit.

ghost use Rattle.std.specs.Prelude.{◌≡◌, IfOk, IfErr};
ghost use Rattle.gf_order.specs.Comparisons.{HasEntries};
ghost use Rattle.gf_buchberger.specs.Bases.{IsArrangedBasis, IsBasisRefusal, AreRunsWithinLimits, IsWantOfMemory, is_of_numbers, refusal_told};
ghost use Rattle.gf_buchberger.specs.Tasks.{HaveRingVariables, IsSuited, IsBasisTask};

use crate::bases::{BasisError, Task, run_by};
use crate::guides::is_by_degree;
use crate::queue::Strategy;
use crate::runs::Arithmetic;
use gf_order::Order;
use gf_poly::{MarkedSet, Poly};
use std::alloc::Global;

impl BasisError {
    /// Whether two numbers don't fit.
    pub fn is_of_numbers(&self) -> bool
        ensures { result ≡ is_of_numbers self.now }
    {
        matches!(self, BasisError::Overflow(_) | BasisError::Exponent(_))
    }
}

/// Which of two refusals is told, where numbers of the first run don't fit: that of the second run, by the same polynomials and
/// order, where its budget was spent, since a greater one may help.
pub fn more_telling(first: BasisError, second: BasisError) -> BasisError
    ensures { result ≡ refusal_told first second }
{
    match second {
        BasisError::PairBudget { basis, unsettled } => BasisError::PairBudget { basis, unsettled },
        _ => first,
    }
}

/// The basis by the second run, or the refusal that is told. Where the order compares degrees first, that run would be the first one again, and isn't
/// made.
fn by_second_run(alloc: Global, task: &Task, first: BasisError) -> Result<MarkedSet, BasisError>
    requires good { IsBasisTask task.now.order.now task.now.n task.now.set.now }
    requires first { IsBasisRefusal task.now.order.now task.now.n task.now.set.now task.now.pairs first }
    ensures ok { IfOk result (IsArrangedBasis task.now.order.now task.now.n task.now.set.now) }
    ensures err { IfErr result (IsBasisRefusal task.now.order.now task.now.n task.now.set.now task.now.pairs) }
{
    if is_by_degree(task.n, task.order) {
        return Err(first);
    }
    match run_by(alloc, task, Strategy::Order, Arithmetic::Narrow) {
        Ok(second) => Ok(second),
        Err(second) => Err(more_telling(first, second)),
    }
}

/// The reduced Gröbner basis for the order of the ideal of these polynomials in `n` variables, by a run of Buchberger's algorithm that settles those
/// pairs first whose least common multiple is least by the order. It is for where numbers of the run by `basis` don't fit: how large the numbers get
/// on the way depends on which pairs are settled first.
///
/// The basis is marked at the greatest monomials, monic, and ascending by the exponents of the marked monomials; at most `pairs` pairs are settled.
/// The weight of the order, where it has one, has `n` entries, and the order is good on the polynomials, as a term order is on all. `first` is the
/// error of `basis` on these polynomials by this order.
///
/// # Errors
///
/// `PairBudget` where the budget of this run is spent: it holds the members, and the pairs that aren't settled. Where this run fails otherwise, the
/// error is `first`. So where no operation that a run may have leaves its range, and no list of one has more than `pairs` pairs, the error is
/// `Memory`.
pub fn basis_by_second_run(
    alloc: Global,
    n: u32,
    set: &[Poly],
    order: &Order,
    pairs: u64,
    first: BasisError,
) -> Result<MarkedSet, BasisError>
    requires variables { HaveRingVariables n set.now }
    requires entries { HasEntries n order.now }
    requires suited { IsSuited order.now n set.now }
    requires first { IsBasisRefusal order.now n set.now pairs first }
    ensures ok { IfOk result (IsArrangedBasis order.now n set.now) }
    ensures err { IfErr result (IsBasisRefusal order.now n set.now pairs) }
    ensures complete { AreRunsWithinLimits order.now set.now pairs → IfErr result IsWantOfMemory }
{
    let task = Task {
        n,
        set,
        order,
        pairs,
    };
    by_second_run(alloc, &task, first)
}
