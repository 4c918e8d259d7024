//! The reduced Gröbner basis, by runs that reduce in wide numbers.

ghost use Rattle.std.specs.Prelude.{IfOk, IfErr};
ghost use Rattle.gf_order.specs.Comparisons.{HasEntries};
ghost use Rattle.gf_buchberger.specs.declared.queue.Strategy.TheVariants.{Degree};
ghost use Rattle.gf_buchberger.specs.Ruled.{AreRuledRunsWithinLimits};
ghost use Rattle.gf_buchberger.specs.Bases.{IsArrangedBasis, IsBasisRefusal, IsRuledRefusal, AreRunsWithinLimits, IsWantOfMemory};
ghost use Rattle.gf_buchberger.specs.Tasks.{HaveRingVariables, IsSuited, IsBasisTask};

use crate::bases::{BasisError, Task, run_by};
use crate::guides::precedence_of;
use crate::queue::Strategy;
use crate::runs::Arithmetic;
use crate::second_run::more_telling;
use gf_order::Order;
use gf_poly::{MarkedSet, Poly};
use std::alloc::Global;

/// The basis by a run in wide numbers that takes the pairs by their sugar, or its refusal.
pub fn by_sugar(alloc: Global, task: &Task) -> Result<MarkedSet, BasisError>
    requires { IsBasisTask task.now.order.now task.now.n task.now.set.now }
    ensures ok { IfOk result (IsArrangedBasis task.now.order.now task.now.n task.now.set.now) }
    ensures err { IfErr result (IsBasisRefusal task.now.order.now task.now.n task.now.set.now task.now.pairs) }
{
    match precedence_of(alloc, task.n, task.order) {
        Ok(precedence) => run_by(alloc, task, Strategy::Sugar, Arithmetic::Wide(precedence)),
        Err(_) => Err(BasisError::Memory),
    }
}

/// The basis by a run in wide numbers that takes the pairs by degree, or its refusal.
fn by_degree(alloc: Global, task: &Task) -> Result<MarkedSet, BasisError>
    requires { IsBasisTask task.now.order.now task.now.n task.now.set.now }
    ensures ok { IfOk result (IsArrangedBasis task.now.order.now task.now.n task.now.set.now) }
    ensures err { IfErr result (IsBasisRefusal task.now.order.now task.now.n task.now.set.now task.now.pairs) }
    ensures by_rule { IfErr result (IsRuledRefusal Degree task.now.order.now task.now.set.now task.now.pairs) }
{
    match precedence_of(alloc, task.n, task.order) {
        Ok(precedence) => run_by(alloc, task, Strategy::Degree, Arithmetic::Wide(precedence)),
        Err(_) => Err(BasisError::Memory),
    }
}

/// The basis by a run in wide numbers that takes the pairs by sugar, and by another one that takes them by degree where that one is refused; or the
/// refusal of the latter, but for a spent budget of the former where numbers of the latter don't fit.
fn by_wide_runs(alloc: Global, task: &Task) -> Result<MarkedSet, BasisError>
    requires { IsBasisTask task.now.order.now task.now.n task.now.set.now }
    ensures ok { IfOk result (IsArrangedBasis task.now.order.now task.now.n task.now.set.now) }
    ensures err { IfErr result (IsBasisRefusal task.now.order.now task.now.n task.now.set.now task.now.pairs) }
    ensures complete_by_rule { AreRuledRunsWithinLimits Degree task.now.order.now task.now.set.now task.now.pairs → IfErr result IsWantOfMemory }
{
    let other = match by_sugar(alloc, task) {
        Ok(found) => return Ok(found),
        Err(other) => other,
    };
    let refusal = match by_degree(alloc, task) {
        Ok(found) => return Ok(found),
        Err(refusal) => refusal,
    };
    if !refusal.is_of_numbers() {
        return Err(refusal);
    }
    Err(more_telling(refusal, other))
}

/// The reduced Gröbner basis for the order of the ideal of these polynomials in `n` variables, by a run of Buchberger's algorithm that goes on in
/// wide numbers where those of a reduction don't fit on the way. The basis is marked at the greatest monomials, monic, and ascending by the exponents
/// of the marked monomials.
///
/// Members are kept in 127 bits. Where a generator, an S-polynomial or a tail isn't reduced in them, the reduction is done again from the beginning
/// with fractions of 512 bits (`gf_wide_division`), and what is left is made monic and narrowed. The run settles the pairs of least sugar first; where
/// it is refused, another such run settles those first whose least common multiple has the least degree. Each run settles at most `pairs` pairs.
///
/// The weight of the order, where it has one, has `n` entries, and the order is good on the polynomials, as a term order is on all.
///
/// # Errors
///
/// `Overflow` and `Exponent` hold the operands of an operation in 127 bits that a run of Buchberger's algorithm on these polynomials by this order
/// may have, and that don't fit; it is that of the run by degree, where neither run answers. `PairBudget` where the budget of the run by degree is
/// spent, or that of the run by sugar: it holds the members, and the pairs that aren't settled. `Memory` if memory runs out. So where no operation that
/// a run may have leaves its range, and no list of one has more than `pairs` pairs, the error is `Memory`; and so it is where all operations of the run
/// by degree, by its rule (`IsRuled`), fit in 127 bits and `pairs` pairs suffice.
pub fn wide_basis(
    alloc: Global,
    n: u32,
    set: &[Poly],
    order: &Order,
    pairs: u64,
) -> Result<MarkedSet, BasisError>
    requires variables { HaveRingVariables n set.now }
    requires entries { HasEntries n order.now }
    requires suited { IsSuited order.now n set.now }
    ensures ok { IfOk result (IsArrangedBasis order.now n set.now) }
    ensures err { IfErr result (IsBasisRefusal order.now n set.now pairs) }
    ensures complete { AreRunsWithinLimits order.now set.now pairs → IfErr result IsWantOfMemory }
    ensures complete_by_rule { AreRuledRunsWithinLimits Degree order.now set.now pairs → IfErr result IsWantOfMemory }
{
    let task = Task {
        n,
        set,
        order,
        pairs,
    };
    by_wide_runs(alloc, &task)
}
