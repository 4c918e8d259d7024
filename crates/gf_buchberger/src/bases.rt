//! The reduced Gröbner basis, by one run, and by others where that one isn't answered in whole numbers.

ghost use Rattle.std.specs.Prelude.{◌≡◌, IfOk, IfErr};
ghost use Rattle.gf_order.specs.Comparisons.{HasEntries};
ghost use Rattle.gf_poly.specs.Marking.{HaveVariables};
ghost use Rattle.gf_ideal_theory.specs.Bases.{AreArranged};
ghost use Rattle.gf_ideal_theory.specs.Marks.{HasPositiveWeight, IsRealisable};
ghost use Rattle.gf_division.specs.Autoreduction.{IsAutoreduced, IsReducedOf, IsAutoreductionRefusal};
ghost use Rattle.gf_buchberger.specs.declared.queue.Strategy.TheVariants.{Degree};
ghost use Rattle.gf_buchberger.specs.Ruled.{AreRuledRunsWithinLimits};
ghost use Rattle.gf_buchberger.specs.Bases.{IsArrangedBasis, IsBasisRefusal, IsRuledRefusal, AreRunsWithinLimits, IsWantOfMemory, IsSpentAnswer, IsStopAnswer};
ghost use Rattle.gf_buchberger.specs.Bases.{HasStopVariables, of_poly_error};
ghost use Rattle.gf_buchberger.specs.Tasks.{HaveRingVariables, IsSuited, IsBasisTask};
ghost use Rattle.gf_buchberger.specs.Runs.{MembersHaveVariables};

use crate::generators::entered;
use crate::guides::{guide_of, is_by_degree, ranking_of};
use crate::members::{Members, are_short};
use crate::queue::Strategy;
use crate::runs::{Arithmetic, Run, Stop, settle_all};
use crate::wide_run::by_sugar;
use gf_division::{Guide, autoreduce_by};
use gf_frac::Overflow;
use gf_order::Order;
use gf_poly::{ExponentOverflow, MarkedSet, Pairs, Poly, PolyError};
use gf_wide_division::wide_autoreduce;
use std::alloc::Global;

/// Why there is no basis.
#[derive(Drop)]
pub enum BasisError {
    /// A sum, difference, product or quotient of two fractions leaves its range.
    Overflow(Overflow),
    /// A sum of two exponents leaves its range.
    Exponent(ExponentOverflow),
    /// The budget of pairs is spent: the members so far, and the pairs of indices that aren't settled.
    PairBudget { basis: MarkedSet, unsettled: Pairs },
    /// There is no memory.
    Memory,
}

/// What a run works on: the polynomials in `n` variables, the order, and how many pairs it may settle.
#[derive(Clone, Copy)]
pub struct Task<'a> {
    pub n: u32,
    pub set: &'a [Poly],
    pub order: &'a Order,
    pub pairs: u64,
}

/// The refusal of an operation on polynomials, as the error of a basis: `Overflow` and `Exponent` hold the operands that they held, and `Memory`
/// stays `Memory`.
pub fn refused(refusal: PolyError) -> BasisError
    ensures { result ≡ of_poly_error refusal }
{
    match refusal {
        PolyError::Overflow(o) => BasisError::Overflow(o),
        PolyError::Exponent(o) => BasisError::Exponent(o),
        PolyError::Memory => BasisError::Memory,
    }
}

/// The members of a run, as a set in `n` variables.
fn set_of(n: u32, members: Members) -> MarkedSet
    requires { HaveVariables n members.items }
    ensures { result ≡ record { variables = n; items = members.items } }
{
    MarkedSet::new(n, members.into_marked())
}

/// The answer of a run whose budget is spent.
fn spent(alloc: Global, n: u32, run: Run) -> BasisError
    requires { MembersHaveVariables n run.members.items }
    ensures { IsSpentAnswer n run result }
{
    match run.table.unsettled(alloc) {
        Ok(unsettled) => BasisError::PairBudget {
            basis: set_of(n, run.members),
            unsettled: Pairs::new(unsettled),
        },
        Err(_) => BasisError::Memory,
    }
}

/// The answer of a run that was stopped.
fn stopped(alloc: Global, n: u32, stop: Stop) -> BasisError
    requires { HasStopVariables n stop }
    ensures { IsStopAnswer n stop result }
{
    match stop {
        Stop::Refused(refusal) => refused(refusal),
        Stop::Spent(run) => spent(alloc, n, run),
    }
}

/// The members that are needed, made monic, their tails reduced by one another; where the run goes on in wide numbers, they are used if fractions of
/// 128 bits overflow.
fn interreduced(
    alloc: Global,
    set: &MarkedSet,
    guide: &mut Guide,
    numbers: &Arithmetic,
) -> Result<MarkedSet, PolyError>
    requires { IsRealisable set.now.variables set.now.items }
    ensures value { IfOk result (IsAutoreduced set.now) }
    ensures arranged { IfOk result (λ t. AreArranged set.now.variables t.items) }
    ensures marked { IfOk result (λ t. HasPositiveWeight set.now.variables t.items) }
    ensures reduced { IfOk result (λ t. IsReducedOf set.now.variables set.now.items t.items) }
    ensures cause { IfErr result (IsAutoreductionRefusal set.now.items) }
{
    match autoreduce_by(alloc, set, guide) {
        Ok(basis) => Ok(basis),
        Err(refusal) => match numbers {
            Arithmetic::Narrow | Arithmetic::Mixed => Err(refusal),
            Arithmetic::Wide(first) => match wide_autoreduce(alloc, set, guide, first) {
                Ok(basis) => Ok(basis),
                Err(_) => Err(refusal),
            },
        },
    }
}

/// The reduced Gröbner basis of the ideal of the polynomials of the task for its order, by one run of Buchberger's algorithm, which takes the pairs by
/// `strategy` and reduces in `numbers`.
///
/// # Errors
///
/// `Overflow` and `Exponent` hold the operands of an operation of this run, and that don't fit. `PairBudget` where more pairs than the task allows would
/// have to be settled: it holds the members so far, and the pairs that aren't settled. `Memory` if memory runs out.
pub fn run_by(
    alloc: Global,
    task: &Task,
    strategy: Strategy,
    numbers: Arithmetic,
) -> Result<MarkedSet, BasisError>
    requires { IsBasisTask task.now.order.now task.now.n task.now.set.now }
    ensures ok { IfOk result (IsArrangedBasis task.now.order.now task.now.n task.now.set.now) }
    ensures err { IfErr result (IsBasisRefusal task.now.order.now task.now.n task.now.set.now task.now.pairs) }
    ensures by_rule { IfErr result (IsRuledRefusal strategy task.now.order.now task.now.set.now task.now.pairs) }
{
    let guide = match guide_of(alloc, task.n, task.order) {
        Ok(guide) => guide,
        Err(_) => return Err(BasisError::Memory),
    };
    let ranking = match &numbers {
        Arithmetic::Narrow => None,
        Arithmetic::Mixed | Arithmetic::Wide(_) => ranking_of(alloc, task.n, task.order),
    };
    let start = match entered(
        alloc, task.set, task.order, strategy, numbers, guide, ranking,
    ) {
        Ok(start) => start,
        Err(refusal) => return Err(refused(refusal)),
    };
    let run = match settle_all(alloc, start, task.order, task.pairs) {
        Ok(run) => run,
        Err(stop) => return Err(stopped(alloc, task.n, stop)),
    };
    let is_silent = run.is_silent();
    let Run {
        members,
        mut guide,
        numbers,
        ..
    } = run;
    let members = set_of(task.n, members);
    match interreduced(alloc, &members, &mut guide, &numbers) {
        Ok(basis) => Ok(basis),
        Err(refusal) => {
            if is_silent {
                return Err(BasisError::Memory);
            }
            Err(refused(refusal))
        }
    }
}

impl BasisError {
    /// Whether there is no memory; so it is told where a run in mixed numbers isn't answered in whole numbers.
    fn is_of_memory(&self) -> bool {
        matches!(self, BasisError::Memory)
    }

    /// Whether this refusal of a run in mixed numbers is that of the run in fractions alone: the run hasn't gone over to whole numbers.
    fn is_told_at_once(&self) -> bool {
        match self {
            BasisError::Memory => false,
            BasisError::PairBudget { basis, .. } => are_short(basis.items()),
            BasisError::Overflow(_) | BasisError::Exponent(_) => true,
        }
    }
}

/// The basis by a run that takes the pairs by degree and goes over to whole numbers once coefficients are long. Where whole numbers don't answer then,
/// a run in wide numbers that takes them by sugar is tried if the order compares degrees first (by others there is a walk, which takes less time). Last
/// comes one in fractions of 128 bits alone, whose refusal is told.
fn by_runs(alloc: Global, task: &Task) -> Result<MarkedSet, BasisError>
    requires { IsBasisTask task.now.order.now task.now.n task.now.set.now }
    ensures ok { IfOk result (IsArrangedBasis task.now.order.now task.now.n task.now.set.now) }
    ensures err { IfErr result (IsBasisRefusal task.now.order.now task.now.n task.now.set.now task.now.pairs) }
    ensures by_rule { IfErr result (IsRuledRefusal Degree task.now.order.now task.now.set.now task.now.pairs) }
{
    let refusal = match run_by(alloc, task, Strategy::Degree, Arithmetic::Mixed) {
        Ok(found) => return Ok(found),
        Err(refusal) => refusal,
    };
    if refusal.is_told_at_once() {
        return Err(refusal);
    }
    if refusal.is_of_memory() && is_by_degree(task.n, task.order) {
        if let Ok(found) = by_sugar(alloc, task) {
            return Ok(found);
        }
    }
    run_by(alloc, task, Strategy::Degree, Arithmetic::Narrow)
}

/// The reduced Gröbner basis for the order of the ideal of these polynomials in `n` variables: marked at the greatest
/// monomials, monic, ascending by the exponents of the marked monomials. It is worked out by a run of Buchberger's
/// algorithm that reduces in fractions of 128 bits, and once a coefficient of a member exceeds 2^10 in size in whole numbers of 512 bits.
/// Where that isn't answered then, another such run takes the pairs by sugar, if the order compares degrees first and the first one hasn't spent its
/// budget; and last comes one in fractions of 128 bits alone. Each may settle `pairs` pairs.
///
/// Zero polynomials are passed over. The others enter one after another, each as a remainder by those before, made
/// monic; then at most `pairs` pairs are settled, in the first run and the last one first those whose least common multiple has the least degree, of these
/// those where it is least by the order; one that a criterion sets aside counts as settled. A covered pair, which is settled once pairs below
/// it are, isn't among them.
///
/// The weight of the order, where it has one, has `n` entries, and the order is good on the polynomials: a term
/// order is good on all; revlex on homogeneous ones; the order along a facet with normal `a` where the exponents of each
/// polynomial are multiples of `a` apart and some positive vector is orthogonal to `a` (`orders_that_suit`).
///
/// # Errors
///
/// `Overflow` and `Exponent` only at an operation that a run of Buchberger's algorithm on these polynomials by this order
/// may have, and whose operands don't fit; it holds them. `PairBudget` only where more pairs would have to be settled: it
/// holds a list of such a run, and the pairs of indices of it that aren't settled, which all but `pairs` are, each of them
/// once. So where no operation that a run may have leaves its range, and no list of one has more than `pairs` pairs, only
/// memory may be wanting.
///
/// More is promised of the run that tells a refusal, the one in fractions alone, which follows a rule (`IsRuled`): the generators enter in turn; of
/// the pairs that wait the one of least key is taken; what is left of a polynomial is its normal form, by the first member whose mark divides a term.
/// The operands are those of an operation of this run, and where all of its operations fit and `pairs` pairs suffice, only memory may be wanting.
/// To its operations belong those of every reduction of such a polynomial, at any terms and by any members that divide them.
pub fn basis(
    alloc: Global,
    n: u32,
    set: &[Poly],
    order: &Order,
    pairs: u64,
) -> Result<MarkedSet, BasisError>
    requires variables { HaveRingVariables n set.now }
    requires entries { HasEntries n order.now }
    requires suited { IsSuited order.now n set.now }
    ensures ok { IfOk result (IsArrangedBasis order.now n set.now) }
    ensures err { IfErr result (IsBasisRefusal order.now n set.now pairs) }
    ensures by_rule { IfErr result (IsRuledRefusal Degree order.now set.now pairs) }
    ensures complete { AreRunsWithinLimits order.now set.now pairs → IfErr result IsWantOfMemory }
    ensures complete_by_rule { AreRuledRunsWithinLimits Degree order.now set.now pairs → IfErr result IsWantOfMemory }
{
    let task = Task {
        n,
        set,
        order,
        pairs,
    };
    by_runs(alloc, &task)
}
