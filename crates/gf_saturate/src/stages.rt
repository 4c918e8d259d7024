//! Where a saturation stands, and one step of it.
ghost use Rattle.std.specs.Prelude.{◌≡◌, ◌<◌, ◌≤◌, ◌+◌, ℕ, IfOk, IfErr, length};
ghost use Rattle.gf_poly.specs.Marking.{polys};
ghost use Rattle.gf_exponents_theory.specs.Exponents.{entry};
ghost use Rattle.gf_exponents_theory.specs.SixOrders.{MonomialOrder};
ghost use Rattle.gf_buchberger.specs.Bases.{IsArrangedBasis};
ghost use Rattle.gf_buchberger.specs.Tasks.{HaveRingVariables};
ghost use Rattle.gf_saturation_theory.specs.Saturations.{last_weight};
ghost use Rattle.gf_saturate.specs.Widening.{extended_list, variable_at};
ghost use Rattle.gf_saturate.specs.Saturating.{IsVariableStep, IsVariableStepRefusal, IsOnTheWay, IsStage};

use crate::elimination::{extended, last_first, left_over_of};
use crate::marks::{marks_left_over, marks_of};
use crate::relation::variable;
use gf_buchberger::{BasisError, basis};
use gf_order::Order;
use gf_poly::{MarkedSet, Mono, Poly, ROOM};
use std::alloc::{AllocError, Global};

/// The most pairs that the first basis by degree may settle: where it takes more, more is lost by it than its marks can save.
const FEW: u64 = 1000;

/// Polynomials, and a monomial: saturating by a variable that doesn't occur in it adds nothing to their ideal. With them goes their
/// reduced basis by deglex, where it is known.
#[derive(Drop)]
pub struct Stage {
    pub polys: Vec<Poly>,
    pub marks: Mono,
    pub basis: Option<MarkedSet>,
}

/// Equal polynomials.
pub(crate) fn copies(alloc: Global, set: &[Poly]) -> Result<Vec<Poly>, AllocError>
    ensures { IfOk result (λ all. all.items ≡ set.now) }
{
    let mut all = Vec::with_capacity(alloc, set.len())?;
    'polynomials: for i in 0..set.len() {
        let f = set[i].copy()?;
        all.push(f)?;
    }
    Ok(all)
}

/// The polynomials of a basis.
fn polys_of(alloc: Global, basis: &MarkedSet) -> Result<Vec<Poly>, AllocError>
    ensures { IfOk result (λ all. all.items ≡ polys basis.now.items) }
{
    let items = basis.items();
    let mut all = Vec::with_capacity(alloc, items.len())?;
    'members: for i in 0..items.len() {
        let f = items[i].poly().copy()?;
        all.push(f)?;
    }
    Ok(all)
}

/// The product of `n` variables.
pub(crate) fn product(alloc: Global, n: u32) -> Mono
    requires { n ≤ ROOM }
    ensures long { length result ≡ n }
    ensures all { (k : ℕ) → k < n → entry result k ≡ 1 }
{
    let ones = [1; ROOM];
    Mono::new(alloc, &ones[..n as usize])
}

/// The polynomials as they are given: of no variable is anything known.
fn given(alloc: Global, n: u32, set: &[Poly]) -> Result<Stage, AllocError>
    requires room { n < ROOM }
    requires variables { HaveRingVariables n set.now }
    ensures way { IfOk result (λ s. IsOnTheWay n set.now 0 s.polys.items) }
    ensures stage { IfOk result (IsStage n) }
{
    let polys = copies(alloc, set)?;
    Ok(Stage {
        polys,
        marks: product(alloc, n),
        basis: None,
    })
}

/// The basis by degree, and its marks.
fn reduced(alloc: Global, n: u32, set: &[Poly], first: MarkedSet) -> Result<Stage, AllocError>
    requires room { n < ROOM }
    requires variables { HaveRingVariables n set.now }
    requires basis { IsArrangedBasis MonomialOrder.deglex n set.now first }
    ensures way { IfOk result (λ s. IsOnTheWay n set.now 0 s.polys.items) }
    ensures stage { IfOk result (IsStage n) }
{
    let polys = polys_of(alloc, &first)?;
    let marks = marks_of(alloc, n, first.items());
    Ok(Stage {
        polys,
        marks,
        basis: Some(first),
    })
}

/// Where the saturation begins: at the basis by degree, or where that isn't found soon at the polynomials as they are given.
pub(crate) fn first_stage(
    alloc: Global,
    n: u32,
    set: &[Poly],
    pairs: u64,
) -> Result<Stage, AllocError>
    requires room { n < ROOM }
    requires variables { HaveRingVariables n set.now }
    ensures way { IfOk result (λ s. IsOnTheWay n set.now 0 s.polys.items) }
    ensures stage { IfOk result (IsStage n) }
{
    let few = if pairs < FEW { pairs } else { FEW };
    match basis(alloc, n, set, &Order::deglex(), few) {
        Ok(first) => reduced(alloc, n, set, first),
        Err(_) => given(alloc, n, set),
    }
}

/// The basis of the polynomials and of the inverse of the variable at index `k`, by the weight of the inverse before lex.
fn step_basis(
    alloc: Global,
    n: u32,
    k: u32,
    set: &[Poly],
    pairs: u64,
) -> Result<MarkedSet, BasisError>
    requires room { n < ROOM }
    requires inside { k < n }
    requires variables { HaveRingVariables n set.now }
    ensures ok { IfOk result (IsArrangedBasis (MonomialOrder.weighted (last_weight n)) (n + 1) (extended_list (variable_at n k) set.now)) }
    ensures err { IfErr result (IsVariableStepRefusal n k set.now pairs) }
{
    let by = variable(alloc, n, k);
    let Ok(generators) = extended(alloc, n, &by, set) else {
        return Err(BasisError::Memory);
    };
    let Ok(order) = last_first(alloc, n) else {
        return Err(BasisError::Memory);
    };
    basis(alloc, n + 1, &generators, &order, pairs)
}

/// What is left over of such a basis.
fn left(alloc: Global, n: u32, k: u32, set: &[Poly], found: &MarkedSet) -> Result<Stage, AllocError>
    requires room { n < ROOM }
    requires inside { k < n }
    requires variables { HaveRingVariables n set.now }
    requires basis { IsArrangedBasis (MonomialOrder.weighted (last_weight n)) (n + 1) (extended_list (variable_at n k) set.now) found.now }
    ensures step { IfOk result (λ s. IsVariableStep n k set.now s.polys.items) }
    ensures stage { IfOk result (IsStage n) }
{
    let polys = left_over_of(alloc, n, found)?;
    Ok(Stage {
        polys,
        marks: marks_left_over(alloc, n, found.items()),
        basis: None,
    })
}

/// One step: what generates the saturation by the variable at index `k`.
pub(crate) fn step(
    alloc: Global,
    n: u32,
    k: u32,
    set: &[Poly],
    pairs: u64,
) -> Result<Stage, BasisError>
    requires room { n < ROOM }
    requires inside { k < n }
    requires variables { HaveRingVariables n set.now }
    ensures step { IfOk result (λ s. IsVariableStep n k set.now s.polys.items) }
    ensures stage { IfOk result (IsStage n) }
    ensures err { IfErr result (IsVariableStepRefusal n k set.now pairs) }
{
    let found = match step_basis(alloc, n, k, set, pairs) {
        Ok(found) => found,
        Err(refusal) => return Err(refusal),
    };
    match left(alloc, n, k, set, &found) {
        Ok(stage) => Ok(stage),
        Err(_) => Err(BasisError::Memory),
    }
}
