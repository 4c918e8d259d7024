//! The output of `_buchberger` for an input.
ghost use Rattle.std.specs.Prelude.{◌≡◌, ◌⊎◌, ◌∷◌, [], length, IfOk, IfErr, OnOk};
ghost use Rattle.std.specs.Option.{ForSome};
ghost use Rattle.gf_text.specs.Sets.{AreIn};
ghost use Rattle.gf_text.specs.Vectors.{AreEntriesWithin};
ghost use Rattle.gf_items.specs.Checks.{FirstFails};
ghost use Rattle.gf_frame.specs.Commands.{IsAnswerFor, IsUnanswered, IsAnswered, IsRefusedOn};
ghost use Rattle.gfan_common.specs.Forms.{generators_of, FitsVariables, IsTermWeight, IsFirstSmall, IsLengthRefusal, form};
ghost use Rattle.gfan_sets.specs.Buchberger.{asked_order, buchberger_command};
ghost use Rattle.gfan_sets.specs.Questions.{IsCountable, IsQuestion};
ghost use Rattle.gfan_common.specs.Refused.{IsOfSource};

use gf_front::{BuchbergerOptions, Refusal};
use gf_groebner_walk::basis_by_several_ways;
use gf_items::{RingAndSet, ring_and_set};
use gf_order::{NotTermOrder, Order};
use gf_poly::Poly;
use gf_text::{Ring, Written};
use gf_vec::IntVec;
use gfan_common::checks::{check_degrees, check_entries};
use gfan_common::printing::printed;
use gfan_common::refused::{Refused, of_basis};
use gfan_common::written_sets::polynomials;
use std::alloc::Global;

/// The question of a run: the reduced Gröbner basis of these polynomials by this order.
#[derive(Drop)]
struct Question {
    generators: Vec<Poly>,
    order: Order,
}

// ---- the form

/// Checks that the weight, if there is one, has an entry for each of `n` variables.
fn check_length(n: u32, weight: &Option<IntVec>) -> Result<(), Refusal>
    ensures ok { OnOk result (FitsVariables n weight.now) }
    ensures err { IfErr result (IsLengthRefusal n weight.now) }
{
    let Some(weight) = weight else {
        return Ok(());
    };
    check_entries(n, weight)
}

/// Lex or revlex; with a weight, the weight, ties broken by lex or revlex.
fn chosen(revlex: bool, weight: Option<IntVec>) -> Result<Order, NotTermOrder>
    requires { ForSome weight IsCountable }
    ensures order { IfOk result (λ order. order ≡ asked_order revlex weight) }
    ensures accepted { IfOk result (λ order. IsTermWeight revlex weight) }
    ensures refused { IfErr result (λ e. IsFirstSmall revlex weight e.index) }
{
    match (weight, revlex) {
        (None, false) => Ok(Order::lex()),
        (None, true) => Ok(Order::revlex()),
        (Some(weight), false) => Order::weighted(weight),
        (Some(weight), true) => Order::weighted_revlex(weight),
    }
}

/// The polynomials, and an order whose conditions they meet.
fn checked(
    alloc: Global,
    n: u32,
    set: &[Written],
    weight: Option<IntVec>,
    options: BuchbergerOptions,
) -> Result<Question, Refusal>
    requires { ForSome weight AreEntriesWithin }
    ensures ok { IfOk result (IsQuestion options.revlex n weight (generators_of set.now)) }
    ensures err { IfErr result (λ r. FirstFails (form options.revlex n weight (generators_of set.now)) r ⊎ (r ≡ Refusal.Memory)) }
{
    check_length(n, &weight)?;
    let generators = polynomials(alloc, set)?;
    check_degrees(options.revlex, &weight, &generators)?;
    match chosen(options.revlex, weight) {
        Ok(order) => Ok(Question { generators, order }),
        Err(NotTermOrder { index }) => Err(Refusal::NotTermOrder { index }),
    }
}

// ---- the job

/// The output for what is read.
fn job(
    alloc: Global,
    ring: &Ring,
    set: &[Written],
    weight: Option<IntVec>,
    options: BuchbergerOptions,
) -> Result<Vec<u8>, Refusal>
    requires variables { AreIn (length ring.now) set.now }
    requires within { ForSome weight AreEntriesWithin }
    ensures ok { IfOk result (λ text. IsAnswerFor (buchberger_command options) (ring.now, (set.now, weight)) text.items) }
    ensures err { IfErr result (IsUnanswered (buchberger_command options) (ring.now, (set.now, weight))) }
{
    let question = match checked(alloc, ring.len(), set, weight, options) {
        Ok(question) => question,
        Err(refusal) => return Err(refusal),
    };
    let found = match basis_by_several_ways(
        alloc,
        ring.len(),
        &question.generators,
        &question.order,
        options.pairs,
    ) {
        Ok(found) => found,
        Err(error) => return Err(of_basis(error)),
    };
    let text = printed(alloc, ring, &found)?;
    Ok(text)
}

/// The ring of the source in a line, and then the reduced Gröbner basis of the ideal of its set: by lex, or with the option `revlex` by
/// revlex; with `weighted` by the weight that follows the set, ties broken by lex or revlex. Each run of Buchberger's algorithm, and each
/// flip of a walk that is tried if numbers don't fit, may settle `pairs` pairs.
///
/// # Errors
///
/// - `Syntax`, `TooWide`, `UnknownName`, `TooManyVariables` if and only if the source isn't the text of a ring, of a set in it and, with
///   `weighted`, of a weight: at the first token after which no such text continues.
/// - `Dimensions` if and only if the weight has another number of entries than the ring has variables.
/// - `NotTermOrder` if and only if an entry of the weight is below 0, or with `revlex` below 1: the first one.
/// - `NotHomogeneous` if and only if the order is revlex without a weight and a polynomial isn't homogeneous: the index of the first one,
///   where zero polynomials count, its deglex greatest monomial, and the first one after that of another degree.
/// - `Overflow`, `ExponentOverflow`: the operands of a sum of the text, or of an operation of a run of Buchberger's algorithm on the set by
///   this order, don't fit.
/// - `PairBudget`: such a run has more than `pairs` pairs to settle.
/// - `Memory`: memory runs out.
pub fn answer(alloc: Global, source: &[u8], options: BuchbergerOptions) -> Result<Vec<u8>, Refused>
    ensures ok { IfOk result (λ text. IsAnswered (buchberger_command options) (source.now ∷ []) text.items) }
    ensures err { IfErr result (λ e. IsRefusedOn (buchberger_command options) (source.now ∷ []) e.refusal) }
    ensures told { IfErr result (IsOfSource source.now) }
{
    let RingAndSet { ring, set, vector } = ring_and_set(alloc, source, options.weighted)?;
    match job(alloc, &ring, &set, vector, options) {
        Ok(text) => Ok(text),
        Err(refusal) => Err(Refused {
            refusal,
            ring: Some(ring),
        }),
    }
}
