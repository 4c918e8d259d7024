//! Autoreduction: what makes a Gröbner basis the reduced one.

ghost use Rattle.std.specs.Prelude.{◌≡◌, ◌<◌, false, length, Contains, IfOk, IfErr, IsTrue};
ghost use Rattle.gf_poly.specs.Marking.{head_of};
ghost use Rattle.gf_poly.specs.Polynomial.{HasVariables};
ghost use Rattle.gf_ideal_theory.specs.Membership.{HasMonomial};
ghost use Rattle.gf_ideal_theory.specs.Marks.{HasPositiveWeight, IsRealisable};
ghost use Rattle.gf_ideal_theory.specs.Bases.{AreArranged};
ghost use Rattle.gf_ideal_theory.specs.WorkLists.{IsReducedTail, AreReducedTails};
ghost use Rattle.gf_division.specs.NormalForms.{HasSomeWeight};
ghost use Rattle.gf_division.specs.Autoreduction.{AreNeededForms, IsAutoreduced, IsReducedOf, IsTailRefusal, IsNeededRefusal, IsAutoreductionRefusal};
ghost use Rattle.gf_division.specs.Autoreduction.{ShareSomeVariables, MakesNeedless, IsNeededAt, KeepVariables, IsKeptForm, AreKeptForms};
ghost use Rattle.gf_division.specs.Remainders.{HasTailReached};

use crate::dividend::Dividend;
use crate::front::Guide;
use crate::monic::made_monic;
use crate::remainders::work_off;
use gf_poly::{Marked, MarkedSet, Mono, PolyError, Term};
use std::alloc::Global;
use std::cmp::Ordering;

/// Whether a member with the mark `x` makes one with the mark `y` needless, which it stands before or doesn't.
fn makes_needless(x: &Mono, y: &Mono, is_before: bool) -> bool
    requires { length x.now ≡ length y.now }
    ensures yes { IsTrue result → MakesNeedless x.now y.now is_before }
    ensures no { result ≡ false → MakesNeedless x.now y.now is_before → ⊥ }
{
    x.divides(y) && (is_before || !y.divides(x))
}

/// Whether the member at the index `i` is needed.
pub fn is_needed(items: &[Marked], i: usize) -> bool
    requires within { i < length items.now }
    requires variables { ShareSomeVariables items.now }
    ensures yes { IsTrue result → IsNeededAt items.now i }
    ensures no { result ≡ false → IsNeededAt items.now i → ⊥ }
{
    let member = &items[i];
    'members: for j in 0..items.len() {
        let other = &items[j];
        if makes_needless(other.head(), member.head(), j < i) {
            return false;
        }
    }
    true
}

/// The monic forms of the needed members.
fn needed_forms(alloc: Global, items: &[Marked]) -> Result<Vec<Marked>, PolyError>
    requires { ShareSomeVariables items.now }
    ensures value { IfOk result (λ ks. AreNeededForms items.now ks.items) }
    ensures variables { IfOk result (λ ks. KeepVariables items.now ks.items) }
    ensures cause { IfErr result (IsNeededRefusal items.now) }
{
    let mut forms = Vec::new(alloc);
    'members: for i in 0..items.len() {
        if is_needed(items, i) {
            let form = made_monic(&items[i])?;
            forms.push(form)?;
        }
    }
    Ok(forms)
}

/// The index of the term at `x`, which is a monomial of the polynomial.
pub fn index_of(terms: &[Term], x: &Mono) -> usize
    requires variables { HasVariables (length x.now) terms.now }
    requires there { HasMonomial terms.now x.now }
    ensures inside { result < length terms.now }
    ensures head { head_of terms.now result ≡ x.now }
{
    'terms: for i in 0..terms.len() {
        let t = &terms[i];
        if let Ordering::Equal = t.mono.compare(x) {
            return i;
        }
    }
    unreachable!()
}

/// A member with its tail reduced by all of them: reduced like a polynomial, but for its marked term.
///
/// The members are monic, and some weight sets each mark above the rest.
///
/// # Errors
///
/// `Overflow` and `Exponent` only where two numbers of a step at an unmarked monomial of a tail, by a member, don't fit; it holds them. `Memory` if
/// memory runs out.
pub fn reduced_tail(
    alloc: Global,
    member: &Marked,
    by: &[Marked],
    guide: &mut Guide,
) -> Result<Marked, PolyError>
    requires member { Contains by.now member.now }
    requires marked { HasSomeWeight by.now }
    requires variables { ShareSomeVariables by.now }
    ensures tail { IfOk result (IsReducedTail by.now member.now) }
    ensures reached { IfOk result (HasTailReached by.now member.now) }
    ensures form { IfOk result (IsKeptForm member.now) }
    ensures cause { IfErr result (IsTailRefusal by.now) }
{
    let spared = Some(member.head().copy());
    let mut rest = Dividend::new(alloc, member.poly().copy()?);
    work_off(alloc, &mut rest, by, &spared, guide)?;
    let tail = rest.into_poly()?;
    let index = index_of(tail.terms(), member.head());
    Ok(Marked::mark(tail, index))
}

/// The members with their tails reduced by one another.
fn tails(alloc: Global, members: &[Marked], guide: &mut Guide) -> Result<Vec<Marked>, PolyError>
    requires marked { HasSomeWeight members.now }
    requires variables { ShareSomeVariables members.now }
    ensures tails { IfOk result (λ cs. AreReducedTails members.now members.now cs.items) }
    ensures forms { IfOk result (λ cs. AreKeptForms members.now cs.items) }
    ensures cause { IfErr result (IsTailRefusal members.now) }
{
    let mut done = Vec::with_capacity(alloc, members.len())?;
    'members: for i in 0..members.len() {
        let member = reduced_tail(alloc, &members[i], members, guide)?;
        done.push(member)?;
    }
    Ok(done)
}

/// The members that are needed, made monic, their tails reduced by one another, ascending by their marks: where the set is a Gröbner basis for its
/// marking, the reduced one.
///
/// A member is dropped where its marked monomial is a proper multiple of another's; of members with the same marked monomial the first stays. Some
/// positive weight sets each marked monomial above the other ones of its polynomial, whatever the marked coefficients are.
///
/// # Errors
///
/// `Overflow` and `Exponent` only where two numbers don't fit that are divided in making a needed member monic, or on which a step works that reduces
/// a tail by the monic forms of the needed members; it holds them. A member that is dropped is never divided. `Memory` if memory runs out.
pub fn autoreduce(alloc: Global, set: &MarkedSet) -> Result<MarkedSet, PolyError>
    requires { IsRealisable set.now.variables set.now.items }
    ensures value { IfOk result (IsAutoreduced set.now) }
    ensures arranged { IfOk result (λ t. AreArranged set.now.variables t.items) }
    ensures marked { IfOk result (λ t. HasPositiveWeight set.now.variables t.items) }
    ensures reduced { IfOk result (λ t. IsReducedOf set.now.variables set.now.items t.items) }
    ensures cause { IfErr result (IsAutoreductionRefusal set.now.items) }
{
    autoreduce_by(alloc, set, &mut Guide::unknown(alloc))
}

/// The members that are needed, made monic, their tails reduced by one another, ascending by their marks: where the set is a Gröbner basis for its
/// marking, the reduced one. `guide` is an order in which the marks are greatest: in a long reduction the greatest terms by it are reduced first.
///
/// A member is dropped where its marked monomial is a proper multiple of another's; of members with the same marked monomial the first stays. Some
/// positive weight sets each marked monomial above the other ones of its polynomial.
///
/// # Errors
///
/// `Overflow` and `Exponent` only where two numbers don't fit that are divided in making a needed member monic, or on which a step works that reduces
/// a tail by the monic forms of the needed members; it holds them. A member that is dropped is never divided. `Memory` if memory runs out.
pub fn autoreduce_by(
    alloc: Global,
    set: &MarkedSet,
    guide: &mut Guide,
) -> Result<MarkedSet, PolyError>
    requires { IsRealisable set.now.variables set.now.items }
    ensures value { IfOk result (IsAutoreduced set.now) }
    ensures arranged { IfOk result (λ t. AreArranged set.now.variables t.items) }
    ensures marked { IfOk result (λ t. HasPositiveWeight set.now.variables t.items) }
    ensures reduced { IfOk result (λ t. IsReducedOf set.now.variables set.now.items t.items) }
    ensures cause { IfErr result (IsAutoreductionRefusal set.now.items) }
{
    let forms = needed_forms(alloc, set.items())?;
    let reduced = tails(alloc, &forms, guide)?;
    let all = MarkedSet::new(set.variables(), reduced).arrange()?;
    Ok(all)
}
