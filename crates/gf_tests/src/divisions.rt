//! S-polynomials, steps, normal forms, divisions and autoreductions, of polynomials in three variables.
ghost use Rattle.std.specs.Prelude.{◌≡◌, ◌⊎◌, ◌≤◌, ◌^◌, ◌*◌, true, length, IfErr, IsTrue};
ghost use Rattle.gf_exponents_theory.specs.Exponents.{same, weight as weight_by};
ghost use Rattle.gf_exponents_theory.specs.Orders.{lighter};
ghost use Rattle.gf_frac.specs.Fraction.{one_ℚ};
ghost use Rattle.gf_poly.specs.declared.TheConstants.{ROOM};
ghost use Rattle.gf_poly.specs.Polynomial.{HasVariables, coefficient};
ghost use Rattle.gf_division.specs.Divisions.{IsDivisionRefusal};
ghost use Rattle.gf_division.specs.MonicForms.{HasSomeVariables};
ghost use Rattle.gf_ideal_theory.specs.Marks.{HasPositiveWeight, IsMarked, IsPositive, IsRealisable, IsRealisedBy};

use gf_division::*;
use gf_frac::Frac;
use gf_poly::{Marked, MarkedSet, Mono, Poly, PolyError};
use gf_rows::{fields, texts};
use std::alloc::Global;
use std::cmp::Ordering;

// ---- weights

/// An entry of the weight times an exponent.
fn share(w: u8, exponent: u32) -> u64
    ensures value { result ≡ w * exponent }
    ensures bound { result ≤ 2 ^ 40 }
{
    u64::from(w) * u64::from(exponent)
}

/// The weight of a monomial.
fn weight_of(weight: &[u8], mono: &Mono) -> u64
    requires short { length weight.now ≤ ROOM }
    requires same_variables { length mono.now ≡ length weight.now }
    ensures { result ≡ weight_by weight.now mono.now }
{
    let exponents = mono.exponents();
    let mut sum = 0;
    'entries: for i in 0..exponents.len() {
        sum += share(weight[i], exponents[i]);
    }
    sum
}

/// Whether a monomial is the marked one or lighter.
fn is_within(weight: &[u8], mono: &Mono, head: &Mono) -> bool
    requires short { length weight.now ≤ ROOM }
    requires same_variables { length mono.now ≡ length weight.now }
    requires of_head { length head.now ≡ length weight.now }
    ensures { IsTrue result → (same mono.now head.now ≡ true) ⊎ lighter weight.now mono.now head.now }
{
    match mono.compare(head) {
        Ordering::Equal => true,
        _ => weight_of(weight, mono) < weight_of(weight, head),
    }
}

/// Whether the weight sets the marked monomial above the other ones.
fn sets_above(weight: &[u8], b: &Marked) -> bool
    requires short { length weight.now ≤ ROOM }
    requires variables { HasVariables (length weight.now) b.now.poly }
    ensures { IsTrue result → IsRealisedBy weight.now b.now }
{
    let terms = b.poly().terms();
    let head = b.head();
    'terms: for i in 0..terms.len() {
        let t = &terms[i];
        if !is_within(weight, &t.mono, head) {
            return false;
        }
    }
    true
}

/// Whether that weight does so for each member.
fn realises(weight: &[u8], set: &MarkedSet) -> bool
    requires short { length weight.now ≤ ROOM }
    requires variables { set.now.variables ≡ length weight.now }
    requires positive { IsPositive (length weight.now) weight.now }
    ensures { IsTrue result → IsRealisable set.now.variables set.now.items }
{
    let items = set.items();
    'members: for i in 0..items.len() {
        let member = &items[i];
        if !sets_above(weight, member) {
            return false;
        }
    }
    true
}

/// The fraction 1.
fn one() -> Frac
    ensures { result ≡ one_ℚ }
{
    Frac::ONE
}

/// Whether the marked coefficient is 1.
fn is_one(b: &Marked) -> bool
    requires { HasSomeVariables b.now }
    ensures { IsTrue result → (coefficient b.now.poly b.now.head ≡ one_ℚ) }
{
    // The terms descend: the accessor says so.
    let _ = b.head();
    b.coefficient() == one()
}

/// Whether the marked coefficient is 1, and the weight sets the marked monomial above the other ones.
fn marks(weight: &[u8], b: &Marked) -> bool
    requires short { length weight.now ≤ ROOM }
    requires variables { HasVariables (length weight.now) b.now.poly }
    ensures { IsTrue result → IsMarked (lighter weight.now) b.now }
{
    is_one(b) && sets_above(weight, b)
}

/// Whether that holds of each member.
fn marks_all(weight: &[u8], set: &MarkedSet) -> bool
    requires short { length weight.now ≤ ROOM }
    requires variables { set.now.variables ≡ length weight.now }
    requires positive { IsPositive (length weight.now) weight.now }
    ensures { IsTrue result → HasPositiveWeight set.now.variables set.now.items }
{
    let items = set.items();
    'members: for i in 0..items.len() {
        let member = &items[i];
        if !marks(weight, member) {
            return false;
        }
    }
    true
}

/// Whether one of two weights does so for each member.
fn is_marked(set: &MarkedSet) -> bool
    requires { set.now.variables ≡ 3 }
    ensures { IsTrue result → HasPositiveWeight set.now.variables set.now.items }
{
    marks_all(&[1, 2, 3], set) || marks_all(&[9, 8, 7], set)
}

// ---- calls

/// `divide`. No proof above it cites why it is refused, so that a weaker clause would be seen nowhere but here.
fn division_of(alloc: Global, f: &Poly, by: &MarkedSet) -> Result<Division, PolyError>
    requires marked { HasPositiveWeight by.now.variables by.now.items }
    requires variables { HasVariables by.now.variables f.now }
    ensures cause { IfErr result (IsDivisionRefusal by.now.items f.now) }
{
    divide(alloc, f, by)
}

/// The remainder, and behind it the quotients.
fn division(alloc: Global, f: &Poly, set: &MarkedSet) -> Option<String>
    requires variables { HasVariables 3 f.now }
    requires same_variables { set.now.variables ≡ 3 }
    requires marked { HasPositiveWeight set.now.variables set.now.items }
{
    let division = match division_of(alloc, f, set) {
        Ok(division) => division,
        Err(e) => return texts::refusal(alloc, e),
    };
    let mut text = texts::polynomial(alloc, &division.remainder)?;
    for cofactor in division.cofactors.items() {
        text.push_str("; ").ok()?;
        text.push_str(&texts::polynomial(alloc, cofactor)?).ok()?;
    }
    Some(text)
}

/// The normal form, or the division, by a set that a weight marks.
fn by_set(alloc: Global, call: &str, f: &Poly, set: &MarkedSet) -> Option<String>
    requires variables { HasVariables 3 f.now }
    requires same_variables { set.now.variables ≡ 3 }
{
    if !is_marked(set) {
        return None;
    }
    match call {
        "normal_form" => texts::outcome(alloc, normal_form(alloc, f, set)),
        "division" => division(alloc, f, set),
        _ => None,
    }
}

/// The step at a monomial, which may be taken.
fn step(alloc: Global, f: &Poly, at: &Mono, by: &Marked) -> Option<String>
    requires variables { HasVariables (length at.now) f.now }
    requires member { HasVariables (length at.now) by.now.poly }
{
    if f.coefficient(at).is_zero() || !is_one(by) || !by.head().divides(at) {
        return None;
    }
    texts::outcome(alloc, reduce_step(alloc, f, at, by))
}

/// The S-polynomial of two in three variables.
fn s_polynomial(alloc: Global, f: &Marked, g: &Marked) -> Option<String>
    requires left { HasVariables 3 f.now.poly }
    requires right { HasVariables 3 g.now.poly }
{
    texts::outcome(alloc, s_poly(alloc, f, g))
}

/// The set autoreduced, which the weight (1, 2, 3) realises.
fn autoreduced(alloc: Global, set: &MarkedSet) -> Option<String>
    requires { set.now.variables ≡ 3 }
{
    if !realises(&[1, 2, 3], set) {
        return None;
    }
    match autoreduce(alloc, set) {
        Ok(reduced) => texts::set(alloc, &reduced),
        Err(e) => texts::refusal(alloc, e),
    }
}

/// The step at a monomial by the only member of a set.
fn step_by(alloc: Global, f: &Poly, at: &str, set: &MarkedSet) -> Option<String>
    requires variables { HasVariables 3 f.now }
    requires same_variables { set.now.variables ≡ 3 }
{
    let at = fields::monomial(alloc, at)?;
    if at.exponents().len() != 3 || set.items().is_empty() {
        return None;
    }
    step(alloc, f, &at, &set.items()[0])
}

/// The S-polynomial of the first two members.
fn s_polynomial_of(alloc: Global, set: &MarkedSet) -> Option<String>
    requires { set.now.variables ≡ 3 }
{
    let items = set.items();
    if items.len() < 2 {
        return None;
    }
    s_polynomial(alloc, &items[0], &items[1])
}

/// What a call on polynomials and a marked set in three variables gives.
pub(crate) fn told(alloc: Global, call: &str, fields: &[&str]) -> Option<String> {
    match (call, fields) {
        ("s_polynomial", [set]) => s_polynomial_of(alloc, &fields::marked(alloc, 3, set)?),
        ("autoreduction", [set]) => autoreduced(alloc, &fields::marked(alloc, 3, set)?),
        ("step", [f, at, set]) => step_by(
            alloc,
            &fields::polynomial(alloc, 3, f)?,
            at,
            &fields::marked(alloc, 3, set)?,
        ),
        (call, [f, set]) => by_set(
            alloc,
            call,
            &fields::polynomial(alloc, 3, f)?,
            &fields::marked(alloc, 3, set)?,
        ),
        _ => None,
    }
}
