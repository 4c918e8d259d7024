//! Polynomials of one term in an ideal.
ghost use Rattle.std.specs.Prelude.{◌≡◌, ◌<◌, ◌↔◌, ◌==◌, true, IfOk, IfErr, IsTrue, Ok, length};
ghost use Rattle.gf_poly.specs.Polynomial.{IsDescending};
ghost use Rattle.gf_buchberger.specs.Bases.{IsWantOfMemory};
ghost use Rattle.gf_buchberger.specs.Tasks.{HaveRingVariables};
ghost use Rattle.gf_saturation_theory.specs.Saturations.{HasOneTermMember};
ghost use Rattle.gf_saturate.specs.Saturating.{IsSaturateRefusal, AreStepsWithinLimits};
ghost use Rattle.gf_saturate.specs.OneTerm.{HasOneTerm, HasUnitMark};

use crate::saturation::saturate;
use gf_buchberger::BasisError;
use gf_poly::{MarkedSet, Poly, ROOM};
use std::alloc::Global;

/// Whether the polynomial has one term alone.
fn is_of_one_term(f: &Poly) -> bool
    ensures told { result ≡ (length f.now == 1) }
    ensures descending { IsDescending f.now }
{
    f.terms().len() == 1
}

/// Whether one of the polynomials has one term alone.
pub(crate) fn has_one_term(n: u32, set: &[Poly]) -> bool
    requires { HaveRingVariables n set.now }
    ensures exact { IsTrue result ↔ HasOneTerm set.now }
    ensures member { IsTrue result → HasOneTermMember n set.now }
{
    'polynomials: for i in 0..set.len() {
        if is_of_one_term(&set[i]) {
            return true;
        }
    }
    false
}

/// Whether some mark is 1.
pub(crate) fn has_unit_mark(set: &MarkedSet) -> bool
    ensures { IsTrue result ↔ HasUnitMark set.now.items }
{
    let items = set.items();
    'members: for i in 0..items.len() {
        if items[i].head().degree() == 0 {
            return true;
        }
    }
    false
}

/// Whether the ideal of these polynomials has one of one term, which is so exactly where 1 is in its saturation by the product of all
/// `n` variables. `n` is at most 24.
///
/// Where one of the polynomials has one term, that is the answer, and nothing is worked out. Else `saturate` works out the
/// saturation; each of its runs settles at most `pairs` pairs.
///
/// # Errors
///
/// Those of `saturate`.
pub fn has_monomial(alloc: Global, n: u32, set: &[Poly], pairs: u64) -> Result<bool, BasisError>
    requires room { n < ROOM }
    requires variables { HaveRingVariables n set.now }
    ensures ok { IfOk result (λ yes. IsTrue yes ↔ HasOneTermMember n set.now) }
    ensures at_once { HasOneTerm set.now → result ≡ Ok true }
    ensures err { IfErr result (IsSaturateRefusal n set.now pairs) }
    ensures complete { AreStepsWithinLimits n set.now pairs → IfErr result IsWantOfMemory }
{
    if has_one_term(n, set) {
        return Ok(true);
    }
    match saturate(alloc, n, set, pairs) {
        Ok(saturation) => Ok(has_unit_mark(&saturation)),
        Err(refusal) => Err(refusal),
    }
}
