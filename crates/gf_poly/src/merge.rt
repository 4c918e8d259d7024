//! Sums and differences of descending lists of terms, in one pass.

ghost use Rattle.std.specs.Prelude.{◌≡◌, ◌↔◌, IfOk, IfErr, IsOk, OnOk};
ghost use Rattle.gf_frac.specs.Fraction.{◌+ℚ◌};
ghost use Rattle.gf_frac.specs.Fits.{Fits};
ghost use Rattle.gf_poly.specs.Polynomial.{IsDescending, KeepsBothVariables};
ghost use Rattle.gf_poly.specs.Sums.{operation, signed, IsSignedSum, LikeTermsFit, IsLikeCause, PushesNonzero};
ghost use Rattle.gf_poly.specs.declared.error.PolyError.TheVariants.{Memory};

use super::Term;
use super::error::PolyError;
use super::monomial::Mono;
use gf_frac::{Frac, Overflow};
use std::alloc::Global;
use std::cmp::Ordering;

/// Whether the second list is added or taken away.
#[derive(Clone, Copy)]
pub enum Sign {
    Plus,
    Minus,
}

/// The coefficient with the sign.
fn signed_coefficient(sign: Sign, c: &Frac) -> Frac
    ensures { result ≡ signed sign c.now }
{
    match sign {
        Sign::Plus => *c,
        Sign::Minus => c.neg(),
    }
}

/// The term with the sign.
fn signed_term(sign: Sign, t: &Term) -> Term
    ensures { result ≡ record { coef = signed sign t.now.coef; mono = t.now.mono } }
{
    Term {
        coef: signed_coefficient(sign, &t.coef),
        mono: t.mono.copy(),
    }
}

/// The sum, or the difference, of two coefficients.
fn combined(sign: Sign, a: &Frac, b: &Frac) -> Result<Frac, Overflow>
    ensures value { IfOk result (λ x. x ≡ a.now +ℚ signed sign b.now) }
    ensures fits { IsOk result ↔ Fits (operation sign) a.now b.now }
    ensures overflow { IfErr result (λ o. o ≡ record { op = operation sign; left = a.now; right = b.now }) }
{
    match sign {
        Sign::Plus => a.add(b),
        Sign::Minus => a.sub(b),
    }
}

/// Adds a term at the end, unless its coefficient is zero.
///
/// # Errors
/// `Memory` if memory runs out.
pub fn push_nonzero(out: &mut Vec<Term>, coef: Frac, mono: Mono) -> Result<(), PolyError>
    ensures ok { OnOk result (PushesNonzero out.old.items out.new.items (record { coef = coef; mono = mono })) }
    ensures memory { IfErr result (λ e. e ≡ Memory) }
{
    if coef.is_zero() {
        return Ok(());
    }
    out.push(Term { coef, mono })?;
    Ok(())
}

/// The sum, or the difference, of two descending lists of terms.
///
/// # Errors
/// - `Overflow` where the sum, or the difference, of two coefficients of one monomial leaves its range; it holds the two of the greatest such
///   monomial.
/// - `Memory` if memory runs out.
pub fn merged(alloc: Global, f: &[Term], g: &[Term], sign: Sign) -> Result<Vec<Term>, PolyError>
    requires left { IsDescending f.now }
    requires right { IsDescending g.now }
    ensures value { IfOk result (λ h. IsSignedSum sign f.now g.now h.items) }
    ensures descending { IfOk result (λ h. IsDescending h.items) }
    ensures variables { IfOk result (λ h. KeepsBothVariables f.now g.now h.items) }
    ensures fits { IfOk result (λ h. LikeTermsFit (operation sign) f.now g.now) }
    ensures cause { IfErr result (IsLikeCause (operation sign) f.now g.now) }
{
    let mut out = Vec::with_capacity(alloc, f.len().saturating_add(g.len()))?;
    let mut i = 0;
    let mut j = 0;
    'both: while i < f.len() && j < g.len() {
        let s = &f[i];
        let t = &g[j];
        match s.mono.compare(&t.mono) {
            Ordering::Greater => {
                out.push(s.copy())?;
                i += 1;
            }
            Ordering::Less => {
                out.push(signed_term(sign, t))?;
                j += 1;
            }
            Ordering::Equal => {
                let coef = combined(sign, &s.coef, &t.coef)?;
                push_nonzero(&mut out, coef, s.mono.copy())?;
                i += 1;
                j += 1;
            }
        }
    }
    'left: while i < f.len() {
        out.push(f[i].copy())?;
        i += 1;
    }
    'right: while j < g.len() {
        out.push(signed_term(sign, &g[j]))?;
        j += 1;
    }
    Ok(out)
}
