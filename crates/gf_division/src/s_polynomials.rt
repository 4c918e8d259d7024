//! S-polynomials.

ghost use Rattle.std.specs.Prelude.{◌≡◌, length, IfOk, IfErr};
ghost use Rattle.gf_poly.specs.Polynomial.{IsDescending, HasVariables};
ghost use Rattle.gf_ideal_theory.specs.Reduction.{IsSPolynomial};
ghost use Rattle.gf_division.specs.SPolynomials.{SharePairVariables, KeepsPairVariables, IsSPolynomialOf, IsPairRefusal, IsMonicPairRefusal, AreLcmCofactors};
ghost use Rattle.gf_division.specs.SPolynomials.{IsRaised, IsRaisingRefusal};

use crate::dividend::Dividend;
use crate::monic::{is_monic, made_monic, one};
use gf_poly::{Marked, Mono, Poly, PolyError, Term};
use std::alloc::Global;

/// The polynomial times a monomial.
fn raised(alloc: Global, f: &Poly, by: &Mono) -> Result<Poly, PolyError>
    requires { HasVariables (length by.now) f.now }
    ensures value { IfOk result (IsRaised by.now f.now) }
    ensures cause { IfErr result (IsRaisingRefusal by.now f.now) }
{
    let terms = f.terms();
    let mut out = Vec::with_capacity(alloc, terms.len())?;
    'terms: for i in 0..terms.len() {
        let t = &terms[i];
        let mono = by.mul(&t.mono)?;
        out.push(Term { coef: t.coef, mono })?;
    }
    Ok(Poly::from_descending(out))
}

/// What two monomials have to be raised by, to their least common multiple.
fn cofactors(x: &Mono, y: &Mono) -> (Mono, Mono)
    requires { length x.now ≡ length y.now }
    ensures { AreLcmCofactors x.now y.now result.0 result.1 }
{
    let multiple = x.lcm(y);
    (multiple.quotient(x), multiple.quotient(y))
}

/// The S-polynomial of monic ones.
fn monic_s_poly(alloc: Global, b: &Marked, c: &Marked) -> Result<Poly, PolyError>
    requires variables { SharePairVariables b.now c.now }
    ensures value { IfOk result (IsSPolynomial b.now c.now) }
    ensures descending { IfOk result IsDescending }
    ensures variables { IfOk result (KeepsPairVariables b.now c.now) }
    ensures cause { IfErr result (IsMonicPairRefusal b.now c.now) }
{
    let (of_b, of_c) = cofactors(b.head(), c.head());
    let mut rest = Dividend::new(alloc, raised(alloc, b.poly(), &of_b)?);
    rest.subtract(&one(), &of_c, c.poly().terms())?;
    Ok(rest.into_poly()?)
}

/// The S-polynomial of two marked polynomials: both made monic and raised to the least common multiple of the marked
/// monomials, the second taken from the first.
///
/// # Errors
///
/// `Overflow` and `Exponent` only where two numbers don't fit that are divided in making one of the two monic, or
/// subtracted or added in this; it holds them.
pub fn s_poly(alloc: Global, f: &Marked, g: &Marked) -> Result<Poly, PolyError>
    requires variables { SharePairVariables f.now g.now }
    ensures value { IfOk result (IsSPolynomialOf f.now g.now) }
    ensures descending { IfOk result IsDescending }
    ensures variables { IfOk result (KeepsPairVariables f.now g.now) }
    ensures cause { IfErr result (IsPairRefusal f.now g.now) }
{
    if is_monic(f) && is_monic(g) {
        return monic_s_poly(alloc, f, g);
    }
    let b = made_monic(f)?;
    let c = made_monic(g)?;
    monic_s_poly(alloc, &b, &c)
}
