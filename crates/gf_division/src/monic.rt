//! Marked polynomials made monic.

ghost use Rattle.std.specs.Prelude.{◌≡◌, ◌≢◌, false, IfOk, IfErr, IsTrue};
ghost use Rattle.gf_frac.specs.Fraction.{one_ℚ};
ghost use Rattle.gf_poly.specs.Polynomial.{KeepsVariables, coefficient};
ghost use Rattle.gf_division.specs.MonicForms.{IsMadeMonic, IsMonicRefusal, HasSomeVariables};

use gf_frac::Frac;
use gf_poly::{Marked, PolyError};

/// The fraction 1.
pub fn one() -> Frac
    ensures { result ≡ one_ℚ }
{
    Frac::ONE
}

/// Whether the marked coefficient is 1, so that the polynomial is its own monic form.
pub fn is_monic(b: &Marked) -> bool
    requires { HasSomeVariables b.now }
    ensures yes { IsTrue result → IsMadeMonic b.now b.now }
    ensures no { result ≡ false → coefficient b.now.poly b.now.head ≢ one_ℚ }
{
    // Called for the proof alone: what `head` ensures says that the terms descend, and that the mark is that of one of them.
    let _ = b.head();
    b.coefficient() == one()
}

/// The polynomial divided by its marked coefficient, with the same mark; where that is 1, an equal one.
///
/// # Errors
///
/// `Overflow` only where the marked coefficient isn't 1 and the quotient of a coefficient by the marked one leaves its range; it holds the two.
pub fn made_monic(b: &Marked) -> Result<Marked, PolyError>
    requires { HasSomeVariables b.now }
    ensures form { IfOk result (IsMadeMonic b.now) }
    ensures variables { IfOk result (λ c. KeepsVariables b.now.poly c.poly) }
    ensures cause { IfErr result (IsMonicRefusal b.now) }
{
    // Called for the proof alone: what `head` ensures says that the terms descend, and that the mark is that of one of them.
    let _ = b.head();
    if is_monic(b) {
        return Ok(b.copy()?);
    }
    b.monic()
}
