//! Laws of fractions, each ensured by a function that does nothing.

ghost use Rattle.std.specs.Prelude.{◌≡◌};
ghost use Rattle.gf_frac.specs.Fraction.{zero_ℚ, one_ℚ};
ghost use Rattle.gf_frac.specs.Laws.{IsField, IsSchoolArithmetic, EqualityIsIdentity};

use super::fractions::Frac;

/// The constants are zero and one.
pub fn constants() -> (Frac, Frac)
    ensures zero { result.0 ≡ zero_ℚ }
    ensures one { result.1 ≡ one_ℚ }
{
    (Frac::ZERO, Frac::ONE)
}

/// Fractions form a field.
pub fn field()
    ensures { IsField }
{}

/// Sums and products are what school says: `a/b + c/d = (a*d + c*b)/(b*d)` and `a/b * c/d = (a*c)/(b*d)`.
pub fn school_arithmetic()
    ensures { IsSchoolArithmetic }
{}

/// Fractions compare equal exactly where they are one.
pub fn equality()
    ensures { EqualityIsIdentity }
{}
