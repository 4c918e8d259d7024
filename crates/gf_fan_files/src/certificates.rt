//! Whether the rows of `MAXIMAL_INTERIORS` lie inside their cones.
ghost use Rattle.std.specs.Prelude.{◌≡◌, ◌↔◌, ◌<◌, ◌^◌, ℤ, List, pos, ◌<ℤ◌, All, Any, Contains, IfOk, IfErr, IsTrue, length, MatchResult};
ghost use Rattle.gf_vec.specs.Vector.{dot};
ghost use Rattle.gf_vec.specs.Steps.{dot_steps, IsFirstWide};
ghost use Rattle.gf_gordan.specs.Alternative.{AreRows};
ghost use Rattle.gf_duality_theory.specs.Faces.{IsInterior};
ghost use Rattle.gf_duality_theory.specs.Rays.{IsZeroOn};
ghost use Rattle.gf_rays.specs.Cones.{RowsAndRays, rows_of};
ghost use Rattle.gf_fan_files.specs.Certificates.{AreInsideCones, IsInsideStep, IsCertificateFault};

use crate::error::FanFileError;
use gf_rays::Rays;
use gf_vec::{IntVec, WideVector};

/// Whether a row is positive on a vector.
fn is_positive(h: &IntVec, v: &IntVec) -> Result<bool, WideVector>
    requires { length h.now ≡ length v.now }
    ensures ok { IfOk result (λ yes. IsTrue yes ↔ (pos 0 <ℤ dot h.now v.now)) }
    ensures err { IfErr result (λ e. IsFirstWide e (dot_steps (pos 0) h.now v.now)) }
{
    Ok(h.dot(v)? > 0)
}

/// Whether a row is zero on a vector.
fn is_zero(h: &IntVec, v: &IntVec) -> Result<bool, WideVector>
    requires { length h.now ≡ length v.now }
    ensures ok { IfOk result (λ yes. IsTrue yes ↔ (dot h.now v.now ≡ pos 0)) }
    ensures err { IfErr result (λ e. IsFirstWide e (dot_steps (pos 0) h.now v.now)) }
{
    Ok(h.dot(v)? == 0)
}

/// Whether each row is positive on a vector.
fn all_positive(rows: &[IntVec], v: &IntVec) -> Result<bool, WideVector>
    requires { AreRows (length v.now) rows.now }
    ensures ok { IfOk result (λ yes. IsTrue yes ↔ All (λ h. pos 0 <ℤ dot h v.now) rows.now) }
    ensures err { IfErr result (λ e. Any (λ h. IsFirstWide e (dot_steps (pos 0) h v.now)) rows.now) }
{
    for h in rows {
        if !is_positive(h, v)? {
            return Ok(false);
        }
    }
    Ok(true)
}

/// Whether each row is zero on a vector.
fn all_zero(rows: &[IntVec], v: &IntVec) -> Result<bool, WideVector>
    requires { AreRows (length v.now) rows.now }
    ensures ok { IfOk result (λ yes. IsTrue yes ↔ All (λ h. dot h v.now ≡ pos 0) rows.now) }
    ensures err { IfErr result (λ e. Any (λ h. IsFirstWide e (dot_steps (pos 0) h v.now)) rows.now) }
{
    for h in rows {
        if !is_zero(h, v)? {
            return Ok(false);
        }
    }
    Ok(true)
}

/// Whether a vector lies inside a cone, on all of which none of its inequalities is zero.
fn is_inside(c: &Rays, v: &IntVec) -> Result<bool, WideVector>
    requires width { c.now.ambient ≡ length v.now }
    requires proper { (h : List ℤ) → Contains c.now.inequalities h → IsZeroOn c.now.ambient c.now.inequalities c.now.equations h → ⊥ }
    ensures ok { IfOk result (λ yes. IsTrue yes ↔ IsInterior c.now.ambient (rows_of c.now) v.now) }
    ensures err { IfErr result (IsInsideStep c.now v.now) }
{
    if !all_positive(c.inequalities(), v)? {
        return Ok(false);
    }
    all_zero(c.equations(), v)
}

/// Whether the rows lie inside the cones, on all of none of which an inequality of it is zero.
///
/// # Errors
/// The smaller number, where there aren't as many rows as cones; else the place of the first row that isn't inside its cone, or an
/// operation of its test that leaves the range.
pub(crate) fn check_certificates(
    n: u32,
    cones: &[Rays],
    rows: &[IntVec],
) -> Result<(), FanFileError>
    requires ambient { All (λ (c : RowsAndRays). c.ambient ≡ n) cones.now }
    requires proper { All (λ (c : RowsAndRays). (h : List ℤ) → Contains c.inequalities h → IsZeroOn c.ambient c.inequalities c.equations h → ⊥) cones.now }
    requires count { length cones.now < 2 ^ 32 }
    requires width { AreRows n rows.now }
    ensures { MatchResult result (λ _. AreInsideCones n cones.now rows.now) (IsCertificateFault n cones.now rows.now) }
{
    if rows.len() != cones.len() {
        return Err(FanFileError::BadCertificate {
            cone: rows.len().min(cones.len()) as u32,
        });
    }
    for place in 0..rows.len() {
        match is_inside(&cones[place], &rows[place]) {
            Ok(true) => {}
            Ok(false) => return Err(FanFileError::BadCertificate { cone: place as u32 }),
            Err(wide) => return Err(FanFileError::Wide(wide)),
        }
    }
    Ok(())
}
