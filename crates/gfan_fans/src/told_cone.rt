//! The descriptions of cones by `_groebnercone`.
ghost use Rattle.std.specs.Prelude.{◌≡◌, ◌≤◌, IfOk, IfErr};
ghost use Rattle.gf_gordan.specs.Alternative.{AreRows};
ghost use Rattle.gf_text.specs.declared.TheConstants.{MOST_VARIABLES};
ghost use Rattle.gfan_fans.specs.ToPolyhedralFan.{inequalities_of};
ghost use Rattle.gfan_fans.specs.ToldCones.{IsConeFanText, IsConeFanCause, IsToldAs, IsUntoldAs, of_sections};

use crate::fan_text::fan_text;
use crate::homogeneity_space::alone;
use gf_front::{GroebnerConeOptions, Refusal};
use gf_sections::{SectionsError, cone_by_rows, cone_text};
use gf_vec::IntVec;
use gfan_common::refused::of_gordan;
use std::alloc::{AllocError, Global};

/// The refusal of the sections of a cone, as one of the run.
fn of_sections(error: SectionsError) -> Refusal
    ensures { result ≡ of_sections error }
{
    match error {
        SectionsError::Cone(o) => Refusal::ConeOverflow {
            row: o.row,
            op: o.op,
            left: o.left,
            right: o.right,
        },
        SectionsError::Wide(w) => Refusal::WideVector(w),
        SectionsError::Memory => Refusal::Memory,
    }
}

/// The inequalities, followed by the unit vectors if the cone is intersected with the non-negative orthant.
pub(crate) fn restricted(
    alloc: Global,
    n: u32,
    inequalities: Vec<IntVec>,
    cut: bool,
) -> Result<Vec<IntVec>, AllocError>
    ensures { IfOk result (λ out. out.items ≡ inequalities_of cut n inequalities.items) }
{
    if cut {
        gf_cone::with_units(alloc, inequalities, n as usize)
    } else {
        Ok(inequalities)
    }
}

/// The fan of all faces of the cone of inequalities and equations in `n` variables.
fn cone_fan(
    alloc: Global,
    n: u32,
    inequalities: &[IntVec],
    equations: &[IntVec],
) -> Result<Vec<u8>, Refusal>
    requires few { n ≤ MOST_VARIABLES }
    requires inequalities { AreRows n inequalities.now }
    requires equations { AreRows n equations.now }
    ensures ok { IfOk result (λ text. IsConeFanText n inequalities.now equations.now text.items) }
    ensures err { IfErr result (IsConeFanCause n inequalities.now equations.now) }
{
    let cone = match cone_by_rows(alloc, n, inequalities, equations) {
        Ok(cone) => cone,
        Err(error) => return Err(of_gordan(error)),
    };
    let cones = alone(alloc, cone)?;
    let text = fan_text(alloc, n, cones)?;
    Ok(text)
}

/// The description of the cone of inequalities and equations in `n` variables.
pub(crate) fn told(
    alloc: Global,
    n: u32,
    inequalities: &[IntVec],
    equations: &[IntVec],
    options: GroebnerConeOptions,
) -> Result<Vec<u8>, Refusal>
    requires few { n ≤ MOST_VARIABLES }
    requires inequalities { AreRows n inequalities.now }
    requires equations { AreRows n equations.now }
    ensures ok { IfOk result (λ text. IsToldAs options.as_fan options.certificates n inequalities.now equations.now text.items) }
    ensures err { IfErr result (IsUntoldAs options.as_fan options.certificates n inequalities.now equations.now) }
{
    if options.as_fan {
        return cone_fan(alloc, n, inequalities, equations);
    }
    match cone_text(alloc, n, inequalities, equations, options.certificates) {
        Ok(text) => Ok(text),
        Err(error) => Err(of_sections(error)),
    }
}
