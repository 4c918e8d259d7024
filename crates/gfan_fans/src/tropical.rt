//! The output of `_tropicalhypersurface`, `_tropicalintersection` and `_minkowskisum` for an input.
ghost use Rattle.std.specs.Prelude.{◌≡◌, ◌≢◌, ◌⊎◌, ◌<◌, ◌≤◌, ◌^◌, [], All, length, None, IfOk, IfErr, OnOk, ◌∷◌};
ghost use Rattle.gf_poly.specs.Polynomial.{HasVariables};
ghost use Rattle.gf_tropical.specs.Refusals.{IsTropicalRefusal};
ghost use Rattle.gf_text.specs.declared.TheConstants.{MOST_VARIABLES};
ghost use Rattle.gf_text.specs.Sets.{AreIn};
ghost use Rattle.gf_frame.specs.Commands.{IsAnswerFor, IsUnanswered, IsAnswered, IsRefusedOn};
ghost use Rattle.gfan_common.specs.Forms.{generators_of};
ghost use Rattle.gfan_common.specs.Refused.{IsNamedBy, IsOfSource};
ghost use Rattle.gfan_common.specs.ToolForms.{HasNoZero, IsZeroRefusal};
ghost use Rattle.gfan_fans.specs.Tropical.{HasNumber, IsNumberRefusal, IsFanOfPolynomials, of_tropical, systems_of, tropical_command};

use crate::fan_text::of_writing;
use gf_fan::Fan;
use gf_fan_files::write;
use gf_front::Refusal;
use gf_items::{RingAndSet, ring_and_set};
use gf_poly::Poly;
use gf_text::{Ring, Written};
use gf_tropical::{TropicalError, hypersurface, minkowski, prevariety};
use gfan_common::checks::nonzero;
use gfan_common::marked_sets::polynomials;
use gfan_common::refused::Refused;
use std::alloc::Global;
use std::thread::Threads;

/// A fan of the polynomials of a set.
#[derive(Clone, Copy, Debug)]
pub enum TropicalFan {
    /// The tropical hypersurface of a single polynomial.
    Hypersurface,
    /// The intersection of the tropical hypersurfaces.
    Intersection,
    /// The normal fan of the Minkowski sum of the Newton polytopes.
    MinkowskiSum,
}

/// The refusal of a fan of polynomials, as one of the run.
pub(crate) fn of_tropical(error: TropicalError) -> Refusal
    ensures { result ≡ of_tropical error }
{
    match error {
        TropicalError::Cone(o) => Refusal::ConeOverflow {
            row: o.row,
            op: o.op,
            left: o.left,
            right: o.right,
        },
        TropicalError::ZeroPolynomial { set, index } => Refusal::ZeroPolynomial { set, index },
        TropicalError::Memory => Refusal::Memory,
    }
}

/// Checks that the number of polynomials is one that the fan may have.
fn check_number(which: TropicalFan, count: usize) -> Result<(), Refusal>
    ensures ok { OnOk result (HasNumber which count) }
    ensures err { IfErr result (IsNumberRefusal which count) }
    ensures told { IfErr result (IsNamedBy None) }
{
    match which {
        TropicalFan::Hypersurface => {
            if count != 1 {
                return Err(Refusal::Dimensions {
                    left: count as u64,
                    right: 1,
                });
            }
            Ok(())
        }
        TropicalFan::Intersection | TropicalFan::MinkowskiSum => Ok(()),
    }
}

/// The polynomials of a set in `n` variables, none of which is zero. There are fewer than `2^32`.
pub(crate) fn nonzero_polynomials(
    alloc: Global,
    n: u32,
    set: Vec<Written>,
) -> Result<Vec<Poly>, Refusal>
    requires { AreIn n set.items }
    ensures value { IfOk result (λ fs. fs.items ≡ generators_of set.items) }
    ensures variables { IfOk result (λ fs. All (HasVariables n) fs.items) }
    ensures some { IfOk result (λ fs. All (λ f. f ≢ []) fs.items) }
    ensures count { IfOk result (λ fs. length fs.items < 2 ^ 32) }
    ensures formed { OnOk result (HasNoZero set.items) }
    ensures err { IfErr result (λ r. IsZeroRefusal set.items r ⊎ (r ≡ Refusal.Memory)) }
    ensures told { IfErr result (IsNamedBy None) }
{
    let read = nonzero(alloc, n, set)?;
    let list = polynomials(alloc, &read)?;
    if list.len() > u32::MAX as usize {
        return Err(Refusal::Memory);
    }
    Ok(list)
}

/// The fan of polynomials in `n` variables.
fn fan_of<R: Threads + Sync>(
    rt: &R,
    alloc: Global,
    n: u32,
    list: &[Poly],
    which: TropicalFan,
) -> Result<Fan, TropicalError>
    requires few { n ≤ MOST_VARIABLES }
    requires variables { All (HasVariables n) list.now }
    requires count { length list.now < 2 ^ 32 }
    requires number { HasNumber which (length list.now) }
    ensures ok { IfOk result (IsFanOfPolynomials which n list.now) }
    ensures err { IfErr result (IsTropicalRefusal (systems_of which) n list.now) }
{
    match which {
        TropicalFan::Hypersurface => hypersurface(alloc, n, &list[0]),
        TropicalFan::Intersection => prevariety(rt, alloc, n, list),
        TropicalFan::MinkowskiSum => minkowski(rt, alloc, n, list),
    }
}

/// The output for what is read.
fn text_of<R: Threads + Sync>(
    rt: &R,
    alloc: Global,
    ring: &Ring,
    set: Vec<Written>,
    which: TropicalFan,
) -> Result<Vec<u8>, Refusal>
    requires { AreIn (length ring.now) set.items }
    ensures ok { IfOk result (λ text. IsAnswerFor (tropical_command which) (ring.now, (set.items, None)) text.items) }
    ensures err { IfErr result (IsUnanswered (tropical_command which) (ring.now, (set.items, None))) }
    ensures told { IfErr result (IsNamedBy None) }
{
    let n = ring.len();
    check_number(which, set.len())?;
    let list = nonzero_polynomials(alloc, n, set)?;
    let fan = match fan_of(rt, alloc, n, &list, which) {
        Ok(fan) => fan,
        Err(error) => return Err(of_tropical(error)),
    };
    match write(alloc, &fan) {
        Ok(text) => Ok(text),
        Err(error) => Err(of_writing(error)),
    }
}

/// A fan of the polynomials of the set of the source, as a fan file, by the maximum convention: the tropical hypersurface of its only
/// polynomial, the intersection of the hypersurfaces of all of them, or the normal fan of the Minkowski sum of their Newton polytopes.
///
/// # Errors
///
/// - `Syntax`, `TooWide`, `UnknownName`, `TooManyVariables` if and only if the source isn't the text of a ring and of a set in it: at the
///   first token after which no such text continues.
/// - `Dimensions` if and only if the fan is a hypersurface and the set hasn't exactly one polynomial: their number and 1.
/// - `ZeroPolynomial` if and only if the number of polynomials is one that the fan may have, and all terms of a polynomial cancel: the
///   index of the first one.
/// - `Overflow`, `ExponentOverflow`: the operands of a sum of the text don't fit.
/// - `ConeOverflow`: an operation leaves its range that finds the rays of a cone from which the fan is made: the cone of one or two
///   exponents of a polynomial, the whole space, a face of a cone, or the intersection of two.
/// - `WideVector`: a sum of the rays of a maximal cone leaves the range.
/// - `Memory`: memory runs out.
pub fn answer<R: Threads + Sync>(
    rt: &R,
    alloc: Global,
    source: &[u8],
    which: TropicalFan,
) -> Result<Vec<u8>, Refused>
    ensures ok { IfOk result (λ text. IsAnswered (tropical_command which) (source.now ∷ []) text.items) }
    ensures err { IfErr result (λ e. IsRefusedOn (tropical_command which) (source.now ∷ []) e.refusal) }
    ensures told { IfErr result (IsOfSource source.now) }
{
    let RingAndSet { ring, set, .. } = ring_and_set(alloc, source, false)?;
    let text = text_of(rt, alloc, &ring, set, which)?;
    Ok(text)
}
