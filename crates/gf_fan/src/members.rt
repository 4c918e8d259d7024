//! The cones of a fan, with what is read of them.
ghost use Rattle.std.specs.Prelude.{◌<◌, ◌^◌, IfOk, IfErr, length};
ghost use Rattle.gf_gordan.specs.Steps.{Failed};
ghost use Rattle.gf_fan.specs.FanLists.{numbers_of};
ghost use Rattle.gf_fan.specs.FansOfCones.{IsCommonLineality, AreCommonRays, AreAllFaces, AreMaximal, AreDimensions};
ghost use Rattle.gf_fan.specs.Pairs.{AreOfAmbient};
ghost use Rattle.gf_fan.specs.Parts.{HaveTheirRays};
ghost use Rattle.gf_fan.specs.Refusals.{IsFaceStep};
ghost use Rattle.gf_fan.specs.WholeCones.{AreWholeCones};

use crate::cones::FanCone;
use crate::counts::{Sizes, counted};
use crate::faces::all_found;
use crate::listing::listed;
use crate::maximal::maximal;
use crate::numbering::{Numbering, tops};
use crate::shared_cone::SharedCone;
use crate::whole::whole_cones;
use gf_gordan::GordanError;
use gf_rays::Rays;
use gf_vec::IntVec;
use std::alloc::Global;

/// The cones of a fan, the indices of the maximal ones, and these as cones of their own; and the sizes of all.
#[derive(Drop)]
pub(crate) struct Members {
    pub(crate) cones: Vec<FanCone>,
    pub(crate) maximal: Vec<u32>,
    pub(crate) whole: Vec<SharedCone>,
    pub(crate) sizes: Sizes,
}

/// All faces of these cones, whose lineality basis and rays are known.
///
/// # Errors
/// An operation of the system of a face that leaves the range; want of memory.
pub(crate) fn members_of(
    alloc: Global,
    n: u32,
    lineality: &[IntVec],
    numbering: &Numbering,
    cones: Vec<Rays>,
) -> Result<Members, GordanError>
    requires ambient { n < 2 ^ 31 }
    requires cones { AreOfAmbient n cones.items }
    requires own { HaveTheirRays n cones.items }
    requires lineality { IsCommonLineality cones.items lineality.now }
    requires rays { AreCommonRays cones.items numbering.now }
    ensures faces { IfOk result (λ m. AreAllFaces n cones.items lineality.now numbering.now m.cones.items) }
    ensures maximal { IfOk result (λ m. AreMaximal (numbers_of m.cones.items) m.maximal.items) }
    ensures whole { IfOk result (λ m. AreWholeCones m.cones.items m.maximal.items m.whole.items) }
    ensures sizes { IfOk result (λ m. AreDimensions (length lineality.now) m.cones.items m.sizes.dim m.sizes.counts.items) }
    ensures err { IfErr result (Failed (IsFaceStep n cones.items)) }
{
    let given = cones.as_slice();
    let found = all_found(alloc, numbering, given)?;
    let tops = tops(alloc, numbering, given)?;
    let members = listed(alloc, cones, found.as_slice())?;
    let maximal = maximal(alloc, members.as_slice(), &tops)?;
    let whole = whole_cones(alloc, members.as_slice(), maximal.as_slice())?;
    let sizes = counted(alloc, lineality.len(), members.as_slice())?;
    Ok(Members {
        cones: members,
        maximal,
        whole,
        sizes,
    })
}
