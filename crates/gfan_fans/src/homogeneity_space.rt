//! The output of `_homogeneityspace` for an input.
ghost use Rattle.std.specs.Prelude.{◌≡◌, ◌≤◌, ◌∷◌, ◌++◌, [], IfOk, IfErr, OnOk};
ghost use Rattle.gf_text.specs.declared.TheConstants.{MOST_VARIABLES};
ghost use Rattle.gf_text.specs.Sets.{AreIn};
ghost use Rattle.gf_small.specs.HomogeneitySpace.{IsSpaceCause};
ghost use Rattle.gf_frame.specs.Commands.{IsAnswered, IsRefusedOn};
ghost use Rattle.gfan_common.specs.Refused.{IsOfSource};
ghost use Rattle.gfan_fans.specs.HomogeneitySpace.{marked_of, nonzero_of, IsSpaceCone, IsSpaceText, IsNoSpace, homogeneity_space_command};

use crate::fan_text::fan_text;
use gf_front::Refusal;
use gf_gordan::GordanError;
use gf_items::ring_and_set;
use gf_poly::Marked;
use gf_rays::Rays;
use gf_small::homogeneity;
use gf_text::Written;
use gfan_common::refused::{Refused, of_gordan};
use std::alloc::{AllocError, Global};

/// Adds a polynomial if it isn't zero.
fn push_nonzero(found: &mut Vec<Marked>, read: &Written) -> Result<(), AllocError>
    ensures { OnOk result (found.new.items ≡ found.old.items ++ marked_of read.now) }
{
    if let Written::Nonzero(marked) = read {
        let copy = marked.copy()?;
        found.push(copy)?;
    }
    Ok(())
}

/// The nonzero polynomials of a set.
fn nonzero(alloc: Global, set: &[Written]) -> Result<Vec<Marked>, AllocError>
    ensures { IfOk result (λ found. found.items ≡ nonzero_of set.now) }
{
    let mut found = Vec::new(alloc);
    'polynomials: for read in set {
        push_nonzero(&mut found, read)?;
    }
    Ok(found)
}

/// The homogeneity space of a set in `n` variables, as a cone.
fn space_of(alloc: Global, n: u32, set: &[Written]) -> Result<Rays, GordanError>
    requires { AreIn n set.now }
    ensures ok { IfOk result (IsSpaceCone n (nonzero_of set.now)) }
    ensures err { IfErr result (IsSpaceCause n (nonzero_of set.now)) }
{
    let polynomials = nonzero(alloc, set)?;
    let space = homogeneity(alloc, n, &polynomials)?;
    // It has the rays of its rows.
    let _ = space.rays();
    let _ = space.implied();
    Ok(space)
}

/// A list of a single cone.
pub(crate) fn alone(alloc: Global, cone: Rays) -> Result<Vec<Rays>, AllocError>
    ensures { IfOk result (λ cones. cones.items ≡ cone ∷ []) }
{
    let mut cones = Vec::new(alloc);
    cones.push(cone)?;
    Ok(cones)
}

/// The text of the fan of the homogeneity space of a set in `n` variables.
fn space_text(alloc: Global, n: u32, set: &[Written]) -> Result<Vec<u8>, Refusal>
    requires few { n ≤ MOST_VARIABLES }
    requires variables { AreIn n set.now }
    ensures ok { IfOk result (λ text. IsSpaceText n (nonzero_of set.now) text.items) }
    ensures err { IfErr result (IsNoSpace n (nonzero_of set.now)) }
{
    let space = match space_of(alloc, n, set) {
        Ok(space) => space,
        Err(error) => return Err(of_gordan(error)),
    };
    let cones = alone(alloc, space)?;
    let text = fan_text(alloc, n, cones)?;
    Ok(text)
}

/// The homogeneity space of the set of the source, the vectors by which each of its polynomials is homogeneous, as a fan file with a single
/// cone. Zero polynomials impose no condition.
///
/// # Errors
///
/// - `Syntax`, `TooWide`, `UnknownName`, `TooManyVariables` if and only if the source isn't the text of a ring and of a set in it: at the
///   first token after which no such text continues.
/// - `Overflow`, `ExponentOverflow`: the operands of a sum of the text don't fit.
/// - `ConeOverflow`: an operation of finding the space, or its only face, leaves its range.
/// - `WideVector`: a sum of the rays of that face leaves the range.
/// - `Memory`: memory runs out.
pub fn answer(alloc: Global, source: &[u8]) -> Result<Vec<u8>, Refused>
    ensures ok { IfOk result (λ text. IsAnswered homogeneity_space_command (source.now ∷ []) text.items) }
    ensures err { IfErr result (λ e. IsRefusedOn homogeneity_space_command (source.now ∷ []) e.refusal) }
    ensures told { IfErr result (IsOfSource source.now) }
{
    let read = ring_and_set(alloc, source, false)?;
    let text = space_text(alloc, read.ring.len(), &read.set)?;
    Ok(text)
}
