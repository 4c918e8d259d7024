//! The normals of a basis that a flip may cross.
ghost use Rattle.std.specs.Prelude.{◌≡◌, ◌<◌, ℕ, length, IfOk, IfErr};
ghost use Rattle.gf_tree.specs.Refusals.{IsRefusedAtBasis};
ghost use Rattle.gf_basis_states.specs.Crossable.{AreCrossable, IsWithState, IsRefusedAtState};

use gf_cone::{Cone, Region};
use gf_known_cone::KnownCone;
use gf_poly::MarkedSet;
use gf_tree::TreeError;
use gf_vec::IntVec;
use std::alloc::Global;

/// The list with the normal at an index added, if a flip may cross its facet.
fn with_state(list: Vec<IntVec>, cone: &KnownCone, state: usize) -> Result<Vec<IntVec>, TreeError>
    requires { state < length cone.now.normals }
    ensures ok { IfOk result (λ more. IsWithState cone.now state list.items more.items) }
    ensures err { IfErr result (IsRefusedAtState cone.now state) }
{
    let mut more = list;
    match cone.crossing(state)? {
        Some(_witness) => {
            let normal = cone.normals()[state].copy()?;
            more.push(normal)?;
            Ok(more)
        }
        None => Ok(more),
    }
}

/// The normals of a basis that a flip may cross inside a region, each once, in ascending lexicographic order, with an entry for each
/// variable.
///
/// # Errors
///
/// - `Cone`: a step of the system that decides whether a flip may cross the facet of a normal of the basis leaves its range.
/// - `Memory`: memory runs out.
pub fn crossable_normals(
    alloc: Global,
    basis: &MarkedSet,
    region: &Region,
) -> Result<Vec<IntVec>, TreeError>
    requires { length region.now.root ≡ basis.now.variables }
    ensures ok { IfOk result (λ ns. AreCrossable basis.now.variables region.now basis.now.items ns.items) }
    ensures err { (pairs : ℕ) → IfErr result (IsRefusedAtBasis region.now pairs basis.now) }
{
    let cone = Cone::within(alloc, basis, region)?;
    let known = KnownCone::new(alloc, cone, None)?;
    let mut list = Vec::new(alloc);
    'states: for state in 0..known.normals().len() {
        list = with_state(list, &known, state)?;
    }
    Ok(list)
}
