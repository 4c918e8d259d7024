//! The printed weight of a marked reduced Gröbner basis, and the facets of its cone that a flip may cross, each with a witness.
ghost use Rattle.std.specs.Prelude.{◌≡◌, length, IfOk, IfErr};
ghost use Rattle.gf_weights.specs.Weights.{IsPrintedWeight, AreBasisCertificates, IsWeightIn, AreWitnessedIn, AreCertificatesIn};
ghost use Rattle.gf_weights.specs.Cuts.{IsCutOf};
ghost use Rattle.gf_weights.specs.Refusals.{IsWeightCause, IsBasisCertificateCause, IsWeightWithinLimits, AreCertificatesWithinLimits, IsWeightCauseIn};
ghost use Rattle.gf_weights.specs.Refusals.{IsCertificateCauseIn, AreCertificatesFittingIn};
ghost use Rattle.gf_weights.specs.declared.error.WeightError.TheVariants.{Memory};

use crate::cut::{Cut, cut_cone, is_flippable};
use crate::error::WeightError;
use gf_cone::Region;
use gf_poly::MarkedSet;
use gf_vec::IntVec;
use std::alloc::Global;

/// A facet that a flip may cross, by its normal, and a vector in its relative interior. Both have an entry for each variable.
#[derive(Drop)]
pub struct FacetWitness {
    pub normal: IntVec,
    pub witness: IntVec,
}

/// What is printed with a marked reduced Gröbner basis: its weight, with an entry for each variable, and the facets that a flip may cross,
/// in ascending order of their normals.
#[derive(Drop)]
pub struct BasisCertificates {
    pub weight: IntVec,
    pub facets: Vec<FacetWitness>,
}

/// The weight that is printed for a marked set in a region.
///
/// # Errors
/// Those of `certify_in`, for the weight alone.
fn weight_in(alloc: Global, set: &MarkedSet, region: &Region) -> Result<IntVec, WeightError>
    requires { length region.now.root ≡ set.now.variables }
    ensures value { IfOk result (IsWeightIn set.now.variables region.now set.now.items) }
    ensures err { IfErr result (IsWeightCauseIn set.now.variables region.now set.now.items) }
{
    let cut = cut_cone(alloc, set, region)?;
    let weight = cut.rays.interior()?;
    Ok(weight)
}

/// The weight that is printed for a marked set, with an entry for each of its variables: the sum of the primitive vectors along the extreme
/// rays of the intersection of its closed cone with the non-negative orthant. If any positive vector sets each mark above the other
/// monomials of its polynomial, the weight is such a vector.
///
/// # Errors
///
/// - `Cone`: an operation of the double description of the normals, ascending, and then the unit vectors leaves the range from
///   `-(2^127 - 1)` to `2^127 - 1`.
/// - `Wide`: the rays are added in ascending order, and this is the first sum of an entry of a partial sum and one of the next ray that
///   leaves that range.
/// - `Memory`: memory runs out.
pub fn weight(alloc: Global, set: &MarkedSet) -> Result<IntVec, WeightError>
    ensures value { IfOk result (IsPrintedWeight set.now.variables set.now.items) }
    ensures err { IfErr result (IsWeightCause set.now.variables set.now.items) }
    ensures complete { IsWeightWithinLimits set.now.variables set.now.items → IfErr result (λ e. e ≡ Memory) }
{
    let region = Region::positive(alloc, set.variables())?;
    weight_in(alloc, set, &region)
}

/// The facets that a flip may cross, each with its witness.
fn facets(
    alloc: Global,
    set: &MarkedSet,
    region: &Region,
    cut: &Cut,
) -> Result<Vec<FacetWitness>, WeightError>
    requires { IsCutOf set.now.variables region.now set.now.items cut.now.cone cut.now.rays }
    ensures ok { IfOk result (λ found. AreWitnessedIn set.now.variables region.now set.now.items found.items) }
    ensures err { IfErr result (IsCertificateCauseIn set.now.variables region.now set.now.items) }
{
    let normals = cut.cone.normals();
    let mut found = Vec::new(alloc);
    'indices: for index in 0..normals.len() {
        if is_flippable(cut, index) {
            let normal = normals[index].copy()?;
            let witness = cut.rays.interior_at(index)?;
            found.push(FacetWitness { normal, witness })?;
        }
    }
    Ok(found)
}

/// The weight that is printed for a marked set in a region, and the facets of its cone that a flip may cross there, in ascending order of
/// their normals, each with its witness. Weight and witnesses have an entry for each variable. They are sums of the primitive vectors along
/// the extreme rays of the intersection of the closed cone with the closure of the region: the weight of all of them, a witness of those
/// that are orthogonal to the facet's normal. If some vector of the region sets each mark above the other monomials of its polynomial, the
/// weight is such a vector, and each witness is in the region and in the relative interior of its facet.
///
/// # Errors
///
/// - `Cone`: an operation of the double description of the normals, ascending, then the rows of the region, and then the unit vectors
///   leaves the range from `-(2^127 - 1)` to `2^127 - 1`.
/// - `Wide`: the rays of the weight, or those of a witness, are added in ascending order, and this is the first sum of an entry of a
///   partial sum and one of the next ray that leaves that range.
/// - `Memory`: memory runs out.
pub fn certify_in(
    alloc: Global,
    set: &MarkedSet,
    region: &Region,
) -> Result<BasisCertificates, WeightError>
    requires { length region.now.root ≡ set.now.variables }
    ensures value { IfOk result (AreCertificatesIn set.now.variables region.now set.now.items) }
    ensures err { IfErr result (IsCertificateCauseIn set.now.variables region.now set.now.items) }
    ensures complete { AreCertificatesFittingIn set.now.variables region.now set.now.items → IfErr result (λ e. e ≡ Memory) }
{
    let cut = cut_cone(alloc, set, region)?;
    let weight = cut.rays.interior()?;
    let facets = facets(alloc, set, region, &cut)?;
    Ok(BasisCertificates { weight, facets })
}

/// The weight that is printed for a marked set, and the facets of its cone that a flip may cross, in ascending order of their normals, each
/// with its witness: the sum of the primitive vectors along those extreme rays of the intersection of the closed cone with the non-negative
/// orthant that are orthogonal to the facet's normal. Weight and witnesses have an entry for each variable; a witness is a positive vector
/// in the relative interior of its facet.
///
/// # Errors
///
/// - `Cone`: an operation of the double description of the normals, ascending, and then the unit vectors leaves the range from
///   `-(2^127 - 1)` to `2^127 - 1`.
/// - `Wide`: the rays of the weight, or those of a witness, are added in ascending order, and this is the first sum of an entry of a
///   partial sum and one of the next ray that leaves that range.
/// - `Memory`: memory runs out.
pub fn certify(alloc: Global, set: &MarkedSet) -> Result<BasisCertificates, WeightError>
    ensures value { IfOk result (AreBasisCertificates set.now.variables set.now.items) }
    ensures err { IfErr result (IsBasisCertificateCause set.now.variables set.now.items) }
    ensures complete { AreCertificatesWithinLimits set.now.variables set.now.items → IfErr result (λ e. e ≡ Memory) }
{
    let region = Region::positive(alloc, set.variables())?;
    certify_in(alloc, set, &region)
}
