//! Checks of the input.
ghost use Rattle.std.specs.Prelude.{◌≡◌, ◌≤◌, ◌⊎◌, ◌-◌, ◌^◌, Some, None, min, length, IfOk, IfErr, OnOk};
ghost use Rattle.gf_gordan.specs.Alternative.{AreRows};
ghost use Rattle.gf_text.specs.Sets.{AreIn, AreNonzero};
ghost use Rattle.gf_items.specs.Checks.{FirstFails};
ghost use Rattle.gfan_common.specs.Forms.{AreTaken, IsDegreeRefusal, IsLengthRefusal};
ghost use Rattle.gfan_common.specs.Refused.{IsNamedBy};
ghost use Rattle.gfan_common.specs.ToolForms.{IsZeroRefusal, IsSpaceRefusal, for_each};

use gf_buchberger::homogeneous;
use gf_front::Refusal;
use gf_poly::{MarkedSet, Poly};
use gf_text::Written;
use gf_vec::IntVec;
use std::alloc::Global;

/// Checks that the vector has an entry for each of `n` variables.
///
/// # Errors
///
/// `Dimensions` if it doesn't, with the number of its entries and `n`.
pub fn check_entries(n: u32, vector: &IntVec) -> Result<(), Refusal>
    ensures ok { OnOk result (length vector.now ≡ n) }
    ensures err { IfErr result (IsLengthRefusal n (Some vector.now)) }
    ensures told { IfErr result (IsNamedBy None) }
{
    let entries = vector.as_slice().len();
    if entries != n as usize {
        return Err(Refusal::Dimensions {
            left: entries as u64,
            right: u64::from(n),
        });
    }
    Ok(())
}

/// Checks that the polynomials are homogeneous if the order is revlex without a weight; other orders take all polynomials.
///
/// # Errors
///
/// - `NotHomogeneous` if the order is revlex without a weight and a polynomial isn't homogeneous: the index of the first one, counted from
///   0, its deglex greatest monomial, and the first one after that of another degree.
/// - `Memory`: memory runs out, or there are `2^32` polynomials or more.
pub fn check_degrees(revlex: bool, weight: &Option<IntVec>, set: &[Poly]) -> Result<(), Refusal>
    ensures ok { OnOk result (AreTaken revlex weight.now set.now) }
    ensures err { IfErr result (λ r. IsDegreeRefusal revlex weight.now set.now r ⊎ (r ≡ Refusal.Memory)) }
{
    if !revlex || weight.is_some() {
        return Ok(());
    }
    if set.len() > u32::MAX as usize {
        return Err(Refusal::Memory);
    }
    match homogeneous(set) {
        Ok(()) => Ok(()),
        Err(found) => Err(Refusal::NotHomogeneous {
            polynomial: found.polynomial,
            first: found.first,
            second: found.second,
        }),
    }
}

/// Checks that `n`, the dimension of a space, is at least 1.
///
/// # Errors
///
/// `Dimensions` if it is 0, with the numbers 0 and 1.
pub fn check_space(n: u32) -> Result<(), Refusal>
    ensures ok { OnOk result (1 ≤ n) }
    ensures err { IfErr result (IsSpaceRefusal n) }
    ensures told { IfErr result (IsNamedBy None) }
{
    if n == 0 {
        return Err(Refusal::Dimensions { left: 0, right: 1 });
    }
    Ok(())
}

/// Checks that each vector has an entry for each of `n` variables.
///
/// # Errors
///
/// `Dimensions` for the first vector that doesn't, with the number of its entries and `n`.
pub fn check_each(n: u32, vectors: &[IntVec]) -> Result<(), Refusal>
    ensures ok { OnOk result (AreRows n vectors.now) }
    ensures err { IfErr result (FirstFails (for_each n vectors.now)) }
    ensures told { IfErr result (IsNamedBy None) }
{
    'vectors: for vector in vectors {
        check_entries(n, vector)?;
    }
    Ok(())
}

/// An index in 32 bits; the greatest one if it doesn't fit.
fn index_of(place: usize) -> u32
    ensures { result ≡ min place (2 ^ 32 - 1) }
{
    u32::try_from(place).unwrap_or(u32::MAX)
}

/// The set of these polynomials in `n` variables, with their marks, if none of them is zero.
///
/// # Errors
///
/// - `ZeroPolynomial` for the first zero polynomial, with its index, counted from 0, and the number 0 for the set.
/// - `Memory`: memory runs out.
pub fn nonzero(alloc: Global, n: u32, written: Vec<Written>) -> Result<MarkedSet, Refusal>
    requires { AreIn n written.items }
    ensures ok { IfOk result (λ s. AreNonzero written.items s.items) }
    ensures variables { IfOk result (λ s. s.variables ≡ n) }
    ensures err { IfErr result (λ r. IsZeroRefusal written.items r ⊎ (r ≡ Refusal.Memory)) }
    ensures told { IfErr result (IsNamedBy None) }
{
    let mut items = Vec::with_capacity(alloc, written.len())?;
    'polynomials: for next in written {
        match next {
            Written::Nonzero(marked) => {
                if items.push(marked).is_err() {
                    return Err(Refusal::Memory);
                }
            }
            Written::Zero => {
                return Err(Refusal::ZeroPolynomial {
                    set: 0,
                    index: index_of(items.len()),
                });
            }
        }
    }
    Ok(MarkedSet::new(n, items))
}
