//! Whether polynomials are a tropical basis.
ghost use Rattle.std.specs.Prelude.{◌≡◌, ◌<◌, ◌^◌, ℕ, All, Err, IfOk, IfErr, length};
ghost use Rattle.gf_poly.specs.Polynomial.{HasVariables};
ghost use Rattle.gf_buchberger.specs.Tasks.{HaveRingVariables, HaveOneDegree};
ghost use Rattle.gf_tropical.specs.Refusals.{IsFirstZeroPolynomial};
ghost use Rattle.gf_tropical.specs.declared.error.TropicalError.TheVariants.{ZeroPolynomial};
ghost use Rattle.gf_tropical_basis_test.specs.declared.error.BasisTestError.TheVariants.{Prevariety};
ghost use Rattle.gf_tropical_basis_test.specs.Verdicts.{IsFirstVerdict, IsVerdict};
ghost use Rattle.gf_tropical_basis_test.specs.Refusals.{IsVerdictRefusal};
ghost use Rattle.gf_tropical_basis_test.specs.Limits.{IsTestWithinLimits, HasNoMemory};

use crate::bases::at_bases;
use crate::error::BasisTestError;
use crate::verdict::Verdict;
use gf_cone::Region;
use gf_gordan::gordans_alternative;
use gf_groebner_walk::basis_by_several_ways;
use gf_order::Order;
use gf_poly::{Poly, ROOM};
use gf_refine::fans_are_cone_lists;
use gf_tropical::prevariety;
use std::alloc::Global;
use std::thread::Threads;

/// Each of the polynomials is in `n` variables. Nothing is computed.
fn are_in(n: u32, set: &[Poly])
    requires { HaveRingVariables n set.now }
    ensures { All (HasVariables n) set.now }
{}

/// The first verdict, or why there is none.
///
/// # Errors
/// Those of `tropical_basis`.
fn tested<R: Threads + Sync>(
    rt: &R,
    alloc: Global,
    n: u32,
    set: &[Poly],
    pairs: u64,
) -> Result<Verdict, BasisTestError>
    requires room { n < ROOM }
    requires variables { HaveRingVariables n set.now }
    requires count { length set.now < 2 ^ 32 }
    ensures first { IfOk result (IsFirstVerdict n set.now) }
    ensures err { IfErr result (IsVerdictRefusal n set.now pairs) }
    ensures zero { (i : ℕ) → IsFirstZeroPolynomial set.now i → result ≡ Err (Prevariety (ZeroPolynomial 0 i)) }
{
    are_in(n, set);
    let fan = prevariety(rt, alloc, n, set)?;
    let region = Region::positive(alloc, n)?;
    let start = basis_by_several_ways(alloc, n, set, &Order::deglex(), pairs)?;
    at_bases(alloc, start, &region, &fan, pairs)
}

/// Whether polynomials in `n` variables, each homogeneous by the total degree, are a tropical basis of their ideal: whether at each vector of
/// their tropical prevariety the initial ideal has no polynomial with a single term (Maclagan, Sturmfels, *Introduction to Tropical
/// Geometry*, 2.6). If they are not, the verdict has such a vector, with `n` entries. The prevariety of the empty set is the whole space, and
/// the empty set is a tropical basis; so is any set whose prevariety is empty. `n` is at most 24.
///
/// The bases of the ideal are visited in the order of their paths; for each basis the maximal cones of the prevariety in their order; for each
/// of these the faces of its intersection with the closed cone of the basis, by dimension and then by the numbers of their rays. The sum of the
/// rays of a face is tried by `has_monomial`, and the verdict has the first vector that fails. Each flip and each run of Buchberger's algorithm
/// settles at most `pairs` pairs.
///
/// # Errors
///
/// - `Prevariety`, before anything else: a polynomial is zero, the first one being reported; else an operation of finding the rays of a cone of
///   the prevariety leaves its range, or memory runs out.
/// - `Root`: a run of Buchberger's algorithm by deglex is refused, for operands that don't fit, for the budget of pairs, or for memory.
/// - `Search`: a flip, or the system that decides whether a flip may cross a facet, is refused, for operands that don't fit, for the budget of
///   pairs, or for memory.
/// - `Initial`: `at_cone` of `gf_initial_monomials` is refused at a basis and a cone. All bases and cones before them pass.
/// - `Memory`: memory runs out.
pub fn tropical_basis<R: Threads + Sync>(
    rt: &R,
    alloc: Global,
    n: u32,
    set: &[Poly],
    pairs: u64,
) -> Result<Verdict, BasisTestError>
    requires room { n < ROOM }
    requires variables { HaveRingVariables n set.now }
    requires degree { HaveOneDegree set.now }
    requires count { length set.now < 2 ^ 32 }
    ensures verdict { IfOk result (IsVerdict n set.now) }
    ensures first { IfOk result (IsFirstVerdict n set.now) }
    ensures err { IfErr result (IsVerdictRefusal n set.now pairs) }
    ensures zero_always { (i : ℕ) → IsFirstZeroPolynomial set.now i → result ≡ Err (Prevariety (ZeroPolynomial 0 i)) }
    ensures complete { IsTestWithinLimits n set.now pairs → IfErr result HasNoMemory }
{
    gordans_alternative();
    fans_are_cone_lists();
    tested(rt, alloc, n, set, pairs)
}
