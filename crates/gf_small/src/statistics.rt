//! Statistics of a list of marked sets.
ghost use Rattle.std.specs.Prelude.{◌≡◌, IfOk, IfErr};
ghost use Rattle.gf_poly.specs.Marking.{Each, HaveVariables, HasMarkedTerm};
ghost use Rattle.gf_gordan.specs.Alternative.{AreRows};
ghost use Rattle.gf_gordan.specs.declared.error.GordanError.TheVariants.{Memory};
ghost use Rattle.gf_facets_theory.specs.Rows.{rows_of_polynomials};
ghost use Rattle.gf_small.specs.HomogeneitySpace.{HasSpaceDimension};
ghost use Rattle.gf_small.specs.Statistics.{members_of, AreSetsIn, AreStatistics, IsStatisticsCause, AreStatisticsWithinLimits};

use crate::counts::{Counts, Stats, counts_of};
use gf_gordan::GordanError;
use gf_poly::MarkedSet;
use gf_rays::Rays;
use gf_vec::IntVec;
use std::alloc::{AllocError, Global};

/// The differences of the marked exponent vector of a polynomial and each of its other exponent vectors, of all polynomials of all sets.
fn all_rows(alloc: Global, n: u32, sets: &[MarkedSet]) -> Result<Vec<IntVec>, AllocError>
    requires { AreSetsIn n sets.now }
    ensures value { IfOk result (λ rows. rows.items ≡ rows_of_polynomials (members_of sets.now)) }
    ensures marked { IfOk result (λ _. Each HasMarkedTerm (members_of sets.now)) }
    ensures variables { IfOk result (λ _. HaveVariables n (members_of sets.now)) }
    ensures width { IfOk result (λ rows. AreRows n rows.items) }
{
    let mut rows = Vec::new(alloc);
    'sets: for i in 0..sets.len() {
        let mut more = gf_cone::rows(alloc, &sets[i])?;
        rows.append(&mut more)?;
    }
    Ok(rows)
}

/// The dimension of the homogeneity space.
fn dimension(alloc: Global, n: u32, sets: &[MarkedSet]) -> Result<u64, GordanError>
    requires { AreSetsIn n sets.now }
    ensures ok { IfOk result (HasSpaceDimension n (members_of sets.now)) }
    ensures err { IfErr result (IsStatisticsCause n sets.now) }
    ensures complete { AreStatisticsWithinLimits n sets.now → IfErr result (λ e. e ≡ Memory) }
{
    let rows = all_rows(alloc, n, sets)?;
    let none = Vec::new(alloc);
    let space = Rays::of(alloc, n, none.as_slice(), rows.as_slice())?;
    Ok(space.lineality().len() as u64)
}

/// Statistics of marked sets in `n` variables: how many there are, degrees, numbers of polynomials and terms, and the dimension of the
/// space of the vectors by which each polynomial of each set is homogeneous (Fukuda, Jensen, Thomas, *Computing Gröbner fans*, 2). This
/// dimension is `n` if there are no sets.
///
/// # Errors
///
/// - `Cone`: an operation of computing that space, whose equations are the differences of the marked exponent vector of a polynomial and
///   each of its other ones, leaves the range from `-(2^127 - 1)` to `2^127 - 1`; it holds the two numbers whose sum, difference or product
///   this is.
/// - `Memory`: memory runs out.
pub fn stats(alloc: Global, n: u32, sets: &[MarkedSet]) -> Result<Stats, GordanError>
    requires { AreSetsIn n sets.now }
    ensures ok { IfOk result (AreStatistics n sets.now) }
    ensures err { IfErr result (IsStatisticsCause n sets.now) }
    ensures complete { AreStatisticsWithinLimits n sets.now → IfErr result (λ e. e ≡ Memory) }
{
    let homogeneity = dimension(alloc, n, sets)?;
    let Counts {
        max_degree,
        min_degree,
        max_polynomials,
        max_terms,
    } = counts_of(sets);
    Ok(Stats {
        bases: sets.len() as u64,
        variables: u64::from(n),
        homogeneity,
        max_degree,
        min_degree,
        max_polynomials,
        max_terms,
    })
}
