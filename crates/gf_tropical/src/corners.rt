//! The points of the vertices of a polynomial's Newton polytope.
ghost use Rattle.std.specs.Prelude.{◌≡◌, ◌≢◌, ◌<◌, ◌+◌, AllPairs, IfOk, length, map, pos};
ghost use Rattle.gf_gordan.specs.Alternative.{AreRows};
ghost use Rattle.gf_poly.specs.Polynomial.{HasVariables};
ghost use Rattle.gf_patterns_theory.specs.Patterns.{points};
ghost use Rattle.gf_levels_theory.specs.VertexPoints.{AreVertexPoints};
ghost use Rattle.gf_tropical.specs.VertexLists.{HaveVertexFlags, VertexPointsSoFar};

use crate::vertices::vertex_flags;
use gf_poly::{Mono, Term};
use gf_vec::IntVec;
use std::alloc::{AllocError, Global};

/// One exponent.
fn entry(x: u32) -> i128
    ensures { result ≡ pos x }
{
    i128::from(x)
}

/// The exponents of a monomial.
fn point(alloc: Global, x: &Mono) -> Result<IntVec, AllocError>
    ensures { IfOk result (λ v. v ≡ map pos x.now) }
{
    let powers = x.exponents();
    let mut entries = Vec::with_capacity(alloc, powers.len())?;
    'entries: for i in 0..powers.len() {
        entries.push(entry(powers[i]))?;
    }
    Ok(IntVec::from_vec(entries))
}

/// These points, and that of the term at `i`, if it may be a vertex.
fn with_point(
    alloc: Global,
    n: u32,
    terms: &[Term],
    flags: &[bool],
    i: usize,
    known: Vec<IntVec>,
) -> Result<Vec<IntVec>, AllocError>
    requires index { i < length terms.now }
    requires variables { HasVariables n terms.now }
    requires flags { HaveVertexFlags n (points terms.now) flags.now }
    ensures { IfOk result (λ out. VertexPointsSoFar n (points terms.now) i known.items → VertexPointsSoFar n (points terms.now) (i + 1) out.items) }
{
    let mut out = known;
    if flags[i] {
        out.push(point(alloc, &terms[i].mono)?)?;
        return Ok(out);
    }
    Ok(out)
}

/// The exponents of the terms, but for some that are no vertices.
pub(crate) fn vertex_points(
    alloc: Global,
    n: u32,
    terms: &[Term],
) -> Result<Vec<IntVec>, AllocError>
    requires variables { HasVariables n terms.now }
    requires distinct { AllPairs (λ x y. x ≢ y) (points terms.now) }
    ensures points { IfOk result (λ out. AreVertexPoints n (points terms.now) out.items) }
    ensures wide { IfOk result (λ out. AreRows n out.items) }
{
    let flags = vertex_flags(alloc, n, terms)?;
    let mut out = Vec::new(alloc);
    'terms: for i in 0..terms.len() {
        out = with_point(alloc, n, terms, flags.as_slice(), i, out)?;
    }
    Ok(out)
}
