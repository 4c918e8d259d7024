//! What is left of a polynomial that the members have reduced: nothing, or a new member, which is monic and marked at its greatest
//! monomial.

ghost use Rattle.std.specs.Prelude.{◌<◌, length, IfOk, IfErr};
ghost use Rattle.gf_buchberger.specs.Leading.{IsComparable, IsLeadingAt, IsGreaterOf};
ghost use Rattle.gf_buchberger.specs.Runs.{IsAppendRefusal, IsLeftMember};

use crate::leading::{compare, leading};
use gf_order::Order;
use gf_poly::{Marked, Poly, PolyError};
use gf_wide_division::{Beyond, WidePoly};
use std::alloc::Global;
use std::cmp::Ordering;

/// The monic form of `r`, marked at its greatest monomial, unless `r` is zero.
///
/// # Errors
///
/// `Overflow` only where the quotient of a coefficient of `r` by that of its greatest monomial doesn't fit; it holds the two.
/// `Memory` if memory runs out.
pub fn left_of(order: &Order, r: Poly) -> Result<Option<Marked>, PolyError>
    requires { IsComparable order.now r }
    ensures ok { IfOk result (IsLeftMember order.now r) }
    ensures cause { IfErr result (IsAppendRefusal order.now r) }
{
    if r.is_zero() {
        return Ok(None);
    }
    let at = leading(order, r.terms());
    let member = Marked::mark(r, at).monic()?;
    Ok(Some(member))
}

/// Of two indices the one of the greater monomial, and the first where they are equal.
fn greater(order: &Order, f: &WidePoly, at: usize, i: usize) -> usize
    requires inside { at < length f.now }
    requires next { i < length f.now }
    requires comparable { IsComparable order.now f.now }
    ensures inside { result < length f.now }
    ensures value { IsGreaterOf order.now f.now at i result }
{
    match compare(order, f.mono(at), f.mono(i)) {
        Ordering::Less => i,
        Ordering::Equal => at,
        Ordering::Greater => at,
    }
}

/// The index of the greatest term.
fn leading_of_wide(order: &Order, f: &WidePoly) -> usize
    requires some { 0 < length f.now }
    requires comparable { IsComparable order.now f.now }
    ensures inside { result < length f.now }
    ensures greatest { IsLeadingAt order.now f.now result (length f.now) }
{
    let mut at = 0;
    'terms: for i in 1..f.len() {
        at = greater(order, f, at, i);
    }
    at
}

/// The monic form of `r`, in fractions of 128 bits and marked at its greatest monomial, unless `r` is zero.
///
/// # Errors
///
/// `Beyond` where the working of the quotient of a coefficient by that of the greatest monomial reaches 2^512, where the numerator or the denominator
/// of a quotient exceeds 2^127 - 1 in size, or if memory runs out.
pub fn left_of_wide(alloc: Global, order: &Order, r: &WidePoly) -> Result<Option<Marked>, Beyond>
    requires { IsComparable order.now r.now }
    ensures { IfOk result (IsLeftMember order.now r.now) }
{
    if r.is_zero() {
        return Ok(None);
    }
    let at = leading_of_wide(order, r);
    let member = r.monic(alloc, at)?;
    Ok(Some(member))
}
