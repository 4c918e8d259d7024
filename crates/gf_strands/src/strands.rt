//! Polynomials on strands. The exponents of all terms that a run on the parts makes of one polynomial are multiples of the normal apart, so of a
//! term that multiple and the coefficient are kept, and of the polynomial the exponents where its strand begins.

ghost use Rattle.gf_strands.specs.Along.{AreSmall, HasNonzero};
ghost use Rattle.gf_strands.specs.Strands.{AreFalling, AreSpots, IsStrandFrom, IsSpot, IsPointAdded, IsRelative, IsSubtracted, moved};
ghost use Rattle.gf_frac.specs.Fraction.{one_ℚ, zero_ℚ, ◌*ℚ◌, ◌/ℚ◌};
ghost use Rattle.std.specs.Prelude.{IfSome, get_or, length, pos, unsigned_abs, ℕ, ◌*ℤ◌, ◌+ℤ◌, ◌+◌, ◌<ℤ◌, ◌<◌, ◌^◌, ◌≡◌, ◌≢◌, ◌≤ℤ◌, ◌≤◌};

use crate::along::narrow;
use gf_frac::Frac;
use gf_poly::{Marked, Mono, ROOM};
use std::alloc::Global;

/// The greatest exponent.
const MOST: i64 = (1 << 31) - 1;

/// A term: so many multiples of the normal from where its strand begins, and the coefficient.
#[derive(Clone, Copy)]
pub struct Point {
    pub k: i32,
    pub coef: Frac,
}

/// A polynomial whose marked coefficient is 1, on the strand that begins at its mark: the other terms, that of the greatest multiple first. It may be
/// the part of the member at an index, divided by a number.
#[derive(Drop)]
pub struct Strand {
    pub mark: Mono,
    pub rest: Vec<Point>,
    pub origin: Option<usize>,
}

/// The part of the member at an index, on the strand through its mark.
#[derive(Drop)]
pub struct Part {
    pub index: usize,
    pub base: Mono,
    pub points: Vec<Point>,
}

/// What a run goes by: the members of the set, the normal, and the marks of the parts that are one term alone.
#[derive(Clone, Copy)]
pub struct Ground<'a> {
    pub by: &'a [Marked],
    pub normal: &'a [i128],
    pub marks: &'a [Mono],
}

/// The fraction 1.
pub fn one() -> Frac
    ensures { result ≡ one_ℚ }
{
    Frac::ONE
}

/// An exponent and a multiple of an entry, if that is an exponent.
fn moved_entry(x: u32, a: i64, k: i32) -> Option<u32>
    requires small { unsigned_abs a < 2 ^ 31 }
    ensures value { IfSome result (λ e. pos e ≡ pos x +ℤ k *ℤ a) }
    ensures limit { IfSome result (λ e. e < 2 ^ 31) }
{
    let e = x as i64 + k as i64 * a;
    if e < 0 || e > MOST {
        return None;
    }
    Some(e as u32)
}

/// The exponents so many multiples of the normal from `x`, if they are exponents.
pub fn spot(alloc: Global, x: &Mono, normal: &[i128], k: i32) -> Option<Mono>
    requires same_length { length x.now ≡ length normal.now }
    requires bounded { AreSmall normal.now }
    ensures value { IfSome result (λ y. y ≡ moved normal.now x.now k) }
    ensures on { IfSome result (λ y. IsSpot normal.now x.now k) }
{
    let exponents = x.exponents();
    let n = exponents.len();
    let mut all = [0u32; ROOM];
    'entries: for i in 0..n {
        all[i] = moved_entry(exponents[i], narrow(normal[i]), k)?;
    }
    Some(Mono::new(alloc, &all[..n]))
}

/// How many points have the multiple `k` or a greater one, where they fall.
fn index_for(work: &[Point], k: i32) -> usize
    ensures within { result ≤ length work.now }
    ensures behind { (j : ℕ) (p : Point) → result ≤ j → j < length work.now → p ≡ get_or work.now j p → p.k <ℤ k }
    ensures before { (j : ℕ) (p : Point) → j + 1 ≡ result → p ≡ get_or work.now j p → k ≤ℤ p.k }
{
    'points: for j in 0..work.len() {
        let i = work.len() - j;
        if work[i - 1].k >= k {
            return i;
        }
    }
    0
}

/// Adds a coefficient at a multiple, if numbers fit.
pub fn add_point(work: &mut Vec<Point>, k: i32, coef: Frac) -> Option<()>
    ensures added { IfSome result (λ _. IsPointAdded k coef work.old.items work.new.items) }
    ensures falling { IfSome result (λ _. AreFalling work.old.items → AreFalling work.new.items) }
{
    let i = index_for(work, k);
    if i > 0 && work[i - 1].k == k {
        let sum = match work[i - 1].coef.add(&coef) {
            Ok(sum) => sum,
            Err(_) => return None,
        };
        work[i - 1] = Point { k, coef: sum };
        return Some(());
    }
    match work.insert(i, Point { k, coef }) {
        Ok(()) => Some(()),
        Err(_) => None,
    }
}

/// The product; by 1 nothing is multiplied.
fn product(a: &Frac, b: &Frac) -> Option<Frac>
    ensures { IfSome result (λ c. c ≡ a.now *ℚ b.now) }
{
    if *a == Frac::ONE {
        return Some(*b);
    }
    if *b == Frac::ONE {
        return Some(*a);
    }
    match a.mul(b) {
        Ok(c) => Some(c),
        Err(_) => None,
    }
}

/// The quotient; by 1 and -1 nothing is divided.
pub fn quotient(a: &Frac, by: &Frac) -> Option<Frac>
    requires { by.now ≢ zero_ℚ }
    ensures { IfSome result (λ c. c ≡ a.now /ℚ by.now) }
{
    if *by == Frac::ONE {
        return Some(*a);
    }
    if by.neg() == Frac::ONE {
        return Some(a.neg());
    }
    match a.div(by) {
        Ok(q) => Some(q),
        Err(_) => None,
    }
}

/// Takes the points `rest`, counted from `p` and times its coefficient, away.
pub fn subtract(work: &mut Vec<Point>, p: Point, rest: &[Point]) -> Option<()>
    ensures { IfSome result (λ _. IsSubtracted p rest.now work.old.items work.new.items) }
{
    'points: for j in 0..rest.len() {
        let q = &rest[j];
        let k = p.k.checked_add(q.k)?;
        let coef = product(&p.coef, &q.coef)?.neg();
        add_point(work, k, coef)?;
    }
    Some(())
}

/// A point counted from another one, and divided by its coefficient, if numbers fit.
fn relative(p: &Point, first: &Point) -> Option<Point>
    requires { first.now.coef ≢ zero_ℚ }
    ensures { IfSome result (λ q. IsRelative first.now p.now q) }
{
    Some(Point {
        k: p.k.checked_sub(first.k)?,
        coef: quotient(&p.coef, &first.coef)?,
    })
}

/// The strand of points: it is marked at the last one, that with the least multiple, and divided by its coefficient, if numbers fit.
pub fn strand_of(
    alloc: Global,
    normal: &[i128],
    base: &Mono,
    points: Vec<Point>,
    origin: Option<usize>,
) -> Option<Strand>
    requires bounded { AreSmall normal.now }
    requires nonzero { HasNonzero normal.now }
    requires base { length base.now ≡ length normal.now }
    requires on { AreSpots normal.now base.now points.items }
    requires falling { AreFalling points.items }
    ensures value { IfSome result (IsStrandFrom normal.now base.now points.items) }
    ensures origin { IfSome result (λ l. l.origin ≡ origin) }
{
    let mut rest = points;
    let first = rest.pop()?;
    if first.coef.is_zero() {
        return None;
    }
    let mark = spot(alloc, base, normal, first.k)?;
    'points: for i in 0..rest.len() {
        let q = relative(&rest[i], &first)?;
        rest[i] = q;
    }
    Some(Strand { mark, rest, origin })
}
