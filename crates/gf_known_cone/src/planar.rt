//! Normals in three variables. Modulo a normal the other vectors are those of a plane: where all are on one side of a line, a vector that is zero on
//! the normal is positive on them; else three of them, or two, give a multiple of the normal. One look at each vector tells.
//!
//! What is found here is a guess; `checks` and `spans` of `gf_cone` judge it.

use crate::shots::vector_of;
use gf_cone::Cone;
use gf_cone::spans::{Share, Span};
use gf_vec::IntVec;
use std::alloc::Global;

/// Entries up to this one are looked at: what is worked out from them then fits 64 bits.
const LARGEST: i128 = 8192;

/// What a guess is: a vector that is zero on the normal and positive on all others, or others that give a multiple of the normal.
#[derive(Drop)]
pub(crate) enum Guess {
    Point(IntVec),
    Spanned(Span),
}

/// A vector modulo the normal, and its index.
#[derive(Clone, Copy)]
struct Flat {
    x: i64,
    y: i64,
    index: usize,
}

/// The vectors that were looked at are between two, from the one to the left to the other; or three that give zero, with their multipliers.
enum Sweep {
    Open(Flat, Flat),
    Whole([Flat; 3], [i64; 3]),
}

/// The normal, the coordinate that is left out, and the two that are kept.
#[derive(Clone, Copy)]
struct Chart {
    normal: [i64; 3],
    out: usize,
    x: usize,
    y: usize,
}

/// The area of the parallelogram, positive where the second vector is to the left of the first.
fn area(a: Flat, b: Flat) -> i64 {
    a.x.wrapping_mul(b.y).wrapping_sub(a.y.wrapping_mul(b.x))
}

/// The sum of the absolute values.
fn length(a: Flat) -> i64 {
    a.x.wrapping_abs().wrapping_add(a.y.wrapping_abs())
}

/// An entry, 0 past the end.
fn entry(list: [i64; 3], at: usize) -> i64 {
    if at < 3 { list[at] } else { 0 }
}

/// The three entries, where they aren't large.
fn short(vector: &[i128]) -> Option<[i64; 3]> {
    if vector.len() != 3 {
        return None;
    }
    let mut entries = [0; 3];
    for i in 0..3 {
        let x = vector[i];
        if x > LARGEST || x < -LARGEST {
            return None;
        }
        entries[i] = i64::try_from(x).ok()?;
    }
    Some(entries)
}

/// The vector at an index: one that is kept, or a unit vector behind these.
fn vector_at(cone: &Cone, k: usize) -> Option<[i64; 3]> {
    let kept = cone.kept();
    if k < kept.len() {
        return short(kept[k].as_slice());
    }
    let at = k - kept.len();
    let mut entries = [0; 3];
    if at < 3 {
        entries[at] = 1;
    }
    Some(entries)
}

/// The chart of a normal.
fn chart_of(normal: [i64; 3]) -> Chart {
    if normal[0] != 0 {
        return Chart {
            normal,
            out: 0,
            x: 1,
            y: 2,
        };
    }
    if normal[1] != 0 {
        return Chart {
            normal,
            out: 1,
            x: 0,
            y: 2,
        };
    }
    Chart {
        normal,
        out: 2,
        x: 0,
        y: 1,
    }
}

impl Chart {
    /// The entry of the normal that is left out, which isn't 0.
    fn pivot(&self) -> i64 {
        entry(self.normal, self.out)
    }

    /// A coordinate of a vector modulo the normal, times the entry of the normal that is left out.
    fn coordinate(&self, v: [i64; 3], k: usize) -> i64 {
        let kept = entry(v, k).wrapping_mul(self.pivot());
        kept.wrapping_sub(entry(v, self.out).wrapping_mul(entry(self.normal, k)))
    }

    /// A vector modulo the normal.
    fn flat(&self, v: [i64; 3], index: usize) -> Flat {
        Flat {
            x: self.coordinate(v, self.x),
            y: self.coordinate(v, self.y),
            index,
        }
    }

    /// The vector that is zero on the normal and gives on others what the plane's vector gives on them.
    fn lifted(&self, alloc: Global, x: i64, y: i64) -> Option<IntVec> {
        let mut entries = [0; 3];
        let out = x
            .wrapping_mul(entry(self.normal, self.x))
            .wrapping_add(y.wrapping_mul(entry(self.normal, self.y)));
        for k in 0..3 {
            let value = if k == self.x {
                x.wrapping_mul(self.pivot())
            } else if k == self.y {
                y.wrapping_mul(self.pivot())
            } else {
                out.wrapping_neg()
            };
            entries[k] = i128::from(value);
        }
        let mut list = Vec::with_capacity(alloc, 3).ok()?;
        for x in entries {
            list.push(x).ok()?;
        }
        vector_of(list)
    }
}

/// Two vectors that are on one line, the second one looked at: between the two as before, or they are opposite.
fn along(from: Flat, to: Flat, v: Flat) -> Sweep {
    let same = from
        .x
        .wrapping_mul(v.x)
        .wrapping_add(from.y.wrapping_mul(v.y));
    if same > 0 {
        return Sweep::Open(from, to);
    }
    Sweep::Whole([from, to, v], [length(v), 0, length(from)])
}

/// What lies between two vectors, less than half a turn apart, and one more.
fn swept(from: Flat, to: Flat, v: Flat) -> Sweep {
    let left = area(from, v);
    let right = area(v, to);
    if left == 0 && right == 0 {
        return along(from, to, v);
    }
    if left >= 0 && right >= 0 {
        return Sweep::Open(from, to);
    }
    if left > 0 {
        return Sweep::Open(from, v);
    }
    if right > 0 {
        return Sweep::Open(v, to);
    }
    Sweep::Whole(
        [from, to, v],
        [right.wrapping_neg(), left.wrapping_neg(), area(from, to)],
    )
}

/// Three vectors that give zero modulo the normal, as shares in a multiple of it.
fn span_of(cone: &Cone, chart: &Chart, three: [Flat; 3], times: [i64; 3]) -> Option<Span> {
    let mut shares = [Share { index: 0, times: 0 }; 3];
    let mut normal = 0i128;
    let pivot = chart.pivot();
    for k in 0..3 {
        let v = vector_at(cone, three[k].index)?;
        let part = i128::from(times[k]).wrapping_mul(i128::from(entry(v, chart.out)));
        normal = normal.wrapping_add(part);
        shares[k] = Share {
            index: three[k].index,
            times: i128::from(times[k]).wrapping_mul(i128::from(pivot.wrapping_abs())),
        };
    }
    Some(Span {
        first: shares[0],
        second: shares[1],
        third: shares[2],
        normal: if pivot < 0 {
            normal.wrapping_neg()
        } else {
            normal
        },
    })
}

/// A vector of the plane that is positive on all that lies between two.
fn beside(from: Flat, to: Flat) -> (i64, i64) {
    if area(from, to) == 0 {
        return (from.x, from.y);
    }
    (to.y.wrapping_sub(from.y), from.x.wrapping_sub(to.x))
}

/// What shows whether a flip may cross the facet of the normal at an index, in three variables, where entries aren't large.
pub(crate) fn guessed(alloc: Global, cone: &Cone, index: usize) -> Option<Guess> {
    let normals = cone.normals();
    if cone.variables() != 3 || index >= normals.len() {
        return None;
    }
    let chart = chart_of(short(normals[index].as_slice())?);
    let mut between: Option<(Flat, Flat)> = None;
    for k in 0..cone.len() {
        if k != index {
            let v = chart.flat(vector_at(cone, k)?, k);
            let (from, to) = between.unwrap_or((v, v));
            match swept(from, to, v) {
                Sweep::Open(from, to) => between = Some((from, to)),
                Sweep::Whole(three, times) => {
                    return span_of(cone, &chart, three, times).map(Guess::Spanned);
                }
            }
        }
    }
    let (from, to) = between?;
    let (x, y) = beside(from, to);
    chart.lifted(alloc, x, y).map(Guess::Point)
}
