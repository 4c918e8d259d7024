//! Pairs that need no work of their own, since pairs below them settle them.
//!
//! Whether one index covers a pair is proved; which indices are tried isn't: a pair that is found covered by none of them waits.
//!
//! Source: Gebauer, Möller, On an installation of Buchberger's algorithm.

ghost use Rattle.std.specs.Prelude.{◌≡◌, ◌≢◌, ◌↔◌, ◌<◌, length, IsTrue};
ghost use Rattle.gf_exponents_theory.specs.Exponents.{Divides, join};
ghost use Rattle.gf_buchberger.specs.Covered.{IsBelow, AreCoprimeOrBelow, IsCovering, IsCovered, rank_of as rank_by};
ghost use Rattle.gf_buchberger.specs.Runs.{MembersHaveVariables, MembersHaveSomeVariables, IsMultipleOf};

use crate::runs::are_coprime;
use gf_poly::{Marked, Mono};
use std::alloc::{AllocError, Global};

/// What pairs compare by, to tell which ones settle which.
#[derive(Clone, Copy)]
pub struct Rank {
    /// The degree of the least common multiple of the marks.
    pub degree: u64,
    /// The later of the two indices.
    pub later: usize,
    /// How far apart the indices are.
    pub apart: usize,
}

/// The rank of the pair of the indices p and q, where the marks have this least common multiple.
fn rank_of(multiple: &Mono, p: usize, q: usize) -> Rank
    ensures { result ≡ rank_by multiple.now p q }
{
    Rank {
        degree: multiple.degree(),
        later: p.max(q),
        apart: p.max(q) - p.min(q),
    }
}

impl Rank {
    /// Whether a pair of this rank comes before those of the other: by the degree, then by the later index, then by how far apart the
    /// indices are.
    fn is_below(self, other: Rank) -> bool
        ensures { IsTrue result ↔ IsBelow self other }
    {
        if self.degree != other.degree {
            return self.degree < other.degree;
        }
        if self.later != other.later {
            return self.later < other.later;
        }
        self.apart < other.apart
    }
}

/// Whether the marks x and y at p and q are coprime, or their pair is below this rank.
fn are_coprime_or_below(x: &Mono, y: &Mono, p: usize, q: usize, rank: Rank) -> bool
    requires { length x.now ≡ length y.now }
    ensures { IsTrue result → AreCoprimeOrBelow x.now y.now p q rank }
{
    rank_of(&x.lcm(y), p, q).is_below(rank) || are_coprime(x, y)
}

/// Whether k is a third index beside i and j, and the mark z there divides the least common multiple of theirs.
fn is_third_divisor(z: &Mono, multiple: &Mono, i: usize, j: usize, k: usize) -> bool
    requires { length z.now ≡ length multiple.now }
    ensures { IsTrue result → (k ≢ i) × (k ≢ j) × Divides z.now multiple.now }
{
    k != i && k != j && z.divides(multiple)
}

/// Whether the mark z at the index k covers the pair of the marks x and y at i and j, whose least common multiple is `multiple`.
fn is_covering(x: &Mono, y: &Mono, multiple: &Mono, z: &Mono, i: usize, j: usize, k: usize) -> bool
    requires pair { length x.now ≡ length y.now }
    requires third { length z.now ≡ length x.now }
    requires multiple { multiple.now ≡ join x.now y.now }
    ensures { IsTrue result → IsCovering x.now y.now z.now i j k }
{
    if !is_third_divisor(z, multiple, i, j, k) {
        return false;
    }
    let rank = rank_of(multiple, i, j);
    are_coprime_or_below(x, z, i, k, rank) && are_coprime_or_below(z, y, k, j, rank)
}

/// What is told of a monomial at a glance: a monomial divides another one only if each bit of its mask is one of the other's.
fn mask_of(x: &Mono) -> u64 {
    let exponents = x.exponents();
    let bits = (64 / exponents.len().clamp(1, 64)) as u32;
    let mut mask = 0u64;
    'variables: for e in exponents {
        let spare = 64 - bits.min(*e).min(64);
        let ones = u64::MAX.wrapping_shr(spare);
        let more = if spare < 64 { ones } else { 0 };
        mask = mask.wrapping_shl(bits) | more;
    }
    mask
}

/// What is kept of a member.
#[derive(Clone, Copy)]
struct Kept {
    /// The index of a later member whose mark divides its mark, or its own index where there was none.
    by: usize,
    /// The mask of its mark.
    mask: u64,
}

/// Which members are redundant, since the mark of a later one divides theirs.
#[derive(Drop)]
pub struct Redundant {
    kept: Vec<Kept>,
}

impl Redundant {
    /// The list for no members.
    pub fn new(alloc: Global) -> Redundant {
        Redundant {
            kept: Vec::new(alloc),
        }
    }

    /// Enters a member with this mark, behind these.
    ///
    /// # Errors
    ///
    /// `AllocError` if memory runs out; which of the members are listed as redundant may have changed by then.
    pub fn add(&mut self, members: &[Marked], head: &Mono) -> Result<(), AllocError>
        requires { MembersHaveVariables (length head.now) members.now }
    {
        let last = members.len();
        let mask = mask_of(head);
        'members: for k in 0..self.kept.len().min(last) {
            let one = self.kept[k];
            if one.by == k && mask & !one.mask == 0 && head.divides(members[k].head()) {
                self.kept[k] = Kept {
                    by: last,
                    mask: one.mask,
                };
            }
        }
        self.kept.push(Kept { by: last, mask })?;
        Ok(())
    }

    /// Whether the mark at k covers the pair of the members at i and j.
    fn covers_at(members: &[Marked], multiple: &Mono, i: usize, j: usize, k: usize) -> bool
        requires first { i < length members.now }
        requires second { j < length members.now }
        requires variables { MembersHaveSomeVariables members.now }
        requires multiple { IsMultipleOf members.now i j multiple.now }
        ensures { IsTrue result → IsCovered members.now i j }
    {
        if k >= members.len() {
            return false;
        }
        is_covering(
            members[i].head(),
            members[j].head(),
            multiple,
            members[k].head(),
            i,
            j,
            k,
        )
    }

    /// Whether a member covers the pair of those at i and j: the one that made the first of them redundant, or one that isn't redundant.
    pub fn covers(&self, members: &[Marked], multiple: &Mono, i: usize, j: usize) -> bool
        requires first { i < length members.now }
        requires second { j < length members.now }
        requires variables { MembersHaveSomeVariables members.now }
        requires multiple { IsMultipleOf members.now i j multiple.now }
        ensures { IsTrue result → IsCovered members.now i j }
    {
        if let Some(first) = self.kept.get(i) {
            if Redundant::covers_at(members, multiple, i, j, first.by) {
                return true;
            }
        }
        let beyond = !mask_of(multiple);
        'members: for k in 0..self.kept.len() {
            let one = self.kept[k];
            if one.by == k
                && one.mask & beyond == 0
                && Redundant::covers_at(members, multiple, i, j, k)
            {
                return true;
            }
        }
        false
    }
}
