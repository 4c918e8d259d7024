//! Normals that are seen to be in the cone of other vectors, up to a multiple.
ghost use Rattle.std.specs.Prelude.{◌≡◌, ◌+ℤ◌, ◌*ℤ◌, ◌<◌, [], pos, length, slice_index_or, IfSome, IsTrue};
ghost use Rattle.gf_cone.specs.Cones.{all_rows, normal_at};
ghost use Rattle.gf_cone.specs.Crossing.{IsCrossable};
ghost use Rattle.gf_cone.specs.Spans.{IsShare, IsSomePositive, part_at, IsBalancedAt};

use crate::checks::unit_entry;
use crate::cone::Cone;
use gf_vec::{product, total};

/// So many times the vector at an index: a normal, a row of the region or a unit vector, in this order.
#[derive(Clone, Copy)]
pub struct Share {
    pub index: usize,
    pub times: i128,
}

/// Three shares, and how many times a normal they are together.
#[derive(Clone, Copy)]
pub struct Span {
    pub first: Share,
    pub second: Share,
    pub third: Share,
    pub normal: i128,
}

/// Whether it is a share of another vector than the normal at an index, and not negative.
fn is_share(cone: &Cone, index: usize, share: Share) -> bool
    ensures { IsTrue result → IsShare cone.now index share }
{
    let kept = cone.kept();
    if share.index == index || share.times < 0 {
        return false;
    }
    if share.index < kept.len() {
        return true;
    }
    if share.index - kept.len() >= cone.variables() as usize {
        return false;
    }
    true
}

/// Whether one of the three shares is positive.
fn is_some_positive(span: &Span) -> bool
    ensures { IsTrue result → IsSomePositive span.now }
{
    span.first.times > 0 || span.second.times > 0 || span.third.times > 0
}

/// The entry of the vector at an index.
fn entry_at(cone: &Cone, index: usize, i: usize) -> i128
    requires index { index < length (all_rows cone.now) }
    requires entry { i < cone.now.variables }
    ensures { result ≡ slice_index_or (slice_index_or (all_rows cone.now) index []) i (pos 0) }
{
    let kept = cone.kept();
    if index < kept.len() {
        return kept[index].as_slice()[i];
    }
    unit_entry(cone.variables() as usize, index - kept.len(), i)
}

/// The entry of a share. None where it leaves the range.
fn part(cone: &Cone, share: Share, i: usize) -> Option<i128>
    requires index { share.index < length (all_rows cone.now) }
    requires entry { i < cone.now.variables }
    ensures { IfSome result (λ x. x ≡ part_at cone.now share i) }
{
    match product(share.times, entry_at(cone, share.index, i)) {
        Ok(x) => Some(x),
        Err(_error) => None,
    }
}

/// The entry of so many times the normal at an index. None where it leaves the range.
fn of_normal(cone: &Cone, index: usize, span: &Span, i: usize) -> Option<i128>
    requires index { index < length cone.now.normals }
    requires entry { i < cone.now.variables }
    ensures { IfSome result (λ x. x ≡ span.now.normal *ℤ slice_index_or (normal_at cone.now index) i (pos 0)) }
{
    match product(span.normal, cone.normals()[index].as_slice()[i]) {
        Ok(x) => Some(x),
        Err(_error) => None,
    }
}

/// Whether three numbers are another one together. False where a sum leaves the range.
fn is_total(x: i128, y: i128, z: i128, all: i128) -> bool
    ensures { IsTrue result → x +ℤ y +ℤ z ≡ all }
{
    match total(x, y) {
        Ok(two) => match total(two, z) {
            Ok(three) => three == all,
            Err(_error) => false,
        },
        Err(_error) => false,
    }
}

/// Whether an entry of the three shares together is that of so many times the normal at an index. False where a product or sum leaves the range.
fn balances(cone: &Cone, index: usize, span: &Span, i: usize) -> bool
    requires index { index < length cone.now.normals }
    requires first { span.now.first.index < length (all_rows cone.now) }
    requires second { span.now.second.index < length (all_rows cone.now) }
    requires third { span.now.third.index < length (all_rows cone.now) }
    requires entry { i < cone.now.variables }
    ensures { IsTrue result → IsBalancedAt cone.now index span.now i }
{
    let first = part(cone, span.first, i);
    let second = part(cone, span.second, i);
    let third = part(cone, span.third, i);
    let all = of_normal(cone, index, span, i);
    match (first, second, third, all) {
        (Some(x), Some(y), Some(z), Some(all)) => is_total(x, y, z, all),
        _ => false,
    }
}

/// Whether three shares, some of which are positive, are seen to be so many times the normal at an index.
pub fn is_spanned(cone: &Cone, index: usize, span: &Span) -> bool
    requires { index < length cone.now.normals }
    ensures { IsTrue result → IsCrossable cone.now index → ⊥ }
{
    if !is_share(cone, index, span.first)
        || !is_share(cone, index, span.second)
        || !is_share(cone, index, span.third)
    {
        return false;
    }
    if !is_some_positive(span) {
        return false;
    }
    // Called for the proof alone: what the rows of the cone are.
    let _ = cone.kept();
    let n = cone.variables() as usize;
    'entries: for i in 0..n {
        if !balances(cone, index, span, i) {
            return false;
        }
    }
    true
}
