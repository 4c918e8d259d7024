//! Which variables are enough to saturate by.
//!
//! If a polynomial of the ideal has two terms, and all variables of the one are among those that are saturated by, nothing is added by the
//! variables of the other: a power of the one may be put for a power of the other.
ghost use Rattle.std.specs.Prelude.{◌≡◌, ◌<◌, ◌≤◌, IsTrue, length};
ghost use Rattle.gf_poly.specs.Polynomial.{HasVariables, IsDescending};
ghost use Rattle.gf_buchberger.specs.Tasks.{HaveRingVariables};
ghost use Rattle.gf_saturation_theory.specs.Saturations.{product_power};
ghost use Rattle.gf_saturate.specs.Graded.{AreInside, IsFollowed, IsEnoughFor, IsChoice};

use crate::graded::members_after;
use crate::relation::variable;
use crate::stages::product;
use gf_poly::{Mono, Poly, ROOM};
use std::alloc::Global;

/// Whether each variable that occurs in `x` occurs in `y`.
fn are_inside(x: &Mono, y: &Mono) -> bool
    requires { length x.now ≡ length y.now }
    ensures { IsTrue result → AreInside x.now y.now }
{
    let (left, right) = (x.exponents(), y.exponents());
    'variables: for i in 0..left.len() {
        if right[i] < left[i].min(1) {
            return false;
        }
    }
    true
}

/// The variables of `inside`, and those of the one term of `f` where it has two, and all variables of the other are inside.
fn followed(n: u32, inside: &Mono, f: &Poly) -> Mono
    requires long { length inside.now ≡ n }
    requires variables { HasVariables n f.now }
    ensures long { length result ≡ n }
    ensures followed { IsFollowed f.now inside.now result }
    ensures descending { IsDescending f.now }
{
    let terms = f.terms();
    if terms.len() != 2 {
        return inside.copy();
    }
    let first = &terms[0];
    let second = &terms[1];
    if are_inside(&second.mono, inside) {
        return inside.lcm(&first.mono);
    }
    if are_inside(&first.mono, inside) {
        return inside.lcm(&second.mono);
    }
    inside.copy()
}

/// The variables of `inside`, and those that follow from them by one polynomial after another.
fn followed_once(n: u32, inside: &Mono, set: &[Poly]) -> Mono
    requires long { length inside.now ≡ n }
    requires variables { HaveRingVariables n set.now }
    ensures long { length result ≡ n }
    ensures enough { IsEnoughFor n set.now result inside.now }
{
    let mut all = inside.copy();
    'polynomials: for i in 0..set.len() {
        let f = &set[i];
        all = followed(n, &all, f);
    }
    all
}

/// The variables of `inside`, and all that follow from them.
fn closed(n: u32, inside: &Mono, set: &[Poly]) -> Mono
    requires long { length inside.now ≡ n }
    requires variables { HaveRingVariables n set.now }
    ensures long { length result ≡ n }
    ensures enough { IsEnoughFor n set.now result inside.now }
{
    let mut all = inside.copy();
    'rounds: for _ in 0..n {
        let next = followed_once(n, &all, set);
        if next.degree() == all.degree() {
            return all;
        }
        all = next;
    }
    all
}

/// Whether all variables follow from those of `some`.
fn is_enough(alloc: Global, n: u32, some: &Mono, set: &[Poly]) -> bool
    requires room { n ≤ ROOM }
    requires long { length some.now ≡ n }
    requires variables { HaveRingVariables n set.now }
    ensures { IsTrue result → IsEnoughFor n set.now (product_power n 1) some.now }
{
    let all = closed(n, some, set);
    let whole = product(alloc, n);
    are_inside(&whole, &all)
}

/// The choice without the variable at index `k`, if that is enough too.
fn without(alloc: Global, n: u32, k: u32, choice: &Mono, set: &[Poly]) -> Mono
    requires room { n ≤ ROOM }
    requires inside { k < n }
    requires choice { IsChoice n set.now choice.now }
    requires variables { HaveRingVariables n set.now }
    ensures { IsChoice n set.now result }
{
    let one = variable(alloc, n, k);
    if !one.divides(choice) {
        return choice.copy();
    }
    let less = choice.quotient(&one);
    if is_enough(alloc, n, &less, set) {
        return less;
    }
    choice.copy()
}

/// How many members a run by each variable has after a few pairs; 1 for it and those after it if the run ends so soon.
pub(crate) fn trials(alloc: Global, n: u32, grade: &[i128], set: &[Poly], pairs: u64) -> [u64; ROOM]
    requires room { n ≤ ROOM }
    requires variables { HaveRingVariables n set.now }
{
    let mut numbers = [1; ROOM];
    'variables: for k in 0..n {
        let members = members_after(alloc, n, k, grade, set, pairs);
        if members == 0 {
            return numbers;
        }
        numbers[k as usize] = members;
    }
    numbers
}

/// The index of the greatest of the first `n` numbers, the first such one.
fn greatest(n: u32, numbers: &[u64]) -> u32
    requires some { 0 < n }
    requires room { n ≤ length numbers.now }
    ensures { result < n }
{
    let mut best = 0;
    'indices: for k in 1..n {
        if numbers[k as usize] <= numbers[best as usize] {
            continue;
        }
        best = k;
    }
    best
}

/// Variables that are enough to saturate by, none of which follows from the others: from all variables each is dropped that does, those
/// first that have greater numbers.
pub(crate) fn chosen(alloc: Global, n: u32, numbers: [u64; ROOM], set: &[Poly]) -> Mono
    requires room { n ≤ ROOM }
    requires variables { HaveRingVariables n set.now }
    ensures { IsChoice n set.now result }
{
    let mut numbers = numbers;
    let mut choice = product(alloc, n);
    'variables: for _ in 0..n {
        let k = greatest(n, &numbers);
        numbers[k as usize] = 0;
        choice = without(alloc, n, k, &choice, set);
    }
    choice
}
