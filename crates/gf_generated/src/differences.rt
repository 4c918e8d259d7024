//! The generators that a number stands for.
ghost use Rattle.std.specs.Prelude.{◌≡◌, ◌<◌, ◌≤◌, All, IfOk};
ghost use Rattle.gf_frac.specs.Fraction.{neg_ℚ, one_ℚ};
ghost use Rattle.gf_generated.specs.Generated.{number_after, rest_by_three, in_order, difference, generated_set};

use gf_frac::Frac;
use gf_poly::{Mono, Poly, Term};
use std::alloc::{AllocError, Global};
use std::cmp::Ordering;

/// The number so many steps behind `first`.
fn number_behind(first: u64, steps: u64) -> u64
    requires { first < 2147483647 }
    ensures value { result ≡ number_after first steps }
    ensures below { result < 2147483647 }
{
    let mut at = first;
    'steps: for step in 0..steps {
        at = 48_271 * at % 2_147_483_647;
    }
    at
}

/// The rest by 3 of the number so many steps behind `first`.
fn rest(first: u64, steps: u64) -> u32
    requires { first < 2147483647 }
    ensures value { result ≡ rest_by_three first steps }
    ensures small { result ≤ 2 }
{
    (number_behind(first, steps) % 3) as u32
}

/// The two terms, the greater monomial first; none where the monomials are the same.
fn in_order(
    alloc: Global,
    order: Ordering,
    plus: Term,
    minus: Term,
) -> Result<Vec<Term>, AllocError>
    ensures { IfOk result (λ terms. terms.items ≡ in_order order plus minus) }
{
    match order {
        Ordering::Less => Ok(vec![in alloc; minus, plus]?),
        Ordering::Equal => Ok(Vec::new(alloc)),
        Ordering::Greater => Ok(vec![in alloc; plus, minus]?),
    }
}

/// The fraction 1.
fn one() -> Frac
    ensures { result ≡ one_ℚ }
{
    Frac::ONE
}

/// The fraction -1.
fn minus_one() -> Frac
    ensures { result ≡ neg_ℚ one_ℚ }
{
    one().neg()
}

/// The first monomial less the second.
fn difference(alloc: Global, first: [u32; 4], second: [u32; 4]) -> Result<Poly, AllocError>
    requires first { All (λ k. k ≤ 3) first }
    requires second { All (λ k. k ≤ 3) second }
    ensures { IfOk result (λ f. f ≡ difference first second) }
{
    let x = Mono::new(alloc, &first);
    let y = Mono::new(alloc, &second);
    let order = x.compare(&y);
    let plus = Term {
        coef: one(),
        mono: x,
    };
    let minus = Term {
        coef: minus_one(),
        mono: y,
    };
    let terms = in_order(alloc, order, plus, minus)?;
    Ok(Poly::from_descending(terms))
}

/// The generators that `first` stands for, by the twelve numbers behind it.
///
/// # Errors
///
/// Want of memory alone.
pub fn generators(alloc: Global, first: u64) -> Result<Vec<Poly>, AllocError>
    requires { first < 2147483647 }
    ensures { IfOk result (λ fs. fs.items ≡ generated_set first) }
{
    let f = difference(
        alloc,
        [1 + rest(first, 1), 0, rest(first, 2), rest(first, 3)],
        [0, 1 + rest(first, 4), 0, 0],
    )?;
    let g = difference(
        alloc,
        [rest(first, 7), 1 + rest(first, 5), 0, rest(first, 6)],
        [0, 0, 1 + rest(first, 8), 0],
    )?;
    let h = difference(
        alloc,
        [rest(first, 10), rest(first, 11), 1 + rest(first, 9), 0],
        [0, 0, 0, 1 + rest(first, 12)],
    )?;
    Ok(vec![in alloc; f, g, h]?)
}
