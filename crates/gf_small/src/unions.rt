//! The union of sets of polynomials.
ghost use Rattle.std.specs.Prelude.{◌≡◌, ◌++◌, ◌∷◌, [], ℕ, List, All, IfOk, OnOk};
ghost use Rattle.gf_int_theory.specs.Range.{InRange};
ghost use Rattle.gf_poly.specs.Polynomial.{IsDescending};
ghost use Rattle.gf_text.specs.declared.written.Written.{Written as AnyWritten};
ghost use Rattle.gf_text.specs.Sets.{AreIn};
ghost use Rattle.gf_text.specs.SetLists.{sets_in, AreAllIn};
ghost use Rattle.gf_small.specs.Unions.{terms_of, AreFirstSeen, IsUnion, HaveOneLength};
ghost use Rattle.gf_small.specs.Keys.{term_key, terms_key, AreKeyed};

use gf_poly::Term;
use gf_text::Written;
use gf_vec::IntVec;
use indexmap::IndexSet;
use std::alloc::{AllocError, Global};

/// Adds a number to a key.
fn push_number(key: &mut Vec<i128>, number: i128) -> Result<(), AllocError>
    requires range { All InRange key.old.items }
    requires number { InRange number }
    ensures items { OnOk result (key.new.items ≡ key.old.items ++ number ∷ []) }
    ensures range { OnOk result (All InRange key.new.items) }
{
    key.push(number)?;
    Ok(())
}

/// Adds the numbers of a term to a key: the numerator and the denominator of its coefficient, and its exponents.
fn push_term(key: &mut Vec<i128>, t: &Term) -> Result<(), AllocError>
    requires { All InRange key.old.items }
    ensures items { OnOk result (key.new.items ≡ key.old.items ++ term_key t.now) }
    ensures range { OnOk result (All InRange key.new.items) }
{
    push_number(key, t.coef.numer())?;
    push_number(key, t.coef.denom())?;
    let exponents = t.mono.exponents();
    'exponents: for i in 0..exponents.len() {
        push_number(key, i128::from(exponents[i]))?;
    }
    Ok(())
}

/// The numbers of the terms, one term after another: the key of a polynomial.
fn terms_key(alloc: Global, f: &[Term]) -> Result<IntVec, AllocError>
    ensures { IfOk result (λ k. k ≡ terms_key f.now) }
{
    let mut key = Vec::new(alloc);
    'terms: for i in 0..f.len() {
        push_term(&mut key, &f[i])?;
    }
    Ok(IntVec::from_vec(key))
}

/// The key of a polynomial that may be zero. Two polynomials in the same number of variables are equal if and only if their keys are; marks
/// don't matter.
fn key(alloc: Global, w: &Written) -> Result<IntVec, AllocError>
    ensures value { IfOk result (λ k. k ≡ terms_key (terms_of w.now)) }
    ensures descending { IfOk result (λ _. IsDescending (terms_of w.now)) }
{
    match w {
        Written::Zero => terms_key(alloc, &[]),
        Written::Nonzero(b) => terms_key(alloc, b.poly().terms()),
    }
}

/// A copy of the polynomial, with the same mark.
fn copied(w: &Written) -> Result<Written, AllocError>
    ensures { IfOk result (λ v. v ≡ w.now) }
{
    match w {
        Written::Zero => Ok(Written::Zero),
        Written::Nonzero(b) => {
            let b = b.copy()?;
            Ok(Written::Nonzero(b))
        }
    }
}

/// Adds each polynomial of a set that isn't equal to one of those that are kept already, whose keys are given.
fn add_new(
    alloc: Global,
    kept: &mut Vec<Written>,
    keys: &mut IndexSet<IntVec>,
    set: &[Written],
) -> Result<(), AllocError>
    requires variables { (n : ℕ) × (AreIn n kept.old.items × AreIn n set.now) }
    requires keyed { AreKeyed kept.old.items keys.old.keys }
    ensures first_seen { OnOk result ((fs : List AnyWritten) → AreFirstSeen fs kept.old.items → AreFirstSeen (fs ++ set.now) kept.new.items) }
    ensures variables { OnOk result ((n : ℕ) → AreIn n kept.old.items → AreIn n set.now → AreIn n kept.new.items) }
    ensures keyed { OnOk result (AreKeyed kept.new.items keys.new.keys) }
{
    'polynomials: for i in 0..set.len() {
        let w = &set[i];
        if keys.insert(key(alloc, w)?)? {
            kept.push(copied(w)?)?;
        }
    }
    Ok(())
}

/// The union of sets of polynomials in the same variables: the polynomials of the sets, one set after another, but of equal polynomials
/// only the first, with its mark.
///
/// # Errors
///
/// Only when memory runs out.
pub fn union(alloc: Global, sets: &[Vec<Written>]) -> Result<Vec<Written>, AllocError>
    requires { HaveOneLength (sets_in sets.now) }
    ensures value { IfOk result (λ kept. IsUnion (sets_in sets.now) kept.items) }
    ensures variables { IfOk result (λ kept. (n : ℕ) → AreAllIn n (sets_in sets.now) → AreIn n kept.items) }
{
    let mut kept = Vec::new(alloc);
    let mut keys = IndexSet::new(alloc);
    'sets: for i in 0..sets.len() {
        add_new(alloc, &mut kept, &mut keys, sets[i].as_slice())?;
    }
    Ok(kept)
}
