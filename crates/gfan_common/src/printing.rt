//! Texts that several commands print.
ghost use Rattle.std.specs.Prelude.{◌≡◌, ◌++◌, ◌∷◌, [], All, flat_map, length, IfOk, OnOk};
ghost use Rattle.gf_text.specs.PrintedSets.{polynomial_text};
ghost use Rattle.gf_text.specs.Sets.{AreIn};
ghost use Rattle.gf_text.specs.WrittenText.{polynomials_text};
ghost use Rattle.gfan_common.specs.Printing.{count_line, verdict_text, IsPrinted, IsPrintedSet, IsPrintedList, later_set_text, sets_text};

use gf_poly::MarkedSet;
use gf_text::{Printer, Ring, Written};
use itoa::Buffer;
use std::alloc::{AllocError, Global};

/// The text `1` if `holds`, else `0`, and a line end.
///
/// # Errors
///
/// Only when memory runs out.
pub fn verdict(alloc: Global, holds: bool) -> Result<Vec<u8>, AllocError>
    ensures { IfOk result (λ text. text.items ≡ verdict_text holds) }
{
    let mut text = Vec::with_capacity(alloc, 2)?;
    text.push(if holds { b'1' } else { b'0' })?;
    text.push(b'\n')?;
    Ok(text)
}

/// The text of a ring in a line, then of a marked set in its variables, and a line end.
///
/// # Errors
///
/// Only when memory runs out.
pub fn printed(alloc: Global, ring: &Ring, set: &MarkedSet) -> Result<Vec<u8>, AllocError>
    requires { set.now.variables ≡ length ring.now }
    ensures { IfOk result (λ text. IsPrinted ring.now set.now text.items) }
{
    let mut text = Vec::new(alloc);
    Printer::ring(&mut text, ring)?;
    Printer::basis(&mut text, ring, set)?;
    text.push(b'\n')?;
    Ok(text)
}

/// Adds polynomials, each after a comma and a line end.
fn push_later_polynomials(
    text: &mut Vec<u8>,
    ring: &Ring,
    polynomials: &[Written],
) -> Result<(), AllocError>
    requires { AreIn (length ring.now) polynomials.now }
    ensures { OnOk result (text.new.items ≡ text.old.items ++ flat_map (λ v. 44 ∷ 10 ∷ polynomial_text ring.now v) polynomials.now) }
{
    'polynomials: for polynomial in polynomials {
        text.extend_from_slice(b",\n")?;
        Printer::poly(text, ring, polynomial)?;
    }
    Ok(())
}

/// Adds polynomials with a comma and a line end between them.
fn push_polynomials(
    text: &mut Vec<u8>,
    ring: &Ring,
    polynomials: &[Written],
) -> Result<(), AllocError>
    requires { AreIn (length ring.now) polynomials.now }
    ensures { OnOk result (text.new.items ≡ text.old.items ++ polynomials_text (10 ∷ []) ring.now polynomials.now) }
{
    if let [first, later @ ..] = polynomials {
        Printer::poly(text, ring, first)?;
        push_later_polynomials(text, ring, later)?;
    }
    Ok(())
}

/// The text of a ring in a line, then of the set of these polynomials in its variables, one a line, and a line end. Polynomials may be
/// zero.
///
/// # Errors
///
/// Only when memory runs out.
pub fn printed_set(
    alloc: Global,
    ring: &Ring,
    polynomials: &[Written],
) -> Result<Vec<u8>, AllocError>
    requires { AreIn (length ring.now) polynomials.now }
    ensures { IfOk result (λ text. IsPrintedSet ring.now polynomials.now text.items) }
{
    let mut text = Vec::new(alloc);
    Printer::ring(&mut text, ring)?;
    text.extend_from_slice(b"{\n")?;
    push_polynomials(&mut text, ring, polynomials)?;
    text.extend_from_slice(b"}\n")?;
    Ok(text)
}

/// Adds sets, with a comma on a line of its own before each.
fn push_later_sets(text: &mut Vec<u8>, ring: &Ring, sets: &[MarkedSet]) -> Result<(), AllocError>
    requires { All (λ s. s.variables ≡ length ring.now) sets.now }
    ensures { OnOk result (text.new.items ≡ text.old.items ++ flat_map (later_set_text ring.now) sets.now) }
{
    'sets: for set in sets {
        text.extend_from_slice(b"\n,\n")?;
        Printer::basis(text, ring, set)?;
    }
    Ok(())
}

/// Adds sets, with a comma on a line of its own between them.
fn push_sets(text: &mut Vec<u8>, ring: &Ring, sets: &[MarkedSet]) -> Result<(), AllocError>
    requires { All (λ s. s.variables ≡ length ring.now) sets.now }
    ensures { OnOk result (text.new.items ≡ text.old.items ++ sets_text ring.now sets.now) }
{
    if let [first, later @ ..] = sets {
        Printer::basis(text, ring, first)?;
        push_later_sets(text, ring, later)?;
    }
    Ok(())
}

/// The text of a ring in a line, then of a list of marked sets in its variables, in braces and with a comma on a line of its own between
/// them, and a line end.
///
/// # Errors
///
/// Only when memory runs out.
pub fn printed_list(alloc: Global, ring: &Ring, sets: &[MarkedSet]) -> Result<Vec<u8>, AllocError>
    requires { All (λ s. s.variables ≡ length ring.now) sets.now }
    ensures { IfOk result (λ text. IsPrintedList ring.now sets.now text.items) }
{
    let mut text = Vec::new(alloc);
    Printer::ring(&mut text, ring)?;
    text.push(b'{')?;
    push_sets(&mut text, ring, sets)?;
    text.push(b'}')?;
    text.push(b'\n')?;
    Ok(text)
}

/// Adds a line: a label, and the number in decimal digits.
///
/// # Errors
///
/// Only when memory runs out.
pub fn push_line(text: &mut Vec<u8>, label: &str, n: u128) -> Result<(), AllocError>
    ensures { OnOk result (text.new.items ≡ text.old.items ++ count_line label.now n) }
{
    text.extend_from_slice(label.as_bytes())?;
    let mut buffer = Buffer::new();
    text.extend_from_slice(buffer.format(n).as_bytes())?;
    text.push(b'\n')?;
    Ok(())
}
