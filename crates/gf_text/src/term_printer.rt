//! The writing of numbers, powers and terms, to any sink. Only a sink may take memory.
ghost use Rattle.std.specs.Prelude.{◌≡◌, ◌||◌, ◌==◌, ◌++◌, not, length, decimal, IfOk, flat_map, if◌then◌else◌, codes};
ghost use Rattle.std.specs.Fmt.{signed_decimal};
ghost use Rattle.gf_poly.specs.Polynomial.{HasVariables};
ghost use Rattle.gf_text.specs.PrintedText.{over_text, times_text, raised_text, next_text, powers, left_text, size_text, fraction_text, monomial_text, is_unit};
ghost use Rattle.gf_text.specs.PrintedText.{is_below_zero, unsigned_text, later_text, terms_text};
ghost use Rattle.gf_text.specs.Told.{Told};

use crate::names::Ring;
use gf_frac::Frac;
use gf_outside::{Sink, WriteFault, write_all};
use gf_poly::{Mono, Poly, Term};
use itoa::Buffer;

/// Writes bytes. Most pieces are one byte or two, the names and exponents of small rings: such a piece is offered with its length known, since the copy of
/// a piece of unknown length is a call.
fn write_bytes<E: Sink>(sink: &mut E, bytes: &[u8]) -> Result<(), WriteFault>
    ensures { Told (E.held sink.old) (E.held sink.new) (E.faults sink.old) (E.faults sink.new) bytes.now
        result }
{
    match bytes {
        [byte] => write_all(sink, &[*byte]),
        [first, second] => write_all(sink, &[*first, *second]),
        _ => write_all(sink, bytes),
    }
}

/// Writes a text.
///
/// # Errors
/// `WriteFault` only where the sink counted one more fault; what was written is a prefix of the text then.
pub fn write_text<E: Sink>(sink: &mut E, text: &str) -> Result<(), WriteFault>
    ensures { Told (E.held sink.old) (E.held sink.new) (E.faults sink.old) (E.faults sink.new) text.now
        result }
{
    write_bytes(sink, text.as_bytes())
}

/// Writes a number in decimal.
///
/// # Errors
/// `WriteFault` only where the sink counted one more fault; what was written is a prefix of the text then.
pub fn write_number<E: Sink>(sink: &mut E, n: u128) -> Result<(), WriteFault>
    ensures { Told (E.held sink.old) (E.held sink.new) (E.faults sink.old) (E.faults sink.new)
        (decimal n) result }
{
    let mut buffer = Buffer::new();
    write_bytes(sink, buffer.format(n).as_bytes())
}

/// Writes a whole number in decimal, with a minus where it is below zero.
///
/// # Errors
/// `WriteFault` only where the sink counted one more fault; what was written is a prefix of the text then.
pub fn write_whole<E: Sink>(sink: &mut E, n: i128) -> Result<(), WriteFault>
    ensures { Told (E.held sink.old) (E.held sink.new) (E.faults sink.old) (E.faults sink.new)
        (signed_decimal n) result }
{
    let mut buffer = Buffer::new();
    write_bytes(sink, buffer.format(n).as_bytes())
}

/// Writes a denominator with a `/` before it, unless it is 1.
fn write_over<E: Sink>(sink: &mut E, denominator: u128) -> Result<(), WriteFault>
    ensures { Told (E.held sink.old) (E.held sink.new) (E.faults sink.old) (E.faults sink.new)
        (over_text denominator) result }
{
    if denominator == 1 {
        return Ok(());
    }
    write_text(sink, "/")?;
    write_number(sink, denominator)
}

/// Writes a fraction: p or p/q.
///
/// # Errors
/// `WriteFault` only where the sink counted one more fault; what was written is a prefix of the text then.
pub fn write_fraction<E: Sink>(sink: &mut E, fraction: &Frac) -> Result<(), WriteFault>
    ensures { Told (E.held sink.old) (E.held sink.new) (E.faults sink.old) (E.faults sink.new)
        (fraction_text fraction.now) result }
{
    write_whole(sink, fraction.numer())?;
    write_over(sink, fraction.denom().unsigned_abs())
}

/// Writes a `*` where something stands before.
fn write_times<E: Sink>(sink: &mut E, some: bool) -> Result<(), WriteFault>
    ensures { Told (E.held sink.old) (E.held sink.new) (E.faults sink.old) (E.faults sink.new)
        (times_text some) result }
{
    if some { write_text(sink, "*") } else { Ok(()) }
}

/// Writes an exponent with a `^` before it, unless it is 1.
fn write_raised<E: Sink>(sink: &mut E, exponent: u32) -> Result<(), WriteFault>
    ensures { Told (E.held sink.old) (E.held sink.new) (E.faults sink.old) (E.faults sink.new)
        (raised_text exponent) result }
{
    if exponent == 1 {
        return Ok(());
    }
    write_text(sink, "^")?;
    write_number(sink, u128::from(exponent))
}

/// Writes a power where the exponent isn't 0, with a `*` before it where something stands before; whether something
/// stands before what follows.
fn write_power<E: Sink>(
    sink: &mut E,
    some: bool,
    name: &[u8],
    exponent: u32,
) -> Result<bool, WriteFault>
    ensures text { Told (E.held sink.old) (E.held sink.new) (E.faults sink.old) (E.faults sink.new)
        (next_text some name.now exponent) result }
    ensures some { IfOk result (λ b. b ≡ (some || not (exponent == 0))) }
{
    if exponent == 0 {
        return Ok(some);
    }
    write_times(sink, some)?;
    write_bytes(sink, name)?;
    write_raised(sink, exponent)?;
    Ok(true)
}

/// Writes the powers of a monomial with a `*` before each where something stands before them; else these powers joined
/// by `*`, or 1 where there are none.
fn write_powers<E: Sink>(
    sink: &mut E,
    before: bool,
    ring: &Ring,
    monomial: &Mono,
) -> Result<(), WriteFault>
    requires { length monomial.now ≡ length ring.now }
    ensures { Told (E.held sink.old) (E.held sink.new) (E.faults sink.old) (E.faults sink.new)
        (left_text before (powers ring.now monomial.now)) result }
{
    let exponents = monomial.exponents();
    let mut some = before;
    'powers: for i in 0..exponents.len() {
        some = write_power(sink, some, ring.name(i), exponents[i])?;
    }
    if some { Ok(()) } else { write_text(sink, "1") }
}

/// Writes a monomial: its powers joined by `*`, or 1 where it has none.
///
/// # Errors
/// `WriteFault` only where the sink counted one more fault; what was written is a prefix of the text then.
pub fn write_monomial<E: Sink>(sink: &mut E, ring: &Ring, monomial: &Mono) -> Result<(), WriteFault>
    requires { length monomial.now ≡ length ring.now }
    ensures { Told (E.held sink.old) (E.held sink.new) (E.faults sink.old) (E.faults sink.new)
        (monomial_text ring.now monomial.now) result }
{
    write_powers(sink, false, ring, monomial)
}

/// A minus below zero, and `plus` elsewhere.
fn sign_text<'a>(coefficient: &Frac, plus: &'a str) -> &'a str
    ensures { result.now ≡ (if is_below_zero coefficient.now.num then codes "-" else plus.now) }
{
    if coefficient.numer() < 0 { "-" } else { plus }
}

/// Whether a coefficient is 1 or -1.
fn is_unit(coefficient: &Frac) -> bool
    ensures { result ≡ is_unit coefficient.now }
{
    coefficient.numer().unsigned_abs() == 1 && coefficient.denom().unsigned_abs() == 1
}

/// Writes the size of a coefficient: p or p/q.
fn write_size<E: Sink>(sink: &mut E, coefficient: &Frac) -> Result<(), WriteFault>
    ensures { Told (E.held sink.old) (E.held sink.new) (E.faults sink.old) (E.faults sink.new)
        (size_text coefficient.now) result }
{
    write_number(sink, coefficient.numer().unsigned_abs())?;
    write_over(sink, coefficient.denom().unsigned_abs())
}

/// Writes a term without its sign: the size of its coefficient and its powers, joined by `*`; a 1 is left out where
/// there is a power.
fn write_unsigned<E: Sink>(sink: &mut E, ring: &Ring, term: &Term) -> Result<(), WriteFault>
    requires { length term.now.mono ≡ length ring.now }
    ensures { Told (E.held sink.old) (E.held sink.new) (E.faults sink.old) (E.faults sink.new)
        (unsigned_text ring.now term.now.coef term.now.mono) result }
{
    if is_unit(&term.coef) {
        return write_monomial(sink, ring, &term.mono);
    }
    write_size(sink, &term.coef)?;
    write_powers(sink, true, ring, &term.mono)
}

/// Writes a term, with `plus` before it where its coefficient isn't below zero.
pub(crate) fn write_term<E: Sink>(
    sink: &mut E,
    plus: &str,
    ring: &Ring,
    term: &Term,
) -> Result<(), WriteFault>
    requires { length term.now.mono ≡ length ring.now }
    ensures { Told (E.held sink.old) (E.held sink.new) (E.faults sink.old) (E.faults sink.new)
        ((if is_below_zero term.now.coef.num then codes "-" else plus.now)
        ++ unsigned_text ring.now term.now.coef term.now.mono) result }
{
    write_text(sink, sign_text(&term.coef, plus))?;
    write_unsigned(sink, ring, term)
}

/// Writes the terms behind the first, each with its sign.
fn write_later_terms<E: Sink>(sink: &mut E, ring: &Ring, terms: &[Term]) -> Result<(), WriteFault>
    requires { HasVariables (length ring.now) terms.now }
    ensures { Told (E.held sink.old) (E.held sink.new) (E.faults sink.old) (E.faults sink.new)
        (flat_map (λ t. later_text ring.now t.coef t.mono) terms.now) result }
{
    for term in terms {
        write_term(sink, "+", ring, term)?;
    }
    Ok(())
}

/// Writes a polynomial, its terms as they stand; the zero polynomial is `0`.
///
/// # Errors
/// `WriteFault` only where the sink counted one more fault; what was written is a prefix of the text then.
pub fn write_terms<E: Sink>(sink: &mut E, ring: &Ring, poly: &Poly) -> Result<(), WriteFault>
    requires { HasVariables (length ring.now) poly.now }
    ensures { Told (E.held sink.old) (E.held sink.new) (E.faults sink.old) (E.faults sink.new)
        (terms_text ring.now poly.now) result }
{
    let [first, rest @ ..] = poly.terms() else {
        return write_text(sink, "0");
    };
    write_term(sink, "", ring, first)?;
    write_later_terms(sink, ring, rest)
}
