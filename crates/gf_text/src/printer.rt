//! The writing of rings, polynomials and vectors.
ghost use Rattle.std.specs.Prelude.{◌≡◌, ℕ, List, Some, ◌++◌, ◌∷◌, OnOk, OnErr, decimal, flat_map, length};
ghost use Rattle.gf_poly.specs.Polynomial.{HasVariables};
ghost use Rattle.gf_text.specs.RingText.{ring_text, names_text, IsRingText};
ghost use Rattle.gf_text.specs.Rings.{RingsAreReadAgain};
ghost use Rattle.gf_text.specs.Machine.{HasOneMeaning};
ghost use Rattle.gf_text.specs.PrintedSets.{polynomial_text, basis_text};
ghost use Rattle.gf_text.specs.Sets.{IsIn};
ghost use Rattle.gf_text.specs.Told.{Told};
ghost use Rattle.gf_text.specs.VectorText.{entry_text, vector_text};
ghost use Rattle.gf_text.specs.Vectors.{VectorsAreReadAgain};
ghost use Rattle.gf_text.specs.WrittenText.{SetsHaveOneMeaning, SetsAreReadInOneWay, SetsAreReadAgain, BasesAreReadAgain, IsTermInRange, AreInRange};
ghost use Rattle.gf_text.specs.WrittenText.{IsKeptMarked, IsWrittenKept, AreKept};

use crate::names::{Name, Ring};
use crate::set_printer::{write_marked, write_members};
use crate::term_printer::{write_number, write_text};
use crate::vector_printer::{write_entry, write_vector};
use crate::written::Written;
use gf_outside::{Sink, WriteFault};
use gf_poly::{Marked, MarkedSet, Term};
use gf_vec::IntVec;
use std::alloc::AllocError;

/// Writes rings, polynomials and vectors behind what a vector of bytes holds.
#[derive(Clone, Copy, Debug)]
pub struct Printer;

/// Adds names with a comma before each.
fn push_more(out: &mut Vec<u8>, names: &[Name]) -> Result<(), AllocError>
    ensures { OnOk result (out.new.items ≡ out.old.items ++ flat_map (λ m. 44 ∷ m) names.now) }
{
    for name in names {
        out.push(b',')?;
        out.extend_from_slice(name.as_slice())?;
    }
    Ok(())
}

/// Adds names with commas between them.
fn push_names(out: &mut Vec<u8>, names: &[Name]) -> Result<(), AllocError>
    ensures { OnOk result (out.new.items ≡ out.old.items ++ names_text names.now) }
{
    if let [first, rest @ ..] = names {
        out.extend_from_slice(first.as_slice())?;
        push_more(out, rest)?;
    }
    Ok(())
}

/// Writes a polynomial; the zero polynomial is `0`.
fn write_polynomial<E: Sink>(sink: &mut E, ring: &Ring, poly: &Written) -> Result<(), WriteFault>
    requires { IsIn (length ring.now) poly.now }
    ensures { Told (E.held sink.old) (E.held sink.new) (E.faults sink.old) (E.faults sink.new)
        (polynomial_text ring.now poly.now) result }
{
    match poly {
        Written::Zero => write_text(sink, "0"),
        Written::Nonzero(marked) => write_marked(sink, ring, marked),
    }
}

/// Writes polynomials between braces.
fn write_basis<E: Sink>(sink: &mut E, ring: &Ring, set: &MarkedSet) -> Result<(), WriteFault>
    requires { set.now.variables ≡ length ring.now }
    ensures { Told (E.held sink.old) (E.held sink.new) (E.faults sink.old) (E.faults sink.new)
        (basis_text ring.now set.now.items) result }
{
    write_text(sink, "{\n")?;
    write_members(sink, ring, set.items())?;
    write_text(sink, "}")
}

/// What was written to a vector of bytes of this length stays there whole, or is taken back.
fn settled(
    out: &mut Vec<u8>,
    before: usize,
    written: Result<(), WriteFault>,
) -> Result<(), AllocError>
    ensures ok { (held text : List ℕ) (m n : ℕ) → Told (Some held) (Some out.old.items) m n text written
        → OnOk result (out.new.items ≡ held ++ text) }
    ensures err { (held text : List ℕ) (m n : ℕ) → before ≡ length held
        → Told (Some held) (Some out.old.items) m n text written → OnErr result (out.new.items ≡ held) }
{
    if written.is_ok() {
        return Ok(());
    }
    out.truncate(before);
    Err(AllocError)
}

/// Adds a number in decimal.
///
/// # Errors
/// Want of memory.
pub fn push_number(out: &mut Vec<u8>, n: u128) -> Result<(), AllocError>
    ensures { OnOk result (out.new.items ≡ out.old.items ++ decimal n) }
{
    let before = out.len();
    let written = write_number(out, n);
    settled(out, before, written)
}

/// Adds an entry in decimal digits, behind a minus where it is below zero.
///
/// # Errors
/// Want of memory.
pub fn push_entry(out: &mut Vec<u8>, entry: i128) -> Result<(), AllocError>
    ensures { OnOk result (out.new.items ≡ out.old.items ++ entry_text entry) }
{
    let before = out.len();
    let written = write_entry(out, "", &entry);
    settled(out, before, written)
}

impl Printer {
    /// Adds the line of a ring: `Q[`, its names joined by commas, `]` and a line end.
    ///
    /// # Errors
    /// Where memory runs out; then the vector is as before.
    pub fn ring(out: &mut Vec<u8>, ring: &Ring) -> Result<(), AllocError>
        ensures ok { OnOk result (out.new.items ≡ out.old.items ++ ring_text ring.now) }
        ensures err { OnErr result (out.new.items ≡ out.old.items) }
    {
        let mut text = Vec::from_slice(*out.allocator(), b"Q[")?;
        push_names(&mut text, ring.names())?;
        text.extend_from_slice(b"]\n")?;
        out.extend_from_slice(&text)
    }

    /// Adds a polynomial in the ring's variables: the marked term first, then the others, descending in deglex; the
    /// zero polynomial is `0`.
    ///
    /// # Errors
    /// Where memory runs out; then the vector is as before.
    pub fn poly(out: &mut Vec<u8>, ring: &Ring, poly: &Written) -> Result<(), AllocError>
        requires { IsIn (length ring.now) poly.now }
        ensures ok { OnOk result (out.new.items ≡ out.old.items ++ polynomial_text ring.now poly.now) }
        ensures err { OnErr result (out.new.items ≡ out.old.items) }
    {
        let before = out.len();
        let written = write_polynomial(out, ring, poly);
        settled(out, before, written)
    }

    /// Adds a basis in the ring's variables: a brace and a line end, its members in their order with a comma and a line
    /// end between them, a brace.
    ///
    /// # Errors
    /// Where memory runs out; then the vector is as before.
    pub fn basis(out: &mut Vec<u8>, ring: &Ring, set: &MarkedSet) -> Result<(), AllocError>
        requires { set.now.variables ≡ length ring.now }
        ensures ok { OnOk result (out.new.items ≡ out.old.items ++ basis_text ring.now set.now.items) }
        ensures err { OnErr result (out.new.items ≡ out.old.items) }
    {
        let before = out.len();
        let written = write_basis(out, ring, set);
        settled(out, before, written)
    }

    /// Adds a vector: `(`, its entries joined by `,`, `)`.
    ///
    /// # Errors
    /// Where memory runs out; then the vector of bytes is as before.
    pub fn vector(out: &mut Vec<u8>, vector: &IntVec) -> Result<(), AllocError>
        ensures ok { OnOk result (out.new.items ≡ out.old.items ++ vector_text vector.now) }
        ensures err { OnErr result (out.new.items ≡ out.old.items) }
    {
        let before = out.len();
        let written = write_vector(out, vector);
        settled(out, before, written)
    }
}

/// A printed vector whose entries are at most `2^63 - 1` in absolute value is read again as what it is, wherever it stands
/// and whatever follows it.
pub fn vectors_are_read_again()
    ensures { VectorsAreReadAgain }
{}

/// A printed ring is read again as what it is, wherever it stands and whatever follows it.
pub fn rings_are_read_again()
    ensures { RingsAreReadAgain }
{}

/// A text is the text of one ring at most.
pub fn rings_have_one_meaning()
    ensures { HasOneMeaning IsRingText }
{}

/// A text is the text of one set at most.
pub fn sets_have_one_meaning()
    ensures { SetsHaveOneMeaning }
{}

/// At a place of a source a set is read in one way at most, and where it is read it is refused but for memory.
pub fn sets_are_read_in_one_way()
    ensures { SetsAreReadInOneWay }
{}

/// The numbers of a term are in range.
fn term_is_in_range(term: &Term)
    ensures { IsTermInRange term.now }
{
    // The accessors' clauses say it.
    let _numerator = term.coef.numer();
    let _denominator = term.coef.denom();
    let _exponents = term.mono.exponents();
}

/// Those of each term are.
pub(crate) fn terms_are_in_range(terms: &[Term])
    ensures { AreInRange terms.now }
{
    'terms: for term in terms {
        term_is_in_range(term);
    }
}

/// A marked polynomial is one of those of which `sets_are_read_again` speaks.
fn marked_is_kept(marked: &Marked)
    ensures { (n : ℕ) → HasVariables n marked.now.poly → IsKeptMarked n marked.now }
{
    // The terms descend: the accessor says so.
    let _head = marked.head();
    terms_are_in_range(marked.poly().terms());
}

/// Each marked set is one of those of which `sets_are_read_again` speaks.
pub fn marked_sets_are_kept(set: &MarkedSet)
    ensures { AreKept set.now.variables set.now.items }
{
    'items: for marked in set.items() {
        marked_is_kept(marked);
    }
}

/// So is each polynomial that is read or made.
pub fn polynomials_are_kept(poly: &Written)
    ensures { (n : ℕ) → IsIn n poly.now → IsWrittenKept n poly.now }
{
    if let Written::Nonzero(marked) = poly {
        marked_is_kept(marked);
    }
}

/// Printed polynomials and bases are read again as what they are, with their marks, wherever they stand and whatever
/// follows them.
pub fn sets_are_read_again()
    ensures sets { SetsAreReadAgain }
    ensures bases { BasesAreReadAgain }
{}
