//! The writing of polynomials and sets, to any sink.
ghost use Rattle.std.specs.Prelude.{◌≡◌, ◌∷◌, flat_map, length};
ghost use Rattle.gf_poly.specs.Polynomial.{HasVariables};
ghost use Rattle.gf_poly.specs.Marking.{HaveVariables};
ghost use Rattle.gf_text.specs.PrintedSets.{other_text, marked_text, members_text};
ghost use Rattle.gf_text.specs.Told.{Told};

use crate::names::Ring;
use crate::term_printer::{write_term, write_text};
use gf_outside::{Sink, WriteFault};
use gf_poly::{Marked, Term};

/// Writes a term, unless it is at the marked monomial.
fn write_other<E: Sink>(
    sink: &mut E,
    ring: &Ring,
    head: &[u32],
    term: &Term,
) -> Result<(), WriteFault>
    requires { length term.now.mono ≡ length ring.now }
    ensures { Told (E.held sink.old) (E.held sink.new) (E.faults sink.old) (E.faults sink.new)
        (other_text ring.now head.now term.now) result }
{
    if term.mono.exponents() == head {
        return Ok(());
    }
    write_term(sink, "+", ring, term)
}

/// Writes the terms that aren't at the marked monomial.
fn write_others<E: Sink>(
    sink: &mut E,
    ring: &Ring,
    head: &[u32],
    terms: &[Term],
) -> Result<(), WriteFault>
    requires { HasVariables (length ring.now) terms.now }
    ensures { Told (E.held sink.old) (E.held sink.new) (E.faults sink.old) (E.faults sink.new)
        (flat_map (other_text ring.now head.now) terms.now) result }
{
    for term in terms {
        write_other(sink, ring, head, term)?;
    }
    Ok(())
}

/// Writes a polynomial: the marked term first, then the others.
pub(crate) fn write_marked<E: Sink>(
    sink: &mut E,
    ring: &Ring,
    marked: &Marked,
) -> Result<(), WriteFault>
    requires { HasVariables (length ring.now) marked.now.poly }
    ensures { Told (E.held sink.old) (E.held sink.new) (E.faults sink.old) (E.faults sink.new)
        (marked_text ring.now marked.now) result }
{
    let terms = marked.poly().terms();
    let head = &terms[marked.index()];
    write_term(sink, "", ring, head)?;
    write_others(sink, ring, head.mono.exponents(), terms)
}

/// Writes a polynomial behind a comma and a line end.
fn write_next<E: Sink>(sink: &mut E, ring: &Ring, marked: &Marked) -> Result<(), WriteFault>
    requires { HasVariables (length ring.now) marked.now.poly }
    ensures { Told (E.held sink.old) (E.held sink.new) (E.faults sink.old) (E.faults sink.new)
        (44 ∷ 10 ∷ marked_text ring.now marked.now) result }
{
    write_text(sink, ",\n")?;
    write_marked(sink, ring, marked)
}

/// Writes polynomials, each behind a comma and a line end.
fn write_more<E: Sink>(sink: &mut E, ring: &Ring, items: &[Marked]) -> Result<(), WriteFault>
    requires { HaveVariables (length ring.now) items.now }
    ensures { Told (E.held sink.old) (E.held sink.new) (E.faults sink.old) (E.faults sink.new)
        (flat_map (λ k. 44 ∷ 10 ∷ marked_text ring.now k) items.now) result }
{
    for marked in items {
        write_next(sink, ring, marked)?;
    }
    Ok(())
}

/// Writes polynomials with a comma and a line end between them.
pub(crate) fn write_members<E: Sink>(
    sink: &mut E,
    ring: &Ring,
    items: &[Marked],
) -> Result<(), WriteFault>
    requires { HaveVariables (length ring.now) items.now }
    ensures { Told (E.held sink.old) (E.held sink.new) (E.faults sink.old) (E.faults sink.new)
        (members_text ring.now items.now) result }
{
    let [first, rest @ ..] = items else {
        return Ok(());
    };
    write_marked(sink, ring, first)?;
    write_more(sink, ring, rest)
}
