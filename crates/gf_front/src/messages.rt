//! What each refusal says that names something, with its number. Nothing here takes memory.
ghost use Rattle.std.specs.Prelude.{◌≡◌, [], length};
ghost use Rattle.gf_poly.specs.Polynomial.{HasVariables};
ghost use Rattle.gf_text.specs.Told.{Told};
ghost use Rattle.gf_front.specs.Lines.{message};

use crate::pieces::{Piece, write_numbered, write_pieces};
use crate::refusal::Refusal;
use gf_frac::Overflow;
use gf_outside::{Sink, WriteFault};
use gf_poly::{ExponentOverflow, MarkedSet, Mono, Pairs, Poly};
use gf_text::{Ring, Section, Syntax};
use gf_vec::{IntVec, VecOp, WideVector};

pub(crate) fn wide_vector<E: Sink>(faults: &mut E, wide: &WideVector) -> Result<(), WriteFault>
    ensures { Told (E.held faults.old) (E.held faults.new) (E.faults faults.old) (E.faults faults.new)
        (message [] (Refusal.WideVector wide.now)) result }
{
    write_pieces(
        faults,
        &[
            Piece::Text("E4 vector overflow: "),
            Piece::Whole(wide.left),
            Piece::VecOp(wide.op),
            Piece::Whole(wide.right),
        ],
    )
}

pub(crate) fn overflow<E: Sink>(faults: &mut E, o: &Overflow) -> Result<(), WriteFault>
    ensures { Told (E.held faults.old) (E.held faults.new) (E.faults faults.old) (E.faults faults.new)
        (message [] (Refusal.Overflow o.now)) result }
{
    write_pieces(
        faults,
        &[
            Piece::Text("E5 overflow: "),
            Piece::Fraction(&o.left),
            Piece::Op(o.op),
            Piece::Fraction(&o.right),
        ],
    )
}

pub(crate) fn exponent_overflow<E: Sink>(
    faults: &mut E,
    o: &ExponentOverflow,
) -> Result<(), WriteFault>
    ensures { Told (E.held faults.old) (E.held faults.new) (E.faults faults.old) (E.faults faults.new)
        (message [] (Refusal.ExponentOverflow o.now)) result }
{
    write_pieces(
        faults,
        &[
            Piece::Text("E6 exponent overflow: "),
            Piece::Number(o.left),
            Piece::Text(" + "),
            Piece::Number(o.right),
        ],
    )
}

pub(crate) fn not_term_order<E: Sink>(faults: &mut E, index: u32) -> Result<(), WriteFault>
    ensures { Told (E.held faults.old) (E.held faults.new) (E.faults faults.old) (E.faults faults.new)
        (message [] (Refusal.NotTermOrder index)) result }
{
    write_pieces(
        faults,
        &[
            Piece::Text("E7 no term order: weight "),
            Piece::Index(index),
        ],
    )
}

pub(crate) fn syntax<E: Sink>(faults: &mut E, fault: &Syntax) -> Result<(), WriteFault>
    ensures { Told (E.held faults.old) (E.held faults.new) (E.faults faults.old) (E.faults faults.new)
        (message [] (Refusal.Syntax fault.now)) result }
{
    write_pieces(
        faults,
        &[
            Piece::Text("E8 syntax at byte "),
            Piece::Number(fault.at),
            Piece::Text(": "),
            Piece::Kind(fault.kind),
        ],
    )
}

pub(crate) fn too_wide<E: Sink>(faults: &mut E, at: u64) -> Result<(), WriteFault>
    ensures { Told (E.held faults.old) (E.held faults.new) (E.faults faults.old) (E.faults faults.new)
        (message [] (Refusal.TooWide at)) result }
{
    write_numbered(faults, "E9 number too wide at byte ", at)
}

pub(crate) fn unknown_name<E: Sink>(faults: &mut E, at: u64) -> Result<(), WriteFault>
    ensures { Told (E.held faults.old) (E.held faults.new) (E.faults faults.old) (E.faults faults.new)
        (message [] (Refusal.UnknownName at)) result }
{
    write_numbered(faults, "E10 unknown name at byte ", at)
}

pub(crate) fn too_many_variables<E: Sink>(faults: &mut E, count: u64) -> Result<(), WriteFault>
    ensures { Told (E.held faults.old) (E.held faults.new) (E.faults faults.old) (E.faults faults.new)
        (message [] (Refusal.TooManyVariables count)) result }
{
    write_numbered(faults, "E11 too many variables: ", count)
}

pub(crate) fn pair_budget<E: Sink>(
    faults: &mut E,
    basis: &MarkedSet,
    unsettled: &Pairs,
) -> Result<(), WriteFault>
    ensures { Told (E.held faults.old) (E.held faults.new) (E.faults faults.old) (E.faults faults.new)
        (message [] (Refusal.PairBudget basis.now unsettled.now)) result }
{
    write_pieces(
        faults,
        &[
            Piece::Text("E13 pair budget: "),
            Piece::Count(basis.items().len()),
            Piece::Text(" polynomials, "),
            Piece::Count(unsettled.items().len()),
            Piece::Text(" pairs unsettled"),
        ],
    )
}

pub(crate) fn not_reduced<'x, E: Sink>(
    faults: &mut E,
    ring: &'x Ring,
    set: u32,
    polynomial: u32,
    term: &'x Mono,
) -> Result<(), WriteFault>
    requires { length term.now ≡ length ring.now }
    ensures { Told (E.held faults.old) (E.held faults.new) (E.faults faults.old) (E.faults faults.new)
        (message ring.now (Refusal.NotReduced set polynomial term.now)) result }
{
    write_pieces(
        faults,
        &[
            Piece::Text("E14 not reduced: set "),
            Piece::Index(set),
            Piece::Text(" polynomial "),
            Piece::Index(polynomial),
            Piece::Text(" term "),
            Piece::Monomial(ring, term),
        ],
    )
}

pub(crate) fn not_basis<'x, E: Sink>(
    faults: &mut E,
    ring: &'x Ring,
    set: u32,
    first: u32,
    second: u32,
    remainder: &'x Poly,
) -> Result<(), WriteFault>
    requires { HasVariables (length ring.now) remainder.now }
    ensures { Told (E.held faults.old) (E.held faults.new) (E.faults faults.old) (E.faults faults.new)
        (message ring.now (Refusal.NotBasis set first second remainder.now)) result }
{
    write_pieces(
        faults,
        &[
            Piece::Text("E15 no basis: set "),
            Piece::Index(set),
            Piece::Text(" polynomials "),
            Piece::Index(first),
            Piece::Text(" and "),
            Piece::Index(second),
            Piece::Text(" leave "),
            Piece::Polynomial(ring, remainder),
        ],
    )
}

pub(crate) fn inconsistent<E: Sink>(
    faults: &mut E,
    set: u32,
    multipliers: &IntVec,
) -> Result<(), WriteFault>
    ensures { Told (E.held faults.old) (E.held faults.new) (E.faults faults.old) (E.faults faults.new)
        (message [] (Refusal.Inconsistent set multipliers.now)) result }
{
    write_pieces(
        faults,
        &[
            Piece::Text("E16 inconsistent marking: set "),
            Piece::Index(set),
            Piece::Text(" multipliers "),
            Piece::Vector(multipliers),
        ],
    )
}

pub(crate) fn cone_overflow<E: Sink>(
    faults: &mut E,
    row: u64,
    op: VecOp,
    left: i128,
    right: i128,
) -> Result<(), WriteFault>
    ensures { Told (E.held faults.old) (E.held faults.new) (E.faults faults.old) (E.faults faults.new)
        (message [] (Refusal.ConeOverflow row op left right)) result }
{
    write_pieces(
        faults,
        &[
            Piece::Text("E17 cone overflow: row "),
            Piece::Number(row),
            Piece::Text(": "),
            Piece::Whole(left),
            Piece::VecOp(op),
            Piece::Whole(right),
        ],
    )
}

pub(crate) fn not_a_fan<E: Sink>(faults: &mut E, first: u32, second: u32) -> Result<(), WriteFault>
    ensures { Told (E.held faults.old) (E.held faults.new) (E.faults faults.old) (E.faults faults.new)
        (message [] (Refusal.NotAFan first second)) result }
{
    write_pieces(
        faults,
        &[
            Piece::Text("E18 no fan: cones "),
            Piece::Index(first),
            Piece::Text(" and "),
            Piece::Index(second),
        ],
    )
}

pub(crate) fn missing<E: Sink>(faults: &mut E, section: Section) -> Result<(), WriteFault>
    ensures { Told (E.held faults.old) (E.held faults.new) (E.faults faults.old) (E.faults faults.new)
        (message [] (Refusal.Missing section)) result }
{
    write_pieces(
        faults,
        &[Piece::Text("E19 missing section "), Piece::Section(section)],
    )
}

pub(crate) fn bad_ray<E: Sink>(faults: &mut E, number: u64) -> Result<(), WriteFault>
    ensures { Told (E.held faults.old) (E.held faults.new) (E.faults faults.old) (E.faults faults.new)
        (message [] (Refusal.BadRay number)) result }
{
    write_numbered(faults, "E20 bad ray ", number)
}

pub(crate) fn bad_version<E: Sink>(faults: &mut E, number: u64) -> Result<(), WriteFault>
    ensures { Told (E.held faults.old) (E.held faults.new) (E.faults faults.old) (E.faults faults.new)
        (message [] (Refusal.BadVersion number)) result }
{
    write_numbered(faults, "E29 bad file version ", number)
}

pub(crate) fn bad_certificate<E: Sink>(faults: &mut E, cone: u32) -> Result<(), WriteFault>
    ensures { Told (E.held faults.old) (E.held faults.new) (E.faults faults.old) (E.faults faults.new)
        (message [] (Refusal.BadCertificate cone)) result }
{
    write_pieces(
        faults,
        &[
            Piece::Text("E28 bad certificate: cone "),
            Piece::Index(cone),
        ],
    )
}

pub(crate) fn empty_region<E: Sink>(faults: &mut E, multipliers: &IntVec) -> Result<(), WriteFault>
    ensures { Told (E.held faults.old) (E.held faults.new) (E.faults faults.old) (E.faults faults.new)
        (message [] (Refusal.EmptyRegion multipliers.now)) result }
{
    write_pieces(
        faults,
        &[
            Piece::Text("E26 no region: multipliers "),
            Piece::Vector(multipliers),
        ],
    )
}

pub(crate) fn wide_root<E: Sink>(faults: &mut E, index: u64, value: i128) -> Result<(), WriteFault>
    ensures { Told (E.held faults.old) (E.held faults.new) (E.faults faults.old) (E.faults faults.new)
        (message [] (Refusal.WideRoot index value)) result }
{
    write_pieces(
        faults,
        &[
            Piece::Text("E27 root weight too wide: entry "),
            Piece::Number(index),
            Piece::Text(" is "),
            Piece::Whole(value),
        ],
    )
}

pub(crate) fn other_ring<E: Sink>(faults: &mut E, index: u32) -> Result<(), WriteFault>
    ensures { Told (E.held faults.old) (E.held faults.new) (E.faults faults.old) (E.faults faults.new)
        (message [] (Refusal.OtherRing index)) result }
{
    write_pieces(
        faults,
        &[Piece::Text("E30 other ring: name "), Piece::Index(index)],
    )
}

pub(crate) fn not_listed<'x, E: Sink>(
    faults: &mut E,
    ring: &'x Ring,
    side: u32,
    index: u32,
    remainder: &'x Poly,
) -> Result<(), WriteFault>
    requires { HasVariables (length ring.now) remainder.now }
    ensures { Told (E.held faults.old) (E.held faults.new) (E.faults faults.old) (E.faults faults.new)
        (message ring.now (Refusal.NotListed side index remainder.now)) result }
{
    write_pieces(
        faults,
        &[
            Piece::Text("E31 not listed: side "),
            Piece::Index(side),
            Piece::Text(" polynomial "),
            Piece::Index(index),
            Piece::Text(" leaves "),
            Piece::Polynomial(ring, remainder),
        ],
    )
}

pub(crate) fn dimensions<E: Sink>(faults: &mut E, left: u64, right: u64) -> Result<(), WriteFault>
    ensures { Told (E.held faults.old) (E.held faults.new) (E.faults faults.old) (E.faults faults.new)
        (message [] (Refusal.Dimensions left right)) result }
{
    write_pieces(
        faults,
        &[
            Piece::Text("E21 dimension "),
            Piece::Number(left),
            Piece::Text(" where "),
            Piece::Number(right),
            Piece::Text(" is needed"),
        ],
    )
}

pub(crate) fn zero_polynomial<E: Sink>(
    faults: &mut E,
    set: u32,
    index: u32,
) -> Result<(), WriteFault>
    ensures { Told (E.held faults.old) (E.held faults.new) (E.faults faults.old) (E.faults faults.new)
        (message [] (Refusal.ZeroPolynomial set index)) result }
{
    write_pieces(
        faults,
        &[
            Piece::Text("E22 zero polynomial: set "),
            Piece::Index(set),
            Piece::Text(" polynomial "),
            Piece::Index(index),
        ],
    )
}

pub(crate) fn list_limit<E: Sink>(faults: &mut E, written: u64) -> Result<(), WriteFault>
    ensures { Told (E.held faults.old) (E.held faults.new) (E.faults faults.old) (E.faults faults.new)
        (message [] (Refusal.ListLimit written)) result }
{
    write_pieces(
        faults,
        &[
            Piece::Text("E24 list limit: "),
            Piece::Number(written),
            Piece::Text(" written"),
        ],
    )
}

pub(crate) fn not_homogeneous<'x, E: Sink>(
    faults: &mut E,
    ring: &'x Ring,
    polynomial: u32,
    first: &'x Mono,
    second: &'x Mono,
) -> Result<(), WriteFault>
    requires first { length first.now ≡ length ring.now }
    requires second { length second.now ≡ length ring.now }
    ensures { Told (E.held faults.old) (E.held faults.new) (E.faults faults.old) (E.faults faults.new)
        (message ring.now (Refusal.NotHomogeneous polynomial first.now second.now)) result }
{
    write_pieces(
        faults,
        &[
            Piece::Text("E25 not homogeneous: polynomial "),
            Piece::Index(polynomial),
            Piece::Text(": "),
            Piece::Monomial(ring, first),
            Piece::Text(" and "),
            Piece::Monomial(ring, second),
        ],
    )
}
