//! Refusals, the lines that report them, and sinks that fail at each piece.
ghost use Rattle.std.specs.Prelude.{◌≡◌, length, IfSome, IfOk, Some, None};
ghost use Rattle.gf_front.specs.Lines.{HasNames};

use gf_frac::{Frac, Op, Overflow};
use gf_front::{Refusal, Status};
use gf_outside::MemSink;
use gf_poly::{ExponentOverflow, MarkedSet, Mono, Pairs};
use gf_text::{Kind, Reader, Ring, Section, Syntax};
use gf_vec::{IntVec, VecOp, WideVector};
use std::alloc::{AllocError, Global};

/// The greatest numerator, denominator and entry.
const MOST: i128 = i128::MAX;

/// The greatest exponent.
const MOST_EXPONENT: u32 = 2_147_483_647;

/// A number of 32 bits, and the greatest for one that isn't.
fn small(number: i128) -> u32 {
    u32::try_from(number).unwrap_or(u32::MAX)
}

/// A number of 64 bits, and the greatest for one that isn't.
fn wide(number: i128) -> u64 {
    u64::try_from(number).unwrap_or(u64::MAX)
}

/// A fraction from two numbers.
fn fraction(numerator: i128, denominator: i128) -> Option<Frac> {
    if numerator < -MOST || denominator < 1 {
        return None;
    }
    Some(Frac::new(numerator, denominator))
}

/// An operation of fractions, by its name.
fn operation(name: &str) -> Option<Op> {
    match name {
        "Add" => Some(Op::Add),
        "Sub" => Some(Op::Sub),
        "Mul" => Some(Op::Mul),
        "Div" => Some(Op::Div),
        _ => None,
    }
}

/// An operation of entries of vectors, by its name.
fn vector_operation(name: &str) -> Option<VecOp> {
    match name {
        "Add" => Some(VecOp::Add),
        "Sub" => Some(VecOp::Sub),
        "Mul" => Some(VecOp::Mul),
        _ => None,
    }
}

/// A fault of a text, by the name of its kind.
fn syntax(name: &str, at: u64) -> Option<Refusal>
    ensures { IfSome result (HasNames None) }
{
    let kind = match name {
        "Ended" => Kind::Ended,
        "Unexpected" => Kind::Unexpected,
        "RepeatedName" => Kind::RepeatedName,
        "ZeroDenominator" => Kind::ZeroDenominator,
        _ => return None,
    };
    Some(Refusal::Syntax(Syntax { at, kind }))
}

/// A section that isn't there, by its name.
fn missing(name: &str) -> Option<Refusal>
    ensures { IfSome result (HasNames None) }
{
    let section = match name {
        "AmbientDim" => Section::AmbientDim,
        "Rays" => Section::Rays,
        "LinealitySpace" => Section::LinealitySpace,
        "MaximalCones" => Section::MaximalCones,
        _ => return None,
    };
    Some(Refusal::Missing { section })
}

/// A refusal without numbers, by its name.
fn plain(name: &str) -> Option<Refusal>
    ensures { IfSome result (HasNames None) }
{
    match name {
        "ReadFault" => Some(Refusal::ReadFault),
        "WriteFault" => Some(Refusal::WriteFault),
        "OpenFault" => Some(Refusal::OpenFault),
        "InputTooLong" => Some(Refusal::InputTooLong),
        "Usage" => Some(Refusal::Usage),
        "Memory" => Some(Refusal::Memory),
        _ => None,
    }
}

/// A refusal with one number, by its name.
fn with_one(name: &str, number: u64) -> Option<Refusal>
    ensures { IfSome result (HasNames None) }
{
    match name {
        "NotTermOrder" => Some(Refusal::NotTermOrder {
            index: u32::try_from(number).unwrap_or(u32::MAX),
        }),
        "TooWide" => Some(Refusal::TooWide { at: number }),
        "UnknownName" => Some(Refusal::UnknownName { at: number }),
        "TooManyVariables" => Some(Refusal::TooManyVariables { count: number }),
        "BadRay" => Some(Refusal::BadRay { number }),
        "ListLimit" => Some(Refusal::ListLimit { written: number }),
        _ => None,
    }
}

/// A refusal with two numbers, by its name.
fn with_two(name: &str, left: u32, right: u32) -> Option<Refusal>
    ensures { IfSome result (HasNames None) }
{
    match name {
        "Dimensions" => Some(Refusal::Dimensions {
            left: u64::from(left),
            right: u64::from(right),
        }),
        "ZeroPolynomial" => Some(Refusal::ZeroPolynomial {
            set: left,
            index: right,
        }),
        "ExponentOverflow" => Some(Refusal::ExponentOverflow(ExponentOverflow {
            left: u64::from(left),
            right: u64::from(right),
        })),
        "NotAFan" => Some(Refusal::NotAFan {
            first: left,
            second: right,
        }),
        _ => None,
    }
}

/// Two fractions whose sum, difference, product or quotient leaves the range.
fn overflow(name: &str, left: (i128, i128), right: (i128, i128)) -> Option<Refusal>
    ensures { IfSome result (HasNames None) }
{
    Some(Refusal::Overflow(Overflow {
        op: operation(name)?,
        left: fraction(left.0, left.1)?,
        right: fraction(right.0, right.1)?,
    }))
}

/// Two entries, of a row where the system has one, whose sum, difference or product leaves the range.
fn entries(name: &str, row: Option<u64>, left: i128, right: i128) -> Option<Refusal>
    ensures { IfSome result (HasNames None) }
{
    let op = vector_operation(name)?;
    Some(match row {
        Some(row) => Refusal::ConeOverflow {
            row,
            op,
            left,
            right,
        },
        None => Refusal::WideVector(WideVector { op, left, right }),
    })
}

/// A spent budget: no members in so many variables, and pairs of which this is the first place.
fn budget(
    alloc: Global,
    variables: u32,
    first: u32,
    seconds: &[i128],
) -> Result<Refusal, AllocError>
    ensures { IfOk result (HasNames None) }
{
    let mut pairs = Vec::new(alloc);
    for second in seconds {
        pairs.push((first, small(*second)))?;
    }
    Ok(Refusal::PairBudget {
        basis: MarkedSet::new(variables, Vec::new(alloc)),
        unsettled: Pairs::new(pairs),
    })
}

/// Multipliers of a set whose marking comes from no weight.
fn inconsistent(
    alloc: Global,
    set: u32,
    multipliers: &[i128],
) -> Result<Option<Refusal>, AllocError>
    ensures { IfOk result (λ refusal. IfSome refusal (HasNames None)) }
{
    let mut text = Vec::new(alloc);
    text.push(b'(')?;
    for (place, entry) in multipliers.iter().enumerate() {
        let comma = if place == 0 { "" } else { "," };
        text.extend_from_slice(format!(in alloc; "{comma}{entry}")?.as_bytes())?;
    }
    text.push(b')')?;
    let Ok(multipliers) = Reader::new(&text).read_vector(alloc) else {
        return Ok(None);
    };
    Ok(Some(Refusal::Inconsistent { set, multipliers }))
}

/// A refusal that names no monomial, by its name, the word after it and its numbers.
fn refusal_of(
    alloc: Global,
    name: &str,
    word: &str,
    numbers: &[i128],
) -> Result<Option<Refusal>, AllocError>
    ensures { IfOk result (λ refusal. IfSome refusal (HasNames None)) }
{
    match name {
        "PairBudget" => match numbers {
            [variables, first, seconds @ ..] => Ok(Some(budget(
                alloc,
                small(*variables),
                small(*first),
                seconds,
            )?)),
            _ => Ok(None),
        },
        "Inconsistent" => match numbers {
            [set, multipliers @ ..] => inconsistent(alloc, small(*set), multipliers),
            _ => Ok(None),
        },
        "Missing" => Ok(missing(word)),
        _ => Ok(match numbers {
            [] => plain(name),
            [number] => {
                if name == "Syntax" {
                    syntax(word, wide(*number))
                } else {
                    with_one(name, wide(*number))
                }
            }
            [left, right] => {
                if name == "WideVector" {
                    entries(word, None, *left, *right)
                } else {
                    with_two(name, small(*left), small(*right))
                }
            }
            [row, left, right] => entries(word, Some(wide(*row)), *left, *right),
            [a, b, c, d] => overflow(word, (*a, *b), (*c, *d)),
            _ => None,
        }),
    }
}

/// The monomial in two variables with these exponents.
fn monomial(alloc: Global, first: u32, second: u32) -> Option<Mono>
    ensures { IfSome result (λ m. length m ≡ 2) }
{
    if first > MOST_EXPONENT || second > MOST_EXPONENT {
        return None;
    }
    Some(Mono::new(alloc, &[first, second]))
}

/// A refusal that names monomials in two variables, by its name and its numbers, among them the exponents.
fn named_refusal_of(alloc: Global, name: &str, numbers: &[i128]) -> Option<Refusal>
    ensures { IfSome result (λ refusal. (ring : _) → length ring.now ≡ 2 → HasNames (Some ring) refusal) }
{
    match (name, numbers) {
        ("NotHomogeneous", [polynomial, a, b, c, d]) => Some(Refusal::NotHomogeneous {
            polynomial: small(*polynomial),
            first: monomial(alloc, small(*a), small(*b))?,
            second: monomial(alloc, small(*c), small(*d))?,
        }),
        ("NotReduced", [set, polynomial, a, b]) => Some(Refusal::NotReduced {
            set: small(*set),
            polynomial: small(*polynomial),
            term: monomial(alloc, small(*a), small(*b))?,
        }),
        _ => None,
    }
}

/// What is written of the line of a refusal where each write fails in turn, a semicolon after each, up to the whole line.
fn pieces_of(alloc: Global, ring: Option<&Ring>, refusal: &Refusal) -> Result<Vec<u8>, AllocError>
    requires { HasNames ring refusal.now }
{
    let mut out = Vec::new(alloc);
    for failing in 0u64..100 {
        let mut sink = MemSink::new(alloc, 1_000, vec![in alloc; failing]?);
        let is_whole = refusal.tell(ring, &mut sink).is_ok();
        out.extend_from_slice(sink.bytes())?;
        out.push(b';')?;
        if is_whole {
            break;
        }
    }
    Ok(out)
}

/// The line of a refusal, written one byte a call; nothing where it isn't taken.
fn line_of(alloc: Global, ring: Option<&Ring>, refusal: &Refusal) -> Result<Vec<u8>, AllocError>
    requires { HasNames ring refusal.now }
{
    let mut sink = MemSink::new(alloc, 1, vec![in alloc]?);
    if refusal.tell(ring, &mut sink).is_ok() {
        return sink.bytes().to_vec(alloc);
    }
    Ok(Vec::new(alloc))
}

/// What is written of the line of a refusal where each write fails in turn; the whole line by one byte a write; and the status.
fn answer(alloc: Global, ring: Option<&Ring>, refusal: Refusal) -> Result<Vec<u8>, AllocError>
    requires { HasNames ring refusal }
{
    let mut out = pieces_of(alloc, ring, &refusal)?;
    out.extend_from_slice(&line_of(alloc, ring, &refusal)?)?;
    let code = Status::Refused(refusal).code();
    out.extend_from_slice(format!(in alloc; "{code}")?.as_bytes())?;
    Ok(out)
}

/// The answer of a refusal that names monomials of the ring `Q[a,b]`; nothing where it is unknown.
fn named_answer(alloc: Global, name: &str, numbers: &[i128]) -> Result<Vec<u8>, AllocError> {
    let Ok(ring) = Reader::new(b"Q[a,b]").read_ring(alloc) else {
        return Ok(Vec::new(alloc));
    };
    if ring.len() != 2 {
        return Ok(Vec::new(alloc));
    }
    match named_refusal_of(alloc, name, numbers) {
        Some(refusal) => answer(alloc, Some(&ring), refusal),
        None => Ok(Vec::new(alloc)),
    }
}

/// The numbers among words.
fn numbers_of(alloc: Global, words: &str) -> Result<Vec<i128>, AllocError> {
    let mut numbers = Vec::new(alloc);
    for word in words.split(' ') {
        if let Ok(number) = word.parse::<i128>() {
            numbers.push(number)?;
        }
    }
    Ok(numbers)
}

/// The answer of a refusal that is written as its name, a word for some, and its numbers; of a run that is done its status alone.
///
/// # Errors
///
/// `AllocError` if memory runs out for the numbers, for the refusal, for a sink or for the answer.
pub fn pieces(alloc: Global, text: &str) -> Result<Vec<u8>, AllocError> {
    let (name, rest) = text.split_once(' ').unwrap_or((text, ""));
    if name == "Done" {
        let code = Status::Done.code();
        return Ok(format!(in alloc; "{code}")?.into_bytes());
    }
    let word = rest.split(' ').next().unwrap_or("");
    let numbers = numbers_of(alloc, rest)?;
    match refusal_of(alloc, name, word, &numbers)? {
        Some(refusal) => answer(alloc, None, refusal),
        None => named_answer(alloc, name, &numbers),
    }
}

/// The line of such a refusal, and after it the status.
///
/// # Errors
///
/// `AllocError` if memory runs out for the numbers, for the refusal, for a sink or for the answer.
pub fn line(alloc: Global, text: &str) -> Result<Vec<u8>, AllocError> {
    let whole = pieces(alloc, text)?;
    let mut out = Vec::new(alloc);
    for &byte in &whole {
        if byte == b';' {
            out.clear();
        } else {
            out.push(byte)?;
        }
    }
    Ok(out)
}
