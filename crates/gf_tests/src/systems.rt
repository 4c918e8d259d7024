//! Strict systems: rows that are to be positive, and equations.
ghost use Rattle.gf_gordan.specs.Alternative.{AreRows};

use gf_gcd::gcd;
use gf_gordan::{Answer, Found, GordanError, strict, strict_guessed, strict_plain};
use gf_rows::{fields, texts};
use gf_vec::{IntVec, WideVector, dot_slices, product, total};
use std::alloc::Global;

/// Whether every row is positive and every equation zero on the vector.
fn solves(rows: &[IntVec], equations: &[IntVec], v: &[i128]) -> Result<bool, WideVector> {
    for row in rows {
        if row.as_slice().len() != v.len() || dot_slices(row.as_slice(), v)? <= 0 {
            return Ok(false);
        }
    }
    for equation in equations {
        if equation.as_slice().len() != v.len() || dot_slices(equation.as_slice(), v)? != 0 {
            return Ok(false);
        }
    }
    Ok(true)
}

/// What a column of the vectors comes to, each taken as often as its multiplier says.
fn column_sum(c: usize, vectors: &[IntVec], multipliers: &[i128]) -> Result<i128, WideVector> {
    let mut sum = 0;
    for (i, vector) in vectors.iter().enumerate() {
        if let (Some(m), Some(x)) = (multipliers.get(i), vector.as_slice().get(c)) {
            sum = total(sum, product(*m, *x)?)?;
        }
    }
    Ok(sum)
}

/// Whether the multipliers refute the system in `n` columns, and have no common divisor.
fn refutes(
    n: usize,
    rows: &[IntVec],
    equations: &[IntVec],
    ms: &[i128],
    es: &[i128],
) -> Result<bool, WideVector> {
    let mut some = false;
    let mut common = 0;
    for m in ms {
        if *m < 0 {
            return Ok(false);
        }
        some = some || *m > 0;
        common = gcd(common, m.unsigned_abs());
    }
    for m in es {
        common = gcd(common, m.unsigned_abs());
    }
    for c in 0..n {
        if total(column_sum(c, rows, ms)?, column_sum(c, equations, es)?)? != 0 {
            return Ok(false);
        }
    }
    Ok(some && common == 1 && ms.len() == rows.len() && es.len() == equations.len())
}

/// Whether an answer is right by its definition.
fn is_right(
    n: usize,
    rows: &[IntVec],
    equations: &[IntVec],
    answer: &Answer,
) -> Result<bool, WideVector> {
    match answer {
        Answer::Point(v) => solves(rows, equations, v.as_slice()),
        Answer::Farkas {
            rows: ms,
            equations: es,
        } => refutes(n, rows, equations, ms.as_slice(), es.as_slice()),
    }
}

/// `point`, or the multipliers of the rows and of the equations, or the operation that is refused, with the number of its row.
pub(crate) fn answer(alloc: Global, answer: &Result<Answer, GordanError>) -> Option<String> {
    match answer {
        Ok(Answer::Point(_v)) => texts::text(alloc, "point"),
        Ok(Answer::Farkas { rows, equations }) => {
            let rows = texts::vector(alloc, rows)?;
            let equations = texts::vector(alloc, equations)?;
            format!(in alloc; "{rows} {equations}").ok()
        }
        Err(e) => refusal(alloc, *e),
    }
}

/// An operation that is refused, with the number of its row.
pub(crate) fn refusal(alloc: Global, refusal: GordanError) -> Option<String> {
    match refusal {
        GordanError::Cone(o) => {
            let text = texts::operands(alloc, o.op, o.left, o.right)?;
            format!(in alloc; "{text} in {}", o.row).ok()
        }
        GordanError::Memory => None,
    }
}

/// The kind of an answer.
fn kind(answer: &Answer) -> &'static str {
    match answer {
        Answer::Point(_v) => "point",
        Answer::Farkas {
            rows: _ms,
            equations: _es,
        } => "multipliers",
    }
}

/// What elimination answers; none where `strict` answers otherwise, or, where elimination refuses, wrongly.
fn by_both(alloc: Global, n: u32, rows: &[IntVec], equations: &[IntVec]) -> Option<String>
    requires rows { AreRows n rows.now }
    requires equations { AreRows n equations.now }
{
    let plain = strict_plain(alloc, n, rows, equations);
    let text = answer(alloc, &plain)?;
    let fast = strict(alloc, n, rows, equations);
    let same = answer(alloc, &fast)?.as_str() == text.as_str();
    let right = match &fast {
        Ok(found) => is_right(n as usize, rows, equations, found).ok()?,
        Err(_refusal) => same,
    };
    if !right || !(same || plain.is_err()) {
        return None;
    }
    Some(text)
}

/// The kind of the answer of `strict`, which is right.
fn by_kind(alloc: Global, n: u32, rows: &[IntVec], equations: &[IntVec]) -> Option<String>
    requires rows { AreRows n rows.now }
    requires equations { AreRows n equations.now }
{
    let found = strict(alloc, n, rows, equations).ok()?;
    if !is_right(n as usize, rows, equations, &found).ok()? {
        return None;
    }
    texts::text(alloc, kind(&found))
}

/// The kinds of both answers, that of `strict` first.
fn kinds(alloc: Global, n: u32, rows: &[IntVec], equations: &[IntVec]) -> Option<String>
    requires rows { AreRows n rows.now }
    requires equations { AreRows n equations.now }
{
    let plain = strict_plain(alloc, n, rows, equations).ok()?;
    let text = by_kind(alloc, n, rows, equations)?;
    format!(in alloc; "{text} {}", kind(&plain)).ok()
}

/// The guess `point (1,2)` or `multipliers (1,2)`.
fn guess(alloc: Global, text: &str) -> Option<Found> {
    match text.split_once(' ')? {
        ("point", v) => Some(Found::Point(fields::vector(alloc, v)?)),
        ("multipliers", v) => Some(Found::Farkas(fields::vector(alloc, v)?)),
        _ => None,
    }
}

/// What is answered where this is guessed, the kind alone or the point; the answer is right.
fn by_guess(
    alloc: Global,
    call: &str,
    n: u32,
    rows: &[IntVec],
    equations: &[IntVec],
    guess: Found,
) -> Option<String>
    requires rows { AreRows n rows.now }
    requires equations { AreRows n equations.now }
{
    let found = strict_guessed(alloc, n, rows, equations, Some(guess)).ok()?;
    if !is_right(n as usize, rows, equations, &found).ok()? {
        return None;
    }
    match (call, &found) {
        ("kind_by_guess", found) => texts::text(alloc, kind(found)),
        ("point_by_guess", Answer::Point(v)) => texts::vector(alloc, v),
        _ => None,
    }
}

/// Whether elimination refuses one of these systems in `n` columns without equations, all of which `strict` answers rightly.
fn is_one_refused(alloc: Global, n: u32, systems: &[&str]) -> Option<bool> {
    let mut refused = false;
    for rows in systems {
        let rows = fields::rows(alloc, n, rows)?;
        by_kind(alloc, n, &rows, &[])?;
        refused = refused || strict_plain(alloc, n, &rows, &[]).is_err();
    }
    Some(refused)
}

/// What a call on rows and equations in `n` columns gives.
fn of_rows(
    alloc: Global,
    call: &str,
    n: u32,
    rows: &[IntVec],
    equations: &[IntVec],
) -> Option<String>
    requires rows { AreRows n rows.now }
    requires equations { AreRows n equations.now }
{
    match call {
        "answer" => by_both(alloc, n, rows, equations),
        "kind" => by_kind(alloc, n, rows, equations),
        "kinds" => kinds(alloc, n, rows, equations),
        _ => None,
    }
}

/// What a call on systems gives.
pub(crate) fn told(alloc: Global, call: &str, fields: &[&str]) -> Option<String> {
    let [n, fields @ ..] = fields else {
        return None;
    };
    let n = n.parse::<u32>().ok()?;
    if call == "is_one_refused" {
        return texts::text(alloc, is_one_refused(alloc, n, fields)?);
    }
    let [rows, equations, guesses @ ..] = fields else {
        return None;
    };
    let rows = fields::rows(alloc, n, rows)?;
    let equations = fields::rows(alloc, n, equations)?;
    match guesses {
        [] => of_rows(alloc, call, n, &rows, &equations),
        [text] => by_guess(alloc, call, n, &rows, &equations, guess(alloc, text)?),
        _ => None,
    }
}
