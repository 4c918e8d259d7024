//! Values of the crates below, a row of the standard input each: what is called, by what, and what has to come out. A row that comes out otherwise is
//! printed with what came out, and last how many rows there were.
#![tactic(auto)]

mod cones;
mod divisions;
mod monomials;
mod numbers;
mod orders;
mod polynomials;
mod systems;
mod vectors;
mod wide;

use std::alloc::Global;
use std::io;

/// What comes out of a call, which two words name, on these fields; none where there is no such call, or a field doesn't say what it takes.
fn told(alloc: Global, of: &str, call: &str, fields: &[&str]) -> Option<String> {
    match of {
        "number" => numbers::told(alloc, call, fields),
        "fraction" => numbers::fraction_told(alloc, call, fields),
        "wide" => wide::told(alloc, call, fields),
        "vector" => vectors::told(alloc, call, fields),
        "entry" => vectors::entry_told(alloc, call, fields),
        "order" => orders::told(alloc, call, fields),
        "monomial" => monomials::told(alloc, call, fields),
        "terms" => polynomials::terms_told(alloc, call, fields),
        "polynomial" => polynomials::told(alloc, call, fields),
        "set" => polynomials::set_told(alloc, call, fields),
        "pairs" => polynomials::pairs_told(alloc, call, fields),
        "division" => divisions::told(alloc, call, fields),
        "system" => systems::told(alloc, call, fields),
        "cone" => cones::told(alloc, call, fields),
        _ => None,
    }
}

/// What comes out of the call of a row, and what has to.
fn outcome<'l>(alloc: Global, row: &'l str) -> Option<(String, &'l str)> {
    let parts: Vec<&str> = row.split('|').collect(alloc).ok()?;
    let [words, fields @ .., wanted] = parts.as_slice() else {
        return None;
    };
    let (of, call) = words.split_once(' ')?;
    let text = told(alloc, of, call, fields)?;
    Some((text, *wanted))
}

fn main(rt: HostRuntime) -> io::Result<()> {
    let mut rows = 0u64;
    for line in rt.lines(rt.alloc()) {
        let line = line?;
        if line.is_empty() || line.starts_with('#') {
            continue;
        }
        rows = rows.saturating_add(1);
        match outcome(rt.alloc(), &line) {
            Some((text, wanted)) => {
                if text.as_str() != wanted {
                    println!(rt; "not so: {line}: {text}")?;
                }
            }
            None => println!(rt; "not understood: {line}")?,
        }
    }
    println!(rt; "{rows} rows")
}
