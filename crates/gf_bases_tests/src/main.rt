//! Bases, saturations, cones, flips, trees and weights, a row of the standard input each: what is called, by what, and what has to come out. A row that comes
//! out otherwise is printed with what came out, and last how many rows there were.
#![tactic(auto)]

mod answers;
mod buchberger;
mod cones;
mod flips;
mod orders;
mod samples;
mod sets;
mod trees;
mod weights;

use std::alloc::Global;
use std::io;
use std::thread::Threads;

/// What comes out of a call, which two words name, on these fields; none where there is no such call, or a field doesn't say what it takes.
fn told<R: Threads + Sync>(
    rt: &R,
    alloc: Global,
    of: &str,
    call: &str,
    fields: &[&str],
) -> Option<String> {
    match (of, call) {
        ("basis", "saturation") => buchberger::saturation_told(alloc, fields),
        ("basis", "homogeneity") => buchberger::homogeneity_told(alloc, fields),
        ("basis", _) => buchberger::told(alloc, call, fields),
        ("cone", _) => cones::told(alloc, call, fields),
        ("flip", _) => flips::told(alloc, call, fields),
        ("sample", _) => samples::told(alloc, call, fields),
        ("tree", "waves") => trees::waves_told(rt, alloc, fields),
        ("tree", _) => trees::told(alloc, call, fields),
        ("weight", _) => weights::told(alloc, call, fields),
        _ => None,
    }
}

/// What comes out of the call of a row, and what has to.
fn outcome<'l, R: Threads + Sync>(
    rt: &R,
    alloc: Global,
    row: &'l str,
) -> Option<(String, &'l str)> {
    let parts: Vec<&str> = row.split('|').collect(alloc).ok()?;
    let [words, fields @ .., wanted] = parts.as_slice() else {
        return None;
    };
    let (of, call) = words.split_once(' ')?;
    let text = told(rt, alloc, of, call, fields)?;
    Some((text, *wanted))
}

fn main(rt: HostRuntime) -> io::Result<()> {
    let mut rows = 0u64;
    for line in rt.lines(rt.alloc()) {
        let line = line?;
        if line.is_empty() || line.starts_with('#') {
            continue;
        }
        rows = rows.saturating_add(1);
        match outcome(&rt, rt.alloc(), &line) {
            Some((text, wanted)) => {
                if text.as_str() != wanted {
                    println!(rt; "not so: {line}: {text}")?;
                }
            }
            None => println!(rt; "not understood: {line}")?,
        }
    }
    println!(rt; "{rows} rows")
}
