//! Whole runs of gfan over memory, a row of the standard input each: what it is called with, and how it has to end. A row that comes out otherwise is printed,
//! and at the end how many rows there were.
#![tactic(auto)]

mod budgets;
mod devices;
mod kinds;
mod rows;
mod runs;
mod workers;

use crate::rows::{bytes_of, kind_of, row_of};
use crate::runs::Runner;
use std::alloc::AllocError;
use std::io;
use std::thread::Threads;

/// Whether a row comes out as it says. A row that is none, or of no kind, doesn't.
fn is_right<R: Threads + Sync>(runner: &Runner<'_, R>, line: &str) -> Result<bool, AllocError> {
    let (kind, line) = kind_of(line);
    let Some((row, sixth)) = row_of(runner.alloc, line)? else {
        return Ok(false);
    };
    let (name, rest) = kind.split_once(' ').unwrap_or((kind, ""));
    match (name, sixth) {
        ("", devices) => runner.is_right_with(&row, devices),
        ("session", left) => {
            let left = bytes_of(runner.alloc, left)?;
            runner.is_session_right(&row, rest, &left)
        }
        ("no-words", "") => runner.is_wordless(row),
        ("bytes", "") => runner.is_right_on_bytes(&row),
        ("times", "") => runner.is_right_at_length(&row, rest),
        ("one-of", "") => runner.tells_one_of(&row),
        ("begins", "") => runner.begins_right(&row),
        ("workers", "") => runner.do_workers_agree(&row),
        ("meet", "") => runner.do_workers_meet(&row),
        ("spent", "") => runner.is_budget_spent(&row, rest),
        _ => Ok(false),
    }
}

fn main(rt: HostRuntime) -> io::Result<()> {
    let mut rows = 0u64;
    let runner = Runner {
        rt: &rt,
        alloc: rt.alloc(),
    };
    for line in rt.lines(rt.alloc()) {
        let line = line?;
        if line.is_empty() || line.starts_with('#') {
            continue;
        }
        rows = rows.saturating_add(1);
        if !is_right(&runner, &line)? {
            println!(rt; "not so: {line}")?;
        }
    }
    println!(rt; "{rows} rows")
}
