//! Weights and witnesses, and roots of regions.
use gf_poly::MarkedSet;
use gf_rows::{fields, texts};
use gf_weights::{RegionError, certify, region_of, weight};
use std::alloc::Global;

/// The weight of a marked set, and of each facet that a flip may cross the normal and a witness.
fn certificates(alloc: Global, set: &MarkedSet) -> Option<String> {
    let told = certify(alloc, set).ok()?;
    let mut text = texts::vector(alloc, &told.weight)?;
    for facet in told.facets.as_slice() {
        let normal = texts::vector(alloc, &facet.normal)?;
        let witness = texts::vector(alloc, &facet.witness)?;
        write!(text, "; {normal} at {witness}").ok()?;
    }
    Some(text)
}

/// The root of the region of `n` variables that these rows cut out, or why there is none.
fn region(alloc: Global, n: u32, rows: &str) -> Option<String> {
    let rows = fields::rows(alloc, n, rows)?;
    match region_of(alloc, n, &rows) {
        Ok(region) => texts::vector(alloc, region.root()),
        Err(RegionError::Empty { multipliers }) => {
            let multipliers = texts::vector(alloc, &multipliers)?;
            format!(in alloc; "empty by {multipliers}").ok()
        }
        Err(RegionError::WideRoot { index, value }) => {
            format!(in alloc; "too wide {value} at {index}").ok()
        }
        Err(_) => None,
    }
}

/// What a call on a marked set, or on rows, in so many variables gives.
pub(crate) fn told(alloc: Global, call: &str, fields: &[&str]) -> Option<String> {
    let [n, of] = fields else {
        return None;
    };
    let n = n.parse::<u32>().ok()?;
    match call {
        "weight" => texts::vector(alloc, &weight(alloc, &fields::marked(alloc, n, of)?).ok()?),
        "certificates" => certificates(alloc, &fields::marked(alloc, n, of)?),
        "root" => region(alloc, n, of),
        _ => None,
    }
}
