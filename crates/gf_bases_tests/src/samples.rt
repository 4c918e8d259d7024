//! Polynomials and marked sets in two variables, written as rows of numbers.
use gf_rows::texts;
use gf_samples::{lists, lists_members, marked_set, poly};
use std::alloc::Global;

/// The rows `2,1,1 -1,1,0`, apart, of a coefficient and two exponents each.
fn rows(alloc: Global, text: &str) -> Option<Vec<(i128, [u32; 2])>> {
    let mut rows = Vec::new(alloc);
    for word in text.split_whitespace() {
        let numbers: Vec<&str> = word.split(',').collect(alloc).ok()?;
        let [coef, a, b] = numbers.as_slice() else {
            return None;
        };
        let exponents = [a.parse::<u32>().ok()?, b.parse::<u32>().ok()?];
        rows.push((coef.parse::<i128>().ok()?, exponents)).ok()?;
    }
    Some(rows)
}

/// The rows of a text such as `2,1,1 -1,1,0`, apart, of a coefficient, its denominator 1 and two exponents each.
fn whole(alloc: Global, text: &str) -> Option<Vec<(i128, i128, [u32; 2])>> {
    let mut found = Vec::new(alloc);
    for (coef, exponents) in rows(alloc, text)?.as_slice() {
        found.push((*coef, 1, *exponents)).ok()?;
    }
    Some(found)
}

/// What a call on rows gives; `none` where there is no such polynomial or set.
pub(crate) fn told(alloc: Global, call: &str, fields: &[&str]) -> Option<String> {
    match (call, fields) {
        ("polynomial", [text, listed]) => {
            let (rows, listed) = (rows(alloc, text)?, whole(alloc, listed)?);
            match poly(alloc, rows.as_slice()) {
                Ok(f) => texts::text(alloc, lists(&f, listed.as_slice())),
                Err(_) => texts::text(alloc, "none"),
            }
        }
        ("member", [text, index, listed]) => {
            let (rows, listed) = (rows(alloc, text)?, whole(alloc, listed)?);
            let member = (index.parse::<usize>().ok()?, listed.as_slice());
            match marked_set(alloc, 2, &[rows.as_slice()]) {
                Ok(set) => texts::text(alloc, lists_members(&set, &[member])),
                Err(_) => texts::text(alloc, "none"),
            }
        }
        _ => None,
    }
}
