//! Cones by rays.
use crate::systems;
use gf_rays::{Face, Rays};
use gf_rows::{fields, texts};
use std::alloc::Global;

/// The lineality basis, the rays, the least inequality of each facet, the sum of the rays, and the dimension.
fn parts(alloc: Global, cone: &Rays) -> Option<String> {
    let lineality = texts::vectors(alloc, cone.lineality())?;
    let rays = texts::vectors(alloc, cone.rays())?;
    let facets = texts::vectors(alloc, &cone.facet_rows().ok()?)?;
    let sum = texts::vector(alloc, &cone.interior().ok()?)?;
    format!(in alloc; "{lineality}; {rays}; {facets}; {sum}; {}", cone.dim()).ok()
}

/// Of each face the dimension and the numbers of the rays.
fn faces(alloc: Global, faces: &[Face]) -> Option<String> {
    let mut text = String::new(alloc);
    for face in faces {
        let rays = texts::numbers(alloc, face.rays.as_slice())?;
        let mark = if text.is_empty() { "" } else { " " };
        write!(text, "{mark}{}{rays}", face.dim).ok()?;
    }
    Some(text)
}

/// What a call on the cone of inequalities and equations in `n` columns gives.
pub(crate) fn told(alloc: Global, call: &str, fields: &[&str]) -> Option<String> {
    let [n, inequalities, equations] = fields else {
        return None;
    };
    let n = n.parse::<u32>().ok()?;
    let inequalities = fields::rows(alloc, n, inequalities)?;
    let equations = fields::rows(alloc, n, equations)?;
    let cone = match Rays::of(alloc, n, &inequalities, &equations) {
        Ok(cone) => cone,
        Err(e) => return systems::refusal(alloc, e),
    };
    match call {
        "parts" => parts(alloc, &cone),
        "faces" => faces(alloc, &cone.faces().ok()?),
        _ => None,
    }
}
