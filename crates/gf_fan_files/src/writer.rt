//! The writing of fans.
ghost use Rattle.std.specs.Prelude.{◌≡◌, ◌++◌, ◌∷◌, [], Option, OnOk, IfOk, codes, decimal, flat_map, map};
ghost use Rattle.gf_text.specs.VectorText.{entry_text};
ghost use Rattle.gf_fan_files.specs.FanText.{rays_name};
ghost use Rattle.gf_fan_files.specs.FanWords.{spaced_entries, spaced_numbers, comment, ray_lines, number_lines, cone_text, told_cone, cone_line, cone_lines};
ghost use Rattle.gf_fan_files.specs.FanWords.{truth_line, dim_line, section, lines_text, section_text, sections_text, front_sections, back_sections};
ghost use Rattle.gf_fan_files.specs.FanWords.{fan_text};

use crate::parts::{FanParts, ListedCone, f_vector, greatest_dim, is_pure, is_simplicial};
use gf_text::{push_entry, push_number};
use gf_vec::IntVec;
use std::alloc::{AllocError, Global};

/// Adds entries, each behind a space.
fn push_later_entries(out: &mut Vec<u8>, entries: &[i128]) -> Result<(), AllocError>
    ensures { OnOk result (out.new.items ≡ out.old.items ++ flat_map (λ y. 32 ∷ entry_text y) entries.now) }
{
    for entry in entries {
        out.push(b' ')?;
        push_entry(out, *entry)?;
    }
    Ok(())
}

/// Adds entries with a space between them.
fn push_entries(out: &mut Vec<u8>, entries: &[i128]) -> Result<(), AllocError>
    ensures { OnOk result (out.new.items ≡ out.old.items ++ spaced_entries entries.now) }
{
    if let [first, later @ ..] = entries {
        push_entry(out, *first)?;
        push_later_entries(out, later)?;
    }
    Ok(())
}

/// Adds numbers, each behind a space.
fn push_later_numbers(out: &mut Vec<u8>, numbers: &[u64]) -> Result<(), AllocError>
    ensures { OnOk result (out.new.items ≡ out.old.items ++ flat_map (λ m. 32 ∷ decimal m) numbers.now) }
{
    for n in numbers {
        out.push(b' ')?;
        push_number(out, u128::from(*n))?;
    }
    Ok(())
}

/// Adds numbers with a space between them.
fn push_numbers(out: &mut Vec<u8>, numbers: &[u64]) -> Result<(), AllocError>
    ensures { OnOk result (out.new.items ≡ out.old.items ++ spaced_numbers numbers.now) }
{
    if let [first, later @ ..] = numbers {
        push_number(out, u128::from(*first))?;
        push_later_numbers(out, later)?;
    }
    Ok(())
}

/// Adds a line for a ray, with its number behind it.
fn push_ray(out: &mut Vec<u8>, number: usize, ray: &IntVec) -> Result<(), AllocError>
    ensures { OnOk result (out.new.items ≡ out.old.items ++ ((spaced_entries ray.now ++ comment (decimal number)) ++ 10 ∷ [])) }
{
    push_entries(out, ray.as_slice())?;
    out.extend_from_slice(b"\t# ")?;
    push_number(out, number as u128)?;
    out.push(b'\n')?;
    Ok(())
}

/// Adds a line for each ray, with its number behind it.
fn push_rays(out: &mut Vec<u8>, rays: &[IntVec]) -> Result<(), AllocError>
    ensures { OnOk result (out.new.items ≡ out.old.items ++ lines_text (ray_lines 0 rays.now)) }
{
    for (number, ray) in rays.iter().enumerate() {
        push_ray(out, number, ray)?;
    }
    Ok(())
}

/// Adds a line for each row.
fn push_rows(out: &mut Vec<u8>, rows: &[IntVec]) -> Result<(), AllocError>
    ensures { OnOk result (out.new.items ≡ out.old.items ++ flat_map (λ r. spaced_entries r ++ 10 ∷ []) rows.now) }
{
    for row in rows {
        push_entries(out, row.as_slice())?;
        out.push(b'\n')?;
    }
    Ok(())
}

/// Adds a cone without its dimension.
fn push_bare(out: &mut Vec<u8>, cone: &ListedCone) -> Result<(), AllocError>
    ensures { OnOk result (out.new.items ≡ out.old.items ++ cone_text cone.now.rays) }
{
    out.push(b'{')?;
    push_numbers(out, cone.rays.as_slice())?;
    out.push(b'}')?;
    Ok(())
}

/// Adds a cone with its dimension behind it.
fn push_told(out: &mut Vec<u8>, cone: &ListedCone) -> Result<(), AllocError>
    ensures { OnOk result (out.new.items ≡ out.old.items ++ told_cone cone.now) }
{
    push_bare(out, cone)?;
    out.extend_from_slice(b"\t# Dimension ")?;
    push_number(out, u128::from(cone.dim))?;
    Ok(())
}

/// Adds a line for a cone behind one of this dimension, if any.
fn push_cone(out: &mut Vec<u8>, before: Option<u32>, cone: &ListedCone) -> Result<(), AllocError>
    ensures { OnOk result (out.new.items ≡ out.old.items ++ (cone_line before cone.now ++ 10 ∷ [])) }
{
    match before {
        Some(dim) if dim == cone.dim => push_bare(out, cone)?,
        _ => push_told(out, cone)?,
    }
    out.push(b'\n')?;
    Ok(())
}

/// Adds a line for each cone.
fn push_cones(out: &mut Vec<u8>, cones: &[ListedCone]) -> Result<(), AllocError>
    ensures { OnOk result (out.new.items ≡ out.old.items ++ lines_text (cone_lines Option.None cones.now)) }
{
    let mut before = None;
    for cone in cones {
        push_cone(out, before, cone)?;
        before = Some(cone.dim);
    }
    Ok(())
}

/// Adds the line of a section's name.
fn push_name(out: &mut Vec<u8>, name: &str) -> Result<(), AllocError>
    ensures { OnOk result (out.new.items ≡ out.old.items ++ (name.now ++ 10 ∷ [])) }
{
    out.extend_from_slice(name.as_bytes())?;
    out.push(b'\n')?;
    Ok(())
}

/// Adds a section of one line.
fn push_line_section(out: &mut Vec<u8>, name: &str, line: &[u8]) -> Result<(), AllocError>
    ensures { OnOk result (out.new.items ≡ out.old.items ++ section_text (section name.now (line.now ∷ []))) }
{
    push_name(out, name)?;
    out.extend_from_slice(line)?;
    out.extend_from_slice(b"\n\n")
}

/// Adds a section with a number in its line.
fn push_number_section(out: &mut Vec<u8>, name: &str, number: usize) -> Result<(), AllocError>
    ensures { OnOk result (out.new.items ≡ out.old.items ++ section_text (section name.now (decimal number ∷ []))) }
{
    push_name(out, name)?;
    push_number(out, number as u128)?;
    out.extend_from_slice(b"\n\n")
}

/// Adds a section with numbers in its line, or none where there are none.
fn push_numbers_section(out: &mut Vec<u8>, name: &str, numbers: &[u64]) -> Result<(), AllocError>
    ensures { OnOk result (out.new.items ≡ out.old.items ++ section_text (section name.now (number_lines numbers.now))) }
{
    push_name(out, name)?;
    if !numbers.is_empty() {
        push_numbers(out, numbers)?;
        out.push(b'\n')?;
    }
    out.push(b'\n')?;
    Ok(())
}

/// Adds a section with a truth value in its line.
fn push_truth_section(out: &mut Vec<u8>, name: &str, truth: bool) -> Result<(), AllocError>
    ensures { OnOk result (out.new.items ≡ out.old.items ++ section_text (section name.now (truth_line truth ∷ []))) }
{
    if truth {
        return push_line_section(out, name, b"1");
    }
    push_line_section(out, name, b"0")
}

/// Adds the section of the greatest dimension of a cone.
fn push_dim_section(out: &mut Vec<u8>, cones: &[ListedCone]) -> Result<(), AllocError>
    ensures { OnOk result (out.new.items ≡ out.old.items ++ section_text (section (codes "DIM") (dim_line cones.now ∷ []))) }
{
    if cones.is_empty() {
        return push_line_section(out, "DIM", b"-1");
    }
    push_number_section(out, "DIM", greatest_dim(cones) as usize)
}

/// Adds a section with a line for each row.
fn push_rows_section(out: &mut Vec<u8>, name: &str, rows: &[IntVec]) -> Result<(), AllocError>
    ensures { OnOk result (out.new.items ≡ out.old.items ++ section_text (section name.now (map (λ r. spaced_entries r) rows.now))) }
{
    push_name(out, name)?;
    push_rows(out, rows)?;
    out.push(b'\n')?;
    Ok(())
}

/// Adds the section of the rays.
fn push_rays_section(out: &mut Vec<u8>, rays: &[IntVec]) -> Result<(), AllocError>
    ensures { OnOk result (out.new.items ≡ out.old.items ++ section_text (section rays_name (ray_lines 0 rays.now))) }
{
    push_name(out, "RAYS")?;
    push_rays(out, rays)?;
    out.push(b'\n')?;
    Ok(())
}

/// Adds a section of cones.
fn push_cones_section(out: &mut Vec<u8>, name: &str, cones: &[ListedCone]) -> Result<(), AllocError>
    ensures { OnOk result (out.new.items ≡ out.old.items ++ section_text (section name.now (cone_lines Option.None cones.now))) }
{
    push_name(out, name)?;
    push_cones(out, cones)?;
    out.push(b'\n')?;
    Ok(())
}

/// Adds the sections of the version, the dimensions, the rays and the spaces.
fn push_front(out: &mut Vec<u8>, parts: &FanParts) -> Result<(), AllocError>
    ensures { OnOk result (out.new.items ≡ out.old.items ++ sections_text (front_sections parts.now)) }
{
    push_number_section(out, "FILE_VERSION", 2)?;
    push_number_section(out, "AMBIENT_DIM", parts.ambient as usize)?;
    push_dim_section(out, parts.cones)?;
    push_number_section(out, "LINEALITY_DIM", parts.lineality.len())?;
    push_rays_section(out, parts.rays)?;
    push_number_section(out, "N_RAYS", parts.rays.len())?;
    push_rows_section(out, "LINEALITY_SPACE", parts.lineality)?;
    push_rows_section(out, "ORTH_LINEALITY_SPACE", parts.orthogonal)?;
    Ok(())
}

/// Adds the sections of the cones, and that of the vectors for the maximal ones.
fn push_back(alloc: Global, out: &mut Vec<u8>, parts: &FanParts) -> Result<(), AllocError>
    ensures { OnOk result (out.new.items ≡ out.old.items ++ sections_text (back_sections parts.now)) }
{
    let low = parts.lineality.len();
    let counts = f_vector(alloc, low, parts.cones)?;
    push_numbers_section(out, "F_VECTOR", counts.as_slice())?;
    push_truth_section(out, "SIMPLICIAL", is_simplicial(low, parts.maximal))?;
    push_truth_section(out, "PURE", is_pure(parts.maximal))?;
    push_cones_section(out, "CONES", parts.cones)?;
    push_cones_section(out, "MAXIMAL_CONES", parts.maximal)?;
    push_rows_section(out, "MAXIMAL_INTERIORS", parts.interiors)?;
    Ok(())
}

/// The text of a fan.
///
/// Each section is its name in a line, its lines, and an empty line. `FILE_VERSION` has 2; `AMBIENT_DIM`, `DIM` (-1 where there is no cone) and
/// `LINEALITY_DIM` have a number; `RAYS` a row for each ray, with its number behind it; `N_RAYS` their number;
/// `LINEALITY_SPACE` and `ORTH_LINEALITY_SPACE` a row for each vector; `F_VECTOR` the numbers of cones of each dimension from
/// that of the lineality space on; `SIMPLICIAL` whether each maximal cone has as many rays as its dimension is above that of
/// the lineality space; `PURE` whether the maximal cones have one dimension; `CONES` and `MAXIMAL_CONES` the numbers of the
/// rays of each cone, where the first of each dimension has it behind it; `MAXIMAL_INTERIORS` a row for each maximal cone.
///
/// # Errors
/// Want of memory.
pub fn write_parts(alloc: Global, parts: &FanParts) -> Result<Vec<u8>, AllocError>
    ensures { IfOk result (λ text. text.items ≡ fan_text parts.now) }
{
    let mut out = Vec::new(alloc);
    push_front(&mut out, parts)?;
    push_back(alloc, &mut out, parts)?;
    Ok(out)
}
