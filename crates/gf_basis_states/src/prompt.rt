//! What is printed for a basis.
ghost use Rattle.std.specs.Prelude.{◌≡◌, ◌++◌, length, OnOk};
ghost use Rattle.gf_basis_states.specs.Prompts.{facet_line, facet_lines, prompt_text};

use gf_poly::MarkedSet;
use gf_text::{Printer, Ring, push_number};
use gf_vec::IntVec;
use std::alloc::AllocError;

/// Adds the line of a facet: its number, a space, its normal.
fn push_facet(text: &mut Vec<u8>, number: usize, normal: &IntVec) -> Result<(), AllocError>
    ensures { OnOk result (text.new.items ≡ text.old.items ++ facet_line number normal.now) }
{
    push_number(text, number as u128)?;
    text.push(b' ')?;
    Printer::vector(text, normal)?;
    text.push(b'\n')?;
    Ok(())
}

/// Adds the lines of facets, numbered from 0.
fn push_facets(text: &mut Vec<u8>, normals: &[IntVec]) -> Result<(), AllocError>
    ensures { OnOk result (text.new.items ≡ text.old.items ++ facet_lines 0 normals.now) }
{
    'facets: for i in 0..normals.len() {
        push_facet(text, i, &normals[i])?;
    }
    Ok(())
}

/// Adds what is printed for a basis: the basis and a line end, a line for each of the normals with its number, from 0 on, and a line
/// `history H` with the number of crossings that were not undone. The normals are those that a flip may cross.
///
/// # Errors
///
/// Only when memory runs out.
pub fn push_prompt(
    text: &mut Vec<u8>,
    ring: &Ring,
    basis: &MarkedSet,
    normals: &[IntVec],
    history: usize,
) -> Result<(), AllocError>
    requires { basis.now.variables ≡ length ring.now }
    ensures { OnOk result (text.new.items ≡ text.old.items ++ prompt_text ring.now basis.now.items normals.now history) }
{
    Printer::basis(text, ring, basis)?;
    text.push(b'\n')?;
    push_facets(text, normals)?;
    text.extend_from_slice(b"history ")?;
    push_number(text, history as u128)?;
    text.push(b'\n')?;
    Ok(())
}
