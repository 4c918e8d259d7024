//! Inputs whose polynomials are written as monomials and as differences of two, without numbers: definitions and laws.
//!
//! Start at `specs/PlainInputs.antt`, which says what such inputs are. The functions compute nothing: the contract of each is a law.
//!
//! The laws are about all commands, so the crate passes their crates on to `gfan`.
#![tactic(auto)]

ghost use Rattle.gfan_plain_theory.specs.PlainLaws.{PlainInputsTellNoOverflow, PlainTextsExist};

pub use gfan_fans as fans;
pub use gfan_generated as generated;
pub use gfan_lists as lists;
pub use gfan_sets as sets;

/// On such inputs no command on bases, lists of bases, saturations, weights, cones, prevarieties or marked sets reports the overflow of a coefficient; nor does
/// the summary of a list.
pub fn plain_inputs_tell_no_overflow()
    ensures { PlainInputsTellNoOverflow }
{}

/// There are such inputs.
pub fn plain_texts_exist()
    ensures { PlainTextsExist }
{}
