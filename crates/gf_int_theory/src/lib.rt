//! Whole numbers: identities, greatest common divisors, lowest terms, contents.
//!
//! This crate holds the definitions and laws on whole numbers that fractions and whole vectors stand on. The
//! functions compute nothing: each one's contract is a law, so that the check proves it. Read `specs/Gcd.antt` and
//! `specs/Content.antt` first.
#![tactic(auto)]

mod laws;

pub use laws::{content_of_list, division_by_content, euclids_lemma, lowest_terms};
