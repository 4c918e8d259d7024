//! Rings, sets of polynomials and vectors as text: what is read, and what is written.
//!
//! A text is cut into tokens (`specs/Tokens.antt`), machines read them (`specs/Machine.antt`), and what a text means is
//! said apart from the machines, by grammars over its tokens (`specs/RingText.antt`).
#![tactic(auto)]

mod combine;
mod error;
mod fronts;
mod marked_reader;
mod names;
mod pieces;
mod printer;
mod reader;
mod ring_reader;
mod set_lists;
mod set_printer;
mod set_reader;
mod single_reader;
mod term_printer;
mod tokens;
mod tree;
mod vector_printer;
mod vector_reader;
mod written;

pub use error::{Kind, Section, Syntax, TextError};
pub use names::{DifferentNames, Ring};
pub use printer::{
    Printer, marked_sets_are_kept, polynomials_are_kept, push_entry, push_number,
    rings_are_read_again, rings_have_one_meaning, sets_are_read_again, sets_are_read_in_one_way,
    sets_have_one_meaning, vectors_are_read_again,
};
pub use reader::Reader;
pub use term_printer::{
    write_fraction, write_monomial, write_number, write_terms, write_text, write_whole,
};
pub use tokens::{Number, Token, number_of, word_from};
pub use vector_printer::write_vector;
pub use vector_reader::vectors_have_one_meaning;
pub use written::Written;

/// The most variables of a ring that is read, and the greatest dimension. A monomial has room for as many (`ROOM` of `gf_poly`).
pub const MOST_VARIABLES: usize = 24;
