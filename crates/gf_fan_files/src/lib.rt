//! Fan files: what is read from their text, and what is written of a fan.
//!
//! A text is cut into lines and sections (`specs/Lines.antt`); machines read the tokens of a content (`specs/RowText.antt`,
//! `specs/ConeText.antt`, `specs/NumberText.antt`), and what a text says is said apart from them, by grammars
//! (`specs/FanText.antt`).
#![tactic(auto)]

mod again;
mod certificates;
mod cones;
mod duals;
mod error;
mod fan;
mod fan_writer;
mod file;
mod limits;
mod lines;
mod migration;
mod numbers;
mod parts;
mod places;
mod rows;
mod sections;
mod writer;

pub use again::{
    fan_is_read_again, fans_are_read_again, parts_are_writable, read_again, written_cones_are_read,
    written_fans_are_read, written_fans_are_sound,
};
pub use cones::{ConeList, RayNumbers};
pub use duals::{duals_of_duals, farkas_lemma};
pub use error::FanFileError;
pub use fan::read;
pub use fan_writer::write;
pub use file::{FanFile, read_file};
pub use migration::{migrate, migrated_files_are_whole};
pub use parts::{FanParts, ListedCone};
pub use rows::Vectors;
pub use writer::write_parts;
