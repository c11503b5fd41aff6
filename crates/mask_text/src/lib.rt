//! Circuits as text: a line for the header, for each group, each gate and each output.
//!
//! A text is read in either of its two versions, with comments, empty lines, runs of spaces and
//! carriage returns, and written in one spelling. `specs/Text.antt` says which texts stand for
//! which circuits, and `specs/Faults.antt` what is wrong with the others.
#![tactic(auto)]

mod errors;
mod laws;
mod lines;
mod names;
mod read;
mod reader;
mod said;
mod sayings;
mod section;
mod source;
mod spell;
mod write;

pub use errors::{Reason, TextError, WriteFault};
pub use laws::{canonical_stands, text_or_fault};
pub use lines::{bare, next_line};
pub use read::{MAX_TEXT, read_text};
pub use source::{PIECE, read_circuit, read_labelled};
pub use write::{write_circuit, write_labelled};

#[cfg(test)]
mod tests;
