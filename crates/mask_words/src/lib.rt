//! The words of a command line, the table of commands, and the job that words name.
#![tactic(auto)]

mod command_lines;
mod naming;
mod table;
mod word_tests;

pub use command_lines::Words;
pub use naming::{TapeName, hex_bytes, keys_path, tape_name};
pub use table::{BadWords, Job, read_words, words_have_one_answer};
pub use word_tests::{wire_of, wires_have_one_number};

#[cfg(test)]
mod tests;
