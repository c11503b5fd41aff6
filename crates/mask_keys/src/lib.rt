//! Key files: keys as lines of hexadecimal, each line a share of the key.
//!
//! A key is split into lines whose exclusive or it is, so that all lines but one show nothing of it,
//! and lines are joined again. Nothing here takes memory but the coins of a split.
#![tactic(auto)]

mod files;
mod join;
mod laws;
mod lines;
mod split;

pub use files::{KeyError, KeyLength, line_text, read_keys};
pub use join::join_key;
pub use laws::{key_file_or_fault, key_file_reads_back, split_hides, splits_join};
pub use lines::{KeyBytes, KeyLines};
pub use split::{SplitError, split_key};

#[cfg(test)]
mod tests;
