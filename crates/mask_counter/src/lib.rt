//! A run in counter mode between its batches: blocks side by side in lanes, and fresh shares of the key.
#![tactic(auto)]

mod counter;
mod shares;
mod words;

pub use counter::CounterRun;
pub use words::{BitOrder, block_words, counter_bytes};

#[cfg(test)]
mod tests;
