//! A run of evaluations in one lane, one circuit after another: it has a key in shares, and passes a state on.
#![tactic(auto)]

mod chains;
mod evaluating;
mod evaluations;
mod inputs;
mod parts;
mod words;

pub use chains::ChainRun;
pub use evaluations::{Evaluation, Keep, Source};
pub use parts::Part;
pub use words::put_low_bits;

#[cfg(test)]
mod tests;
