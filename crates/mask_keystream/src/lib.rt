//! A run of Trivium between its pieces, which take up to eight bytes each.
#![tactic(auto)]

mod streaming;
mod words;

pub use streaming::StreamRun;

#[cfg(test)]
mod tests;
