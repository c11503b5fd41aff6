//! The commands on key files: `split` and `join`; and the reading of a key file as commands do it.
//!
//! How a run ends by the bytes that it took of the key file stands in `specs/KeyEnds.antt`.
#![tactic(auto)]

mod joining;
mod laws;
mod reading;
mod splitting;

pub use joining::join;
pub use laws::keys_decide;
pub use reading::read_lines;
pub use splitting::split;

#[cfg(test)]
mod tests;
