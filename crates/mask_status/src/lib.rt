//! How a run of the command ends: its statuses, their numbers and their texts, and the end of a command that writes one
//! report.
#![tactic(auto)]

mod status;
mod writing;

pub use status::{KeyReason, Status, status_number, status_text};
pub use writing::send;

#[cfg(test)]
mod tests;
