//! The command `mask`: one call that does what its words ask for, on a key file, an input, a tape and an output.
//!
//! What each job promises stands in `specs/Promises.antt`, a row for each; what `eval` does, in `specs/Evaluating.antt`.
#![tactic(auto)]

mod command;
mod evaluating;
mod evaluation;
mod hexadecimal;

pub use command::mask_main;
pub use mask_status::{KeyReason, Status, status_number, status_text};
