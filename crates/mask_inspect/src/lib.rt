//! The commands that read a circuit text and say something of it: `check`, `upgrade` and `probe`.
//!
//! What is tested of the text, in which order, and how a run ends by it stands in `specs/Checks.antt`.
#![tactic(auto)]

mod checking;
mod laws;
mod probing;
mod reading;
mod upgrading;

pub use checking::check;
pub use laws::checks_decide;
pub use probing::probe;
pub use reading::{admitted, read};
pub use upgrading::upgrade;
