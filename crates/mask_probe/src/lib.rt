//! Probes of a masked circuit: which input shares suffice for what they show, and tapes on which they see the same.
#![tactic(auto)]

mod demands;
mod errors;
mod gadgets;
mod inner;
mod input_needs;
mod masks;
mod places;
mod sets;
mod shifting;
mod sides;
mod tapes;

pub use errors::ProbeError;
pub use input_needs::needs;
pub use sets::Needs;
pub use tapes::shift_tape;

#[cfg(test)]
mod tests;
