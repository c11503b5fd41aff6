//! Circuits over bits, as masked evaluation takes them: inputs, a list of gates, and the values handed out.
//!
//! This crate also holds, in `specs/`, the definitions that all contracts of masking cite.
#![tactic(auto)]

mod builders;
mod circuits;
mod gates;
mod groups;
mod labelled;
mod limits;
mod pairs;
mod queries;
mod steps;
mod wires;

pub use builders::{Builder, CircuitError};
pub use circuits::Circuit;
pub use gates::{Gate, Wire};
pub use groups::Group;
pub use labelled::{Labelled, MAX_GROUPS};
pub use limits::{MAX_OUTPUTS, MAX_VALUES};
pub use pairs::{other, pair_at, pair_count, pair_number};
pub use steps::Steps;
pub use wires::WirePlace;

#[cfg(test)]
mod tests;
