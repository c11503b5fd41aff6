//! The stream cipher Trivium (ISO/IEC 29192-3) as two circuits: the state after the clocks without output, and 64 clocks
//! that encrypt 64 bits of a message.
//!
//! `specs/Trivium.antt` is the cipher on bits, `specs/Clocks.antt` its clocks gate by gate, and `specs/NamedTrivium.antt` the
//! circuits.
#![tactic(auto)]

mod circuits;
mod clock;
mod clocks;

pub use circuits::{trivium_start, trivium_step};

#[cfg(test)]
mod tests;
