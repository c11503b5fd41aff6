//! The gadgets: gates on shares, for 2 to 8 shares and up to 64 lanes.
//!
//! Sum and complement act share by share. A product is that of Ishai, Sahai and Wagner (2003), and a refresh adds a
//! fresh bit to each pair of shares (Barthe and others 2016). These two also give their wires: each value that they
//! compute, in the order in which probes number them.
#![tactic(auto)]

use arrayvec::ArrayVec;

mod gadgets;
mod gates;
mod linear;
mod machines;
mod product;
mod refresh;
mod wiring;

pub use gadgets::{and_gadget, not_gadget, ref_gadget, xor_gadget};
pub use gates::gate_on;
pub use machines::Unheard;
pub use wiring::Wiring;

/// The wires of one gate, by local number. A product of 8 shares has 204.
pub type Wires = ArrayVec<u64, 204>;

#[cfg(test)]
mod tests;
