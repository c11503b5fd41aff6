//! Strong non-interference of product and refresh, by calls: which shares of the operands probes on such a gate need.
//!
//! The law behind it is in `mask_laws`: probes on inner wires and some output shares, together fewer than the shares of
//! a value, show what can be made from the needed shares alone (Barthe and others 2016).
#![tactic(auto)]

use arrayvec::ArrayVec;

mod needs;
mod outputs;
mod partners;
mod products;
mod shifts;
mod wires;

pub use needs::{and_needs, ref_needs};
pub use outputs::{and_share, ref_share};
pub use shifts::{and_shift, ref_shift};

/// Share numbers, rising and without repeats.
pub type Places = ArrayVec<u8, 8>;

/// Local wire numbers of a gate. A product of 8 shares has 204 wires, so a number fits a byte.
pub type Probes = ArrayVec<u8, 8>;

#[cfg(test)]
mod tests;
