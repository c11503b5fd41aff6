//! The message authentication code LightMAC over PRESENT (ISO/IEC 29192-6) as circuits: a step and the end of a message.
//!
//! `specs/LightMac.antt` is the code on numbers, and `specs/NamedLightMac.antt` the circuits.
#![tactic(auto)]

mod circuits;

pub use circuits::{lightmac_end, lightmac_step};
pub use mask_present::KeySize;

#[cfg(test)]
mod tests;
