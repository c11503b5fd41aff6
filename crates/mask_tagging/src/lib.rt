//! A run of a message authentication code, piece by piece, on shares of its key: of Chaskey-12, or of LightMAC over PRESENT.
//!
//! A piece is taken once it is known whether more of the message comes. Behind the last one the state that a run hands out has the
//! bits of the tag, in shares. `specs/Tagging.antt` says what a run is between its pieces.
#![tactic(auto)]

mod chaskey_runs;
mod chaskey_words;
mod lightmac_runs;
mod lightmac_words;
mod runs;

pub use chaskey_runs::ChaskeyRun;
pub use lightmac_runs::LightMacRun;
pub use runs::TagRun;

#[cfg(test)]
mod lightmac_tests;
