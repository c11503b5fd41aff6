//! The permutation of Chaskey-12 (ISO/IEC 29192-6) as circuits: the steps and the ends of its message authentication code.
//!
//! `specs/Chaskey.antt` is the code on numbers, `specs/Rounds.antt` its rounds gate by gate, and `specs/NamedChaskey.antt` the
//! circuits.
#![tactic(auto)]

mod blocks;
mod circuits;
mod doubling;
mod round;
mod rounds;

pub use circuits::{chaskey_end_short, chaskey_end_whole, chaskey_step};
pub use doubling::End;

#[cfg(test)]
mod tests;
