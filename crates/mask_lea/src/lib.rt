//! The block cipher LEA (ISO/IEC 29192-2) as a circuit, for keys of 128, 192 and 256 bits.
//!
//! `specs/Lea.antt` is the cipher on numbers, `specs/Rounds.antt` its rounds gate by gate, and `specs/NamedLea.antt` the
//! circuits.
#![tactic(auto)]

mod circuits;
mod round;
mod rounds;
mod schedule;

pub use circuits::lea_circuit;
pub use mask_tasks::LeaSize;

#[cfg(test)]
mod tests;
