//! Parts that circuits are laid from: products, rows of XORs, tables of steps, the S-box of PRESENT, words of 32 bits, and
//! the fence at the outputs.
//!
//! Each part makes exactly the gates of its definition, in the order given there. `specs/` also holds the word that says
//! so of any call that lays gates, up to a whole circuit, and the record that is the contract of a cipher's circuit.
#![tactic(auto)]

mod circuits;
mod fences;
mod products;
mod rows;
mod substitution;
mod tables;
mod words;

pub use circuits::strong_circuit;
pub use fences::fence_outputs;
pub use products::product;
pub use rows::{number_from, xor_all};
pub use substitution::sbox4_present;
pub use tables::{Place, Step, lay};
pub use words::{add32, constant32, rot32, xor32};

#[cfg(test)]
mod tests;
