//! The laws of masking: what is proved of the definitions in `mask_circuit` alone.
//!
//! Each law is the contract of a public function with nothing to do; a crate above calls it, or cites its lemma.
#![tactic(auto)]

pub mod bridges;
pub mod circuits;
pub mod gadgets;
pub mod privacy;
pub mod refutations;
pub mod runs;
pub mod strong;
