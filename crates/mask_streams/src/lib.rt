//! A stream cipher, as steps of a run: Trivium (ISO/IEC 29192-3).
#![tactic(auto)]

pub mod laws;
