//! Modes of operation, as steps of a run: counter mode.
#![tactic(auto)]

pub mod counter;
