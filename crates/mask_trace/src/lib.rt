//! What a run is, as data, and what is proved of every run.
#![tactic(auto)]

pub mod lanes;
pub mod laws;
pub mod privacy;
pub mod values;
