//! Message authentication codes, as steps of a run: Chaskey-12, and LightMAC over PRESENT (ISO/IEC 29192-6).
#![tactic(auto)]

pub mod laws;
