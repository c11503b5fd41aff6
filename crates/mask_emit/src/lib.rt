//! The command `emit`: the text of a circuit that is built in.
#![tactic(auto)]

mod emitting;
mod laws;

pub use emitting::emit;
pub use laws::named_circuits;

#[cfg(test)]
mod tests;
