//! The tape of random bits, and the coins that an evaluation draws from it.
#![tactic(auto)]

mod coins;
mod room;
mod spreading;
mod tape;

pub use coins::Coins;
pub use room::CoinRoom;
pub use tape::{Tape, TapeError};

#[cfg(test)]
mod tests;
