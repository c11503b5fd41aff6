//! The evaluator: a circuit on shares, for up to 64 lanes at once, and what watches it.
#![tactic(auto)]

mod calls;
mod evaluation;
mod frames;
mod gates;
mod listing;
mod sharing;
mod watching;
mod words;

pub use calls::{coin_room, evaluate};
pub use evaluation::eval;
pub use frames::Frame;
pub use gates::eval_on;
pub use listing::{ListWatch, Seen};
pub use sharing::share;
pub use watching::{NoWatch, Watch};

#[cfg(test)]
mod tests;
