//! What a message can be encrypted or tagged with: the sizes of the ciphers and codes, the tasks, and the named circuits.
#![tactic(auto)]

mod lengths;
mod names;
mod sizes;
mod tasks;

pub use lengths::{chaskey_tag_length, counter_length, lightmac_tag_length};
pub use names::{Named, circuit_named, names_are_distinct};
pub use sizes::{KeySize, LeaSize};
pub use tasks::{Task, key_length, message_limit, tasks_are_whole};

#[cfg(test)]
mod tests;
