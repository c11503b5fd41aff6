//! The commands on messages: [`enc`], which encrypts a message under a key that is split into lines, or makes its tag, and
//! [`encrypt_message`], which does so with lines that are there.
//!
//! `enc` reads the key file first. The message is taken batch by batch: a batch is read, encrypted on shares, unmasked and
//! written by one write before more is read. So where reading, the tape or memory fails, what was written is the ciphertext of
//! whole batches, and only the last piece of a message, which is shorter, is encrypted without more behind it.
//!
//! A code takes a piece only where one more byte is there, and its last piece otherwise: so the next piece is read first. Only the
//! tag is written, when all was taken.
//!
//! `specs/Encrypting.antt` says for each status what was taken, drawn, told and written. Lengths are in bytes.
#![tactic(auto)]

mod bytes;
mod encrypting;
mod streaming;
mod tagging;

pub use encrypting::{enc, encrypt_message};
