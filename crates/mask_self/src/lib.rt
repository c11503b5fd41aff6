//! A run that makes its own input: `self`, a trial of a whole machine by one line.
//!
//! A generator makes key lines, an IV and a message of a seed. The message is encrypted as `enc` does it, by LEA with a key of 128
//! bits at the order that is asked, with the tape that is handed in; and one line tells how many calls and random bits that took,
//! and the XOR of all blocks of the ciphertext. So the line is a function of the words alone, whatever the tape.
//!
//! The message isn't stored: it is a source, from which the run takes it. The ciphertext is, and its memory is taken ahead of the
//! run.
//!
//! `specs/Generator.antt` says what is made of a seed, `specs/Reports.antt` what is printed, and `specs/Selves.antt` how a run ends.
#![tactic(auto)]

mod collecting;
mod generator;
mod making;
mod reporting;
mod running;

pub use running::self_run;

#[cfg(test)]
mod tests;
