//! Tests of the top call, and of several crates together, in a crate of their own: what they prove again is only that each
//! call is safe.
#![tactic(auto)]

#[cfg(test)]
mod checking;
#[cfg(test)]
mod emitting;
#[cfg(test)]
mod encrypting;
#[cfg(test)]
mod evaluation;
#[cfg(test)]
mod gadgets;
#[cfg(test)]
mod keys;
#[cfg(test)]
mod probing;
#[cfg(test)]
mod runs;
#[cfg(test)]
mod selves;
#[cfg(test)]
mod sizes;
#[cfg(test)]
mod tagging;
