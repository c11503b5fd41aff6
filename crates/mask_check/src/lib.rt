//! The checker: which circuits may be evaluated on shares.
//!
//! A circuit is accepted where no product has operands that reach one source; it is then non-interfering. It is strong
//! where, beyond that, its outputs are distinct refreshes that no gate uses; it is then strongly non-interfering.
#![tactic(auto)]

mod admission;
mod backward;
mod batches;
mod fences;
mod marks;
mod strong;
mod verdicts;

pub use admission::{AdmitError, Admitted, admit};
pub use strong::{StrengthenError, Strong, strengthen};
pub use verdicts::{Verdict, check};

#[cfg(test)]
mod tests;
