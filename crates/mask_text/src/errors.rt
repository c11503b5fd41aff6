//! Why a text isn't read.

ghost use Rattle.std.specs.Prelude.{◌≡◌, ⊤};
ghost use Rattle.mask_text.specs.declared.errors.Stop.TheVariants.{NoMemory};
ghost use Rattle.mask_text.specs.declared.errors.TextError.TheVariants as errors;

use mask_circuit::CircuitError;
use mask_io::Failed;
use std::alloc::{AllocError, AllocFailed};

/// What is wrong with a line of a text.
#[derive(Clone, Copy, Debug, PartialEq, Eq)]
pub enum Reason {
    /// The first line isn't a header, or in version 1 the second isn't `inputs n`.
    BadHeader,
    /// The line isn't of a form that is allowed in its section.
    BadLine,
    /// An operand isn't a value so far.
    UnknownValue,
    /// The text ends without `end`.
    NoEnd,
    /// A line follows `end`.
    AfterEnd,
    /// The line passes a limit.
    TooManyValues,
    /// An earlier line of its kind has the same name.
    BadName,
}

/// Why no circuit was read.
#[derive(Clone, Copy, Debug, PartialEq, Eq)]
pub enum TextError {
    /// The first faulty line, numbered from 1, and what is wrong with it.
    Bad { line: u32, reason: Reason },
    /// The text has more bytes than this.
    TooLong { limit: u64 },
    /// The source failed.
    ReadFault,
    /// There is no memory.
    NoMemory,
}

/// A sink failed.
#[derive(Clone, Copy, Debug, PartialEq, Eq)]
pub struct WriteFault;

impl From<Failed> for WriteFault {
    ghost from_gives = { λ _ _. ⊤ };

    fn from(_failed: Failed) -> WriteFault {
        WriteFault
    }
}

impl From<Failed> for TextError {
    ghost from_gives = { λ _ e. e ≡ errors.ReadFault };

    fn from(_failed: Failed) -> TextError {
        TextError::ReadFault
    }
}

impl From<AllocError> for TextError {
    ghost from_gives = { λ _ e. e ≡ errors.NoMemory };

    fn from(_error: AllocError) -> TextError {
        TextError::NoMemory
    }
}

/// Why a reader doesn't take a line.
#[derive(Clone, Copy)]
pub enum Stop {
    Faulty(Reason),
    NoMemory,
}

// Where the limits were tested, only memory is left to fail.
impl From<CircuitError> for Stop {
    ghost from_gives = { λ _ e. e ≡ NoMemory };

    fn from(_error: CircuitError) -> Stop {
        Stop::NoMemory
    }
}

impl From<AllocError> for Stop {
    ghost from_gives = { λ _ e. e ≡ NoMemory };

    fn from(_error: AllocError) -> Stop {
        Stop::NoMemory
    }
}

impl<T: Drop> From<AllocFailed<T>> for Stop {
    ghost from_gives = { λ _ e. e ≡ NoMemory };

    fn from(_failed: AllocFailed<T>) -> Stop {
        Stop::NoMemory
    }
}
