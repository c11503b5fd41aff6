//! Why probes are refused.

ghost use Rattle.std.specs.Prelude.{◌≡◌};
ghost use Rattle.mask_probe.specs.declared.errors.ProbeError.TheVariants.{NoMemory};

use std::alloc::AllocError;

/// Why probes are refused.
#[derive(Clone, Copy, Debug, PartialEq, Eq)]
pub enum ProbeError {
    /// There are as many probes as shares, or more.
    TooManyProbes,
    /// The probe in this place, counted from 0, is no wire, and those before it are.
    NoSuchWire { place: u32 },
    /// There is no memory.
    NoMemory,
}

impl From<AllocError> for ProbeError {
    ghost from_gives = { λ _ e. e ≡ NoMemory };

    fn from(_error: AllocError) -> ProbeError {
        ProbeError::NoMemory
    }
}
