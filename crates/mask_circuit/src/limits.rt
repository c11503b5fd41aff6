//! How large a circuit may be.

/// The most values of a circuit: its inputs and its gates together.
pub const MAX_VALUES: u32 = 1_000_000;

/// The most outputs of a circuit.
pub const MAX_OUTPUTS: u32 = 1_000_000;
