//! The key sizes of the ciphers.

ghost use Rattle.std.specs.Prelude.{◌≡◌};
ghost use Rattle.mask_tasks.specs.Sizes.{present_bytes, lea_bytes};

/// The key size of PRESENT (ISO/IEC 29192-2), in bits.
#[derive(Clone, Copy, Debug, PartialEq, Eq)]
pub enum KeySize {
    K80,
    K128,
}

impl KeySize {
    /// The length of a key in bytes.
    pub fn bytes(self) -> u32
        ensures { result ≡ present_bytes self }
    {
        match self {
            KeySize::K80 => 10,
            KeySize::K128 => 16,
        }
    }
}

/// The key size of LEA (ISO/IEC 29192-2), in bits.
#[derive(Clone, Copy, Debug, PartialEq, Eq)]
pub enum LeaSize {
    K128,
    K192,
    K256,
}

impl LeaSize {
    /// The length of a key in bytes.
    pub fn bytes(self) -> u32
        ensures { result ≡ lea_bytes self }
    {
        match self {
            LeaSize::K128 => 16,
            LeaSize::K192 => 24,
            LeaSize::K256 => 32,
        }
    }
}
