//! A list of bits.

ghost use Rattle.std.specs.Prelude.{◌≡◌, ◌<◌, false, List, [], ◌∷◌, ◌++◌, length, replicate, slice_index_or, slice_set, IfOk, OnOk, OnErr};

use std::alloc::{AllocError, Global};
use std::marker::Model;

/// A list of truth values.
#[derive(Drop)]
pub struct Bits {
    items: Vec<bool>,
}

impl Model for Bits {
    ghost use Rattle.std.specs.Prelude.{Bool, List};

    ghost Value = { List Bool };

    ghost view = { λ b. b.items.items };
}

impl Bits {
    /// The empty list.
    pub fn new(alloc: Global) -> Bits
        ensures { result ≡ [] }
    {
        Bits {
            items: Vec::new(alloc),
        }
    }

    /// A list of `len` zeros.
    pub fn zeros(alloc: Global, len: usize) -> Result<Bits, AllocError>
        ensures { IfOk result (λ bits. bits ≡ replicate len false) }
    {
        Ok(Bits {
            items: vec![in alloc; false; len]?,
        })
    }

    /// Appends a bit.
    pub fn push(&mut self, bit: bool) -> Result<(), AllocError>
        ensures ok { OnOk result (self.new ≡ self.old ++ bit ∷ []) }
        ensures err { OnErr result (self.new ≡ self.old) }
    {
        self.items.push(bit)?;
        Ok(())
    }

    /// How many bits there are.
    pub fn len(&self) -> usize
        ensures { result ≡ length self.now }
    {
        self.items.len()
    }

    /// Element `k`.
    pub fn get(&self, k: usize) -> bool
        requires { k < length self.now }
        ensures { result ≡ slice_index_or self.now k false }
    {
        self.items[k]
    }

    /// Makes element `k` this bit.
    pub fn set(&mut self, k: usize, bit: bool)
        requires { k < length self.old }
        ensures { self.new ≡ slice_set self.old k bit }
    {
        self.items[k] = bit;
    }

    pub(crate) fn as_slice(&self) -> &[bool]
        ensures { result.now ≡ self.now }
    {
        self.items.as_slice()
    }
}
