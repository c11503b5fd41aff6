//! The shares of a value in a byte: bit i is share i.

ghost use Rattle.std.specs.Prelude.{◌≡◌, ℕ, ◌+◌, ◌*◌, ◌<◌, ◌≤◌, ◌^◌, cond, length, IfOk};
ghost use Rattle.mask_sni.specs.Asked.{bit_shares};
ghost use Rattle.mask_probe.specs.Sides.{byte_shares, input_shares};

use mask_bits::{Bits, bit_of};
use std::alloc::{AllocError, Global};

/// Share i of a value, whose shares are the bits of a byte.
pub(crate) fn share_of(byte: u8, i: usize) -> bool
    requires { i < 8 }
    ensures { result ≡ bit_shares byte i }
{
    bit_of(byte as u64, i as u32)
}

/// The shares before share i, with share i.
pub(crate) fn append_share(shares: u8, i: usize, share: bool) -> u8
    requires below { shares < 2 ^ i }
    requires few { i < 8 }
    ensures value { result ≡ shares + cond share (2 ^ i) 0 }
    ensures below { result < 2 ^ (i + 1) }
{
    if share { shares + (1 << i) } else { shares }
}

/// The shares of all inputs, from a list of bits that has them value by value and share by share.
pub(crate) fn inputs_of<const N: usize>(
    alloc: Global,
    bits: &Bits,
    inputs: u32,
) -> Result<Vec<u8>, AllocError>
    requires few { N ≤ 8 }
    requires bits { length bits.now ≡ N * inputs }
    ensures count { IfOk result (λ bytes. length bytes.items ≡ inputs) }
    ensures shares { IfOk result (λ bytes. (u i : ℕ) → u < inputs → i < N
        → byte_shares bytes.items u i ≡ input_shares N bits.now u i) }
{
    let mut bytes = Vec::new(alloc);
    for value in 0..inputs {
        bytes.push(input_of::<N>(bits, value))?;
    }
    Ok(bytes)
}

// The shares of one input.
fn input_of<const N: usize>(bits: &Bits, value: u32) -> u8
    requires few { N ≤ 8 }
    requires bits { N * value + N ≤ length bits.now }
    ensures { (i : ℕ) → i < N → bit_shares result i ≡ input_shares N bits.now value i }
{
    let mut shares = 0;
    for i in 0..N {
        shares = append_share(shares, i, bits.get(N * value as usize + i));
    }
    shares
}
