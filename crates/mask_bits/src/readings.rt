//! Bytes as bits, and bits as bytes.

ghost use Rattle.std.specs.Prelude.{◌≡◌, ℕ, ◌+◌, ◌-◌, ◌*◌, ◌/◌, ◌<◌, ◌≤◌, false, ◌++◌, length, replicate, slice_index, slice_index_or, IfOk, OnOk};
ghost use Rattle.mask_bits.specs.Reading.{bit, lowest, low, high, number, big_endian, bytes_for, IsPadded};

use crate::Bits;
use std::alloc::{AllocError, Global};

/// The bit of weight 2^place of a word.
pub fn bit_of(word: u64, place: u32) -> bool
    requires { place < 64 }
    ensures { result ≡ bit place word }
{
    (word >> place) & 1 == 1
}

/// The bits of the bytes, each byte's lowest bit first.
pub fn bits_low_first(alloc: Global, bytes: &[u8]) -> Result<Bits, AllocError>
    ensures reading { IfOk result (λ bits. bits ≡ low bytes.now) }
    ensures len { IfOk result (λ bits. length bits ≡ 8 * length bytes.now) }
    ensures places { IfOk result (λ bits. (b i : ℕ) → b < length bytes.now → i < 8
        → slice_index_or bits (8 * b + i) false ≡ bit i (slice_index bytes.now b)) }
{
    let mut bits = Bits::new(alloc);
    for byte in bytes {
        push_byte(&mut bits, *byte)?;
    }
    Ok(bits)
}

/// The bits of the big-endian number that the bytes are, that of weight 1 first.
pub fn bits_high_first(alloc: Global, bytes: &[u8]) -> Result<Bits, AllocError>
    ensures reading { IfOk result (λ bits. bits ≡ high bytes.now) }
    ensures weights { IfOk result (λ bits. number bits ≡ big_endian bytes.now) }
{
    let mut bits = Bits::new(alloc);
    for byte in bytes.iter().rev() {
        push_byte(&mut bits, *byte)?;
    }
    Ok(bits)
}

// Appends the eight bits of a byte, the lowest first.
fn push_byte(bits: &mut Bits, byte: u8) -> Result<(), AllocError>
    ensures { OnOk result (bits.new ≡ bits.old ++ lowest 8 byte) }
{
    for place in 0..8u32 {
        bits.push(bit_of(byte as u64, place))?;
    }
    Ok(())
}

/// The bytes whose low-first reading begins with the bits and ends with fewer than eight zeros more.
pub fn bytes_of_low(alloc: Global, bits: &Bits) -> Result<Vec<u8>, AllocError>
    ensures { IfOk result (λ bytes. IsPadded bits.now (low bytes.items)) }
{
    let mut bytes = vec![in alloc; 0; bits.len().div_ceil(8)]?;
    pack_low(bits, &mut bytes);
    Ok(bytes)
}

/// Fills as many bytes as the bits need, so that their low-first reading begins with the bits and ends with fewer than
/// eight zeros more. It takes no memory.
pub fn pack_low(bits: &Bits, bytes: &mut [u8])
    requires { length bytes.old ≡ bytes_for (length bits.now) }
    ensures { IsPadded bits.now (low bytes.new) }
{
    let mut rest = bits.as_slice();
    for k in 0..bytes.len() {
        let (front, back) = rest.split_at(rest.len().min(8));
        bytes[k] = byte_of(front);
        rest = back;
    }
}

/// The bytes whose high-first reading begins with the bits and ends with fewer than eight zeros more.
pub fn bytes_of_high(alloc: Global, bits: &Bits) -> Result<Vec<u8>, AllocError>
    ensures { IfOk result (λ bytes. IsPadded bits.now (high bytes.items)) }
{
    let mut bytes = bytes_of_low(alloc, bits)?;
    bytes.reverse();
    Ok(bytes)
}

// The byte whose lowest bits these are, and whose others are 0.
fn byte_of(bits: &[bool]) -> u8
    requires { length bits.now ≤ 8 }
    ensures { lowest 8 result ≡ bits.now ++ replicate (8 - length bits.now) false }
{
    let mut byte = 0;
    for (place, bit) in bits.iter().enumerate() {
        byte += u8::from(*bit) << place;
    }
    byte
}
