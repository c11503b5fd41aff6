//! Blocks side by side: the bits of up to 64 blocks as words, block l in lane l.

ghost use Rattle.std.specs.Prelude.{◌≡◌, ℕ, suc, ◌+◌, ◌-◌, ◌*◌, ◌/◌, ◌%◌, ◌^◌, ◌<◌, ◌≤◌, length, take, drop, slice_index};
ghost use Rattle.mask_bits.specs.Lanes.{lane};
ghost use Rattle.mask_bits.specs.Reading.{low, number};
ghost use Rattle.mask_modes.specs.CounterMode.{counter};
ghost use Rattle.mask_modes.specs.Steps.{block_at};
ghost use Rattle.mask_counter.specs.Blocks.{IsBlockLength, ordered, reading};

use mask_bits::transpose_64;

/// Which bit of a block comes first.
#[derive(Clone, Copy, Debug, PartialEq, Eq)]
pub enum BitOrder {
    /// The lowest bit of the first byte.
    LowFirst,
    /// The lowest bit of the last byte: the block is a big-endian number.
    HighFirst,
}

/// The words of up to 64 blocks of so many bytes: word j has in lane l bit j of block l, read in this order. What is
/// missing of the last block, and the blocks behind it, are zeros.
pub fn block_words(bytes: &[u8], block: usize, order: BitOrder, words: &mut [u64])
    requires block { IsBlockLength block }
    requires words { length words.old ≡ 8 * block }
    ensures { (l : ℕ) → l < 64 → lane l words.new ≡ reading order (block_at block bytes.now l) }
{
    for part in 0..block / 8 {
        let columns = square(bytes, block, order, part);
        words[64 * part..64 * part + 64].copy_from_slice(&columns);
    }
}

// The words of the bytes 8 · part to 8 · part + 7 of each block, in the order in which they are read.
fn square(bytes: &[u8], block: usize, order: BitOrder, part: usize) -> [u64; 64]
    requires block { IsBlockLength block }
    requires part { part < block / 8 }
    ensures count { length result ≡ 64 }
    ensures lanes { (l : ℕ) → l < 64 → lane l result ≡ low (take 8 (drop (8 * part) (ordered order (block_at block bytes.now l)))) }
{
    let mut rows = [0; 64];
    for l in 0..64 {
        rows[l] = row(bytes, block, order, l, 8 * part);
    }
    transpose_64(&mut rows);
    rows
}

// The number that eight bytes of block l stand for from this one on, the first one lowest.
fn row(bytes: &[u8], block: usize, order: BitOrder, l: usize, first: usize) -> u64
    requires block { IsBlockLength block }
    requires lane { l < 64 }
    requires first { first + 8 ≤ block }
    ensures { result ≡ number (low (take 8 (drop first (ordered order (block_at block bytes.now l))))) }
{
    let mut number = 0;
    for k in 0..8 {
        let byte = ordered_byte(bytes, block, order, l, first + 7 - k);
        number = number * 256 + u64::from(byte);
    }
    number
}

// Byte k of block l, in the order in which bytes are read.
fn ordered_byte(bytes: &[u8], block: usize, order: BitOrder, l: usize, k: usize) -> u8
    requires block { IsBlockLength block }
    requires lane { l < 64 }
    requires place { k < block }
    ensures { result ≡ slice_index (ordered order (block_at block bytes.now l)) k }
{
    let place = match order {
        BitOrder::LowFirst => k,
        BitOrder::HighFirst => block - 1 - k,
    };
    let at = l * block + place;
    if at < bytes.len() { bytes[at] } else { 0 }
}

/// The 64 counters from block `first` on, end to end.
pub fn counter_bytes(block: usize, iv: u128, first: u64) -> [u8; 1024]
    requires block { IsBlockLength block }
    requires iv { iv < 2 ^ (8 * block) }
    requires first { first ≤ 2 ^ 28 }
    ensures { (l : ℕ) → l < 64 → block_at block result l ≡ counter block iv (first + l) }
{
    let mut bytes = [0; 1024];
    for at in 0..64 * block {
        bytes[at] = counter_byte(block, iv, first + (at / block) as u64, at % block);
    }
    bytes
}

// Byte j of the counter of block i.
fn counter_byte(block: usize, iv: u128, i: u64, j: usize) -> u8
    requires block { IsBlockLength block }
    requires iv { iv < 2 ^ (8 * block) }
    requires place { j < block }
    ensures { result ≡ (iv + i) % 2 ^ (8 * block) / 2 ^ (8 * (block - suc j)) % 2 ^ 8 }
{
    let sum = iv.wrapping_add(u128::from(i));
    let number = if block == 8 { sum % (1 << 64) } else { sum };
    ((number >> (8 * (block - 1 - j))) % 256) as u8
}
