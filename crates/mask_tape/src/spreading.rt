//! Bits that lie in bytes, spread over the lanes of words.

ghost use Rattle.std.specs.Prelude.{◌≡◌, ℕ, ◌+◌, ◌*◌, ◌^◌, ◌<◌, ◌≤◌, false, length, take, drop, slice_index, slice_index_or};
ghost use Rattle.mask_bits.specs.Reading.{bit, low, number};
ghost use Rattle.mask_tape.specs.Tape.{IsSpread};

use mask_bits::transpose_64;

/// Spreads the bits of the bytes from bit `at` on, the lowest bit of a byte first: lane l of the words gets the l-th
/// stretch of as many bits as there are words. The lanes from `lanes` on get zeros.
pub(crate) fn spread(bytes: &[u8], at: usize, lanes: usize, words: &mut [u64])
    requires lanes { lanes ≤ 64 }
    requires within { at + lanes * length words.old ≤ 8 * length bytes.now }
    requires small { 8 * length bytes.now < 2 ^ 63 }
    ensures { IsSpread (drop at (low bytes.now)) lanes (length words.old) words.new }
{
    let bits = words.len();
    let mut first = 0;
    while first < bits {
        let count = (bits - first).min(64);
        let columns = square(bytes, at + first, lanes, bits);
        words[first..first + count].copy_from_slice(&columns[..count]);
        first += count;
    }
}

// Words of which word k has in lane l the bit at `at + l * bits + k`.
fn square(bytes: &[u8], at: usize, lanes: usize, bits: usize) -> [u64; 64]
    requires lanes { lanes ≤ 64 }
    requires within { (l : ℕ) → l < lanes → at + l * bits ≤ 8 * length bytes.now }
    requires small { 8 * length bytes.now < 2 ^ 63 }
    ensures used { (k l : ℕ) → k < 64 → l < lanes
        → bit l (slice_index result k) ≡ slice_index_or (low bytes.now) (at + l * bits + k) false }
    ensures unused { (k l : ℕ) → k < 64 → lanes ≤ l → l < 64 → bit l (slice_index result k) ≡ false }
{
    let mut rows = [0; 64];
    for lane in 0..lanes {
        rows[lane] = window(bytes, at + lane * bits);
    }
    transpose_64(&mut rows);
    rows
}

// The 64 bits from bit `at` on, the first one lowest, and zeros past the end.
fn window(bytes: &[u8], at: usize) -> u64
    requires { at ≤ 8 * length bytes.now }
    ensures { (j : ℕ) → j < 64 → bit j result ≡ slice_index_or (low bytes.now) (at + j) false }
{
    let rest = &bytes[at / 8..];
    let shift = at % 8;
    let eight = little_endian(rest);
    if shift == 0 {
        return eight;
    }
    (eight >> shift) | (byte_or_zero(rest, 8) << (64 - shift))
}

// The byte at this place, and zero past the end.
fn byte_or_zero(bytes: &[u8], place: usize) -> u64
    ensures { result ≡ slice_index_or bytes.now place 0 }
{
    match bytes.get(place) {
        Some(byte) => u64::from(*byte),
        None => 0,
    }
}

// The number that the first eight bytes stand for, or as many as there are, the lowest byte first.
fn little_endian(bytes: &[u8]) -> u64
    ensures { result ≡ number (low (take 8 bytes.now)) }
{
    match bytes.first_chunk::<8>() {
        Some(eight) => u64::from_le_bytes(*eight),
        None => {
            let mut eight = [0; 8];
            eight[..bytes.len()].copy_from_slice(bytes);
            u64::from_le_bytes(eight)
        }
    }
}
