//! Bits of bytes as words, each bit in lane 0 of a word.

ghost use Rattle.std.specs.Prelude.{◌≡◌, ◌*◌, ◌<◌, false, length, slice_index_or};
ghost use Rattle.mask_bits.specs.Lanes.{lane};
ghost use Rattle.mask_bits.specs.Reading.{bit, low};

use mask_bits::bit_of;

/// Puts the bits of these bytes there, that of weight 1 of the first byte first.
pub fn put_low_bits(bytes: &[u8], words: &mut [u64])
    requires { length words.old ≡ 8 * length bytes.now }
    ensures { lane 0 words.new ≡ low bytes.now }
{
    for j in 0..words.len() {
        words[j] = word_of(bytes, j);
    }
}

// Bit j of these bytes.
fn word_of(bytes: &[u8], j: usize) -> u64
    requires { j < 8 * length bytes.now }
    ensures { bit 0 result ≡ slice_index_or (low bytes.now) j false }
{
    u64::from(bit_of(u64::from(bytes[j / 8]), (j % 8) as u32))
}
