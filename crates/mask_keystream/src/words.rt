//! Bits of bytes as words, each bit in lane 0 of a word.

ghost use Rattle.std.specs.Prelude.{◌≡◌, ◌≤◌, length};
ghost use Rattle.mask_bits.specs.Lanes.{lane};
ghost use Rattle.mask_bits.specs.Reading.{low};
ghost use Rattle.mask_modes.specs.Steps.{block_at};

use mask_chain::put_low_bits;

/// The words of an IV.
pub(crate) fn iv_words(iv: &[u8; 10]) -> [u64; 80]
    ensures { lane 0 result ≡ low iv.now }
{
    let mut words = [0; 80];
    put_low_bits(iv, &mut words);
    words
}

/// The words of a block that begins with these bytes and is filled up with zeros.
pub(crate) fn block_words(piece: &[u8]) -> [u64; 64]
    requires few { length piece.now ≤ 8 }
    ensures { lane 0 result ≡ low (block_at 8 piece.now 0) }
{
    let mut block = [0; 8];
    block[..piece.len()].copy_from_slice(piece);
    let mut words = [0; 64];
    put_low_bits(&block, &mut words);
    words
}
