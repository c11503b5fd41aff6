//! Blocks of Chaskey-12 as words, each bit in lane 0 of a word.

ghost use Rattle.std.specs.Prelude.{◌≡◌, ◌<◌, length};
ghost use Rattle.mask_bits.specs.Lanes.{lane};
ghost use Rattle.mask_bits.specs.Reading.{low};
ghost use Rattle.mask_chaskey.specs.declared.doubling.End.TheVariants.{Short};
ghost use Rattle.mask_chaskey.specs.Chaskey.{padded};

use mask_chain::put_low_bits;

/// The words of a block of sixteen bytes.
pub(crate) fn block_words(block: &[u8]) -> [u64; 128]
    requires { length block.now ≡ 16 }
    ensures { lane 0 result ≡ low block.now }
{
    let mut words = [0; 128];
    put_low_bits(block, &mut words);
    words
}

/// The words of a block of fewer bytes, behind which come a one and zeros.
pub(crate) fn short_words(piece: &[u8]) -> [u64; 128]
    requires { length piece.now < 16 }
    ensures { lane 0 result ≡ low (padded Short piece.now) }
{
    let mut block = [0; 16];
    block[..piece.len()].copy_from_slice(piece);
    block[piece.len()] = 1;
    block_words(&block)
}
