//! Blocks of LightMAC as words, each bit in lane 0 of a word.

ghost use Rattle.std.specs.Prelude.{◌≡◌, ℕ, ◌-◌, ◌<◌, ◌≤◌, false, length, replicate};
ghost use Rattle.mask_bits.specs.Lanes.{lane};
ghost use Rattle.mask_bits.specs.Reading.{high};
ghost use Rattle.mask_lightmac.specs.LightMac.{padded};
ghost use Rattle.mask_macs.specs.Codes.{IsCounterLength};
ghost use Rattle.mask_macs.specs.LightMacRuns.{counted_bytes, value_bits};
ghost use Rattle.mask_chain.specs.Evaluations.{IsThere, source_bits};

use mask_chain::Source;
use mask_counter::{BitOrder, block_words};

/// The words of a piece behind so many bytes, with its counter ahead of it. The first piece has the counter 1.
pub(crate) fn counted_words(counter: u32, fed: u64, piece: &[u8]) -> [u64; 64]
    requires counter { IsCounterLength counter }
    requires length { length piece.now ≡ 8 - counter }
    ensures { lane 0 result ≡ high (counted_bytes counter fed piece.now) }
{
    // One more than a number of 64 bits may need another bit.
    let number = u128::from(fed / u64::from(8 - counter)) + 1;
    let bytes = number.to_be_bytes();
    let len = counter as usize;
    let mut block = [0; 8];
    block[..len].copy_from_slice(&bytes[16 - len..]);
    block[len..].copy_from_slice(piece);
    high_words(&block)
}

/// The words of the last piece with its padding: the byte 0x80, and behind it zeros.
pub(crate) fn padded_words(piece: &[u8]) -> [u64; 64]
    requires { length piece.now < 8 }
    ensures { lane 0 result ≡ high (padded piece.now) }
{
    let mut block = [0; 8];
    block[..piece.len()].copy_from_slice(piece);
    block[piece.len()] = 0x80;
    high_words(&block)
}

/// Where the bits of V come from behind so many bytes: they are zeros first, and then the state.
pub(crate) fn value_behind<'a>(fed: u64, zeros: &'a [u64; 64]) -> Source<'a>
    requires { zeros.now ≡ replicate 64 0 }
    ensures bits { source_bits result ≡ value_bits fed }
    ensures there { (k s : ℕ) → (0 < fed → 64 ≤ s) → IsThere k s result }
{
    if fed == 0 {
        Source::Public(zeros)
    } else {
        Source::State { count: 64 }
    }
}

// The words of the bits of a block, which is a big-endian number.
fn high_words(block: &[u8; 8]) -> [u64; 64]
    ensures { lane 0 result ≡ high block.now }
{
    let mut words = [0; 64];
    block_words(block, 8, BitOrder::HighFirst, &mut words);
    words
}
