//! Blocks: four words, or 128 values.

ghost use Rattle.std.specs.Prelude.{◌≡◌, ℕ, ◌+◌, ◌<◌, ◌≤◌, List, length, take, drop, All};
ghost use Rattle.std.specs.List.{concat};
ghost use Rattle.mask_circuit.specs.Netlist.{value_count};
ghost use Rattle.mask_parts.specs.Drafts.{Lays};
ghost use Rattle.mask_parts.specs.Words32.{AreWordsOf};
ghost use Rattle.mask_chaskey.specs.NamedChaskey.{four_words, block_from};
ghost use Rattle.mask_chaskey.specs.Rounds.{stage, with_block_xored};

use mask_circuit::{Builder, CircuitError};
use mask_parts::{number_from, xor32};

/// The values of a word's bits, the lowest first.
pub(crate) type Word = [u32; 32];

// The word of the values from place `first` on.
fn word_at(values: &[u32; 128], first: usize) -> Word
    requires { first + 32 ≤ 128 }
    ensures { result ≡ take 32 (drop first values.now) }
{
    let mut word = [0; 32];
    word.copy_from_slice(&values[first..first + 32]);
    word
}

/// The four words of 128 values.
pub(crate) fn four_words(values: &[u32; 128]) -> [Word; 4]
    ensures { result ≡ four_words values.now }
{
    [
        word_at(values, 0),
        word_at(values, 32),
        word_at(values, 64),
        word_at(values, 96),
    ]
}

/// The 128 values of four words.
pub(crate) fn all_values(words: &[Word; 4]) -> [u32; 128]
    ensures { result ≡ concat words.now }
{
    let mut values = [0; 128];
    for k in 0..4 {
        values[32 * k..32 * k + 32].copy_from_slice(&words[k]);
    }
    values
}

/// 128 values in a row.
pub(crate) fn block_from(first: u32) -> [Word; 4]
    requires { first ≤ 1_000_000 }
    ensures { result ≡ block_from first }
{
    let mut values = [0; 128];
    number_from(&mut values, first);
    four_words(&values)
}

/// The XOR of two blocks.
pub(crate) fn xor_blocks(
    b: &mut Builder,
    xs: &[Word; 4],
    ys: &[Word; 4],
) -> Result<[Word; 4], CircuitError>
    requires xs_known { AreWordsOf b.old xs.now }
    requires ys_known { AreWordsOf b.old ys.now }
    ensures { let s = with_block_xored ys.now (stage b.old xs.now) in Lays b.old s.draft s.block b.new result }
{
    let _values = b.values();
    let mut xored = *xs;
    for k in 0..4 {
        xored[k] = match xor32(b, &xored[k], &ys[k]) {
            Ok(word) => word,
            Err(e) => return Err(e),
        };
    }
    Ok(xored)
}
