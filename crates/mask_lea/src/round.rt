//! What a round does to the block.

ghost use Rattle.std.specs.Prelude.{◌≡◌, ℕ, ◌+◌, ◌<◌, List, [], length, All};
ghost use Rattle.mask_circuit.specs.Netlist.{value_count};
ghost use Rattle.mask_parts.specs.Drafts.{Lays};
ghost use Rattle.mask_parts.specs.Words32.{AreWordsOf};
ghost use Rattle.mask_lea.specs.Rounds.{stage, with_mixed, mixed_results, with_block_mixed};

use mask_circuit::{Builder, CircuitError};
use mask_parts::{add32, rot32, xor32};

/// The values of a word's bits, the lowest first.
pub(crate) type Word = [u32; 32];

// Two words, each xored with one of the round key, added up.
fn mixed(b: &mut Builder, x: &Word, k: &Word, y: &Word, l: &Word) -> Result<Word, CircuitError>
    requires x_known { All (λ u. u < value_count b.old) x.now }
    requires k_known { All (λ u. u < value_count b.old) k.now }
    requires y_known { All (λ u. u < value_count b.old) y.now }
    requires l_known { All (λ u. u < value_count b.old) l.now }
    ensures { Lays b.old (with_mixed b.old x.now k.now y.now l.now) (mixed_results (value_count b.old)) b.new result }
{
    let left = xor32(b, x, k)?;
    let right = xor32(b, y, l)?;
    add32(b, &left, &right)
}

/// The block after a round with these six words as its key.
pub(crate) fn mix_block(
    b: &mut Builder,
    key: &[Word; 6],
    block: &[Word; 4],
) -> Result<[Word; 4], CircuitError>
    requires key_known { AreWordsOf b.old key.now }
    requires block_known { AreWordsOf b.old block.now }
    ensures { let s = with_block_mixed key.now (stage b.old 0 0 [] block.now) in Lays b.old s.draft s.block b.new result }
{
    let first = mixed(b, &block[0], &key[0], &block[1], &key[1])?;
    let second = mixed(b, &block[1], &key[2], &block[2], &key[3])?;
    let third = mixed(b, &block[2], &key[4], &block[3], &key[5])?;
    Ok([
        rot32(&first, 9),
        rot32(&second, 32 - 5),
        rot32(&third, 32 - 3),
        block[0],
    ])
}
