//! What a round does to the block.

ghost use Rattle.std.specs.Prelude.{◌≡◌, ℕ, ◌<◌, List, length, All};
ghost use Rattle.mask_circuit.specs.Netlist.{value_count};
ghost use Rattle.mask_parts.specs.Drafts.{Lays};
ghost use Rattle.mask_parts.specs.Words32.{AreWordsOf};
ghost use Rattle.mask_chaskey.specs.Rounds.{stage, with_mixed, turned_block, with_round};

use crate::blocks::Word;
use mask_circuit::{Builder, CircuitError};
use mask_parts::{add32, rot32, xor32};

// The block with word j added to word i, and word j rotated left by k places and xored with that sum.
fn mix(
    b: &mut Builder,
    block: &[Word; 4],
    i: usize,
    j: usize,
    k: u32,
) -> Result<[Word; 4], CircuitError>
    requires known { AreWordsOf b.old block.now }
    requires first { i < 4 }
    requires second { j < 4 }
    requires places { k < 32 }
    ensures { let s = with_mixed i j k (stage b.old block.now) in Lays b.old s.draft s.block b.new result }
{
    let sum = add32(b, &block[i], &block[j])?;
    let turned = xor32(b, &rot32(&block[j], k), &sum)?;
    let mut mixed = *block;
    mixed[i] = sum;
    mixed[j] = turned;
    Ok(mixed)
}

// The block with word i rotated by half its width.
fn turn(block: &[Word; 4], i: usize) -> [Word; 4]
    requires { i < 4 }
    ensures { result ≡ turned_block i block.now }
{
    let mut turned = *block;
    turned[i] = rot32(&block[i], 16);
    turned
}

/// The block after a round.
pub(crate) fn round(b: &mut Builder, block: &[Word; 4]) -> Result<[Word; 4], CircuitError>
    requires { AreWordsOf b.old block.now }
    ensures { let s = with_round (stage b.old block.now) in Lays b.old s.draft s.block b.new result }
{
    let _values = b.values();
    let first = turn(&mix(b, block, 0, 1, 5)?, 0);
    let second = mix(b, &first, 2, 3, 8)?;
    let third = mix(b, &second, 0, 3, 13)?;
    let last = mix(b, &third, 2, 1, 7)?;
    Ok(turn(&last, 2))
}
