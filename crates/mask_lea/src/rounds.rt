//! The rounds of LEA.

ghost use Rattle.std.specs.Prelude.{◌≡◌, ℕ, ◌<◌, List, length, All, OnOk};
ghost use Rattle.mask_circuit.specs.Netlist.{value_count};
ghost use Rattle.mask_parts.specs.Drafts.{Lays};
ghost use Rattle.mask_parts.specs.Words32.{AreWordsOf};
ghost use Rattle.mask_lea.specs.Lea.{schedule};
ghost use Rattle.mask_lea.specs.Rounds.{stage, with_round, with_rounds};

use crate::round::{Word, mix_block};
use crate::schedule::{round_key, rounds, update};
use mask_circuit::{Builder, CircuitError};
use mask_tasks::LeaSize;

// Round i on the key and the block.
fn round(
    b: &mut Builder,
    size: LeaSize,
    zero: u32,
    one: u32,
    key: &mut [Word],
    block: &[Word; 4],
    i: usize,
) -> Result<[Word; 4], CircuitError>
    requires width { length key.old ≡ (schedule size).words }
    requires key_known { AreWordsOf b.old key.old }
    requires block_known { AreWordsOf b.old block.now }
    requires zero_known { zero < value_count b.old }
    requires one_known { one < value_count b.old }
    requires few { i < 32 }
    ensures laid { let s = with_round (schedule size) i (stage b.old zero one key.old block.now) in Lays b.old s.draft s.block b.new result }
    ensures updated { OnOk result (key.new ≡ (with_round (schedule size) i (stage b.old zero one key.old block.now)).key) }
{
    let _values = b.values();
    update(b, size, zero, one, key, i)?;
    let round_key = round_key(size, key, i);
    mix_block(b, &round_key, block)
}

/// The block after all rounds, which update the key. `zero` and `one` are always 0 and 1.
pub(crate) fn encrypt(
    b: &mut Builder,
    size: LeaSize,
    zero: u32,
    one: u32,
    key: &mut [Word],
    block: &[Word; 4],
) -> Result<[Word; 4], CircuitError>
    requires width { length key.old ≡ (schedule size).words }
    requires key_known { AreWordsOf b.old key.old }
    requires block_known { AreWordsOf b.old block.now }
    requires zero_known { zero < value_count b.old }
    requires one_known { one < value_count b.old }
    ensures { let s = with_rounds (schedule size) (stage b.old zero one key.old block.now) in Lays b.old s.draft s.block b.new result }
{
    let _values = b.values();
    let mut state = *block;
    for i in 0..rounds(size) {
        state = match round(b, size, zero, one, key, &state, i) {
            Ok(state) => state,
            Err(e) => return Err(e),
        };
    }
    Ok(state)
}
