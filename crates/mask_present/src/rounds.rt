//! The rounds of PRESENT.

ghost use Rattle.std.specs.Prelude.{◌≡◌, ℕ, ◌+◌, ◌<◌, Bool, List, [], length, All, IfOk};
ghost use Rattle.mask_bits.specs.Reading.{number};
ghost use Rattle.mask_circuit.specs.Netlist.{value_count};
ghost use Rattle.mask_circuit.specs.Acceptance.{IsTidy};
ghost use Rattle.mask_parts.specs.Drafts.{Lays, bits_of};
ghost use Rattle.mask_parts.specs.Tidiness.{IsFree, KeepsTidy};
ghost use Rattle.mask_present.specs.Present.{register, present};
ghost use Rattle.mask_present.specs.Rounds.{stage, key_added, block_round, rounds};

use crate::round::{moved, substituted, xor_blocks};
use crate::schedule::update;
use mask_circuit::{Builder, CircuitError};
use mask_tasks::KeySize;

// The block xored with the round key.
fn add_key(
    b: &mut Builder,
    size: KeySize,
    key: &[u32],
    block: &[u32; 64],
) -> Result<[u32; 64], CircuitError>
    requires width { length key.now ≡ (register size).width }
    requires key_known { All (λ u. u < value_count b.old) key.now }
    requires block_known { All (λ u. u < value_count b.old) block.now }
    ensures { let s = key_added (register size) (stage b.old key.now block.now) in Lays b.old s.draft s.block b.new result }
{
    let first = key.len() - 64;
    xor_blocks(b, block, &key[first..])
}

// A round on the block.
fn block_round(
    b: &mut Builder,
    size: KeySize,
    key: &[u32],
    block: &[u32; 64],
) -> Result<[u32; 64], CircuitError>
    requires width { length key.now ≡ (register size).width }
    requires key_known { All (λ u. u < value_count b.old) key.now }
    requires block_known { All (λ u. u < value_count b.old) block.now }
    ensures { let s = block_round (register size) (stage b.old key.now block.now) in Lays b.old s.draft s.block b.new result }
{
    let keyed = add_key(b, size, key, block)?;
    let substituted = substituted(b, &keyed)?;
    Ok(moved(&substituted))
}

// The rounds on the block, with updates of the register between them.
fn rounds(
    b: &mut Builder,
    size: KeySize,
    key: &mut [u32],
    block: &[u32; 64],
) -> Result<[u32; 64], CircuitError>
    requires width { length key.old ≡ (register size).width }
    requires key_known { All (λ u. u < value_count b.old) key.old }
    requires block_known { All (λ u. u < value_count b.old) block.now }
    ensures { let s = rounds (register size) (stage b.old key.old block.now) in Lays b.old s.draft s.block b.new result }
{
    let _values = b.values();
    let mut state = *block;
    for done in 0..31 {
        state = match block_round(b, size, key, &state) {
            Ok(state) => state,
            Err(e) => return Err(e),
        };
        match update(b, size, key, done + 1) {
            Ok(()) => {}
            Err(e) => return Err(e),
        }
    }
    add_key(b, size, key, &state)
}

// So the block is encrypted, on a copy of the key.
fn encrypted(
    b: &mut Builder,
    size: KeySize,
    key: &[u32],
    block: &[u32; 64],
) -> Result<[u32; 64], CircuitError>
    requires width { length key.now ≡ (register size).width }
    requires key_known { All (λ u. u < value_count b.old) key.now }
    requires block_known { All (λ u. u < value_count b.old) block.now }
    ensures { let s = rounds (register size) (stage b.old key.now block.now) in Lays b.old s.draft s.block b.new result }
{
    match size {
        KeySize::K80 => {
            let mut register = [0; 80];
            register.copy_from_slice(key);
            rounds(b, size, &mut register, block)
        }
        KeySize::K128 => {
            let mut register = [0; 128];
            register.copy_from_slice(key);
            rounds(b, size, &mut register, block)
        }
    }
}

/// The encryption of the block `state` under the key: 31 rounds, and the last round key. Both are lists of values, that of
/// bit 0 first.
pub fn present_rounds(
    b: &mut Builder,
    size: KeySize,
    key: &[u32],
    state: &[u32; 64],
) -> Result<[u32; 64], CircuitError>
    requires width { length key.now ≡ (register size).width }
    requires key_known { All (λ u. u < value_count b.old) key.now }
    requires state_known { All (λ u. u < value_count b.old) state.now }
    ensures laid { let s = rounds (register size) (stage b.old key.now state.now) in Lays b.old s.draft s.block b.new result }
    ensures plain { IfOk result (λ y. (x : List Bool) → length x ≡ b.old.inputs →
        number (bits_of b.new x y) ≡ present size (number (bits_of b.old x key.now)) (number (bits_of b.old x state.now))) }
    ensures tidy { IfOk result (λ y. IsTidy b.old → All (λ u. IsFree b.old u) key.now → All (λ u. IsFree b.old u) state.now →
        KeepsTidy b.old b.new y) }
{
    let encrypted = encrypted(b, size, key, state)?;
    let _values = b.values();
    Ok(encrypted)
}
