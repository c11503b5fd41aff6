//! The key register and its updates.

ghost use Rattle.std.specs.Prelude.{◌≡◌, ℕ, ◌+◌, ◌<◌, ◌≤◌, Bool, [], ◌∷◌, take, drop, length, fold, All, OnOk, if◌then◌else◌};
ghost use Rattle.mask_bits.specs.Reading.{lowest};
ghost use Rattle.mask_circuit.specs.Netlist.{value_count};
ghost use Rattle.mask_parts.specs.Drafts.{Lays, with_gates};
ghost use Rattle.mask_present.specs.Present.{register};
ghost use Rattle.mask_present.specs.Rounds.{stage, with_stretch, not_gates, not_results, key_replaced, key_updated};

use crate::nibbles::{nibble, set_nibble};
use mask_bits::bit_of;
use mask_circuit::{Builder, CircuitError};
use mask_parts::sbox4_present;
use mask_tasks::KeySize;

// The lowest bits of the nibbles that pass the S-box in an update.
fn nibble_places(size: KeySize) -> &'static [usize]
    ensures { result.now ≡ (register size).nibbles }
{
    match size {
        KeySize::K80 => &[76],
        KeySize::K128 => &[124, 120],
    }
}

// The lowest of the five bits that the number of a round is xored into.
fn counter_place(size: KeySize) -> usize
    ensures { result ≡ (register size).counter }
{
    match size {
        KeySize::K80 => 15,
        KeySize::K128 => 62,
    }
}

// The four values from place `at` on go through the S-box.
fn replace_nibble(b: &mut Builder, key: &mut [u32], at: usize) -> Result<(), CircuitError>
    requires within { at + 4 ≤ length key.old }
    requires known { All (λ u. u < value_count b.old) key.old }
    ensures laid { Lays b.old (key_replaced (stage b.old key.old []) at).draft tt b.new result }
    ensures replaced { OnOk result (key.new ≡ (key_replaced (stage b.old key.old []) at).key) }
{
    let replaced = sbox4_present(b, nibble(key, at))?;
    set_nibble(key, at, replaced);
    Ok(())
}

// So do those from each of these places on.
fn replace_nibbles(b: &mut Builder, key: &mut [u32], places: &[usize]) -> Result<(), CircuitError>
    requires within { All (λ at. at + 4 ≤ length key.old) places.now }
    requires known { All (λ u. u < value_count b.old) key.old }
    ensures laid { Lays b.old (fold key_replaced (stage b.old key.old []) places.now).draft tt b.new result }
    ensures replaced { OnOk result (key.new ≡ (fold key_replaced (stage b.old key.old []) places.now).key) }
{
    let _values = b.values();
    for at in places {
        match replace_nibble(b, key, *at) {
            Ok(()) => {}
            Err(e) => return Err(e),
        }
    }
    Ok(())
}

// The NOT of a value where the flag is set, and else the value.
fn not_if(b: &mut Builder, flag: bool, u: u32) -> Result<u32, CircuitError>
    requires { u < value_count b.old }
    ensures { Lays b.old (with_gates b.old (not_gates (flag ∷ []) (u ∷ [])))
        (if flag then value_count b.old else u) b.new result }
{
    let _values = b.values();
    if flag { b.not(u) } else { Ok(u) }
}

// Five values, with the NOT of each where the bit of the number is 1.
fn counted(b: &mut Builder, values: &[u32], number: u32) -> Result<[u32; 5], CircuitError>
    requires five { length values.now ≡ 5 }
    requires known { All (λ u. u < value_count b.old) values.now }
    ensures { Lays b.old (with_gates b.old (not_gates (lowest 5 number) values.now))
        (not_results (value_count b.old) (lowest 5 number) values.now) b.new result }
{
    let _values = b.values();
    let mut result = [0; 5];
    for k in 0..5 {
        result[k] = match not_if(b, bit_of(number as u64, k as u32), values[k]) {
            Ok(value) => value,
            Err(e) => return Err(e),
        };
    }
    Ok(result)
}

// The number of a round is xored into the five values from place `at` on.
fn count_round(b: &mut Builder, key: &mut [u32], at: usize, round: u32) -> Result<(), CircuitError>
    requires within { at + 5 ≤ length key.old }
    requires known { All (λ u. u < value_count b.old) key.old }
    ensures laid { Lays b.old (with_gates b.old (not_gates (lowest 5 round) (take 5 (drop at key.old)))) tt b.new result }
    ensures counted { OnOk result
        (key.new ≡ with_stretch at (not_results (value_count b.old) (lowest 5 round) (take 5 (drop at key.old))) key.old) }
{
    let counted = counted(b, &key[at..at + 5], round)?;
    key[at..at + 5].copy_from_slice(&counted);
    Ok(())
}

/// The update of the register after round number `round` took its key.
pub(crate) fn update(
    b: &mut Builder,
    size: KeySize,
    key: &mut [u32],
    round: u32,
) -> Result<(), CircuitError>
    requires width { length key.old ≡ (register size).width }
    requires known { All (λ u. u < value_count b.old) key.old }
    ensures laid { Lays b.old (key_updated (register size) round (stage b.old key.old [])).draft tt b.new result }
    ensures updated { OnOk result (key.new ≡ (key_updated (register size) round (stage b.old key.old [])).key) }
{
    let mid = key.len() - 61;
    key.rotate_left(mid);
    replace_nibbles(b, key, nibble_places(size))?;
    count_round(b, key, counter_place(size), round)
}
