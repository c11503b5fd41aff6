//! The key and its updates.

ghost use Rattle.std.specs.Prelude.{◌≡◌, ℕ, ◌+◌, ◌<◌, ◌≤◌, List, [], length, All, OnOk};
ghost use Rattle.mask_circuit.specs.Netlist.{value_count};
ghost use Rattle.mask_parts.specs.Drafts.{Lays};
ghost use Rattle.mask_parts.specs.Words32.{AreWordsOf};
ghost use Rattle.mask_lea.specs.Lea.{schedule, delta, place};
ghost use Rattle.mask_lea.specs.Rounds.{stage, constant_word, with_word_updated, with_key_updated, round_words};

use crate::round::Word;
use mask_circuit::{Builder, CircuitError};
use mask_parts::{add32, constant32, rot32};
use mask_tasks::LeaSize;

// The constants of the key schedule.
const DELTAS: [u32; 8] = [
    0xc3efe9db, 0x44626b02, 0x79e27c8a, 0x78df30ec, 0x715ea49e, 0xc785da0a, 0xe04ef22a, 0xe5c40957,
];

/// How many rounds there are.
pub(crate) fn rounds(size: LeaSize) -> usize
    ensures { result ≡ (schedule size).rounds }
{
    match size {
        LeaSize::K128 => 24,
        LeaSize::K192 => 28,
        LeaSize::K256 => 32,
    }
}

/// How many words the key has.
pub(crate) fn words(size: LeaSize) -> usize
    ensures { result ≡ (schedule size).words }
{
    match size {
        LeaSize::K128 => 4,
        LeaSize::K192 => 6,
        LeaSize::K256 => 8,
    }
}

// By how many places a round rotates each word of the key that it updates.
fn turns(size: LeaSize) -> &'static [u32]
    ensures { result.now ≡ (schedule size).turns }
{
    match size {
        LeaSize::K128 => &[1, 3, 6, 11],
        LeaSize::K192 | LeaSize::K256 => &[1, 3, 6, 11, 13, 17],
    }
}

// Which of these words are the round key.
fn taken(size: LeaSize) -> [usize; 6]
    ensures { result ≡ (schedule size).taken }
{
    match size {
        LeaSize::K128 => [0, 1, 2, 1, 3, 1],
        LeaSize::K192 | LeaSize::K256 => [0, 1, 2, 3, 4, 5],
    }
}

// The constant of round i.
fn delta(size: LeaSize, i: usize) -> u32
    ensures { result ≡ delta (schedule size) i }
{
    DELTAS[i % words(size)]
}

// The constant of word j in round i.
fn constant_word(size: LeaSize, zero: u32, one: u32, i: usize, j: usize) -> Word
    requires few { i < 32 }
    requires next { j < 8 }
    ensures { result ≡ constant_word (schedule size) i j zero one }
{
    let turn = (i + j) % 32;
    rot32(&constant32(zero, one, delta(size, i)), turn as u32)
}

// Where in the key word j of round i is.
fn place(size: LeaSize, i: usize, j: usize) -> usize
    requires few { i < 32 }
    requires next { j < 8 }
    ensures { result ≡ place (schedule size) i j }
{
    (turns(size).len() * i + j) % words(size)
}

// Updates word j of round i.
fn update_word(
    b: &mut Builder,
    size: LeaSize,
    zero: u32,
    one: u32,
    key: &mut [Word],
    i: usize,
    j: usize,
) -> Result<(), CircuitError>
    requires width { length key.old ≡ (schedule size).words }
    requires key_known { AreWordsOf b.old key.old }
    requires zero_known { zero < value_count b.old }
    requires one_known { one < value_count b.old }
    requires few { i < 32 }
    requires within { j < length (schedule size).turns }
    ensures laid { Lays b.old (with_word_updated (schedule size) i j (stage b.old zero one key.old [])).draft tt b.new result }
    ensures updated { OnOk result (key.new ≡ (with_word_updated (schedule size) i j (stage b.old zero one key.old [])).key) }
{
    let at = place(size, i, j);
    let constant = constant_word(size, zero, one, i, j);
    let sum = add32(b, &key[at], &constant)?;
    key[at] = rot32(&sum, turns(size)[j]);
    Ok(())
}

/// Updates the key in round i.
pub(crate) fn update(
    b: &mut Builder,
    size: LeaSize,
    zero: u32,
    one: u32,
    key: &mut [Word],
    i: usize,
) -> Result<(), CircuitError>
    requires width { length key.old ≡ (schedule size).words }
    requires key_known { AreWordsOf b.old key.old }
    requires zero_known { zero < value_count b.old }
    requires one_known { one < value_count b.old }
    requires few { i < 32 }
    ensures laid { Lays b.old (with_key_updated (schedule size) i (stage b.old zero one key.old [])).draft tt b.new result }
    ensures updated { OnOk result (key.new ≡ (with_key_updated (schedule size) i (stage b.old zero one key.old [])).key) }
{
    let _values = b.values();
    for j in 0..turns(size).len() {
        match update_word(b, size, zero, one, key, i, j) {
            Ok(()) => {}
            Err(e) => return Err(e),
        }
    }
    Ok(())
}

/// The key of round i.
pub(crate) fn round_key(size: LeaSize, key: &[Word], i: usize) -> [Word; 6]
    requires width { length key.now ≡ (schedule size).words }
    requires few { i < 32 }
    ensures { result ≡ round_words (schedule size) i key.now }
{
    let taken = taken(size);
    let mut words = [[0; 32]; 6];
    for j in 0..6 {
        words[j] = key[place(size, i, taken[j])];
    }
    words
}
