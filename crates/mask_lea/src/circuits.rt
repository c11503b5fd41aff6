//! The circuits of LEA in counter mode.

ghost use Rattle.std.specs.Prelude.{◌≡◌, ℕ, ◌+◌, ◌*◌, ◌<◌, ◌≤◌, ◌^◌, List, [], length, All, IfOk};
ghost use Rattle.std.specs.List.{range_with_len};
ghost use Rattle.mask_circuit.specs.Netlist.{value_count, only_inputs};
ghost use Rattle.mask_check.specs.Costs.{most_steps};
ghost use Rattle.mask_parts.specs.CipherCircuits.{IsCipherCircuit};
ghost use Rattle.mask_parts.specs.Drafts.{Lays};
ghost use Rattle.mask_parts.specs.Words32.{AreWordsOf};
ghost use Rattle.mask_lea.specs.Lea.{schedule};
ghost use Rattle.mask_lea.specs.Rounds.{with_rounds};
ghost use Rattle.mask_lea.specs.NamedLea.{width, words_from, start, with_blocks_xored, named_lea, size_lea, lea_of_bits};

use crate::round::Word;
use crate::rounds::encrypt;
use crate::schedule::words;
use mask_check::Strong;
use mask_circuit::{Builder, Circuit, CircuitError, Steps};
use mask_parts::{fence_outputs, number_from, strong_circuit, xor32};
use mask_tasks::LeaSize;
use std::alloc::{AllocError, Global};
use std::sync::ledger::Ledger;

// A word of values in a row.
fn word_from(first: u32) -> Word
    requires { first + 32 ≤ 2 ^ 32 }
    ensures { result ≡ range_with_len first 32 }
{
    let mut word = [0; 32];
    number_from(&mut word, first);
    word
}

// Numbers the values of the words, from `first` on.
fn number_words(words: &mut [Word], first: u32)
    requires few { length words.old ≤ 8 }
    requires small { first ≤ 1_000_000 }
    ensures { words.new ≡ words_from first (length words.old) }
{
    for (k, word) in words.iter_mut().enumerate() {
        *word = word_from(first + 32 * k as u32);
    }
}

// The XOR of two blocks. Its values are the last 128.
fn xor_blocks(b: &mut Builder, xs: &[Word; 4], ys: &[Word; 4]) -> Result<(), CircuitError>
    requires xs_known { AreWordsOf b.old xs.now }
    requires ys_known { AreWordsOf b.old ys.now }
    ensures { Lays b.old (with_blocks_xored b.old xs.now ys.now) tt b.new result }
{
    let _values = b.values();
    for k in 0..4 {
        xor32(b, &xs[k], &ys[k])?;
    }
    Ok(())
}

// Lays the constants and the rounds on these inputs.
fn lay_rounds(
    b: &mut Builder,
    size: LeaSize,
    key: &mut [Word],
    counter: &[Word; 4],
) -> Result<[Word; 4], CircuitError>
    requires inputs { b.old ≡ only_inputs (width (schedule size) + 256) }
    requires first { key.old ≡ words_from 0 (schedule size).words }
    requires second { counter.now ≡ words_from (width (schedule size)) 4 }
    ensures { let s = with_rounds (schedule size) (start (schedule size)) in Lays b.old s.draft s.block b.new result }
{
    let _values = b.values();
    let zero = b.zero()?;
    let one = b.one()?;
    encrypt(b, size, zero, one, key, counter)
}

// Lays the circuit on these inputs.
fn lay_on(
    b: &mut Builder,
    size: LeaSize,
    key: &mut [Word],
    counter: &[Word; 4],
    message: &[Word; 4],
) -> Result<(), CircuitError>
    requires inputs { b.old ≡ only_inputs (width (schedule size) + 256) }
    requires first { key.old ≡ words_from 0 (schedule size).words }
    requires second { counter.now ≡ words_from (width (schedule size)) 4 }
    requires third { message.now ≡ words_from (width (schedule size) + 128) 4 }
    ensures { Lays b.old (named_lea size) tt b.new result }
{
    let encrypted = lay_rounds(b, size, key, counter)?;
    let first = b.values();
    xor_blocks(b, &encrypted, message)?;
    let mut sums = [0; 128];
    number_from(&mut sums, first);
    fence_outputs(b, &sums)
}

// The inputs are the key, then the counter block, then the message block.
fn lay_circuit(b: &mut Builder, size: LeaSize) -> Result<(), CircuitError>
    requires { b.old ≡ only_inputs (width (schedule size) + 256) }
    ensures { Lays b.old (named_lea size) tt b.new result }
{
    let count = words(size);
    let width = 32 * count as u32;
    let mut register = [[0; 32]; 8];
    let key = &mut register[..count];
    number_words(key, 0);
    let mut counter = [[0; 32]; 4];
    number_words(&mut counter, width);
    let mut message = [[0; 32]; 4];
    number_words(&mut message, width + 128);
    lay_on(b, size, key, &counter, &message)
}

fn named_circuit(alloc: Global, size: LeaSize) -> Result<Circuit, AllocError>
    ensures { IfOk result (λ c. c ≡ named_lea size) }
{
    let inputs = 32 * words(size) as u32 + 256;
    let mut b = match Builder::new(alloc, inputs) {
        Ok(b) => b,
        Err(_) => unreachable!(),
    };
    match lay_circuit(&mut b, size) {
        Ok(()) => Ok(b.finish()),
        Err(CircuitError::NoMemory) => Err(AllocError),
        Err(CircuitError::TooManyValues) => unreachable!(),
    }
}

/// The circuit lea-128, lea-192 or lea-256: its inputs are the key, a counter block and a message block, each bit 0 first, and
/// its outputs the encryption of the counter block under the key, xored with the message block. The steps are those of
/// `check`.
pub fn lea_circuit<L: Ledger>(
    alloc: Global,
    size: LeaSize,
    steps: &mut Steps<L>,
) -> Result<Strong, AllocError>
    ensures circuit { IfOk result (λ s. IsCipherCircuit (named_lea size) (size_lea size) (lea_of_bits size) s) }
    ensures steps { steps.new ≤ steps.old + most_steps (named_lea size) }
{
    let circuit = named_circuit(alloc, size)?;
    let _values = circuit.values();
    strong_circuit(alloc, circuit, steps)
}
