//! Words of 32 bits: XOR, sum, rotation and constants.
//!
//! A word is the values of its 32 bits, of which the first is the lowest.

ghost use Rattle.std.specs.Prelude.{◌≡◌, ℕ, ◌+◌, ◌-◌, ◌%◌, ◌^◌, ◌<◌, ◌≤◌, Bool, true, false, List, ◌++◌, length, map, All, IfOk, bit_xor};
ghost use Rattle.mask_bits.specs.Reading.{number};
ghost use Rattle.mask_circuit.specs.Netlist.{value_count};
ghost use Rattle.mask_circuit.specs.Acceptance.{IsTidy};
ghost use Rattle.mask_parts.specs.Drafts.{Lays, bits_of};
ghost use Rattle.mask_parts.specs.Tidiness.{IsFree, KeepsTidy};
ghost use Rattle.mask_parts.specs.Words32.{xor32_steps, with_xor32, xor32_results, full_adder, sum32_steps, sum_place, with_sum32, sum32_results, rotated32, rol32, constant32};

use crate::tables::Place::{Given, Made};
use crate::tables::Step::{self, Product, Xor};
use crate::tables::lay;
use mask_bits::bit_of;
use mask_circuit::{Builder, CircuitError};

/// The XOR of two words, bit by bit: 32 gates. Ok has the values of its bits.
pub fn xor32(b: &mut Builder, x: &[u32; 32], y: &[u32; 32]) -> Result<[u32; 32], CircuitError>
    requires x_known { All (λ u. u < value_count b.old) x.now }
    requires y_known { All (λ u. u < value_count b.old) y.now }
    ensures laid { Lays b.old (with_xor32 b.old x.now y.now) (xor32_results (value_count b.old)) b.new result }
    ensures plain { IfOk result (λ z. (input : List Bool) → length input ≡ b.old.inputs →
        number (bits_of b.new input z) ≡ bit_xor (number (bits_of b.old input x.now)) (number (bits_of b.old input y.now))) }
    ensures tidy { IfOk result (λ z. IsTidy b.old → All (λ u. IsFree b.old u) x.now → All (λ u. IsFree b.old u) y.now →
        KeepsTidy b.old b.new z) }
{
    let first = lay(b, &operands(x, y), &xor_steps())?;
    Ok(xor_results(first))
}

/// The sum of two words modulo 2^32: 185 gates, of which 31 are products. Ok has the values of its bits.
///
/// The carries ripple from bit 0 on. A full adder takes one product: of the bits x and y and a carry c the sum is
/// x xor (y xor c), and the next carry is (x xor c)(y xor c) xor c.
pub fn add32(b: &mut Builder, x: &[u32; 32], y: &[u32; 32]) -> Result<[u32; 32], CircuitError>
    requires x_known { All (λ u. u < value_count b.old) x.now }
    requires y_known { All (λ u. u < value_count b.old) y.now }
    ensures laid { Lays b.old (with_sum32 b.old x.now y.now) (sum32_results (value_count b.old)) b.new result }
    ensures plain { IfOk result (λ z. (input : List Bool) → length input ≡ b.old.inputs →
        number (bits_of b.new input z)
        ≡ (number (bits_of b.old input x.now) + number (bits_of b.old input y.now)) % 2 ^ 32) }
    ensures tidy { IfOk result (λ z. IsTidy b.old → All (λ u. IsFree b.old u) x.now → All (λ u. IsFree b.old u) y.now →
        KeepsTidy b.old b.new z) }
{
    let first = lay(b, &operands(x, y), &sum_steps())?;
    Ok(sum_results(first))
}

/// The word rotated left by k places: bit i becomes bit i + k modulo 32. It makes no gate.
pub fn rot32(x: &[u32; 32], k: u32) -> [u32; 32]
    requires { k < 32 }
    ensures rotated { result ≡ rotated32 k x.now }
    ensures number { (reading : ℕ → Bool) → number (map reading result) ≡ rol32 k (number (map reading x.now)) }
{
    let mut rotated = *x;
    rotated.rotate_right(k as usize);
    rotated
}

/// The word as values: bit i is the value `one` where bit i of the word is 1, and else the value `zero`. It makes no gate.
pub fn constant32(zero: u32, one: u32, word: u32) -> [u32; 32]
    ensures bits { result ≡ constant32 zero one word }
    ensures number { (reading : ℕ → Bool) → reading zero ≡ false → reading one ≡ true → number (map reading result) ≡ word }
{
    let mut bits = [zero; 32];
    for i in 0..32 {
        bits[i] = if bit_of(word as u64, i as u32) {
            one
        } else {
            zero
        };
    }
    bits
}

// What a part on two words is handed.
fn operands(x: &[u32; 32], y: &[u32; 32]) -> [u32; 64]
    ensures { result ≡ x.now ++ y.now }
{
    let mut both = [0; 64];
    both[..32].copy_from_slice(x);
    both[32..].copy_from_slice(y);
    both
}

fn xor_steps() -> [Step; 32]
    ensures { result ≡ xor32_steps }
{
    let mut steps = [Xor(Given(0), Given(32)); 32];
    for i in 0..32 {
        steps[i] = Xor(Given(i as u32), Given(32 + i as u32));
    }
    steps
}

// The values of the result's bits, where the first step makes value `first`.
fn xor_results(first: u32) -> [u32; 32]
    requires { first ≤ 1_000_000 }
    ensures { result ≡ xor32_results first }
{
    let mut results = [first; 32];
    for i in 0..32 {
        results[i] = first + i as u32;
    }
    results
}

// Bit i, where value c of the part is the carry into it. Value c + 3 is the sum, and value c + 6 the next carry.
fn full_adder(i: u32, c: u32) -> [Step; 5]
    requires bit { i < 32 }
    requires carry { c < 200 }
    ensures { result ≡ full_adder i c }
{
    [
        Xor(Given(i), Made(c)), // c + 1
        Xor(Given(32 + i), Made(c)), // c + 2
        Xor(Given(i), Made(c + 2)), // c + 3
        Product(Made(c + 1), Made(c + 2)), // c + 5
        Xor(Made(c + 5), Made(c)), // c + 6
    ]
}

// Bit 0 without a carry into it, the full adders of bits 1 to 30, and bit 31 without a carry out of it. Value 6 * i - 4 is
// the carry into bit i.
fn sum_steps() -> [Step; 154]
    ensures { result ≡ sum32_steps }
{
    let mut steps = [Xor(Given(0), Given(32)); 154];
    steps[1] = Product(Given(0), Given(32));
    for i in 1..31 {
        let at = 5 * i - 3;
        steps[at..at + 5].copy_from_slice(&full_adder(i as u32, 6 * i as u32 - 4));
    }
    steps[152] = Xor(Given(63), Made(182));
    steps[153] = Xor(Given(31), Made(183));
    steps
}

// Which value of the part is bit i of the sum.
fn sum_place(i: u32) -> u32
    requires { i < 32 }
    ensures { result ≡ sum_place i }
{
    match i {
        0 => 0,
        31 => 184,
        _ => 6 * i - 1,
    }
}

// The values of the result's bits, where the first step makes value `first`.
fn sum_results(first: u32) -> [u32; 32]
    requires { first ≤ 1_000_000 }
    ensures { result ≡ sum32_results first }
{
    let mut results = [first; 32];
    for i in 0..32 {
        results[i] = first + sum_place(i as u32);
    }
    results
}
