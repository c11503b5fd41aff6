//! The output shares of a gate, from the shares of earlier values and the gate's part of a tape.

ghost use Rattle.std.specs.Prelude.{◌≡◌, ◌≢◌, ◌+◌, ◌<◌, ◌≤◌, ◌==◌, ◌&&◌, not, length};
ghost use Rattle.mask_circuit.specs.Netlist.{OperandsBelow};
ghost use Rattle.mask_circuit.specs.Ring.{bits};
ghost use Rattle.mask_circuit.specs.declared.gates.Wire.TheVariants.{Share};
ghost use Rattle.mask_circuit.specs.Wires.{pairs, fresh_between, cross, product_wire, refresh_wire, gate_draws, gate_wire};
ghost use Rattle.mask_sni.specs.Asked.{bit_shares};
ghost use Rattle.mask_probe.specs.Sides.{byte_shares, bits_from, fresh_from, IsOutput};

use crate::sides::{append_share, share_of};
use mask_bits::Bits;
use mask_circuit::{Gate, pair_number};

/// The output shares of a gate, where `shares` has those of all earlier values and the gate's fresh bits stand in the tape
/// from `start` on.
pub(crate) fn gate_shares<const N: usize>(
    gate: Gate,
    shares: &[u8],
    tape: &Bits,
    start: usize,
) -> u8
    requires some { 2 ≤ N }
    requires few { N ≤ 8 }
    requires operands { OperandsBelow (length shares.now) gate }
    requires tape { start + gate_draws N gate ≤ length tape.now }
    ensures { IsOutput N gate shares.now tape.now start result }
{
    let mut output = 0;
    for i in 0..N {
        output = append_share(output, i, gate_share::<N>(gate, shares, tape, start, i));
    }
    output
}

// Output share i of a gate.
fn gate_share<const N: usize>(
    gate: Gate,
    shares: &[u8],
    tape: &Bits,
    start: usize,
    i: usize,
) -> bool
    requires some { 2 ≤ N }
    requires few { N ≤ 8 }
    requires operands { OperandsBelow (length shares.now) gate }
    requires tape { start + gate_draws N gate ≤ length tape.now }
    requires share { i < N }
    ensures { result
        ≡ gate_wire bits N gate (byte_shares shares.now) (bits_from tape.now start (gate_draws N gate)) (Share i) }
{
    match gate {
        Gate::Zero => false,
        Gate::One => i == 0,
        Gate::Xor(u, v) => share_of(shares[u as usize], i) ^ share_of(shares[v as usize], i),
        Gate::Not(u) => share_of(shares[u as usize], i) ^ (i == 0),
        Gate::And(u, v) => {
            product_share::<N>(shares[u as usize], shares[v as usize], tape, start, i)
        }
        Gate::Ref(u) => refresh_share::<N>(shares[u as usize], tape, start, i),
    }
}

// Output share i of the product of a and b: the XOR of a_i · b_i and all r_ik.
fn product_share<const N: usize>(a: u8, b: u8, tape: &Bits, start: usize, i: usize) -> bool
    requires some { 2 ≤ N }
    requires few { N ≤ 8 }
    requires tape { start + length (pairs N) ≤ length tape.now }
    requires share { i < N }
    ensures { result
        ≡ product_wire bits N (bit_shares a) (bit_shares b) (fresh_from N tape.now start) (Share i) }
{
    let mut sum = share_of(a, i) && share_of(b, i);
    for k in 0..N {
        sum ^= product_column::<N>(a, b, tape, start, i, k);
    }
    sum
}

// What column k adds to row i of a product: r_ik, and nothing in column i.
fn product_column<const N: usize>(
    a: u8,
    b: u8,
    tape: &Bits,
    start: usize,
    i: usize,
    k: usize,
) -> bool
    requires few { N ≤ 8 }
    requires tape { start + length (pairs N) ≤ length tape.now }
    requires row { i < N }
    requires column { k < N }
    ensures { result
        ≡ (not (i == k) && cross bits (bit_shares a) (bit_shares b) (fresh_from N tape.now start) i k) }
{
    i != k && cross_bit::<N>(a, b, tape, start, i, k)
}

// r_ik: above the diagonal the fresh bit of the pair, and below it the last wire of the pair.
fn cross_bit<const N: usize>(a: u8, b: u8, tape: &Bits, start: usize, i: usize, k: usize) -> bool
    requires few { N ≤ 8 }
    requires tape { start + length (pairs N) ≤ length tape.now }
    requires row { i < N }
    requires column { k < N }
    requires apart { i ≢ k }
    ensures { result
        ≡ cross bits (bit_shares a) (bit_shares b) (fresh_from N tape.now start) i k }
{
    let fresh = fresh_bit::<N>(tape, start, i, k);
    if i < k {
        return fresh;
    }
    let left = share_of(a, k) && share_of(b, i);
    let right = share_of(a, i) && share_of(b, k);
    fresh ^ left ^ right
}

// Share i of a refresh of a: the XOR of a_i and the fresh bits of all its pairs.
fn refresh_share<const N: usize>(a: u8, tape: &Bits, start: usize, i: usize) -> bool
    requires some { 2 ≤ N }
    requires few { N ≤ 8 }
    requires tape { start + length (pairs N) ≤ length tape.now }
    requires share { i < N }
    ensures { result
        ≡ refresh_wire bits N (bit_shares a) (fresh_from N tape.now start) (Share i) }
{
    let mut sum = share_of(a, i);
    for k in 0..N {
        sum ^= refresh_column::<N>(tape, start, i, k);
    }
    sum
}

// What column k adds to share i in a refresh: the fresh bit of the pair, and nothing in column i.
fn refresh_column<const N: usize>(tape: &Bits, start: usize, i: usize, k: usize) -> bool
    requires few { N ≤ 8 }
    requires tape { start + length (pairs N) ≤ length tape.now }
    requires row { i < N }
    requires column { k < N }
    ensures { result
        ≡ (not (i == k) && fresh_between (fresh_from N tape.now start) i k) }
{
    i != k && fresh_bit::<N>(tape, start, i, k)
}

// The fresh bit of the pair of i and k, in either order.
fn fresh_bit<const N: usize>(tape: &Bits, start: usize, i: usize, k: usize) -> bool
    requires few { N ≤ 8 }
    requires tape { start + length (pairs N) ≤ length tape.now }
    requires row { i < N }
    requires column { k < N }
    requires apart { i ≢ k }
    ensures { result
        ≡ fresh_between (fresh_from N tape.now start) i k }
{
    prove!(start <= tape.len());
    if i < k {
        tape.get(start + pair_number(N, i, k))
    } else {
        tape.get(start + pair_number(N, k, i))
    }
}
