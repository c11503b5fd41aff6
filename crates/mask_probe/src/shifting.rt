//! A shift under way: the shares of both sides and the new tape, gate by gate.

ghost use Rattle.std.specs.Prelude.{◌≡◌, ℕ, ◌+◌, ◌*◌, ◌<◌, ◌≤◌, [], ◌++◌, length, IfOk, OnOk};
ghost use Rattle.mask_circuit.specs.Netlist.{OperandsBelow};
ghost use Rattle.mask_circuit.specs.Wires.{gate_draws};
ghost use Rattle.mask_probe.specs.Sides.{byte_shares, input_shares};
ghost use Rattle.mask_probe.specs.Shifting.{masked_bits, IsShifted};

use crate::gadgets::gate_shares;
use crate::sides::inputs_of;
use mask_bits::{Bits, bit_of};
use mask_circuit::{Gate, pair_count};
use std::alloc::{AllocError, Global};

/// A shift under way: the shares of the values so far on the two sides, and the new tape so far.
#[derive(Drop)]
pub(crate) struct Shifting {
    pub(crate) first: Vec<u8>,
    pub(crate) second: Vec<u8>,
    pub(crate) tape: Bits,
}

/// Both sides before any gate.
pub(crate) fn begin<const N: usize>(
    alloc: Global,
    inputs: u32,
    x: &Bits,
    y: &Bits,
) -> Result<Shifting, AllocError>
    requires few { N ≤ 8 }
    requires x { length x.now ≡ N * inputs }
    requires y { length y.now ≡ N * inputs }
    ensures tape { IfOk result (λ shifting. shifting.tape ≡ []) }
    ensures first { IfOk result (λ shifting. length shifting.first.items ≡ inputs) }
    ensures second { IfOk result (λ shifting. length shifting.second.items ≡ inputs) }
    ensures first_shares { IfOk result (λ shifting. (u i : ℕ) → u < inputs → i < N
        → byte_shares shifting.first.items u i ≡ input_shares N x.now u i) }
    ensures second_shares { IfOk result (λ shifting. (u i : ℕ) → u < inputs → i < N
        → byte_shares shifting.second.items u i ≡ input_shares N y.now u i) }
{
    Ok(Shifting {
        first: inputs_of::<N>(alloc, x, inputs)?,
        second: inputs_of::<N>(alloc, y, inputs)?,
        tape: Bits::new(alloc),
    })
}

/// One gate more: its part of the new tape, and its output shares on both sides.
pub(crate) fn shift_gate<const N: usize>(
    shifting: &mut Shifting,
    gate: Gate,
    mask: u32,
    tape: &Bits,
) -> Result<(), AllocError>
    requires some { 2 ≤ N }
    requires few { N ≤ 8 }
    requires first { OperandsBelow (length shifting.old.first.items) gate }
    requires second { OperandsBelow (length shifting.old.second.items) gate }
    requires tape { length shifting.old.tape + gate_draws N gate ≤ length tape.now }
    ensures { OnOk result (IsShifted N gate mask tape.now shifting.old shifting.new) }
{
    let start = shifting.tape.len();
    push_masked(&mut shifting.tape, tape, draws_of::<N>(gate), mask)?;
    let first = gate_shares::<N>(gate, &shifting.first, tape, start);
    let second = gate_shares::<N>(gate, &shifting.second, &shifting.tape, start);
    shifting.first.push(first)?;
    shifting.second.push(second)?;
    Ok(())
}

// Appends the next bits of the old tape, each with its bit of the mask added.
fn push_masked(new: &mut Bits, tape: &Bits, count: usize, mask: u32) -> Result<(), AllocError>
    requires few { count ≤ 28 }
    requires tape { length new.old + count ≤ length tape.now }
    ensures { OnOk result (new.new ≡ new.old ++ masked_bits tape.now (length new.old) count mask) }
{
    for p in 0..count {
        let flip = bit_of(mask as u64, p as u32);
        let bit = tape.get(new.len());
        new.push(bit ^ flip)?;
    }
    Ok(())
}

// How many fresh bits a gate draws.
fn draws_of<const N: usize>(gate: Gate) -> usize
    requires some { 2 ≤ N }
    requires few { N ≤ 8 }
    ensures value { result ≡ gate_draws N gate }
    ensures few { result ≤ 28 }
{
    match gate {
        Gate::And(_, _) | Gate::Ref(_) => pair_count(N),
        Gate::Zero | Gate::One | Gate::Xor(_, _) | Gate::Not(_) => 0,
    }
}
