ghost use Rattle.std.specs.Prelude.{◌≡◌, ◌<◌};

use super::*;
use mask_bits::{Bits, bits_high_first, bytes_of_high};
use mask_check::Strong;
use mask_circuit::{Circuit, Gate, Steps};
use std::alloc::{AllocError, Global};
use std::marker::Brand;
use std::sync::ledger::{Blank, Ledger};
use std::test::Fail;

fn counted_circuit<L: Ledger>(
    alloc: Global,
    blank: Blank,
    size: KeySize,
    last: bool,
) -> Result<Strong, AllocError>
    requires name { blank.name ≡ L.name }
    requires parts { blank.parts ≡ L.parts }
    requires some { 0 < L.parts }
{
    let mut steps = Steps::<L>::new(blank);
    if last {
        lightmac_end(alloc, size, &mut steps)
    } else {
        lightmac_step(alloc, size, &mut steps)
    }
}

// The circuit of the end, or of a step.
fn try_circuit(alloc: Global, size: KeySize, last: bool) -> Result<Strong, AllocError> {
    counted_circuit::<Brand>(alloc, Blank::new(1), size, last)
}

// Inputs, values, products, refreshes and outputs.
fn sizes(alloc: Global, size: KeySize, last: bool) -> Result<[u32; 5], AllocError> {
    let strong = try_circuit(alloc, size, last)?;
    let circuit = strong.admitted().circuit();
    Ok([
        circuit.inputs(),
        circuit.values(),
        circuit.products(),
        circuit.refreshes(),
        circuit.outputs().len() as u32,
    ])
}

// Each circuit once, with ample memory.
#[test]
fn makes_the_named_circuits(rt: HostRuntime) -> Result<(), Fail> {
    for last in [false, true] {
        assert!(rt; sizes(rt.alloc(), KeySize::K80, last)? == [208, 16_166, 2_635, 2_699, 64]);
        assert!(rt; sizes(rt.alloc(), KeySize::K128, last)? == [256, 17_020, 2_790, 2_854, 64]);
    }
    Ok(())
}

fn value(values: &Bits, place: u32) -> bool {
    let place = place as usize;
    place < values.len() && values.get(place)
}

fn gate_value(gate: Gate, values: &Bits) -> bool {
    match gate {
        Gate::Zero => false,
        Gate::One => true,
        Gate::Xor(u, v) => value(values, u) != value(values, v),
        Gate::Not(u) => !value(values, u),
        Gate::And(u, v) => value(values, u) && value(values, v),
        Gate::Ref(u) => value(values, u),
    }
}

// The plain values of a circuit on a key and two blocks, big-endian numbers.
fn plain_values(
    alloc: Global,
    circuit: &Circuit,
    key: &[u8],
    first: &[u8],
    second: &[u8],
) -> Result<Bits, AllocError> {
    let mut bytes = Vec::new(alloc);
    bytes.extend_from_slice(second)?;
    bytes.extend_from_slice(first)?;
    bytes.extend_from_slice(key)?;
    let mut values = bits_high_first(alloc, &bytes)?;
    for gate in circuit.gates() {
        let value = gate_value(*gate, &values);
        values.push(value)?;
    }
    Ok(values)
}

// Its outputs on these, a big-endian number too.
fn plain_outputs(
    alloc: Global,
    circuit: &Circuit,
    key: &[u8],
    first: &[u8],
    second: &[u8],
) -> Result<Vec<u8>, AllocError> {
    let values = plain_values(alloc, circuit, key, first, second)?;
    let mut bits = Bits::new(alloc);
    for place in circuit.outputs() {
        bits.push(value(&values, *place))?;
    }
    bytes_of_high(alloc, &bits)
}

// The tag of a message of two pieces, of which the first comes with its counter and the last with its padding.
fn tag(
    alloc: Global,
    size: KeySize,
    key: &[u8],
    counted: [u8; 8],
    padded: [u8; 8],
) -> Result<Vec<u8>, AllocError> {
    let (first, second) = key.split_at(key.len() / 2);
    let step = try_circuit(alloc, size, false)?;
    let v = plain_outputs(alloc, step.admitted().circuit(), first, &counted, &[0; 8])?;
    let end = try_circuit(alloc, size, true)?;
    plain_outputs(alloc, end.admitted().circuit(), second, &v, &padded)
}

// The bytes from this one on, as a key.
fn key_from<const N: usize>(first: u8) -> [u8; N] {
    let mut key = [0; N];
    let mut next = first;
    for byte in &mut key {
        *byte = next;
        next = next.wrapping_add(1);
    }
    key
}

// The expected tags are of a program that shares nothing with this crate.
#[test]
fn computes_tags(rt: HostRuntime) -> Result<(), Fail> {
    let counted = [1, 0, 1, 2, 3, 4, 5, 6];
    let padded = [7, 0x80, 0, 0, 0, 0, 0, 0];
    let short = tag(
        rt.alloc(),
        KeySize::K80,
        &key_from::<20>(0),
        counted,
        padded,
    )?;
    assert!(rt; short.as_slice() == [0x3b, 0xdd, 0x25, 0xbd, 0x5d, 0x3a, 0x51, 0x0c].as_slice());
    let counted = [0, 1, 0, 1, 2, 3, 4, 5];
    let padded = [6, 0x80, 0, 0, 0, 0, 0, 0];
    let long = tag(
        rt.alloc(),
        KeySize::K128,
        &key_from::<32>(224),
        counted,
        padded,
    )?;
    assert!(rt; long.as_slice() == [0xcf, 0x7f, 0xa2, 0x1d, 0x62, 0x4c, 0xdb, 0x8e].as_slice());
    Ok(())
}
