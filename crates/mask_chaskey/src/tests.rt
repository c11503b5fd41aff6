ghost use Rattle.std.specs.Prelude.{◌≡◌, ◌<◌};

use super::*;
use mask_check::Strong;
use mask_circuit::{Gate, Steps};
use std::alloc::{AllocError, Global};
use std::marker::Brand;
use std::sync::ledger::{Blank, Ledger};
use std::test::Fail;

// The circuit of this end, or of a step.
fn counted_circuit<L: Ledger>(
    alloc: Global,
    blank: Blank,
    end: Option<End>,
) -> Result<Strong, AllocError>
    requires name { blank.name ≡ L.name }
    requires parts { blank.parts ≡ L.parts }
    requires some { 0 < L.parts }
{
    let mut steps = Steps::<L>::new(blank);
    match end {
        None => chaskey_step(alloc, &mut steps),
        Some(End::Whole) => chaskey_end_whole(alloc, &mut steps),
        Some(End::Short) => chaskey_end_short(alloc, &mut steps),
    }
}

fn try_circuit(alloc: Global, end: Option<End>) -> Result<Strong, AllocError> {
    counted_circuit::<Brand>(alloc, Blank::new(1), end)
}

// Inputs, values, products, refreshes and outputs.
fn sizes(alloc: Global, end: Option<End>) -> Result<[u32; 5], AllocError> {
    let strong = try_circuit(alloc, end)?;
    let circuit = strong.admitted().circuit();
    Ok([
        circuit.inputs(),
        circuit.values(),
        circuit.products(),
        circuit.refreshes(),
        circuit.outputs().len() as u32,
    ])
}

// Each circuit once, with ample memory.
#[test]
fn makes_the_named_circuits(rt: HostRuntime) -> Result<(), Fail> {
    assert!(rt; sizes(rt.alloc(), None)? == [256, 10_928, 1_488, 1_616, 128]);
    assert!(rt; sizes(rt.alloc(), Some(End::Whole))? == [384, 11_315, 1_488, 1_616, 128]);
    assert!(rt; sizes(rt.alloc(), Some(End::Short))? == [384, 11_318, 1_488, 1_616, 128]);
    Ok(())
}

#[test]
fn doubles_the_key_twice_for_a_short_end(rt: HostRuntime) -> Result<(), Fail> {
    let strong = try_circuit(rt.alloc(), Some(End::Short))?;
    let gates = strong.admitted().circuit().gates();
    assert!(rt; gates.len() > 7);
    assert!(rt;
        gates[..3]
            == [
                Gate::Xor(128, 255),
                Gate::Xor(129, 255),
                Gate::Xor(134, 255)
            ]
    );
    // Bit 127 of the double is bit 126 of the key, bit 0 its bit 127, bit 1 the first XOR, and bit 6 its bit 5.
    assert!(rt;
        gates[3..6]
            == [
                Gate::Xor(255, 254),
                Gate::Xor(384, 254),
                Gate::Xor(133, 254)
            ]
    );
    // The state's first bit with the block's.
    assert!(rt; gates[6..7] == [Gate::Xor(0, 256)]);
    Ok(())
}
