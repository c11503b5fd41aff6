ghost use Rattle.std.specs.Prelude.{◌≡◌, ◌<◌};

use super::*;
use mask_check::Strong;
use mask_circuit::{Gate, Steps};
use std::alloc::{AllocError, Global};
use std::marker::Brand;
use std::sync::ledger::{Blank, Ledger};
use std::test::Fail;

fn counted_circuit<L: Ledger>(
    alloc: Global,
    blank: Blank,
    size: LeaSize,
) -> Result<Strong, AllocError>
    requires name { blank.name ≡ L.name }
    requires parts { blank.parts ≡ L.parts }
    requires some { 0 < L.parts }
{
    let mut steps = Steps::<L>::new(blank);
    lea_circuit(alloc, size, &mut steps)
}

fn try_circuit(alloc: Global, size: LeaSize) -> Result<Strong, AllocError> {
    counted_circuit::<Brand>(alloc, Blank::new(1), size)
}

// Inputs, values, products, refreshes and outputs.
fn sizes(alloc: Global, size: LeaSize) -> Result<[u32; 5], AllocError> {
    let strong = try_circuit(alloc, size)?;
    let circuit = strong.admitted().circuit();
    Ok([
        circuit.inputs(),
        circuit.values(),
        circuit.products(),
        circuit.refreshes(),
        circuit.outputs().len() as u32,
    ])
}

// Each size once, with ample memory.
#[test]
fn makes_the_named_circuits(rt: HostRuntime) -> Result<(), Fail> {
    assert!(rt; sizes(rt.alloc(), LeaSize::K128)? == [384, 36_330, 5_208, 5_336, 128]);
    assert!(rt; sizes(rt.alloc(), LeaSize::K192)? == [448, 52_702, 7_812, 7_940, 128]);
    assert!(rt; sizes(rt.alloc(), LeaSize::K256)? == [512, 60_194, 8_928, 9_056, 128]);
    Ok(())
}

#[test]
fn begins_with_the_constants(rt: HostRuntime) -> Result<(), Fail> {
    let strong = try_circuit(rt.alloc(), LeaSize::K128)?;
    let gates = strong.admitted().circuit().gates();
    assert!(rt; gates.len() > 4);
    assert!(rt; gates[..4] == [Gate::Zero, Gate::One, Gate::Xor(0, 385), Gate::Ref(385)]);
    Ok(())
}
