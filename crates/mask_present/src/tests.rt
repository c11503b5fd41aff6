ghost use Rattle.std.specs.Prelude.{◌≡◌, ◌<◌};

use super::*;
use mask_check::Strong;
use mask_circuit::{Builder, Steps};
use std::alloc::{AllocError, Global};
use std::marker::Brand;
use std::sync::ledger::{Blank, Ledger};
use std::test::Fail;

fn counted_circuit<L: Ledger>(
    alloc: Global,
    blank: Blank,
    size: KeySize,
) -> Result<Strong, AllocError>
    requires name { blank.name ≡ L.name }
    requires parts { blank.parts ≡ L.parts }
    requires some { 0 < L.parts }
{
    let mut steps = Steps::<L>::new(blank);
    present_circuit(alloc, size, &mut steps)
}

fn try_circuit(alloc: Global, size: KeySize) -> Result<Strong, AllocError> {
    counted_circuit::<Brand>(alloc, Blank::new(1), size)
}

// Inputs, values, products, refreshes and outputs.
fn sizes(alloc: Global, size: KeySize) -> Result<[u32; 5], AllocError> {
    let strong = try_circuit(alloc, size)?;
    let circuit = strong.admitted().circuit();
    Ok([
        circuit.inputs(),
        circuit.values(),
        circuit.products(),
        circuit.refreshes(),
        circuit.outputs().len() as u32,
    ])
}

// Each call once, with ample memory.
#[test]
fn makes_the_named_circuits(rt: HostRuntime) -> Result<(), Fail> {
    assert!(rt; sizes(rt.alloc(), KeySize::K80)? == [208, 16_166, 2_635, 2_699, 64]);
    assert!(rt; sizes(rt.alloc(), KeySize::K128)? == [256, 17_020, 2_790, 2_854, 64]);
    Ok(())
}

#[test]
fn lays_rounds_on_one_value(rt: HostRuntime) -> Result<(), Fail> {
    let mut builder = Builder::new(rt.alloc(), 1)?;
    if builder.values() == 1 {
        present_rounds(&mut builder, KeySize::K80, &[0; 80], &[0; 64])?;
    }
    assert!(rt; builder.values() == 15_831);
    Ok(())
}
