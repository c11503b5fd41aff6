ghost use Rattle.std.specs.Prelude.{◌≡◌, ◌<◌};

use super::*;
use mask_check::Strong;
use mask_circuit::{Gate, Steps};
use std::alloc::{AllocError, Global};
use std::marker::Brand;
use std::sync::ledger::{Blank, Ledger};
use std::test::Fail;

fn counted_start<L: Ledger>(alloc: Global, blank: Blank) -> Result<Strong, AllocError>
    requires name { blank.name ≡ L.name }
    requires parts { blank.parts ≡ L.parts }
    requires some { 0 < L.parts }
{
    let mut steps = Steps::<L>::new(blank);
    trivium_start(alloc, &mut steps)
}

fn try_start(alloc: Global) -> Result<Strong, AllocError> {
    counted_start::<Brand>(alloc, Blank::new(1))
}

fn counted_step<L: Ledger>(alloc: Global, blank: Blank) -> Result<Strong, AllocError>
    requires name { blank.name ≡ L.name }
    requires parts { blank.parts ≡ L.parts }
    requires some { 0 < L.parts }
{
    let mut steps = Steps::<L>::new(blank);
    trivium_step(alloc, &mut steps)
}

fn try_step(alloc: Global) -> Result<Strong, AllocError> {
    counted_step::<Brand>(alloc, Blank::new(1))
}

// Inputs, values, products, refreshes and outputs.
fn sizes(strong: &Strong) -> [u32; 5] {
    let circuit = strong.admitted().circuit();
    [
        circuit.inputs(),
        circuit.values(),
        circuit.products(),
        circuit.refreshes(),
        circuit.outputs().len() as u32,
    ]
}

// Each circuit once, with ample memory.
#[test]
fn makes_the_named_circuits(rt: HostRuntime) -> Result<(), Fail> {
    assert!(rt; sizes(&try_start(rt.alloc())?) == [160, 17_730, 3_456, 3_744, 288]);
    assert!(rt; sizes(&try_step(rt.alloc())?) == [352, 1_856, 192, 544, 352]);
    Ok(())
}

#[test]
fn begins_with_the_first_clock(rt: HostRuntime) -> Result<(), Fail> {
    let strong = try_start(rt.alloc())?;
    let gates = strong.admitted().circuit().gates();
    assert!(rt; gates.len() > 4);
    assert!(rt;
        gates[..4]
            == [
                Gate::Zero,
                Gate::One,
                Gate::Xor(65, 160),
                Gate::Xor(148, 160)
            ]
    );
    Ok(())
}
