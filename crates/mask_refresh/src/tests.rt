ghost use Rattle.std.specs.Prelude.{◌≡◌, ◌<◌, ◌≤◌};

use super::*;
use mask_circuit::Steps;
use std::marker::Brand;
use std::sync::ledger::{Blank, Ledger};
use std::test::Fail;

fn counted_circuit<L: Ledger>(alloc: Global, blank: Blank, bits: u32) -> Result<Strong, AllocError>
    requires name { blank.name ≡ L.name }
    requires parts { blank.parts ≡ L.parts }
    requires some { 0 < L.parts }
    requires few { bits ≤ 500_000 }
{
    let mut steps = Steps::<L>::new(blank);
    refresh_circuit(alloc, bits, &mut steps)
}

fn try_circuit(alloc: Global, bits: u32) -> Result<Strong, AllocError>
    requires { bits ≤ 500_000 }
{
    counted_circuit::<Brand>(alloc, Blank::new(1), bits)
}

// Inputs, values and outputs.
fn sizes(alloc: Global, bits: u32) -> Result<[u32; 3], AllocError>
    requires { bits ≤ 500_000 }
{
    let strong = try_circuit(alloc, bits)?;
    let circuit = strong.admitted().circuit();
    Ok([
        circuit.inputs(),
        circuit.values(),
        circuit.outputs().len() as u32,
    ])
}

#[test]
fn keys_of_any_size_are_refreshed(rt: HostRuntime) -> Result<(), Fail> {
    assert_eq!(rt; sizes(rt.alloc(), 80)?, [80, 160, 80]);
    assert_eq!(rt; sizes(rt.alloc(), 500_000)?, [500_000, 1_000_000, 500_000]);
    Ok(())
}
