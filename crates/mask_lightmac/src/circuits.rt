//! The circuits of LightMAC: a step and the end.

ghost use Rattle.std.specs.Prelude.{◌≡◌, ◌+◌, ◌≤◌, IfOk};
ghost use Rattle.mask_circuit.specs.Netlist.{only_inputs};
ghost use Rattle.mask_check.specs.Costs.{most_steps};
ghost use Rattle.mask_parts.specs.CipherCircuits.{IsCipherCircuit};
ghost use Rattle.mask_parts.specs.Drafts.{Lays};
ghost use Rattle.mask_present.specs.Present.{register};
ghost use Rattle.mask_lightmac.specs.NamedLightMac.{named_step, size_step, step_of_bits, named_end, size_end, end_of_bits};

use mask_check::Strong;
use mask_circuit::{Builder, Circuit, CircuitError, Steps};
use mask_parts::{fence_outputs, strong_circuit};
use mask_present::{KeySize, number_from, present_circuit, present_rounds, xor_blocks};
use std::alloc::{AllocError, Global};
use std::sync::ledger::Ledger;

// The inputs are the key, then V, then the last piece with its padding.
fn lay_end(b: &mut Builder, size: KeySize) -> Result<(), CircuitError>
    requires { b.old ≡ only_inputs ((register size).width + 128) }
    ensures { Lays b.old (named_end size) tt b.new result }
{
    let width = 8 * size.bytes() as usize;
    let mut numbers = [0; 256];
    number_from(&mut numbers, 0);
    let inputs = &numbers[..width + 128];
    let key = &inputs[..width];
    let value = &inputs[width..width + 64];
    let piece = &inputs[width + 64..];
    let sums = xor_blocks(b, value, piece)?;
    let encrypted = present_rounds(b, size, key, &sums)?;
    fence_outputs(b, &encrypted)
}

fn end_circuit(alloc: Global, size: KeySize) -> Result<Circuit, AllocError>
    ensures { IfOk result (λ c. c ≡ named_end size) }
{
    let mut b = match Builder::new(alloc, 8 * size.bytes() + 128) {
        Ok(b) => b,
        Err(_) => unreachable!(),
    };
    match lay_end(&mut b, size) {
        Ok(()) => Ok(b.finish()),
        Err(CircuitError::NoMemory) => Err(AllocError),
        Err(CircuitError::TooManyValues) => unreachable!(),
    }
}

/// The circuit lightmac-step-80 or lightmac-step-128, for a piece that isn't the last: its inputs are the first key, the block of
/// a counter and the piece, and V, each bit 0 first, and its outputs V after that block. Only want of memory refuses it. The
/// steps are those of `check`.
pub fn lightmac_step<L: Ledger>(
    alloc: Global,
    size: KeySize,
    steps: &mut Steps<L>,
) -> Result<Strong, AllocError>
    ensures circuit { IfOk result (λ s. IsCipherCircuit (named_step size) (size_step size) (step_of_bits size) s) }
    ensures steps { steps.new ≤ steps.old + most_steps (named_step size) }
{
    present_circuit(alloc, size, steps)
}

/// The circuit lightmac-end-80 or lightmac-end-128: its inputs are the second key, V, and the last piece with its padding, each
/// bit 0 first, and its outputs the encryption whose first bytes are the tag. Only want of memory refuses it. The steps are those
/// of `check`.
pub fn lightmac_end<L: Ledger>(
    alloc: Global,
    size: KeySize,
    steps: &mut Steps<L>,
) -> Result<Strong, AllocError>
    ensures circuit { IfOk result (λ s. IsCipherCircuit (named_end size) (size_end size) (end_of_bits size) s) }
    ensures steps { steps.new ≤ steps.old + most_steps (named_end size) }
{
    let circuit = end_circuit(alloc, size)?;
    strong_circuit(alloc, circuit, steps)
}
