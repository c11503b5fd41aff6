//! The circuits of Chaskey: a step, and the two ends.

ghost use Rattle.std.specs.Prelude.{◌≡◌, ℕ, ◌+◌, ◌≤◌, IfOk};
ghost use Rattle.mask_circuit.specs.Netlist.{only_inputs};
ghost use Rattle.mask_check.specs.Costs.{most_steps};
ghost use Rattle.mask_parts.specs.CipherCircuits.{IsCipherCircuit};
ghost use Rattle.mask_parts.specs.Drafts.{Lays};
ghost use Rattle.mask_chaskey.specs.declared.doubling.End.TheVariants.{Whole, Short};
ghost use Rattle.mask_chaskey.specs.NamedChaskey.{named_step, size_step, step_of_bits, named_end, size_end, end_of_bits};

use crate::blocks::{all_values, block_from, xor_blocks};
use crate::doubling::{End, last_mask};
use crate::rounds::permute;
use mask_check::Strong;
use mask_circuit::{Builder, Circuit, CircuitError, Steps};
use mask_parts::{fence_outputs, strong_circuit};
use std::alloc::{AllocError, Global};
use std::sync::ledger::Ledger;

// The inputs are the state and then the block.
fn lay_step(b: &mut Builder) -> Result<(), CircuitError>
    requires { b.old ≡ only_inputs 256 }
    ensures { Lays b.old named_step tt b.new result }
{
    let xored = xor_blocks(b, &block_from(0), &block_from(128))?;
    let permuted = permute(b, &xored)?;
    fence_outputs(b, &all_values(&permuted))
}

// The inputs are the state, then the key, then the last block.
fn lay_end(b: &mut Builder, end: End) -> Result<(), CircuitError>
    requires { b.old ≡ only_inputs 384 }
    ensures { Lays b.old (named_end end) tt b.new result }
{
    let mask = last_mask(b, end, &block_from(128))?;
    let xored = xor_blocks(b, &block_from(0), &block_from(256))?;
    let masked = xor_blocks(b, &xored, &mask)?;
    let permuted = permute(b, &masked)?;
    let state = xor_blocks(b, &permuted, &mask)?;
    fence_outputs(b, &all_values(&state))
}

fn step_circuit(alloc: Global) -> Result<Circuit, AllocError>
    ensures { IfOk result (λ c. c ≡ named_step) }
{
    let mut b = match Builder::new(alloc, 256) {
        Ok(b) => b,
        Err(_) => unreachable!(),
    };
    match lay_step(&mut b) {
        Ok(()) => Ok(b.finish()),
        Err(CircuitError::NoMemory) => Err(AllocError),
        Err(CircuitError::TooManyValues) => unreachable!(),
    }
}

fn end_circuit(alloc: Global, end: End) -> Result<Circuit, AllocError>
    ensures { IfOk result (λ c. c ≡ named_end end) }
{
    let mut b = match Builder::new(alloc, 384) {
        Ok(b) => b,
        Err(_) => unreachable!(),
    };
    match lay_end(&mut b, end) {
        Ok(()) => Ok(b.finish()),
        Err(CircuitError::NoMemory) => Err(AllocError),
        Err(CircuitError::TooManyValues) => unreachable!(),
    }
}

/// The circuit chaskey-step: its inputs are the state and a block, each bit 0 first, and its outputs the state after that
/// block, where it isn't the last one. Only want of memory refuses it. The steps are those of `check`.
pub fn chaskey_step<L: Ledger>(alloc: Global, steps: &mut Steps<L>) -> Result<Strong, AllocError>
    ensures circuit { IfOk result (λ s. IsCipherCircuit named_step size_step step_of_bits s) }
    ensures steps { steps.new ≤ steps.old + most_steps named_step }
{
    let circuit = step_circuit(alloc)?;
    strong_circuit(alloc, circuit, steps)
}

// The circuit of an end.
fn chaskey_end<L: Ledger>(
    alloc: Global,
    end: End,
    steps: &mut Steps<L>,
) -> Result<Strong, AllocError>
    ensures circuit { IfOk result (λ s. IsCipherCircuit (named_end end) (size_end end) (end_of_bits end) s) }
    ensures steps { steps.new ≤ steps.old + most_steps (named_end end) }
{
    let circuit = end_circuit(alloc, end)?;
    strong_circuit(alloc, circuit, steps)
}

/// The circuit chaskey-end-whole: its inputs are the state, the key and a last block of 16 bytes, each bit 0 first, and its
/// outputs the state after that block, whose first bytes are the tag.
pub fn chaskey_end_whole<L: Ledger>(
    alloc: Global,
    steps: &mut Steps<L>,
) -> Result<Strong, AllocError>
    ensures circuit { IfOk result (λ s. IsCipherCircuit (named_end Whole) (size_end Whole) (end_of_bits Whole) s) }
    ensures steps { steps.new ≤ steps.old + most_steps (named_end Whole) }
{
    chaskey_end(alloc, End::Whole, steps)
}

/// The circuit chaskey-end-short: the same for a last block of fewer bytes, with a one and zeros behind it.
pub fn chaskey_end_short<L: Ledger>(
    alloc: Global,
    steps: &mut Steps<L>,
) -> Result<Strong, AllocError>
    ensures circuit { IfOk result (λ s. IsCipherCircuit (named_end Short) (size_end Short) (end_of_bits Short) s) }
    ensures steps { steps.new ≤ steps.old + most_steps (named_end Short) }
{
    chaskey_end(alloc, End::Short, steps)
}
