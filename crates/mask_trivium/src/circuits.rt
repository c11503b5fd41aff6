//! The circuits of Trivium.

ghost use Rattle.std.specs.Prelude.{◌≡◌, ℕ, ◌+◌, ◌<◌, ◌≤◌, ◌^◌, List, [], ◌++◌, length, All, IfOk};
ghost use Rattle.std.specs.List.{range_with_len};
ghost use Rattle.mask_circuit.specs.Netlist.{value_count, only_inputs};
ghost use Rattle.mask_check.specs.Costs.{most_steps};
ghost use Rattle.mask_parts.specs.CipherCircuits.{IsCipherCircuit};
ghost use Rattle.mask_parts.specs.Drafts.{with_gates, Lays};
ghost use Rattle.mask_parts.specs.Rows.{xor_gates};
ghost use Rattle.mask_trivium.specs.Clocks.{setup, stream};
ghost use Rattle.mask_trivium.specs.NamedTrivium.{start, named_start, size_start, start_of_bits, named_step, size_step, step_of_bits};
ghost use Rattle.mask_trivium.specs.Trivium.{loaded};

use crate::clock::State;
use crate::clocks::{lay_setup, lay_stream};
use mask_check::Strong;
use mask_circuit::{Builder, Circuit, CircuitError, Steps};
use mask_parts::{fence_outputs, number_from, strong_circuit, xor_all};
use std::alloc::{AllocError, Global};
use std::sync::ledger::Ledger;

// The state before the first clock. The key is the first inputs, and the IV the next.
fn load(zero: u32, one: u32) -> State
    ensures { result ≡ loaded zero one (range_with_len 0 80) (range_with_len 80 80) }
{
    let mut state = [zero; 288];
    number_from(&mut state[..80], 0);
    number_from(&mut state[93..173], 80);
    state[285..].fill(one);
    state
}

// Lays the two constants. Ok is the state before the first clock.
fn lay_constants(b: &mut Builder) -> Result<State, CircuitError>
    requires { b.old ≡ only_inputs 160 }
    ensures { Lays b.old start.draft start.state b.new result }
{
    let _values = b.values();
    let zero = b.zero()?;
    let one = b.one()?;
    Ok(load(zero, one))
}

// Lays the start on the inputs key and IV.
fn lay_start(b: &mut Builder) -> Result<(), CircuitError>
    requires { b.old ≡ only_inputs 160 }
    ensures { Lays b.old named_start tt b.new result }
{
    let mut state = lay_constants(b)?;
    lay_setup(b, &mut state)?;
    fence_outputs(b, &state)
}

// The values of a state, and then 64 values in a row.
fn followed(state: &State, first: u32) -> [u32; 352]
    requires { first ≤ 1_000_000 }
    ensures { result ≡ state.now ++ range_with_len first 64 }
{
    let mut values = [0; 352];
    values[..288].copy_from_slice(state);
    number_from(&mut values[288..], first);
    values
}

// Lays a step on the inputs state and message.
fn lay_step(b: &mut Builder) -> Result<(), CircuitError>
    requires { b.old ≡ only_inputs 352 }
    ensures { Lays b.old named_step tt b.new result }
{
    let mut state = [0; 288];
    number_from(&mut state, 0);
    let mut message = [0; 64];
    number_from(&mut message, 288);
    let outputs = lay_stream(b, &mut state)?;
    let first = b.values();
    xor_all(b, &outputs, &message)?;
    fence_outputs(b, &followed(&state, first))
}

fn start_circuit(alloc: Global) -> Result<Circuit, AllocError>
    ensures { IfOk result (λ c. c ≡ named_start) }
{
    let mut b = match Builder::new(alloc, 160) {
        Ok(b) => b,
        Err(_) => unreachable!(),
    };
    match lay_start(&mut b) {
        Ok(()) => Ok(b.finish()),
        Err(CircuitError::NoMemory) => Err(AllocError),
        Err(CircuitError::TooManyValues) => unreachable!(),
    }
}

fn step_circuit(alloc: Global) -> Result<Circuit, AllocError>
    ensures { IfOk result (λ c. c ≡ named_step) }
{
    let mut b = match Builder::new(alloc, 352) {
        Ok(b) => b,
        Err(_) => unreachable!(),
    };
    match lay_step(&mut b) {
        Ok(()) => Ok(b.finish()),
        Err(CircuitError::NoMemory) => Err(AllocError),
        Err(CircuitError::TooManyValues) => unreachable!(),
    }
}

/// The circuit trivium-start: its inputs are the 80 bits of a key and the 80 bits of an IV, and its outputs the 288 bits of
/// the state after the 1152 clocks without output. The steps are those of `check`.
pub fn trivium_start<L: Ledger>(alloc: Global, steps: &mut Steps<L>) -> Result<Strong, AllocError>
    ensures circuit { IfOk result (λ s. IsCipherCircuit named_start size_start start_of_bits s) }
    ensures steps { steps.new ≤ steps.old + most_steps named_start }
{
    let circuit = start_circuit(alloc)?;
    let _values = circuit.values();
    strong_circuit(alloc, circuit, steps)
}

/// The circuit trivium-step: its inputs are the 288 bits of a state and 64 bits of a message, and its outputs the state after
/// 64 clocks, and then the message bits, each xored with the bit that a clock outputs. The steps are those of `check`.
pub fn trivium_step<L: Ledger>(alloc: Global, steps: &mut Steps<L>) -> Result<Strong, AllocError>
    ensures circuit { IfOk result (λ s. IsCipherCircuit named_step size_step step_of_bits s) }
    ensures steps { steps.new ≤ steps.old + most_steps named_step }
{
    let circuit = step_circuit(alloc)?;
    let _values = circuit.values();
    strong_circuit(alloc, circuit, steps)
}
