//! Circuits that give bits fresh shares, as those of a key between the batches of a run.
#![tactic(auto)]

ghost use Rattle.std.specs.Prelude.{◌≡◌, ℕ, ◌+◌, ◌*◌, ◌<◌, ◌≤◌, List, length, All, IfOk};
ghost use Rattle.std.specs.List.{range_with_len};
ghost use Rattle.mask_check.specs.Costs.{most_steps};
ghost use Rattle.mask_parts.specs.CipherCircuits.{IsCipherCircuit};
ghost use Rattle.mask_refresh.specs.Refreshing.{refreshing, refreshing_size, same_bits};

use mask_check::Strong;
use mask_circuit::{Builder, Steps};
use mask_parts::{fence_outputs, strong_circuit};
use std::alloc::{AllocError, Global};
use std::sync::ledger::Ledger;

/// The circuit with a refresh of each of so many inputs; its outputs are the refreshes, in order.
///
/// Only want of memory refuses it. A step is a value that the checker visits.
pub fn refresh_circuit<L: Ledger>(
    alloc: Global,
    bits: u32,
    steps: &mut Steps<L>,
) -> Result<Strong, AllocError>
    requires { bits ≤ 500_000 }
    ensures named { IfOk result (IsCipherCircuit (refreshing bits) (refreshing_size bits) same_bits) }
    ensures steps { steps.new ≤ steps.old + most_steps (refreshing bits) }
{
    let inputs = numbers(alloc, bits)?;
    let mut builder = match Builder::new(alloc, bits) {
        Ok(builder) => builder,
        Err(_) => return Err(AllocError),
    };
    match fence_outputs(&mut builder, &inputs) {
        Ok(()) => {
            let circuit = builder.finish();
            let _values = circuit.values();
            strong_circuit(alloc, circuit, steps)
        }
        Err(_) => Err(AllocError),
    }
}

// The numbers below a bound, rising.
fn numbers(alloc: Global, bound: u32) -> Result<Vec<u32>, AllocError>
    ensures { IfOk result (λ list. list.items ≡ range_with_len 0 bound) }
{
    let mut list = Vec::new(alloc);
    for number in 0..bound {
        list.push(number)?;
    }
    Ok(list)
}

#[cfg(test)]
mod tests;
