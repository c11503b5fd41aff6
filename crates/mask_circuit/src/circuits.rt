//! A circuit that is complete.

ghost use Rattle.std.specs.Prelude.{◌≡◌, ℕ, ◌+◌, ◌*◌, ◌-◌, ◌/◌, ◌<◌, ◌≤◌, length, IfOk, All};
ghost use Rattle.mask_circuit.specs.Netlist.{Netlist, IsCircuit, value_count, product_count, refresh_count};

use crate::gates::Gate;
use std::alloc::{AllocError, Global};
use std::marker::Model;

/// Inputs, gates and outputs, in the order in which they were made.
///
/// Values are numbered from 0: the inputs first, then one for each gate. The operands of a gate are earlier values,
/// the outputs are values, and there are at most 1,000,000 of either.
#[derive(Drop)]
pub struct Circuit {
    pub(crate) inputs: u32,
    pub(crate) gates: Vec<Gate>,
    pub(crate) outputs: Vec<u32>,
}

impl Model for Circuit {
    ghost Value = { Netlist };

    ghost view = { λ c. record { inputs = c.inputs; gates = c.gates.items; outputs = c.outputs.items } };

    ghost invariant = { λ c. IsCircuit (record { inputs = c.inputs; gates = c.gates.items; outputs = c.outputs.items }) };
}

impl Circuit {
    /// How many inputs the circuit has.
    pub fn inputs(&self) -> u32
        ensures { result ≡ self.now.inputs }
    {
        self.inputs
    }

    /// The gates in order; gate k makes the value of number `inputs + k`.
    pub fn gates(&self) -> &[Gate]
        ensures same { result.now ≡ self.now.gates }
        ensures circuit { IsCircuit self.now }
    {
        &self.gates
    }

    /// The values that the circuit hands out, in order.
    pub fn outputs(&self) -> &[u32]
        ensures same { result.now ≡ self.now.outputs }
        ensures circuit { IsCircuit self.now }
    {
        &self.outputs
    }

    /// How many values the circuit has: its inputs and its gates.
    pub fn values(&self) -> u32
        ensures count { result ≡ value_count self.now }
        ensures circuit { IsCircuit self.now }
    {
        self.inputs + self.gates.len() as u32
    }

    /// How many of the gates are products.
    pub fn products(&self) -> u32
        ensures { result ≡ product_count self.now }
    {
        self.gates
            .iter()
            .filter(|gate| matches!(gate, Gate::And(_, _)))
            .count() as u32
    }

    /// How many of the gates are refreshes.
    pub fn refreshes(&self) -> u32
        ensures { result ≡ refresh_count self.now }
    {
        self.gates
            .iter()
            .filter(|gate| matches!(gate, Gate::Ref(_)))
            .count() as u32
    }
}
