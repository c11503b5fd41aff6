//! What is asked of a whole circuit: a gate by the value that it makes, the random bits that it draws, and a copy.

ghost use Rattle.std.specs.Prelude.{◌≡◌, ◌+◌, ◌*◌, ◌/◌, ◌<◌, ◌≤◌, IfOk};
ghost use Rattle.mask_circuit.specs.Netlist.{value_count, product_count, refresh_count};
ghost use Rattle.mask_circuit.specs.Acceptance.{gate_at};
ghost use Rattle.mask_circuit.specs.Expansion.{draws};

use crate::circuits::Circuit;
use crate::gates::Gate;
use crate::pairs::pair_count;
use std::alloc::{AllocError, Global};

impl Circuit {
    /// The gate that makes a value; an input has none.
    pub fn gate_at(&self, value: u32) -> Option<Gate>
        requires { value < value_count self.now }
        ensures { result ≡ gate_at self.now value }
    {
        if value < self.inputs {
            return None;
        }
        Some(self.gates[(value - self.inputs) as usize])
    }

    /// How many random bits an evaluation with `d + 1` shares draws: one for each pair of shares, at each product and
    /// each refresh.
    pub fn draws(&self, d: u32) -> u64
        requires some { 1 ≤ d }
        requires few { d ≤ 7 }
        ensures bits { result ≡ draws self.now (d + 1) }
        ensures product { result ≡ ((d + 1) * d / 2) * (product_count self.now + refresh_count self.now) }
    {
        let pairs = pair_count(d as usize + 1) as u64;
        pairs * (self.products() as u64 + self.refreshes() as u64)
    }

    /// The same circuit once more.
    pub fn copy(&self, alloc: Global) -> Result<Circuit, AllocError>
        ensures { IfOk result (λ c. c ≡ self.now) }
    {
        let gates = self.gates.to_vec(alloc)?;
        let outputs = self.outputs.to_vec(alloc)?;
        Ok(Circuit {
            inputs: self.inputs,
            gates,
            outputs,
        })
    }
}
