//! A circuit under construction.

ghost use Rattle.std.specs.Prelude.{◌≡◌, ℕ, ◌+◌, ◌<◌, ◌≤◌, ◌↔◌, [], ◌∷◌, ◌++◌, length, IfOk, OnOk, OnErr, IsErrOf, IsOkAnd, IsTrue};
ghost use Rattle.mask_circuit.specs.Netlist.{Netlist, IsCircuit, OperandsBelow, value_count, only_inputs, with_gate, with_output};
ghost use Rattle.mask_circuit.specs.declared.gates.Gate.TheVariants.{Zero, One, Xor, Not, And, Ref};
ghost use Rattle.mask_circuit.specs.declared.builders.CircuitError.TheVariants.{NoMemory};

use crate::circuits::Circuit;
use crate::gates::Gate;
use crate::limits::{MAX_OUTPUTS, MAX_VALUES};
use std::alloc::{AllocFailed, Global};
use std::marker::Model;

/// Why a builder refuses.
#[derive(Clone, Copy, Debug, PartialEq, Eq)]
pub enum CircuitError {
    /// The circuit would have more than 1,000,000 values or 1,000,000 outputs.
    TooManyValues,
    /// There is no memory.
    NoMemory,
}

impl<T: Drop> From<AllocFailed<T>> for CircuitError {
    ghost from_gives = { λ _ e. e ≡ NoMemory };

    fn from(_failed: AllocFailed<T>) -> CircuitError {
        CircuitError::NoMemory
    }
}

/// Makes a circuit, gate by gate. After a refusal the builder is as before.
#[derive(Drop)]
pub struct Builder {
    inputs: u32,
    gates: Vec<Gate>,
    outputs: Vec<u32>,
}

impl Model for Builder {
    ghost Value = { Netlist };

    ghost view = { λ c. record { inputs = c.inputs; gates = c.gates.items; outputs = c.outputs.items } };

    ghost invariant = { λ c. IsCircuit (record { inputs = c.inputs; gates = c.gates.items; outputs = c.outputs.items }) };
}

impl Builder {
    /// A builder that has so many inputs and nothing else; it takes no memory.
    pub fn new(alloc: Global, inputs: u32) -> Result<Builder, CircuitError>
        ensures made { inputs ≤ 1_000_000 → IsOkAnd result (λ b. b ≡ only_inputs inputs) }
        ensures full { IsErrOf result CircuitError.TooManyValues ↔ 1_000_000 < inputs }
    {
        if inputs > MAX_VALUES {
            return Err(CircuitError::TooManyValues);
        }
        Ok(Builder {
            inputs,
            gates: Vec::new(alloc),
            outputs: Vec::new(alloc),
        })
    }

    /// How many inputs there are.
    pub fn inputs(&self) -> u32
        ensures { result ≡ self.now.inputs }
    {
        self.inputs
    }

    /// How many values there are so far: the inputs and the gates.
    pub fn values(&self) -> u32
        ensures count { result ≡ value_count self.now }
        ensures circuit { IsCircuit self.now }
    {
        self.inputs + self.gates.len() as u32
    }

    /// Whether there is a gate so far.
    pub fn has_gates(&self) -> bool
        ensures { IsTrue result ↔ (0 < length self.now.gates) }
    {
        !self.gates.is_empty()
    }

    /// How many values are handed out so far.
    pub fn output_count(&self) -> u32
        ensures { result ≡ length self.now.outputs }
    {
        self.outputs.len() as u32
    }

    fn append(&mut self, gate: Gate) -> Result<u32, CircuitError>
        requires { OperandsBelow (value_count self.old) gate }
        ensures made { IfOk result (λ v. (v ≡ value_count self.old) × (self.new ≡ with_gate self.old gate)) }
        ensures full { IsErrOf result CircuitError.TooManyValues ↔ 1_000_000 ≤ value_count self.old }
        ensures same { OnErr result (self.new ≡ self.old) }
    {
        let value = self.values();
        if value >= MAX_VALUES {
            return Err(CircuitError::TooManyValues);
        }
        self.gates.push(gate)?;
        Ok(value)
    }

    /// Appends the bit 0. Ok is the number of the new value.
    pub fn zero(&mut self) -> Result<u32, CircuitError>
        ensures made { IfOk result (λ v. (v ≡ value_count self.old) × (self.new ≡ with_gate self.old Zero)) }
        ensures full { IsErrOf result CircuitError.TooManyValues ↔ 1_000_000 ≤ value_count self.old }
        ensures same { OnErr result (self.new ≡ self.old) }
    {
        self.append(Gate::Zero)
    }

    /// Appends the bit 1.
    pub fn one(&mut self) -> Result<u32, CircuitError>
        ensures made { IfOk result (λ v. (v ≡ value_count self.old) × (self.new ≡ with_gate self.old One)) }
        ensures full { IsErrOf result CircuitError.TooManyValues ↔ 1_000_000 ≤ value_count self.old }
        ensures same { OnErr result (self.new ≡ self.old) }
    {
        self.append(Gate::One)
    }

    /// Appends the XOR of two values.
    pub fn xor(&mut self, u: u32, v: u32) -> Result<u32, CircuitError>
        requires u_known { u < value_count self.old }
        requires v_known { v < value_count self.old }
        ensures made { IfOk result (λ w. (w ≡ value_count self.old) × (self.new ≡ with_gate self.old (Xor u v))) }
        ensures full { IsErrOf result CircuitError.TooManyValues ↔ 1_000_000 ≤ value_count self.old }
        ensures same { OnErr result (self.new ≡ self.old) }
    {
        self.append(Gate::Xor(u, v))
    }

    /// Appends the NOT of a value.
    pub fn not(&mut self, u: u32) -> Result<u32, CircuitError>
        requires u_known { u < value_count self.old }
        ensures made { IfOk result (λ w. (w ≡ value_count self.old) × (self.new ≡ with_gate self.old (Not u))) }
        ensures full { IsErrOf result CircuitError.TooManyValues ↔ 1_000_000 ≤ value_count self.old }
        ensures same { OnErr result (self.new ≡ self.old) }
    {
        self.append(Gate::Not(u))
    }

    /// Appends the product of two values.
    pub fn and(&mut self, u: u32, v: u32) -> Result<u32, CircuitError>
        requires u_known { u < value_count self.old }
        requires v_known { v < value_count self.old }
        ensures made { IfOk result (λ w. (w ≡ value_count self.old) × (self.new ≡ with_gate self.old (And u v))) }
        ensures full { IsErrOf result CircuitError.TooManyValues ↔ 1_000_000 ≤ value_count self.old }
        ensures same { OnErr result (self.new ≡ self.old) }
    {
        self.append(Gate::And(u, v))
    }

    /// Appends a refresh of a value.
    pub fn refresh(&mut self, u: u32) -> Result<u32, CircuitError>
        requires u_known { u < value_count self.old }
        ensures made { IfOk result (λ w. (w ≡ value_count self.old) × (self.new ≡ with_gate self.old (Ref u))) }
        ensures full { IsErrOf result CircuitError.TooManyValues ↔ 1_000_000 ≤ value_count self.old }
        ensures same { OnErr result (self.new ≡ self.old) }
    {
        self.append(Gate::Ref(u))
    }

    /// Hands out a value, after those handed out before.
    pub fn out(&mut self, u: u32) -> Result<(), CircuitError>
        requires u_known { u < value_count self.old }
        ensures made { OnOk result (self.new ≡ with_output self.old u) }
        ensures full { IsErrOf result CircuitError.TooManyValues ↔ 1_000_000 ≤ length self.old.outputs }
        ensures same { OnErr result (self.new ≡ self.old) }
    {
        if self.outputs.len() >= MAX_OUTPUTS as usize {
            return Err(CircuitError::TooManyValues);
        }
        self.outputs.push(u)?;
        Ok(())
    }

    /// The circuit made so far.
    pub fn finish(self) -> Circuit
        ensures { result ≡ self }
    {
        Circuit {
            inputs: self.inputs,
            gates: self.gates,
            outputs: self.outputs,
        }
    }
}
