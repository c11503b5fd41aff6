//! A circuit whose inputs and outputs stand in named groups.

ghost use Rattle.std.specs.Prelude.{◌≡◌, IfOk};
ghost use Rattle.mask_circuit.specs.Labels.{LabelledNetlist, IsLabelled, with_plain_groups};

use crate::circuits::Circuit;
use crate::groups::Group;
use std::alloc::{AllocError, Global};
use std::marker::Model;

/// The most groups of inputs, and the most groups of outputs.
pub const MAX_GROUPS: usize = 1_000;

/// A circuit with the groups of its inputs and of its outputs, each in order.
///
/// Names are in form, each stands once in its list, no group is empty, and the groups of a list
/// stand for all inputs or all outputs. Neither list has more than 1,000 groups.
#[derive(Drop)]
pub struct Labelled {
    circuit: Circuit,
    inputs: Vec<Group>,
    outputs: Vec<Group>,
}

impl Model for Labelled {
    ghost Value = { LabelledNetlist };

    ghost view = { λ l. record { circuit = l.circuit; inputs = l.inputs.items; outputs = l.outputs.items } };

    ghost invariant = { λ l. IsLabelled (record { circuit = l.circuit; inputs = l.inputs.items; outputs = l.outputs.items }) };
}

impl Labelled {
    /// The circuit with these groups. It takes no memory.
    pub fn new(circuit: Circuit, inputs: Vec<Group>, outputs: Vec<Group>) -> Labelled
        requires { IsLabelled (record { circuit = circuit; inputs = inputs.items; outputs = outputs.items }) }
        ensures { result ≡ record { circuit = circuit; inputs = inputs.items; outputs = outputs.items } }
    {
        Labelled {
            circuit,
            inputs,
            outputs,
        }
    }

    /// The circuit with a group `x` of all inputs and a group `y` of all outputs, each left out
    /// where it would be empty.
    pub fn plain(alloc: Global, circuit: Circuit) -> Result<Labelled, AllocError>
        ensures { IfOk result (λ l. l ≡ with_plain_groups circuit) }
    {
        let _values = circuit.values();
        let input_count = circuit.inputs();
        let output_count = circuit.outputs().len() as u32;
        let inputs = Group::covering(alloc, "x", input_count)?;
        let outputs = Group::covering(alloc, "y", output_count)?;
        Ok(Labelled::new(circuit, inputs, outputs))
    }

    /// The circuit.
    pub fn circuit(&self) -> &Circuit
        ensures same { result.now ≡ self.now.circuit }
        ensures labelled { IsLabelled self.now }
    {
        &self.circuit
    }

    /// The circuit without its groups, which are dropped.
    pub fn into_circuit(self) -> Circuit
        ensures { result ≡ self.circuit }
    {
        self.circuit
    }

    /// The groups of inputs: the first stands for the first so many inputs, and so on.
    pub fn input_groups(&self) -> &[Group]
        ensures same { result.now ≡ self.now.inputs }
        ensures labelled { IsLabelled self.now }
    {
        &self.inputs
    }

    /// The groups of outputs: the first stands for the first so many outputs, and so on.
    pub fn output_groups(&self) -> &[Group]
        ensures same { result.now ≡ self.now.outputs }
        ensures labelled { IsLabelled self.now }
    {
        &self.outputs
    }
}
