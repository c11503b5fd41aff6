//! The wires of a circuit by number: the input shares first, and then the wires of each gate.

ghost use Rattle.std.specs.Prelude.{◌≡◌, ◌+◌, ◌<◌, ◌≤◌, Some, length, slice_get, slice_index_or};
ghost use Rattle.mask_circuit.specs.Netlist.{value_count};
ghost use Rattle.mask_circuit.specs.declared.gates.Wire.TheVariants.{Share};
ghost use Rattle.mask_circuit.specs.Wires.{gate_names};
ghost use Rattle.mask_circuit.specs.Expansion.{names, names_of, wires_before, wire_count};

use crate::circuits::Circuit;
use crate::gates::Gate;
use crate::pairs::pair_count;

/// A wire of a circuit: the value whose input or gate makes it, and its local number there.
#[derive(Clone, Copy, Debug, PartialEq, Eq)]
pub struct WirePlace {
    /// The value.
    pub value: u32,
    /// The number of the wire among those of the value.
    pub part: u32,
}

impl Circuit {
    /// How many wires the circuit has on `d + 1` shares.
    pub fn wire_count(&self, d: u32) -> u32
        requires some { 1 ≤ d }
        requires few { d ≤ 7 }
        ensures { result ≡ wire_count self.now (d + 1) }
    {
        let mut count = 0;
        for value in 0..self.values() {
            count += self.wires_of(d + 1, value);
        }
        count
    }

    /// The value that makes a wire, and the wire's local number there. It takes time linear in the number of gates.
    pub fn wire_place(&self, d: u32, wire: u32) -> WirePlace
        requires some { 1 ≤ d }
        requires few { d ≤ 7 }
        requires wire { wire < wire_count self.now (d + 1) }
        ensures value { result.value < value_count self.now }
        ensures part { result.part < length (names_of self.now (d + 1) result.value) }
        ensures number { wires_before self.now (d + 1) result.value + result.part ≡ wire }
        ensures name { slice_get (names self.now (d + 1)) wire
            ≡ Some (result.value, slice_index_or (names_of self.now (d + 1) result.value) result.part (Share 0)) }
    {
        let shares = d + 1;
        let _values = self.values();
        let mut value = (wire / shares).min(self.inputs());
        let mut part = wire - value * shares;
        loop {
            let count = self.wires_of(shares, value);
            if part < count {
                return WirePlace { value, part };
            }
            part -= count;
            value += 1;
        }
    }

    // How many wires a value has.
    fn wires_of(&self, shares: u32, value: u32) -> u32
        requires some { 2 ≤ shares }
        requires few { shares ≤ 8 }
        requires value { value < value_count self.now }
        ensures count { result ≡ length (names_of self.now shares value) }
        ensures most { result ≤ 204 }
    {
        match self.gate_at(value) {
            None => shares,
            Some(gate) => gate_wires(shares, gate),
        }
    }
}

// How many wires a gate has: at most the 204 of a product on 8 shares.
fn gate_wires(shares: u32, gate: Gate) -> u32
    requires some { 2 ≤ shares }
    requires few { shares ≤ 8 }
    ensures count { result ≡ length (gate_names shares gate) }
    ensures most { result ≤ 204 }
{
    let pairs = pair_count(shares as usize) as u32;
    match gate {
        Gate::And(_, _) => shares * shares + 3 * pairs + shares * (shares - 1),
        Gate::Ref(_) => 3 * pairs,
        Gate::Zero | Gate::One | Gate::Xor(_, _) | Gate::Not(_) => shares,
    }
}
