//! All gates of a circuit, one after another.

ghost use Rattle.std.specs.Prelude.{◌≡◌, ℕ, ◌+◌, ◌<◌, ◌≤◌, length, take, map, sum_by};
ghost use Rattle.mask_circuit.specs.Ring.{words};
ghost use Rattle.mask_circuit.specs.Wires.{gate_draws, gate_names};
ghost use Rattle.mask_circuit.specs.Netlist.{AreGates, value_count};
ghost use Rattle.mask_circuit.specs.Expansion.{start, run, shares_of, expand, draws, wire_count};
ghost use Rattle.mask_shares.specs.Sharing.{all_listed};
ghost use Rattle.mask_tape.specs.Drawn.{ahead, left};
ghost use Rattle.mask_gadget.specs.Wiring.{told_more};
ghost use Rattle.mask_laws.specs.Sharing.{SameShares};
ghost use Rattle.mask_eval.specs.Telling.{made_wires, wires_from};

use mask_check::Admitted;
use mask_circuit::{Gate, Steps};
use mask_gadget::{Wiring, gate_on};
use std::sync::ledger::Ledger;

/// Computes the values of a circuit on this machine, from the shares of its inputs, which are the first values.
///
/// What the machine is told are all wires of the circuit but its inputs, in the order of their numbers. Each product and
/// each refresh draws one coin for each pair of shares. A step is one gate.
pub fn eval_on<const N: usize, W: Wiring, L: Ledger>(
    circuit: &Admitted,
    values: &mut [[W::Word; N]],
    coins: &mut W::Coins,
    wires: &mut W,
    steps: &mut Steps<L>,
)
    requires some { 2 ≤ N }
    requires few { N ≤ 8 }
    requires values { length values.old ≡ value_count circuit.now }
    requires coins { draws circuit.now N ≤ left (W.drawn coins.old) }
    requires room { wire_count circuit.now N ≤ W.room wires.old }
    ensures shares { SameShares N (value_count circuit.now) (all_listed words (map (map W.carried) values.new))
        (shares_of (expand words circuit.now N (all_listed words (map (map W.carried) values.old)) (ahead (draws circuit.now N) (W.drawn coins.old)))) }
    ensures told { W.told wires.new ≡ told_more (W.told wires.old)
        (made_wires words circuit.now N (all_listed words (map (map W.carried) values.old)) (ahead (draws circuit.now N) (W.drawn coins.old))) }
    ensures room { W.room wires.old ≤ W.room wires.new + wire_count circuit.now N }
    ensures inputs { take circuit.now.inputs values.new ≡ take circuit.now.inputs values.old }
    ensures spent { (W.drawn coins.new).used ≡ (W.drawn coins.old).used + draws circuit.now N }
    ensures same { (W.drawn coins.new).words ≡ (W.drawn coins.old).words }
    ensures steps { steps.new ≡ steps.old + length circuit.now.gates }
{
    let circuit = circuit.circuit();
    let inputs = circuit.inputs() as usize;
    eval_gates(circuit.gates(), inputs, values, coins, wires, steps);
}

// Puts the output shares of each gate in its place behind the inputs.
fn eval_gates<const N: usize, W: Wiring, L: Ledger>(
    gates: &[Gate],
    inputs: usize,
    values: &mut [[W::Word; N]],
    coins: &mut W::Coins,
    wires: &mut W,
    steps: &mut Steps<L>,
)
    requires some { 2 ≤ N }
    requires few { N ≤ 8 }
    requires gates { AreGates inputs gates.now }
    requires values { length values.old ≡ inputs + length gates.now }
    requires coins { sum_by (gate_draws N) gates.now ≤ left (W.drawn coins.old) }
    requires room { sum_by (λ g. length (gate_names N g)) gates.now ≤ W.room wires.old }
    ensures shares { SameShares N (length values.old) (all_listed words (map (map W.carried) values.new))
        (shares_of (run words N gates.now inputs (start words (all_listed words (map (map W.carried) values.old))) (ahead (sum_by (gate_draws N) gates.now) (W.drawn coins.old)))) }
    ensures told { W.told wires.new ≡ told_more (W.told wires.old)
        (wires_from words N gates.now inputs (start words (all_listed words (map (map W.carried) values.old))) (ahead (sum_by (gate_draws N) gates.now) (W.drawn coins.old))) }
    ensures room { W.room wires.old ≤ W.room wires.new + sum_by (λ g. length (gate_names N g)) gates.now }
    ensures inputs { take inputs values.new ≡ take inputs values.old }
    ensures spent { (W.drawn coins.new).used ≡ (W.drawn coins.old).used + sum_by (gate_draws N) gates.now }
    ensures same { (W.drawn coins.new).words ≡ (W.drawn coins.old).words }
    ensures steps { steps.new ≡ steps.old + length gates.now }
{
    for (k, gate) in gates.iter().enumerate() {
        let (before, rest) = values.split_at_mut(inputs + k);
        gate_on(*gate, before, &mut rest[0], coins, wires);
        steps.tick();
    }
}
