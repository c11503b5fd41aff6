//! Any gate on the shares of the values before it.

ghost use Rattle.std.specs.Prelude.{◌≡◌, ◌+◌, ◌<◌, ◌≤◌, length, map};
ghost use Rattle.mask_circuit.specs.Netlist.{OperandsBelow};
ghost use Rattle.mask_circuit.specs.Ring.{words};
ghost use Rattle.mask_circuit.specs.Wires.{gate_names, gate_draws, gate_out, gate_wires};
ghost use Rattle.mask_shares.specs.Sharing.{all_listed};
ghost use Rattle.mask_tape.specs.Drawn.{ahead, left};
ghost use Rattle.mask_gadget.specs.Wiring.{told_more};

use crate::linear::{constant, not, xor};
use crate::product::product;
use crate::refresh::refresh;
use crate::wiring::Wiring;
use mask_circuit::Gate;

/// Writes the output shares of a gate on the shares of the values before it, computed on this machine.
///
/// What the machine is told are the wires of the gate, in the order of their numbers. A product and a refresh draw a coin
/// for each pair of shares.
#[inline(always)]
pub fn gate_on<const N: usize, W: Wiring>(
    gate: Gate,
    values: &[[W::Word; N]],
    out: &mut [W::Word; N],
    coins: &mut W::Coins,
    wires: &mut W,
)
    requires some { 2 ≤ N }
    requires few { N ≤ 8 }
    requires operands { OperandsBelow (length values.now) gate }
    requires coins { gate_draws N gate ≤ left (W.drawn coins.old) }
    requires room { length (gate_names N gate) ≤ W.room wires.old }
    ensures shares { map W.carried out.new
        ≡ gate_out words N gate (all_listed words (map (map W.carried) values.now)) (ahead (gate_draws N gate) (W.drawn coins.old)) }
    ensures told { W.told wires.new ≡ told_more (W.told wires.old)
        (gate_wires words N gate (all_listed words (map (map W.carried) values.now)) (ahead (gate_draws N gate) (W.drawn coins.old))) }
    ensures room { W.room wires.old ≤ W.room wires.new + length (gate_names N gate) }
    ensures spent { (W.drawn coins.new).used ≡ (W.drawn coins.old).used + gate_draws N gate }
    ensures same { (W.drawn coins.new).words ≡ (W.drawn coins.old).words }
{
    match gate {
        Gate::Zero => constant(0, out, wires),
        Gate::One => constant(u64::MAX, out, wires),
        Gate::Xor(u, v) => xor(&values[u as usize], &values[v as usize], out, wires),
        Gate::Not(u) => not(&values[u as usize], out, wires),
        Gate::And(u, v) => product(&values[u as usize], &values[v as usize], out, coins, wires),
        Gate::Ref(u) => refresh(&values[u as usize], out, coins, wires),
    }
}
