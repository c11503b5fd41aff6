//! The evaluation of a circuit.

ghost use Rattle.std.specs.Prelude.{◌≡◌, ℕ, ◌+◌, ◌-◌, ◌*◌, ◌<◌, ◌≤◌, length, take, map};
ghost use Rattle.std.specs.List.{concat};
ghost use Rattle.mask_bits.specs.Lanes.{lane};
ghost use Rattle.mask_circuit.specs.Ring.{bits, words};
ghost use Rattle.mask_circuit.specs.Value.{plain};
ghost use Rattle.mask_circuit.specs.Expansion.{draws, outs};
ghost use Rattle.mask_shares.specs.Sharing.{all_listed, unmasked};
ghost use Rattle.mask_tape.specs.Drawn.{ahead, left};
ghost use Rattle.mask_eval.specs.Frames.{IsFrameOf, input_values};
ghost use Rattle.mask_eval.specs.Watching.{IsReadyFor, StaysReadyBehind, reports, told_more};

use crate::frames::Frame;
use crate::gates::eval_on;
use crate::watching::Watch;
use crate::words::{copy_values, write_shares, write_values};
use mask_check::Admitted;
use mask_circuit::Steps;
use mask_gadget::Unheard;
use mask_tape::Coins;
use std::sync::ledger::Ledger;

/// Evaluates the circuit on the shares of its inputs, in all lanes at once, and tells the watch.
///
/// It is [`eval_on`] on the machine that keeps nothing. Each product and each refresh draws one coin for each pair of
/// shares. A step is one gate, for all lanes. No share is unmasked, and no memory is taken.
pub fn eval<const N: usize, W: Watch, L: Ledger>(
    circuit: &Admitted,
    frame: &mut Frame<N>,
    lanes: u32,
    coins: &mut Coins,
    watch: &mut W,
    steps: &mut Steps<L>,
)
    requires some { 2 ≤ N }
    requires few { N ≤ 8 }
    requires some_lanes { 1 ≤ lanes }
    requires few_lanes { lanes ≤ 64 }
    requires fits { IsFrameOf frame.old circuit.now }
    requires coins { draws circuit.now N ≤ left coins.old }
    requires ready { IsReadyFor (W.ready watch.old) circuit.now (N - 1) lanes }
    ensures words { frame.new.outputs ≡ outs words circuit.now N (all_listed words (input_values frame.old)) (ahead (draws circuit.now N) coins.old) }

    // In each lane the outputs are those of the circuit expanded into shares ..
    ensures shares { (l : ℕ) → l < 64 → map (lane l) frame.new.outputs
        ≡ outs bits circuit.now N (all_listed bits (map (lane l) (input_values frame.old))) (lane l (ahead (draws circuit.now N) coins.old)) }

    // .. and share the plain outputs on the bits that the inputs share.
    ensures plain { (l : ℕ) → l < 64 → map (λ v. unmasked bits (lane l v)) frame.new.outputs
        ≡ plain circuit.now (map (λ v. unmasked bits (lane l v)) (input_values frame.old)) }
    ensures inputs { input_values frame.new ≡ input_values frame.old }
    ensures fits { IsFrameOf frame.new circuit.now }
    ensures spent { coins.new.used ≡ coins.old.used + draws circuit.now N }
    ensures same { coins.new.words ≡ coins.old.words }
    ensures steps { steps.new ≡ steps.old + length circuit.now.gates }
    ensures told { W.told watch.new ≡ told_more (W.told watch.old)
        (reports circuit.now (N - 1) (concat (input_values frame.old)) (ahead (draws circuit.now N) coins.old) (concat frame.new.outputs) lanes) }
    ensures ready { StaysReadyBehind (W.ready watch.old) (W.ready watch.new) circuit.now (N - 1) lanes }
{
    let admitted = circuit;
    let circuit = admitted.circuit();
    let used = coins.used();
    eval_on(admitted, &mut frame.values, coins, &mut Unheard, steps);
    copy_values(circuit.outputs(), &frame.values, &mut frame.outputs);
    write_values(&frame.values[..frame.inputs], &mut frame.input_words);
    write_shares(&frame.outputs, &mut frame.output_words);
    let spent = &coins.words()[used..coins.used()];
    watch.report(
        circuit,
        N as u32 - 1,
        &frame.input_words,
        spent,
        &frame.output_words,
        lanes,
    );
}
