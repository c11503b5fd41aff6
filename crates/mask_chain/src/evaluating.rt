//! One evaluation on a key and a state.

ghost use Rattle.std.specs.Prelude.{◌≡◌, ◌+◌, ◌-◌, ◌*◌, ◌<◌, ◌≤◌, [], ◌∷◌, length, map, is_err, OnOk, OnErr};
ghost use Rattle.mask_bits.specs.Lanes.{lane};
ghost use Rattle.mask_io.specs.Outside.{faults_after};
ghost use Rattle.mask_tape.specs.Tape.{new_bytes};
ghost use Rattle.mask_eval.specs.Frames.{IsFrameOf};
ghost use Rattle.mask_eval.specs.Watching.{IsReadyFor, StaysReadyBehind};
ghost use Rattle.mask_trace.specs.Steps.{kept, stretch};
ghost use Rattle.mask_trace.specs.Drawing.{Ran, stand};
ghost use Rattle.mask_chain.specs.Evaluations.{Suits, keeps, step};
ghost use Rattle.mask_chain.specs.Chains.{registers};

use crate::evaluations::Evaluation;
use crate::inputs::lay;
use mask_check::Admitted;
use mask_circuit::Steps;
use mask_eval::{Frame, Watch, evaluate};
use mask_io::{Entropy, Failed};
use mask_shares::Shares;
use mask_tape::{CoinRoom, Tape};
use std::sync::ledger::Ledger;

/// Draws the coins of one evaluation in one lane, lays its inputs, evaluates, and tells the watch. It takes no memory.
pub(crate) fn evaluate_on<const N: usize, E: Entropy, W: Watch, L: Ledger>(
    key: &[Shares<N>],
    state: &[Shares<N>],
    circuit: &Admitted,
    own: &Evaluation,
    inputs: &mut [Shares<N>],
    frame: &mut Frame<N>,
    room: CoinRoom,
    tape: &mut Tape,
    entropy: &mut E,
    watch: &mut W,
    steps: &mut Steps<L>,
) -> Result<(), Failed>
    requires some { 2 ≤ N }
    requires few { N ≤ 8 }
    requires suits { Suits (length key.now) (length state.now) circuit.now own.now }
    requires inputs { length inputs.old ≡ circuit.now.inputs }
    requires fits { IsFrameOf frame.old circuit.now }
    requires room { room ≡ record { lanes = 1; bits = stretch N (step circuit.now own.now) } }
    requires ready { IsReadyFor (W.ready watch.old) circuit.now (N - 1) 1 }
    requires kept { length tape.old < 8 }
    ensures ran { OnOk result (Ran N (registers key.now state.now) (step circuit.now own.now ∷ [])
        (kept (keeps own.now.keep) (map (lane 0) frame.new.outputs) (registers key.now state.now))
        (stand tape.old (E.left entropy.old) (W.told watch.old)) (stand tape.new (E.left entropy.new) (W.told watch.new))) }
    ensures wants { OnOk result (E.wanted entropy.new ≡ E.wanted entropy.old) }
    ensures ready { OnOk result (StaysReadyBehind (W.ready watch.old) (W.ready watch.new) circuit.now (N - 1) 1) }
    ensures steps { OnOk result (steps.new ≡ steps.old + length circuit.now.gates) }
    ensures fits { IsFrameOf frame.new circuit.now }

    // Where the entropy fails, all else is as before.
    ensures tape { OnErr result (tape.new ≡ tape.old) }
    ensures left { OnErr result (E.left entropy.new ≡ E.left entropy.old) }
    ensures watch { OnErr result (watch.new ≡ watch.old) }
    ensures uncounted { OnErr result (steps.new ≡ steps.old) }
    ensures failed { OnErr result ((E.wanted entropy.new ≡ new_bytes tape.old (stretch N (step circuit.now own.now)))
        × (1 ≤ E.wanted entropy.new)) }
    ensures counts { E.faults entropy.new ≡ faults_after (is_err result) (E.faults entropy.old) }
{
    let before = lay(own.before, key, state, 0, inputs);
    let behind = lay(own.behind, key, state, before, inputs);
    let laid = &inputs[..];
    evaluate(
        circuit,
        1,
        &laid[..before],
        own.message,
        &laid[before..behind],
        frame,
        room,
        tape,
        entropy,
        watch,
        steps,
    )
}
