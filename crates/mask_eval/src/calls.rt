//! One evaluation with all that it draws.

ghost use Rattle.std.specs.Prelude.{◌≡◌, ℕ, ◌+◌, ◌-◌, ◌*◌, ◌<◌, ◌≤◌, length, drop, is_err, IfOk, OnOk, OnErr};
ghost use Rattle.mask_io.specs.Outside.{faults_after};
ghost use Rattle.mask_circuit.specs.Netlist.{Netlist};
ghost use Rattle.mask_tape.specs.Drawn.{left};
ghost use Rattle.mask_tape.specs.Tape.{new_bytes};
ghost use Rattle.mask_eval.specs.Frames.{IsFrameOf, input_values};
ghost use Rattle.mask_eval.specs.Watching.{IsReadyFor, StaysReadyBehind};
ghost use Rattle.mask_eval.specs.Evaluated.{coin_count, inputs_of, EvaluatesInLanes};

use crate::evaluation::eval;
use crate::frames::Frame;
use crate::sharing::share_words;
use crate::watching::Watch;
use crate::words::copy_shares;
use mask_check::Admitted;
use mask_circuit::Steps;
use mask_io::{Entropy, Failed};
use mask_shares::Shares;
use mask_tape::{CoinRoom, Coins, Tape};
use std::alloc::{AllocError, Global};
use std::sync::ledger::Ledger;

/// Room for the coins of one evaluation at this order in so many lanes, where so many plain words are shared.
pub fn coin_room(
    alloc: Global,
    circuit: &Admitted,
    order: u32,
    lanes: u32,
    plain: usize,
) -> Result<CoinRoom, AllocError>
    requires some { 1 ≤ order }
    requires few { order ≤ 7 }
    requires some_lanes { 1 ≤ lanes }
    requires few_lanes { lanes ≤ 64 }
    requires plain { plain ≤ circuit.now.inputs }
    ensures { IfOk result (λ room. room ≡ record { lanes = lanes; bits = coin_count circuit.now (order + 1) plain }) }
{
    let circuit = circuit.circuit();
    let _values = circuit.values();
    let bits = u64::from(order) * plain as u64 + circuit.draws(order);
    CoinRoom::new(alloc, lanes, bits)
}

/// Draws the coins of one evaluation, evaluates in all lanes at once, and tells the watch.
///
/// The inputs of the circuit are the shares `before`, then the words of `plain`, each shared with the next coins, and then the
/// shares `behind`. It takes no memory. Where the entropy fails, nothing was drawn, evaluated, told or counted.
pub fn evaluate<const N: usize, E: Entropy, W: Watch, L: Ledger>(
    circuit: &Admitted,
    lanes: u32,
    before: &[Shares<N>],
    plain: &[u64],
    behind: &[Shares<N>],
    frame: &mut Frame<N>,
    room: CoinRoom,
    tape: &mut Tape,
    entropy: &mut E,
    watch: &mut W,
    steps: &mut Steps<L>,
) -> Result<(), Failed>
    requires some { 2 ≤ N }
    requires few { N ≤ 8 }
    requires some_lanes { 1 ≤ lanes }
    requires few_lanes { lanes ≤ 64 }
    requires fits { IsFrameOf frame.old circuit.now }
    requires inputs { length before.now + length plain.now + length behind.now ≡ circuit.now.inputs }
    requires room { room ≡ record { lanes = lanes; bits = coin_count circuit.now N (length plain.now) } }
    requires ready { IsReadyFor (W.ready watch.old) circuit.now (N - 1) lanes }
    ensures evaluates { OnOk result (EvaluatesInLanes circuit.now N lanes before.now plain.now behind.now tape.old tape.new
        (E.left entropy.old) (E.left entropy.new) (W.told watch.old) (W.told watch.new) frame.new.outputs) }
    ensures wants { OnOk result (E.wanted entropy.new ≡ E.wanted entropy.old) }
    ensures ready { OnOk result (StaysReadyBehind (W.ready watch.old) (W.ready watch.new) circuit.now (N - 1) lanes) }
    ensures steps { OnOk result (steps.new ≡ steps.old + length circuit.now.gates) }
    ensures fits { IsFrameOf frame.new circuit.now }

    // Where the entropy fails, all else is as before.
    ensures same { OnErr result (tape.new ≡ tape.old) }
    ensures left { OnErr result (E.left entropy.new ≡ E.left entropy.old) }
    ensures frame { OnErr result (frame.new ≡ frame.old) }
    ensures watch { OnErr result (watch.new ≡ watch.old) }
    ensures uncounted { OnErr result (steps.new ≡ steps.old) }
    ensures failed { OnErr result ((E.wanted entropy.new ≡ new_bytes tape.old (lanes * coin_count circuit.now N (length plain.now)))
        × (1 ≤ E.wanted entropy.new)) }

    // No new byte is needed: the entropy isn't asked.
    ensures unasked { new_bytes tape.old (lanes * coin_count circuit.now N (length plain.now)) ≡ 0 → entropy.new ≡ entropy.old }
    ensures counts { E.faults entropy.new ≡ faults_after (is_err result) (E.faults entropy.old) }
{
    let mut coins = match tape.draw(room, entropy) {
        Ok(coins) => coins,
        Err(failed) => return Err(failed),
    };
    set_inputs(before, plain, behind, frame, &mut coins);
    eval(circuit, frame, lanes, &mut coins, watch, steps);
    coins.finish();
    Ok(())
}

// Gives the inputs their shares: first these, then those of the plain words, made with the next coins, and then these.
fn set_inputs<const N: usize>(
    before: &[Shares<N>],
    plain: &[u64],
    behind: &[Shares<N>],
    frame: &mut Frame<N>,
    coins: &mut Coins,
)
    requires some { 2 ≤ N }
    requires few { N ≤ 8 }
    requires count { length before.now + length plain.now + length behind.now ≡ frame.old.inputs }
    requires room { frame.old.inputs ≤ length frame.old.values }
    requires coins { (N - 1) * length plain.now ≤ left coins.old }
    ensures values { input_values frame.new ≡ inputs_of N before.now plain.now behind.now (drop coins.old.used coins.old.words) }
    ensures fits { (c : Netlist) → IsFrameOf frame.old c → IsFrameOf frame.new c }
    ensures spent { coins.new.used ≡ coins.old.used + (N - 1) * length plain.now }
    ensures same { coins.new.words ≡ coins.old.words }
{
    let shared = before.len();
    let last = shared + plain.len();
    copy_shares(before, 0, &mut frame.values);
    share_words(plain, shared, coins, &mut frame.values);
    copy_shares(behind, last, &mut frame.values);
}
