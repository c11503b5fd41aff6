//! A run between its evaluations.

ghost use Rattle.std.specs.Prelude.{◌≡◌, ℕ, ◌+◌, ◌-◌, ◌*◌, ◌<◌, ◌≤◌, [], ◌∷◌, length, map, is_err, IfOk, IfErr, OnOk, OnErr};
ghost use Rattle.mask_bits.specs.Lanes.{lane};
ghost use Rattle.mask_io.specs.Outside.{faults_after};
ghost use Rattle.mask_tape.specs.Tape.{failed_to_draw, new_bytes};
ghost use Rattle.mask_tape.specs.declared.tape.TapeError.TheVariants as TapeError;
ghost use Rattle.mask_eval.specs.Watching.{IsReadyFor, StaysReadyBehind};
ghost use Rattle.mask_trace.specs.Steps.{kept, state_after, stretch};
ghost use Rattle.mask_trace.specs.Values.{HasShares};
ghost use Rattle.mask_trace.specs.Drawing.{Ran, stand};
ghost use Rattle.mask_chain.specs.declared.evaluations.Keep.TheVariants as Keep;
ghost use Rattle.mask_chain.specs.Evaluations.{Suits, keeps, step};
ghost use Rattle.mask_chain.specs.Chains.{AreShares, Stopped, have};

use crate::evaluating::evaluate_on;
use crate::evaluations::{Evaluation, Keep};
use crate::inputs::put;
use crate::parts::{Part, Room};
use mask_circuit::Steps;
use mask_eval::Watch;
use mask_io::{Entropy, Failed};
use mask_shares::Shares;
use mask_tape::{Tape, TapeError};
use std::alloc::{AllocError, Global};
use std::marker::Model;
use std::sync::ledger::Ledger;

/// A run with a key in N shares and the state that its evaluations pass on.
#[derive(Drop)]
pub struct ChainRun<const N: usize> {
    key: Vec<Shares<N>>,
    state: Vec<Shares<N>>,
}

impl<const N: usize> Model for ChainRun<N> {
    ghost use Rattle.mask_chain.specs.Chains.{AreShares, Chain};

    ghost Value = { Chain };

    ghost view = { λ r. record { key = r.key.items; state = r.state.items } };

    ghost invariant = { λ r. AreShares N r.key.items × AreShares N r.state.items };
}

impl<const N: usize> ChainRun<N> {
    /// A run with this key and no state. The shares of a bit are those of lane 0.
    pub fn new(alloc: Global, key: &[Shares<N>]) -> Result<ChainRun<N>, AllocError>
        requires some { 2 ≤ N }
        requires few { N ≤ 8 }
        ensures value { IfOk result (λ run. run ≡ record { key = key.now; state = [] }) }
        ensures shares { IfOk result (λ run. HasShares N (length key.now) 0 (have run)) }
    {
        let mut own = vec![in alloc; Shares::public(0); key.len()]?;
        put(key, 0, &mut own);
        Ok(ChainRun {
            key: own,
            state: Vec::new(alloc),
        })
    }

    /// The state: what the latest evaluation put out whose outputs became the state. The shares of a bit stand in lane 0.
    pub fn state(&self) -> &[Shares<N>]
        ensures value { result.now ≡ self.now.state }
        ensures shares { HasShares N (length self.now.key) (length self.now.state) (have self.now) }
    {
        &self.state
    }

    /// Evaluates a circuit and keeps what it puts out. All memory is taken before the tape is asked.
    pub fn take<E: Entropy, W: Watch, L: Ledger>(
        &mut self,
        alloc: Global,
        part: &mut Part<N>,
        own: &Evaluation,
        tape: &mut Tape,
        entropy: &mut E,
        watch: &mut W,
        steps: &mut Steps<L>,
    ) -> Result<(), TapeError>
        requires some { 2 ≤ N }
        requires few { N ≤ 8 }
        requires suits { Suits (length self.old.key) (length self.old.state) part.old own.now }
        requires kept { length tape.old < 8 }
        ensures ran { OnOk result (Ran N (have self.old) (step part.old own.now ∷ []) (have self.new)
            (stand tape.old (E.left entropy.old) (W.told watch.old)) (stand tape.new (E.left entropy.new) (W.told watch.new))) }
        ensures lengths { OnOk result ((length self.new.key ≡ length self.old.key)
            × (length self.new.state ≡ state_after (keeps own.now.keep) part.old (length self.old.state))) }
        ensures wants { OnOk result (E.wanted entropy.new ≡ E.wanted entropy.old) }
        ensures steps { OnOk result (steps.new ≡ steps.old + length part.old.gates) }

        // Where the entropy fails, nothing was evaluated.
        ensures stopped { IfErr result (λ e. e ≡ TapeError.Failed → Stopped N (have self.old) (have self.new) [] (step part.old own.now)
            (E.wanted entropy.new) steps.old steps.new
            (stand tape.old (E.left entropy.old) (W.told watch.old)) (stand tape.new (E.left entropy.new) (W.told watch.new))) }
        ensures same { OnErr result (self.new ≡ self.old) }
        ensures no_memory { IfErr result (λ e. e ≡ TapeError.NoMemory → (self.new ≡ self.old) × (tape.new ≡ tape.old)
            × (entropy.new ≡ entropy.old) × (W.told watch.new ≡ W.told watch.old) × (steps.new ≡ steps.old)) }
        ensures part { part.new ≡ part.old }
        ensures counts { E.faults entropy.new ≡ faults_after (failed_to_draw result) (E.faults entropy.old) }
    {
        watch.cancel();
        let room = part.room(alloc, own, watch)?;
        match self.evaluate(part, own, room, tape, entropy, watch, steps) {
            Ok(()) => Ok(()),
            Err(_failed) => Err(TapeError::Failed),
        }
    }

    /// Evaluates a circuit and then another, and keeps what each puts out. All memory of both is taken before the tape is
    /// asked.
    pub fn take_two<E: Entropy, W: Watch, L: Ledger>(
        &mut self,
        alloc: Global,
        first: &mut Part<N>,
        ahead: &Evaluation,
        part: &mut Part<N>,
        own: &Evaluation,
        tape: &mut Tape,
        entropy: &mut E,
        watch: &mut W,
        steps: &mut Steps<L>,
    ) -> Result<(), TapeError>
        requires some { 2 ≤ N }
        requires few { N ≤ 8 }
        requires ahead { Suits (length self.old.key) (length self.old.state) first.old ahead.now }
        requires suits { Suits (length self.old.key) (state_after (keeps ahead.now.keep) first.old (length self.old.state)) part.old own.now }
        requires kept { length tape.old < 8 }
        ensures ran { OnOk result (Ran N (have self.old) (step first.old ahead.now ∷ step part.old own.now ∷ []) (have self.new)
            (stand tape.old (E.left entropy.old) (W.told watch.old)) (stand tape.new (E.left entropy.new) (W.told watch.new))) }
        ensures lengths { OnOk result ((length self.new.key ≡ length self.old.key)
            × (length self.new.state ≡ state_after (keeps own.now.keep) part.old (state_after (keeps ahead.now.keep) first.old (length self.old.state)))) }
        ensures wants { OnOk result (E.wanted entropy.new ≡ E.wanted entropy.old) }
        ensures steps { OnOk result (steps.new ≡ steps.old + (length first.old.gates + length part.old.gates)) }

        // Where the entropy fails, nothing was evaluated or the first circuit alone.
        ensures stopped { IfErr result (λ e. e ≡ TapeError.Failed → Stopped N (have self.old) (have self.new) (step first.old ahead.now ∷ []) (step part.old own.now)
            (E.wanted entropy.new) steps.old steps.new
            (stand tape.old (E.left entropy.old) (W.told watch.old)) (stand tape.new (E.left entropy.new) (W.told watch.new))) }
        ensures key { OnErr result (length self.new.key ≡ length self.old.key) }
        ensures no_memory { IfErr result (λ e. e ≡ TapeError.NoMemory → (self.new ≡ self.old) × (tape.new ≡ tape.old)
            × (entropy.new ≡ entropy.old) × (W.told watch.new ≡ W.told watch.old) × (steps.new ≡ steps.old)) }
        ensures first { first.new ≡ first.old }
        ensures part { part.new ≡ part.old }
        ensures counts { E.faults entropy.new ≡ faults_after (failed_to_draw result) (E.faults entropy.old) }
    {
        watch.cancel();
        let early = first.room(alloc, ahead, watch)?;
        let late = part.room(alloc, own, watch)?;
        match self.evaluate(first, ahead, early, tape, entropy, watch, steps) {
            Ok(()) => {}
            Err(_failed) => return Err(TapeError::Failed),
        }
        match self.evaluate(part, own, late, tape, entropy, watch, steps) {
            Ok(()) => Ok(()),
            Err(_failed) => Err(TapeError::Failed),
        }
    }

    // Evaluates a circuit and keeps what it puts out. It takes no memory.
    fn evaluate<E: Entropy, W: Watch, L: Ledger>(
        &mut self,
        part: &mut Part<N>,
        own: &Evaluation,
        room: Room<N>,
        tape: &mut Tape,
        entropy: &mut E,
        watch: &mut W,
        steps: &mut Steps<L>,
    ) -> Result<(), Failed>
        requires some { 2 ≤ N }
        requires few { N ≤ 8 }
        requires suits { Suits (length self.old.key) (length self.old.state) part.old own.now }
        requires coins { room.coins ≡ record { lanes = 1; bits = stretch N (step part.old own.now) } }
        requires outputs { length room.outputs.items ≡ length part.old.outputs }
        requires ready { IsReadyFor (W.ready watch.old) part.old (N - 1) 1 }
        requires kept { length tape.old < 8 }
        ensures ran { OnOk result (Ran N (have self.old) (step part.old own.now ∷ []) (have self.new)
            (stand tape.old (E.left entropy.old) (W.told watch.old)) (stand tape.new (E.left entropy.new) (W.told watch.new))) }
        ensures lengths { OnOk result ((length self.new.key ≡ length self.old.key)
            × (length self.new.state ≡ state_after (keeps own.now.keep) part.old (length self.old.state))) }
        ensures wants { OnOk result (E.wanted entropy.new ≡ E.wanted entropy.old) }
        ensures ready { OnOk result (StaysReadyBehind (W.ready watch.old) (W.ready watch.new) part.old (N - 1) 1) }
        ensures steps { OnOk result (steps.new ≡ steps.old + length part.old.gates) }
        ensures part { part.new ≡ part.old }

        // Where the entropy fails, all else is as before.
        ensures same { OnErr result (self.new ≡ self.old) }
        ensures tape { OnErr result (tape.new ≡ tape.old) }
        ensures left { OnErr result (E.left entropy.new ≡ E.left entropy.old) }
        ensures watch { OnErr result (watch.new ≡ watch.old) }
        ensures uncounted { OnErr result (steps.new ≡ steps.old) }
        ensures failed { OnErr result ((E.wanted entropy.new ≡ new_bytes tape.old (stretch N (step part.old own.now)))
            × (1 ≤ E.wanted entropy.new)) }
        ensures counts { E.faults entropy.new ≡ faults_after (is_err result) (E.faults entropy.old) }
    {
        match evaluate_on(
            &self.key,
            &self.state,
            part.circuit.admitted(),
            own,
            &mut part.inputs,
            &mut part.frame,
            room.coins,
            tape,
            entropy,
            watch,
            steps,
        ) {
            Ok(()) => {}
            Err(failed) => return Err(failed),
        }
        self.keep(part.frame.outputs(), own.keep, room.outputs);
        Ok(())
    }

    // Keeps these outputs. There is room for them as a state.
    fn keep(&mut self, outputs: &[Shares<N>], keep: Keep, mut room: Vec<Shares<N>>)
        requires room { length room.items ≡ length outputs.now }
        requires key { keep ≡ Keep.AsKey → length outputs.now ≤ length self.old.key }
        ensures kept { have self.new ≡ kept (keeps keep) (map (lane 0) outputs.now) (have self.old) }
        ensures key { length self.new.key ≡ length self.old.key }
    {
        match keep {
            Keep::AsKey => put(outputs, 0, &mut self.key),
            Keep::AsState => {
                put(outputs, 0, &mut room);
                self.state = room;
            }
        }
    }
}
