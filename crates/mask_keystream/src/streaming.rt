//! A run of Trivium between its pieces.

ghost use Rattle.std.specs.Prelude.{◌≡◌, ℕ, ◌+◌, ◌<◌, ◌≤◌, [], ◌∷◌, length, map, sum_by, IfOk, IfErr, OnOk};
ghost use Rattle.mask_bits.specs.Lanes.{lane};
ghost use Rattle.mask_io.specs.Outside.{faults_after};
ghost use Rattle.mask_check.specs.Costs.{most_steps};
ghost use Rattle.mask_tape.specs.Tape.{failed_to_draw};
ghost use Rattle.mask_tape.specs.declared.tape.TapeError.TheVariants as TapeError;
ghost use Rattle.mask_trace.specs.Values.{HasShares};
ghost use Rattle.mask_trace.specs.Drawing.{Ran, stand};
ghost use Rattle.mask_trivium.specs.NamedTrivium.{named_start, named_step};
ghost use Rattle.mask_modes.specs.Steps.{block_at};
ghost use Rattle.mask_streams.specs.Streams.{ahead, start_step, steps_behind, stream_step};
ghost use Rattle.mask_chain.specs.Chains.{Stopped};

use crate::words::{block_words, iv_words};
use mask_chain::{ChainRun, Evaluation, Keep, Part, Source};
use mask_circuit::Steps;
use mask_eval::Watch;
use mask_io::Entropy;
use mask_shares::Shares;
use mask_tape::{Tape, TapeError};
use mask_trivium::{trivium_start, trivium_step};
use std::alloc::{AllocError, Global};
use std::marker::Model;
use std::sync::ledger::Ledger;

/// A run of Trivium with a key in N shares.
#[derive(Drop)]
pub struct StreamRun<const N: usize> {
    start: Part<N>,
    step: Part<N>,
    chain: ChainRun<N>,
    // What is handed out ahead of the first piece.
    blank: Vec<Shares<N>>,
    iv: [u8; 10],
}

impl<const N: usize> Model for StreamRun<N> {
    ghost use Rattle.mask_chain.specs.Chains.{have};
    ghost use Rattle.mask_keystream.specs.Streaming.{Between, IsInForm, shown};

    ghost Value = { Between };

    ghost view = { λ r. record { iv = r.iv; held = have r.chain; outputs = shown r.blank.items r.chain.state } };

    ghost invariant = { λ r. IsInForm r.start r.step r.chain r.blank.items r.iv };
}

impl<const N: usize> StreamRun<N> {
    /// A run with this IV and this key, and no state. The shares of a bit of the key are those of lane 0.
    pub fn new<L: Ledger>(
        alloc: Global,
        iv: &[u8; 10],
        key: &[Shares<N>],
        steps: &mut Steps<L>,
    ) -> Result<StreamRun<N>, AllocError>
        requires some { 2 ≤ N }
        requires few { N ≤ 8 }
        requires length { length key.now ≡ 80 }
        ensures value { IfOk result (λ run. run ≡ record {
          iv = iv.now;
          held = record { key = map (lane 0) key.now; state = [] };
          outputs = run.outputs;
        }) }
        ensures shares { IfOk result (λ run. HasShares N 80 0 run.held) }
        ensures steps { steps.new ≤ steps.old + (most_steps named_start + most_steps named_step) }
    {
        let start = trivium_start(alloc, steps)?;
        let step = trivium_step(alloc, steps)?;
        Ok(StreamRun {
            start: Part::new(alloc, start)?,
            step: Part::new(alloc, step)?,
            chain: ChainRun::new(alloc, key)?,
            blank: vec![in alloc; Shares::from_parts([0; N]); 352]?,
            iv: *iv,
        })
    }

    /// What the latest piece put out: the 288 bits of the cipher's state, and behind them the 64 bits of the result. The shares
    /// of a bit stand in lane 0. Ahead of the first piece they are zeros.
    pub fn outputs(&self) -> &[Shares<N>]
        ensures value { result.now ≡ self.now.outputs }
        ensures count { length self.now.outputs ≡ 352 }
        ensures lanes { length self.now.held.state ≡ 352 → map (lane 0) self.now.outputs ≡ self.now.held.state }
        ensures shares { HasShares N 80 (length self.now.held.state) self.now.held }
    {
        let state = self.chain.state();
        if state.len() == 352 {
            state
        } else {
            &self.blank
        }
    }

    /// Encrypts a piece of a message: one to eight bytes, filled up with zeros, behind so many others. Where there are no others
    /// the state is made first. All memory is taken before the tape is asked.
    pub fn piece<E: Entropy, W: Watch, L: Ledger>(
        &mut self,
        alloc: Global,
        fed: u64,
        piece: &[u8],
        tape: &mut Tape,
        entropy: &mut E,
        watch: &mut W,
        steps: &mut Steps<L>,
    ) -> Result<(), TapeError>
        requires some { 2 ≤ N }
        requires few { N ≤ 8 }
        requires bytes { 1 ≤ length piece.now }
        requires block { length piece.now ≤ 8 }
        requires behind { 0 < fed → length self.old.held.state ≡ 352 }
        requires kept { length tape.old < 8 }
        ensures ran { OnOk result (Ran N self.old.held (steps_behind self.old.iv fed piece.now) self.new.held
            (stand tape.old (E.left entropy.old) (W.told watch.old)) (stand tape.new (E.left entropy.new) (W.told watch.new))) }
        ensures behind { OnOk result (length self.new.held.state ≡ 352) }
        ensures iv { self.new.iv ≡ self.old.iv }
        ensures wants { OnOk result (E.wanted entropy.new ≡ E.wanted entropy.old) }
        ensures steps { OnOk result (steps.new ≡ steps.old + sum_by (λ step. length step.circuit.gates) (steps_behind self.old.iv fed piece.now)) }

        // Where the entropy fails, nothing was evaluated or the start alone.
        ensures stopped { IfErr result (λ e. e ≡ TapeError.Failed → Stopped N self.old.held self.new.held (ahead self.old.iv fed) (stream_step (block_at 8 piece.now 0))
            (E.wanted entropy.new) steps.old steps.new
            (stand tape.old (E.left entropy.old) (W.told watch.old)) (stand tape.new (E.left entropy.new) (W.told watch.new))) }
        ensures no_memory { IfErr result (λ e. e ≡ TapeError.NoMemory → (self.new ≡ self.old) × (tape.new ≡ tape.old)
            × (entropy.new ≡ entropy.old) × (W.told watch.new ≡ W.told watch.old) × (steps.new ≡ steps.old)) }
        ensures counts { E.faults entropy.new ≡ faults_after (failed_to_draw result) (E.faults entropy.old) }
    {
        if fed == 0 {
            self.first_piece(alloc, piece, tape, entropy, watch, steps)
        } else {
            self.later_piece(alloc, piece, tape, entropy, watch, steps)
        }
    }

    // The first piece, ahead of which the state is made of the key and the IV.
    fn first_piece<E: Entropy, W: Watch, L: Ledger>(
        &mut self,
        alloc: Global,
        piece: &[u8],
        tape: &mut Tape,
        entropy: &mut E,
        watch: &mut W,
        steps: &mut Steps<L>,
    ) -> Result<(), TapeError>
        requires some { 2 ≤ N }
        requires few { N ≤ 8 }
        requires bytes { 1 ≤ length piece.now }
        requires block { length piece.now ≤ 8 }
        requires kept { length tape.old < 8 }
        ensures ran { OnOk result (Ran N self.old.held (start_step self.old.iv ∷ stream_step (block_at 8 piece.now 0) ∷ []) self.new.held
            (stand tape.old (E.left entropy.old) (W.told watch.old)) (stand tape.new (E.left entropy.new) (W.told watch.new))) }
        ensures behind { OnOk result (length self.new.held.state ≡ 352) }
        ensures iv { self.new.iv ≡ self.old.iv }
        ensures wants { OnOk result (E.wanted entropy.new ≡ E.wanted entropy.old) }
        ensures steps { OnOk result (steps.new ≡ steps.old + (length named_start.gates + length named_step.gates)) }
        ensures stopped { IfErr result (λ e. e ≡ TapeError.Failed → Stopped N self.old.held self.new.held (start_step self.old.iv ∷ []) (stream_step (block_at 8 piece.now 0))
            (E.wanted entropy.new) steps.old steps.new
            (stand tape.old (E.left entropy.old) (W.told watch.old)) (stand tape.new (E.left entropy.new) (W.told watch.new))) }
        ensures no_memory { IfErr result (λ e. e ≡ TapeError.NoMemory → (self.new ≡ self.old) × (tape.new ≡ tape.old)
            × (entropy.new ≡ entropy.old) × (W.told watch.new ≡ W.told watch.old) × (steps.new ≡ steps.old)) }
        ensures counts { E.faults entropy.new ≡ faults_after (failed_to_draw result) (E.faults entropy.old) }
    {
        let iv = iv_words(&self.iv);
        let message = block_words(piece);
        self.chain.take_two(
            alloc,
            &mut self.start,
            &Evaluation {
                before: &[Source::Key { from: 0, count: 80 }, Source::Public(&iv)],
                message: &[],
                behind: &[],
                keep: Keep::AsState,
            },
            &mut self.step,
            &Evaluation {
                before: &[Source::State { count: 288 }],
                message: &message,
                behind: &[],
                keep: Keep::AsState,
            },
            tape,
            entropy,
            watch,
            steps,
        )
    }

    // A piece behind others.
    fn later_piece<E: Entropy, W: Watch, L: Ledger>(
        &mut self,
        alloc: Global,
        piece: &[u8],
        tape: &mut Tape,
        entropy: &mut E,
        watch: &mut W,
        steps: &mut Steps<L>,
    ) -> Result<(), TapeError>
        requires some { 2 ≤ N }
        requires few { N ≤ 8 }
        requires bytes { 1 ≤ length piece.now }
        requires block { length piece.now ≤ 8 }
        requires behind { length self.old.held.state ≡ 352 }
        requires kept { length tape.old < 8 }
        ensures ran { OnOk result (Ran N self.old.held (stream_step (block_at 8 piece.now 0) ∷ []) self.new.held
            (stand tape.old (E.left entropy.old) (W.told watch.old)) (stand tape.new (E.left entropy.new) (W.told watch.new))) }
        ensures behind { OnOk result (length self.new.held.state ≡ 352) }
        ensures iv { self.new.iv ≡ self.old.iv }
        ensures wants { OnOk result (E.wanted entropy.new ≡ E.wanted entropy.old) }
        ensures steps { OnOk result (steps.new ≡ steps.old + length named_step.gates) }
        ensures stopped { IfErr result (λ e. e ≡ TapeError.Failed → Stopped N self.old.held self.new.held [] (stream_step (block_at 8 piece.now 0))
            (E.wanted entropy.new) steps.old steps.new
            (stand tape.old (E.left entropy.old) (W.told watch.old)) (stand tape.new (E.left entropy.new) (W.told watch.new))) }
        ensures no_memory { IfErr result (λ e. e ≡ TapeError.NoMemory → (self.new ≡ self.old) × (tape.new ≡ tape.old)
            × (entropy.new ≡ entropy.old) × (W.told watch.new ≡ W.told watch.old) × (steps.new ≡ steps.old)) }
        ensures counts { E.faults entropy.new ≡ faults_after (failed_to_draw result) (E.faults entropy.old) }
    {
        let message = block_words(piece);
        self.chain.take(
            alloc,
            &mut self.step,
            &Evaluation {
                before: &[Source::State { count: 288 }],
                message: &message,
                behind: &[],
                keep: Keep::AsState,
            },
            tape,
            entropy,
            watch,
            steps,
        )
    }
}
