//! A run of Chaskey-12 between its pieces.

ghost use Rattle.std.specs.Prelude.{◌≡◌, ℕ, ◌+◌, ◌*◌, ◌<◌, ◌≤◌, [], ◌∷◌, ◌++◌, false, true, length, map, sum_by, IfOk, IfErr, OnOk, OnErr};
ghost use Rattle.mask_bits.specs.Lanes.{lane};
ghost use Rattle.mask_io.specs.Outside.{faults_after};
ghost use Rattle.mask_check.specs.Costs.{most_steps};
ghost use Rattle.mask_tape.specs.Tape.{failed_to_draw};
ghost use Rattle.mask_tape.specs.declared.tape.TapeError.TheVariants as TapeError;
ghost use Rattle.mask_refresh.specs.Refreshing.{refreshing};
ghost use Rattle.mask_trace.specs.Values.{HasShares};
ghost use Rattle.mask_trace.specs.Drawing.{Ran, stand};
ghost use Rattle.mask_macs.specs.ChaskeyRuns.{ahead};
ghost use Rattle.mask_macs.specs.Codes.{IsNext, chaskey_code};
ghost use Rattle.mask_chain.specs.declared.evaluations.Keep.TheVariants as Keep;
ghost use Rattle.mask_chain.specs.Evaluations.{Suits, step};
ghost use Rattle.mask_chain.specs.Chains.{Stopped, have};
ghost use Rattle.mask_tagging.specs.Tagging.{Chaskey, Interrupted, code_of};

use crate::chaskey_words::{block_words, short_words};
use mask_chain::{ChainRun, Evaluation, Keep, Part, Source};
use mask_chaskey::{chaskey_end_short, chaskey_end_whole, chaskey_step};
use mask_circuit::Steps;
use mask_eval::Watch;
use mask_io::Entropy;
use mask_refresh::refresh_circuit;
use mask_shares::Shares;
use mask_tape::{Tape, TapeError};
use std::alloc::{AllocError, Global};
use std::marker::Model;
use std::sync::ledger::Ledger;

/// A run of Chaskey-12 with a key in N shares.
#[derive(Drop)]
pub struct ChaskeyRun<const N: usize> {
    start: Part<N>,
    step: Part<N>,
    whole: Part<N>,
    short: Part<N>,
    chain: ChainRun<N>,
    // What is handed out ahead of the first piece.
    blank: Vec<Shares<N>>,
    tag: u32,
}

impl<const N: usize> Model for ChaskeyRun<N> {
    ghost use Rattle.mask_chain.specs.Chains.{have};
    ghost use Rattle.mask_tagging.specs.Tagging.{Between, Chaskey, shown};
    ghost use Rattle.mask_tagging.specs.ChaskeyForms.{IsChaskey};

    ghost Value = { Between };

    ghost view = { λ r. record { scheme = Chaskey r.tag; held = have r.chain; outputs = shown 128 r.blank.items r.chain.state } };

    ghost invariant = { λ r. IsChaskey r.start r.step r.whole r.short r.chain r.blank.items };
}

impl<const N: usize> ChaskeyRun<N> {
    /// A run with this key and no state, for a tag of so many bytes. The shares of a bit of the key are those of lane 0.
    pub fn new<L: Ledger>(
        alloc: Global,
        tag: u32,
        key: &[Shares<N>],
        steps: &mut Steps<L>,
    ) -> Result<ChaskeyRun<N>, AllocError>
        requires some { 2 ≤ N }
        requires few { N ≤ 8 }
        requires length { length key.now ≡ 128 }
        ensures value { IfOk result (λ run. run ≡ record {
          scheme = Chaskey tag;
          held = record { key = map (lane 0) key.now; state = [] };
          outputs = run.outputs;
        }) }
        ensures shares { IfOk result (λ run. HasShares N (length key.now) 0 run.held) }
        ensures steps { steps.new ≤ steps.old + sum_by most_steps (chaskey_code tag).circuits }
    {
        let start = refresh_circuit(alloc, 128, steps)?;
        let step = chaskey_step(alloc, steps)?;
        let whole = chaskey_end_whole(alloc, steps)?;
        let short = chaskey_end_short(alloc, steps)?;
        Ok(ChaskeyRun {
            start: Part::new(alloc, start)?,
            step: Part::new(alloc, step)?,
            whole: Part::new(alloc, whole)?,
            short: Part::new(alloc, short)?,
            chain: ChainRun::new(alloc, key)?,
            blank: vec![in alloc; Shares::from_parts([0; N]); 128]?,
            tag,
        })
    }

    /// What the latest piece left: the state, in which byte k of the tag begins at bit 8 · k behind the last piece. The shares of a
    /// bit stand in lane 0. Ahead of the first piece they are zeros.
    pub fn outputs(&self) -> &[Shares<N>]
        ensures value { result.now ≡ self.now.outputs }
        ensures count { length self.now.outputs ≡ (code_of self.now.scheme).state_bits }
        ensures lanes { length self.now.held.state ≡ (code_of self.now.scheme).state_bits → map (lane 0) self.now.outputs ≡ self.now.held.state }
        ensures shares { HasShares N (8 * (code_of self.now.scheme).key_bytes) (length self.now.held.state) self.now.held }
    {
        let state = self.chain.state();
        if state.len() == 128 {
            state
        } else {
            &self.blank
        }
    }

    /// Takes a piece of a message behind so many bytes: sixteen bytes, behind which more of the message comes, or the last ones.
    /// Where there were none before, the state is made first. All memory is taken before the tape is asked.
    pub fn piece<E: Entropy, W: Watch, L: Ledger>(
        &mut self,
        alloc: Global,
        fed: u64,
        piece: &[u8],
        last: bool,
        tape: &mut Tape,
        entropy: &mut E,
        watch: &mut W,
        steps: &mut Steps<L>,
    ) -> Result<(), TapeError>
        requires some { 2 ≤ N }
        requires few { N ≤ 8 }
        requires next { IsNext (code_of self.old.scheme) fed piece.now last }
        requires behind { 0 < fed → length self.old.held.state ≡ (code_of self.old.scheme).state_bits }
        requires kept { length tape.old < 8 }
        ensures ran { OnOk result (Ran N self.old.held ((code_of self.old.scheme).next fed piece.now last) self.new.held
            (stand tape.old (E.left entropy.old) (W.told watch.old)) (stand tape.new (E.left entropy.new) (W.told watch.new))) }
        ensures behind { OnOk result (length self.new.held.state ≡ (code_of self.old.scheme).state_bits) }
        ensures scheme { self.new.scheme ≡ self.old.scheme }
        ensures wants { OnOk result (E.wanted entropy.new ≡ E.wanted entropy.old) }
        ensures steps { OnOk result (steps.new ≡ steps.old + sum_by (λ step. length step.circuit.gates) ((code_of self.old.scheme).next fed piece.now last)) }

        // Where the entropy fails, nothing was evaluated or the start alone.
        ensures stopped { IfErr result (λ e. e ≡ TapeError.Failed → Interrupted N (code_of self.old.scheme) fed piece.now last self.old.held self.new.held
            (E.wanted entropy.new) steps.old steps.new
            (stand tape.old (E.left entropy.old) (W.told watch.old)) (stand tape.new (E.left entropy.new) (W.told watch.new))) }
        ensures no_memory { IfErr result (λ e. e ≡ TapeError.NoMemory → (self.new ≡ self.old) × (tape.new ≡ tape.old)
            × (entropy.new ≡ entropy.old) × (W.told watch.new ≡ W.told watch.old) × (steps.new ≡ steps.old)) }
        ensures counts { E.faults entropy.new ≡ faults_after (failed_to_draw result) (E.faults entropy.old) }
    {
        if !last {
            self.take_block(alloc, fed, piece, tape, entropy, watch, steps)
        } else if piece.len() == 16 {
            self.take_whole(alloc, fed, piece, tape, entropy, watch, steps)
        } else {
            self.take_short(alloc, fed, piece, tape, entropy, watch, steps)
        }
    }

    // Takes a block behind which more of the message comes.
    fn take_block<E: Entropy, W: Watch, L: Ledger>(
        &mut self,
        alloc: Global,
        fed: u64,
        piece: &[u8],
        tape: &mut Tape,
        entropy: &mut E,
        watch: &mut W,
        steps: &mut Steps<L>,
    ) -> Result<(), TapeError>
        requires some { 2 ≤ N }
        requires few { N ≤ 8 }
        requires next { IsNext (code_of self.old.scheme) fed piece.now false }
        requires behind { 0 < fed → length self.old.held.state ≡ (code_of self.old.scheme).state_bits }
        requires kept { length tape.old < 8 }
        ensures ran { OnOk result (Ran N self.old.held ((code_of self.old.scheme).next fed piece.now false) self.new.held
            (stand tape.old (E.left entropy.old) (W.told watch.old)) (stand tape.new (E.left entropy.new) (W.told watch.new))) }
        ensures behind { OnOk result (length self.new.held.state ≡ (code_of self.old.scheme).state_bits) }
        ensures scheme { self.new.scheme ≡ self.old.scheme }
        ensures wants { OnOk result (E.wanted entropy.new ≡ E.wanted entropy.old) }
        ensures steps { OnOk result (steps.new ≡ steps.old + sum_by (λ step. length step.circuit.gates) ((code_of self.old.scheme).next fed piece.now false)) }
        ensures stopped { IfErr result (λ e. e ≡ TapeError.Failed → Interrupted N (code_of self.old.scheme) fed piece.now false self.old.held self.new.held
            (E.wanted entropy.new) steps.old steps.new
            (stand tape.old (E.left entropy.old) (W.told watch.old)) (stand tape.new (E.left entropy.new) (W.told watch.new))) }
        ensures no_memory { IfErr result (λ e. e ≡ TapeError.NoMemory → (self.new ≡ self.old) × (tape.new ≡ tape.old)
            × (entropy.new ≡ entropy.old) × (W.told watch.new ≡ W.told watch.old) × (steps.new ≡ steps.old)) }
        ensures counts { E.faults entropy.new ≡ faults_after (failed_to_draw result) (E.faults entropy.old) }
    {
        // A block of Chaskey-12 has sixteen bytes.
        let _tag = self.tag;
        let message = block_words(piece);
        take_behind(
            alloc,
            fed,
            &mut self.chain,
            &mut self.start,
            &mut self.step,
            &Evaluation {
                before: &[Source::State { count: 128 }],
                message: &message,
                behind: &[],
                keep: Keep::AsState,
            },
            tape,
            entropy,
            watch,
            steps,
        )
    }

    // Takes a last block that is whole.
    fn take_whole<E: Entropy, W: Watch, L: Ledger>(
        &mut self,
        alloc: Global,
        fed: u64,
        piece: &[u8],
        tape: &mut Tape,
        entropy: &mut E,
        watch: &mut W,
        steps: &mut Steps<L>,
    ) -> Result<(), TapeError>
        requires some { 2 ≤ N }
        requires few { N ≤ 8 }
        requires whole { length piece.now ≡ 16 }
        requires behind { 0 < fed → length self.old.held.state ≡ (code_of self.old.scheme).state_bits }
        requires kept { length tape.old < 8 }
        ensures ran { OnOk result (Ran N self.old.held ((code_of self.old.scheme).next fed piece.now true) self.new.held
            (stand tape.old (E.left entropy.old) (W.told watch.old)) (stand tape.new (E.left entropy.new) (W.told watch.new))) }
        ensures behind { OnOk result (length self.new.held.state ≡ (code_of self.old.scheme).state_bits) }
        ensures scheme { self.new.scheme ≡ self.old.scheme }
        ensures wants { OnOk result (E.wanted entropy.new ≡ E.wanted entropy.old) }
        ensures steps { OnOk result (steps.new ≡ steps.old + sum_by (λ step. length step.circuit.gates) ((code_of self.old.scheme).next fed piece.now true)) }
        ensures stopped { IfErr result (λ e. e ≡ TapeError.Failed → Interrupted N (code_of self.old.scheme) fed piece.now true self.old.held self.new.held
            (E.wanted entropy.new) steps.old steps.new
            (stand tape.old (E.left entropy.old) (W.told watch.old)) (stand tape.new (E.left entropy.new) (W.told watch.new))) }
        ensures no_memory { IfErr result (λ e. e ≡ TapeError.NoMemory → (self.new ≡ self.old) × (tape.new ≡ tape.old)
            × (entropy.new ≡ entropy.old) × (W.told watch.new ≡ W.told watch.old) × (steps.new ≡ steps.old)) }
        ensures counts { E.faults entropy.new ≡ faults_after (failed_to_draw result) (E.faults entropy.old) }
    {
        let message = block_words(piece);
        take_behind(
            alloc,
            fed,
            &mut self.chain,
            &mut self.start,
            &mut self.whole,
            &Evaluation {
                before: &[
                    Source::State { count: 128 },
                    Source::Key {
                        from: 0,
                        count: 128,
                    },
                ],
                message: &message,
                behind: &[],
                keep: Keep::AsState,
            },
            tape,
            entropy,
            watch,
            steps,
        )
    }

    // Takes a last block of fewer bytes.
    fn take_short<E: Entropy, W: Watch, L: Ledger>(
        &mut self,
        alloc: Global,
        fed: u64,
        piece: &[u8],
        tape: &mut Tape,
        entropy: &mut E,
        watch: &mut W,
        steps: &mut Steps<L>,
    ) -> Result<(), TapeError>
        requires some { 2 ≤ N }
        requires few { N ≤ 8 }
        requires next { IsNext (code_of self.old.scheme) fed piece.now true }
        requires short { length piece.now ≡ 16 → ⊥ }
        requires behind { 0 < fed → length self.old.held.state ≡ (code_of self.old.scheme).state_bits }
        requires kept { length tape.old < 8 }
        ensures ran { OnOk result (Ran N self.old.held ((code_of self.old.scheme).next fed piece.now true) self.new.held
            (stand tape.old (E.left entropy.old) (W.told watch.old)) (stand tape.new (E.left entropy.new) (W.told watch.new))) }
        ensures behind { OnOk result (length self.new.held.state ≡ (code_of self.old.scheme).state_bits) }
        ensures scheme { self.new.scheme ≡ self.old.scheme }
        ensures wants { OnOk result (E.wanted entropy.new ≡ E.wanted entropy.old) }
        ensures steps { OnOk result (steps.new ≡ steps.old + sum_by (λ step. length step.circuit.gates) ((code_of self.old.scheme).next fed piece.now true)) }
        ensures stopped { IfErr result (λ e. e ≡ TapeError.Failed → Interrupted N (code_of self.old.scheme) fed piece.now true self.old.held self.new.held
            (E.wanted entropy.new) steps.old steps.new
            (stand tape.old (E.left entropy.old) (W.told watch.old)) (stand tape.new (E.left entropy.new) (W.told watch.new))) }
        ensures no_memory { IfErr result (λ e. e ≡ TapeError.NoMemory → (self.new ≡ self.old) × (tape.new ≡ tape.old)
            × (entropy.new ≡ entropy.old) × (W.told watch.new ≡ W.told watch.old) × (steps.new ≡ steps.old)) }
        ensures counts { E.faults entropy.new ≡ faults_after (failed_to_draw result) (E.faults entropy.old) }
    {
        // A block of Chaskey-12 has sixteen bytes.
        let _tag = self.tag;
        let message = short_words(piece);
        take_behind(
            alloc,
            fed,
            &mut self.chain,
            &mut self.start,
            &mut self.short,
            &Evaluation {
                before: &[
                    Source::State { count: 128 },
                    Source::Key {
                        from: 0,
                        count: 128,
                    },
                ],
                message: &message,
                behind: &[],
                keep: Keep::AsState,
            },
            tape,
            entropy,
            watch,
            steps,
        )
    }
}

// Evaluates a piece's own circuit, ahead of which the key becomes the state where there were no bytes before.
fn take_behind<const N: usize, E: Entropy, W: Watch, L: Ledger>(
    alloc: Global,
    fed: u64,
    chain: &mut ChainRun<N>,
    start: &mut Part<N>,
    part: &mut Part<N>,
    own: &Evaluation,
    tape: &mut Tape,
    entropy: &mut E,
    watch: &mut W,
    steps: &mut Steps<L>,
) -> Result<(), TapeError>
    requires some { 2 ≤ N }
    requires few { N ≤ 8 }
    requires start { start.old ≡ refreshing 128 }
    requires key { length chain.old.key ≡ 128 }
    requires suits { Suits 128 128 part.old own.now }
    requires keep { own.now.keep ≡ Keep.AsState }
    requires outputs { length part.old.outputs ≡ 128 }
    requires behind { 0 < fed → length chain.old.state ≡ 128 }
    requires kept { length tape.old < 8 }
    ensures ran { OnOk result (Ran N (have chain.old) (ahead fed ++ step part.old own.now ∷ []) (have chain.new)
        (stand tape.old (E.left entropy.old) (W.told watch.old)) (stand tape.new (E.left entropy.new) (W.told watch.new))) }
    ensures behind { OnOk result (length chain.new.state ≡ 128) }
    ensures key { length chain.new.key ≡ 128 }
    ensures start { start.new ≡ start.old }
    ensures part { part.new ≡ part.old }
    ensures wants { OnOk result (E.wanted entropy.new ≡ E.wanted entropy.old) }
    ensures steps { OnOk result (steps.new ≡ steps.old + sum_by (λ step. length step.circuit.gates) (ahead fed ++ step part.old own.now ∷ [])) }
    ensures stopped { IfErr result (λ e. e ≡ TapeError.Failed → Stopped N (have chain.old) (have chain.new) (ahead fed) (step part.old own.now)
        (E.wanted entropy.new) steps.old steps.new
        (stand tape.old (E.left entropy.old) (W.told watch.old)) (stand tape.new (E.left entropy.new) (W.told watch.new))) }
    ensures no_memory { IfErr result (λ e. e ≡ TapeError.NoMemory → (chain.new ≡ chain.old) × (tape.new ≡ tape.old)
        × (entropy.new ≡ entropy.old) × (W.told watch.new ≡ W.told watch.old) × (steps.new ≡ steps.old)) }
    ensures counts { E.faults entropy.new ≡ faults_after (failed_to_draw result) (E.faults entropy.old) }
{
    if fed == 0 {
        let first = Evaluation {
            before: &[Source::Key {
                from: 0,
                count: 128,
            }],
            message: &[],
            behind: &[],
            keep: Keep::AsState,
        };
        chain.take_two(alloc, start, &first, part, own, tape, entropy, watch, steps)
    } else {
        chain.take(alloc, part, own, tape, entropy, watch, steps)
    }
}
