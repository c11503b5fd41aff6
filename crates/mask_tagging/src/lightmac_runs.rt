//! A run of LightMAC between its pieces.

ghost use Rattle.std.specs.Prelude.{◌≡◌, ℕ, ◌+◌, ◌*◌, ◌<◌, ◌≤◌, true, false, [], length, map, sum_by, IfOk, IfErr, OnOk};
ghost use Rattle.mask_bits.specs.Lanes.{lane};
ghost use Rattle.mask_io.specs.Outside.{faults_after};
ghost use Rattle.mask_check.specs.Costs.{most_steps};
ghost use Rattle.mask_tape.specs.Tape.{failed_to_draw};
ghost use Rattle.mask_tape.specs.declared.tape.TapeError.TheVariants as TapeError;
ghost use Rattle.mask_tasks.specs.Sizes.{present_bytes};
ghost use Rattle.mask_trace.specs.Values.{HasShares};
ghost use Rattle.mask_trace.specs.Drawing.{Ran, stand};
ghost use Rattle.mask_macs.specs.Codes.{IsCounterLength, IsNext, lightmac_code};
ghost use Rattle.mask_tagging.specs.Tagging.{Interrupted, LightMac, code_of};

use crate::lightmac_words::{counted_words, padded_words, value_behind};
use mask_chain::{ChainRun, Evaluation, Keep, Part, Source};
use mask_circuit::Steps;
use mask_eval::Watch;
use mask_io::Entropy;
use mask_lightmac::{lightmac_end, lightmac_step};
use mask_refresh::refresh_circuit;
use mask_shares::Shares;
use mask_tape::{Tape, TapeError};
use mask_tasks::KeySize;
use std::alloc::{AllocError, Global};
use std::marker::Model;
use std::sync::ledger::Ledger;

/// A run of LightMAC over PRESENT with a key in N shares.
#[derive(Drop)]
pub struct LightMacRun<const N: usize> {
    refresh: Part<N>,
    step: Part<N>,
    end: Part<N>,
    chain: ChainRun<N>,
    // What is handed out ahead of the first piece.
    blank: Vec<Shares<N>>,
    size: KeySize,
    counter: u32,
    tag: u32,
}

impl<const N: usize> Model for LightMacRun<N> {
    ghost use Rattle.mask_chain.specs.Chains.{have};
    ghost use Rattle.mask_tagging.specs.LightMacForms.{IsInForm};
    ghost use Rattle.mask_tagging.specs.Tagging.{Between, LightMac, shown};

    ghost Value = { Between };

    ghost view = { λ r. record { scheme = LightMac r.size r.counter r.tag; held = have r.chain; outputs = shown 64 r.blank.items r.chain.state } };

    ghost invariant = { λ r. IsInForm r.size r.counter r.refresh r.step r.end r.chain r.blank.items };
}

impl<const N: usize> LightMacRun<N> {
    /// A run with a counter and a tag of so many bytes and with this key, which is K1 and then K2, and no state. The shares of a
    /// bit of the key are those of lane 0.
    pub fn new<L: Ledger>(
        alloc: Global,
        size: KeySize,
        counter: u32,
        tag: u32,
        key: &[Shares<N>],
        steps: &mut Steps<L>,
    ) -> Result<LightMacRun<N>, AllocError>
        requires some { 2 ≤ N }
        requires few { N ≤ 8 }
        requires counter { IsCounterLength counter }
        requires length { length key.now ≡ 8 * (present_bytes size + present_bytes size) }
        ensures value { IfOk result (λ run. run ≡ record {
          scheme = LightMac size counter tag;
          held = record { key = map (lane 0) key.now; state = [] };
          outputs = run.outputs;
        }) }
        ensures shares { IfOk result (λ run. HasShares N (length key.now) 0 run.held) }
        ensures steps { steps.new ≤ steps.old + sum_by most_steps (lightmac_code size counter tag).circuits }
    {
        let refresh = refresh_circuit(alloc, 8 * size.bytes(), steps)?;
        let step = lightmac_step(alloc, size, steps)?;
        let end = lightmac_end(alloc, size, steps)?;
        Ok(LightMacRun {
            refresh: Part::new(alloc, refresh)?,
            step: Part::new(alloc, step)?,
            end: Part::new(alloc, end)?,
            chain: ChainRun::new(alloc, key)?,
            blank: vec![in alloc; Shares::from_parts([0; N]); 64]?,
            size,
            counter,
            tag,
        })
    }

    /// What the latest piece put out: the 64 bits of V, or of what the tag is the first part of. The shares of a bit stand in
    /// lane 0. Ahead of the first piece they are zeros.
    pub fn outputs(&self) -> &[Shares<N>]
        ensures value { result.now ≡ self.now.outputs }
        ensures count { length self.now.outputs ≡ (code_of self.now.scheme).state_bits }
        ensures lanes { length self.now.held.state ≡ (code_of self.now.scheme).state_bits → map (lane 0) self.now.outputs ≡ self.now.held.state }
        ensures shares { HasShares N (8 * (code_of self.now.scheme).key_bytes) (length self.now.held.state) self.now.held }
    {
        let state = self.chain.state();
        if state.len() == 64 {
            state
        } else {
            &self.blank
        }
    }

    /// Takes up the next piece of a message, behind so many bytes: a whole one, or the last. K1 gets fresh shares ahead of a
    /// whole one that isn't the first. All memory is taken before the tape is asked.
    pub fn piece<E: Entropy, W: Watch, L: Ledger>(
        &mut self,
        alloc: Global,
        fed: u64,
        piece: &[u8],
        last: bool,
        tape: &mut Tape,
        entropy: &mut E,
        watch: &mut W,
        steps: &mut Steps<L>,
    ) -> Result<(), TapeError>
        requires some { 2 ≤ N }
        requires few { N ≤ 8 }
        requires next { IsNext (code_of self.old.scheme) fed piece.now last }
        requires behind { 0 < fed → length self.old.held.state ≡ (code_of self.old.scheme).state_bits }
        requires kept { length tape.old < 8 }
        ensures ran { OnOk result (Ran N self.old.held ((code_of self.old.scheme).next fed piece.now last) self.new.held
            (stand tape.old (E.left entropy.old) (W.told watch.old)) (stand tape.new (E.left entropy.new) (W.told watch.new))) }
        ensures behind { OnOk result (length self.new.held.state ≡ (code_of self.old.scheme).state_bits) }
        ensures scheme { self.new.scheme ≡ self.old.scheme }
        ensures wants { OnOk result (E.wanted entropy.new ≡ E.wanted entropy.old) }
        ensures steps { OnOk result (steps.new ≡ steps.old
            + sum_by (λ step. length step.circuit.gates) ((code_of self.old.scheme).next fed piece.now last)) }

        // Where the entropy fails, nothing was evaluated or the refresh of K1 alone.
        ensures stopped { IfErr result (λ e. e ≡ TapeError.Failed → Interrupted N (code_of self.old.scheme) fed piece.now last self.old.held self.new.held
            (E.wanted entropy.new) steps.old steps.new
            (stand tape.old (E.left entropy.old) (W.told watch.old)) (stand tape.new (E.left entropy.new) (W.told watch.new))) }
        ensures no_memory { IfErr result (λ e. e ≡ TapeError.NoMemory → (self.new ≡ self.old) × (tape.new ≡ tape.old)
            × (entropy.new ≡ entropy.old) × (W.told watch.new ≡ W.told watch.old) × (steps.new ≡ steps.old)) }
        ensures counts { E.faults entropy.new ≡ faults_after (failed_to_draw result) (E.faults entropy.old) }
    {
        if last {
            self.last_piece(alloc, fed, piece, tape, entropy, watch, steps)
        } else if fed == 0 {
            self.first_piece(alloc, piece, tape, entropy, watch, steps)
        } else {
            self.later_piece(alloc, fed, piece, tape, entropy, watch, steps)
        }
    }

    // The first piece, behind which more of the message comes.
    fn first_piece<E: Entropy, W: Watch, L: Ledger>(
        &mut self,
        alloc: Global,
        piece: &[u8],
        tape: &mut Tape,
        entropy: &mut E,
        watch: &mut W,
        steps: &mut Steps<L>,
    ) -> Result<(), TapeError>
        requires some { 2 ≤ N }
        requires few { N ≤ 8 }
        requires next { IsNext (code_of self.old.scheme) 0 piece.now false }
        requires kept { length tape.old < 8 }
        ensures ran { OnOk result (Ran N self.old.held ((code_of self.old.scheme).next 0 piece.now false) self.new.held
            (stand tape.old (E.left entropy.old) (W.told watch.old)) (stand tape.new (E.left entropy.new) (W.told watch.new))) }
        ensures behind { OnOk result (length self.new.held.state ≡ (code_of self.old.scheme).state_bits) }
        ensures scheme { self.new.scheme ≡ self.old.scheme }
        ensures wants { OnOk result (E.wanted entropy.new ≡ E.wanted entropy.old) }
        ensures steps { OnOk result (steps.new ≡ steps.old
            + sum_by (λ step. length step.circuit.gates) ((code_of self.old.scheme).next 0 piece.now false)) }
        ensures stopped { IfErr result (λ e. e ≡ TapeError.Failed → Interrupted N (code_of self.old.scheme) 0 piece.now false self.old.held self.new.held
            (E.wanted entropy.new) steps.old steps.new
            (stand tape.old (E.left entropy.old) (W.told watch.old)) (stand tape.new (E.left entropy.new) (W.told watch.new))) }
        ensures no_memory { IfErr result (λ e. e ≡ TapeError.NoMemory → (self.new ≡ self.old) × (tape.new ≡ tape.old)
            × (entropy.new ≡ entropy.old) × (W.told watch.new ≡ W.told watch.old) × (steps.new ≡ steps.old)) }
        ensures counts { E.faults entropy.new ≡ faults_after (failed_to_draw result) (E.faults entropy.old) }
    {
        let width = 8 * self.size.bytes() as usize;
        let message = counted_words(self.counter, 0, piece);
        self.chain.take(
            alloc,
            &mut self.step,
            &Evaluation {
                before: &[Source::Key {
                    from: 0,
                    count: width,
                }],
                message: &message,
                behind: &[Source::Public(&[0; 64])],
                keep: Keep::AsState,
            },
            tape,
            entropy,
            watch,
            steps,
        )
    }

    // A piece behind others, behind which more of the message comes. Ahead of it K1 gets fresh shares.
    fn later_piece<E: Entropy, W: Watch, L: Ledger>(
        &mut self,
        alloc: Global,
        fed: u64,
        piece: &[u8],
        tape: &mut Tape,
        entropy: &mut E,
        watch: &mut W,
        steps: &mut Steps<L>,
    ) -> Result<(), TapeError>
        requires some { 2 ≤ N }
        requires few { N ≤ 8 }
        requires later { 0 < fed }
        requires next { IsNext (code_of self.old.scheme) fed piece.now false }
        requires behind { length self.old.held.state ≡ (code_of self.old.scheme).state_bits }
        requires kept { length tape.old < 8 }
        ensures ran { OnOk result (Ran N self.old.held ((code_of self.old.scheme).next fed piece.now false) self.new.held
            (stand tape.old (E.left entropy.old) (W.told watch.old)) (stand tape.new (E.left entropy.new) (W.told watch.new))) }
        ensures behind { OnOk result (length self.new.held.state ≡ (code_of self.old.scheme).state_bits) }
        ensures scheme { self.new.scheme ≡ self.old.scheme }
        ensures wants { OnOk result (E.wanted entropy.new ≡ E.wanted entropy.old) }
        ensures steps { OnOk result (steps.new ≡ steps.old
            + sum_by (λ step. length step.circuit.gates) ((code_of self.old.scheme).next fed piece.now false)) }
        ensures stopped { IfErr result (λ e. e ≡ TapeError.Failed → Interrupted N (code_of self.old.scheme) fed piece.now false self.old.held self.new.held
            (E.wanted entropy.new) steps.old steps.new
            (stand tape.old (E.left entropy.old) (W.told watch.old)) (stand tape.new (E.left entropy.new) (W.told watch.new))) }
        ensures no_memory { IfErr result (λ e. e ≡ TapeError.NoMemory → (self.new ≡ self.old) × (tape.new ≡ tape.old)
            × (entropy.new ≡ entropy.old) × (W.told watch.new ≡ W.told watch.old) × (steps.new ≡ steps.old)) }
        ensures counts { E.faults entropy.new ≡ faults_after (failed_to_draw result) (E.faults entropy.old) }
    {
        let width = 8 * self.size.bytes() as usize;
        let message = counted_words(self.counter, fed, piece);
        self.chain.take_two(
            alloc,
            &mut self.refresh,
            &Evaluation {
                before: &[Source::Key {
                    from: 0,
                    count: width,
                }],
                message: &[],
                behind: &[],
                keep: Keep::AsKey,
            },
            &mut self.step,
            &Evaluation {
                before: &[Source::Key {
                    from: 0,
                    count: width,
                }],
                message: &message,
                behind: &[Source::State { count: 64 }],
                keep: Keep::AsState,
            },
            tape,
            entropy,
            watch,
            steps,
        )
    }

    // The last piece, behind others or none. It is taken up under K2.
    fn last_piece<E: Entropy, W: Watch, L: Ledger>(
        &mut self,
        alloc: Global,
        fed: u64,
        piece: &[u8],
        tape: &mut Tape,
        entropy: &mut E,
        watch: &mut W,
        steps: &mut Steps<L>,
    ) -> Result<(), TapeError>
        requires some { 2 ≤ N }
        requires few { N ≤ 8 }
        requires next { IsNext (code_of self.old.scheme) fed piece.now true }
        requires behind { 0 < fed → length self.old.held.state ≡ (code_of self.old.scheme).state_bits }
        requires kept { length tape.old < 8 }
        ensures ran { OnOk result (Ran N self.old.held ((code_of self.old.scheme).next fed piece.now true) self.new.held
            (stand tape.old (E.left entropy.old) (W.told watch.old)) (stand tape.new (E.left entropy.new) (W.told watch.new))) }
        ensures behind { OnOk result (length self.new.held.state ≡ (code_of self.old.scheme).state_bits) }
        ensures scheme { self.new.scheme ≡ self.old.scheme }
        ensures wants { OnOk result (E.wanted entropy.new ≡ E.wanted entropy.old) }
        ensures steps { OnOk result (steps.new ≡ steps.old
            + sum_by (λ step. length step.circuit.gates) ((code_of self.old.scheme).next fed piece.now true)) }
        ensures stopped { IfErr result (λ e. e ≡ TapeError.Failed → Interrupted N (code_of self.old.scheme) fed piece.now true self.old.held self.new.held
            (E.wanted entropy.new) steps.old steps.new
            (stand tape.old (E.left entropy.old) (W.told watch.old)) (stand tape.new (E.left entropy.new) (W.told watch.new))) }
        ensures no_memory { IfErr result (λ e. e ≡ TapeError.NoMemory → (self.new ≡ self.old) × (tape.new ≡ tape.old)
            × (entropy.new ≡ entropy.old) × (W.told watch.new ≡ W.told watch.old) × (steps.new ≡ steps.old)) }
        ensures counts { E.faults entropy.new ≡ faults_after (failed_to_draw result) (E.faults entropy.old) }
    {
        let width = 8 * self.size.bytes() as usize;
        let zeros = [0; 64];
        let value = value_behind(fed, &zeros);
        let message = padded_words(piece);
        self.chain.take(
            alloc,
            &mut self.end,
            &Evaluation {
                before: &[
                    Source::Key {
                        from: width,
                        count: width,
                    },
                    value,
                ],
                message: &message,
                behind: &[],
                keep: Keep::AsState,
            },
            tape,
            entropy,
            watch,
            steps,
        )
    }
}
