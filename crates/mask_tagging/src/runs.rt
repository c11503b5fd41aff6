//! A run of LightMAC or of Chaskey-12 between its pieces.

ghost use Rattle.std.specs.Prelude.{◌≡◌, ℕ, ◌+◌, ◌*◌, ◌<◌, ◌≤◌, true, false, [], length, map, sum_by, IfOk, IfErr, OnOk};
ghost use Rattle.mask_bits.specs.Lanes.{lane};
ghost use Rattle.mask_io.specs.Outside.{faults_after};
ghost use Rattle.mask_check.specs.Costs.{most_steps};
ghost use Rattle.mask_tape.specs.Tape.{failed_to_draw};
ghost use Rattle.mask_tape.specs.declared.tape.TapeError.TheVariants as TapeError;
ghost use Rattle.mask_tasks.specs.Sizes.{present_bytes};
ghost use Rattle.mask_trace.specs.Values.{HasShares};
ghost use Rattle.mask_trace.specs.Drawing.{Ran, stand};
ghost use Rattle.mask_macs.specs.Codes.{IsCounterLength, IsNext, lightmac_code};
ghost use Rattle.mask_tagging.specs.Tagging.{Interrupted, LightMac, code_of};
ghost use Rattle.mask_tagging.specs.Runs.{between};

use crate::chaskey_runs::ChaskeyRun;
use crate::lightmac_runs::LightMacRun;
use mask_circuit::Steps;
use mask_eval::Watch;
use mask_io::Entropy;
use mask_shares::Shares;
use mask_tape::{Tape, TapeError};
use std::alloc::Global;
use std::sync::ledger::Ledger;

/// A run of LightMAC or of Chaskey-12.
#[derive(Drop)]
pub enum TagRun<const N: usize> {
    LightMac(LightMacRun<N>),
    Chaskey(ChaskeyRun<N>),
}

impl<const N: usize> TagRun<N> {
    /// What the latest piece left: the state, which has the bits of the tag behind the last piece. The shares of a bit stand in lane 0.
    /// Ahead of the first piece they are zeros.
    pub fn outputs(&self) -> &[Shares<N>]
        ensures value { result.now ≡ (between self.now).outputs }
        ensures count { length (between self.now).outputs ≡ (code_of (between self.now).scheme).state_bits }
        ensures lanes { length (between self.now).held.state ≡ (code_of (between self.now).scheme).state_bits → map (lane 0) (between self.now).outputs ≡ (between self.now).held.state }
        ensures shares { HasShares N (8 * (code_of (between self.now).scheme).key_bytes) (length (between self.now).held.state) (between self.now).held }
    {
        match self {
            TagRun::LightMac(run) => run.outputs(),
            TagRun::Chaskey(run) => run.outputs(),
        }
    }

    /// Takes a piece of a message behind so many bytes: a whole one, behind which more of the message comes, or the last. All memory is
    /// taken before the tape is asked.
    pub fn piece<E: Entropy, W: Watch, L: Ledger>(
        &mut self,
        alloc: Global,
        fed: u64,
        piece: &[u8],
        last: bool,
        tape: &mut Tape,
        entropy: &mut E,
        watch: &mut W,
        steps: &mut Steps<L>,
    ) -> Result<(), TapeError>
        requires some { 2 ≤ N }
        requires few { N ≤ 8 }
        requires next { IsNext (code_of (between self.old).scheme) fed piece.now last }
        requires behind { 0 < fed → length (between self.old).held.state ≡ (code_of (between self.old).scheme).state_bits }
        requires kept { length tape.old < 8 }
        ensures ran { OnOk result (Ran N (between self.old).held ((code_of (between self.old).scheme).next fed piece.now last) (between self.new).held
            (stand tape.old (E.left entropy.old) (W.told watch.old)) (stand tape.new (E.left entropy.new) (W.told watch.new))) }
        ensures behind { OnOk result (length (between self.new).held.state ≡ (code_of (between self.old).scheme).state_bits) }
        ensures scheme { (between self.new).scheme ≡ (between self.old).scheme }
        ensures wants { OnOk result (E.wanted entropy.new ≡ E.wanted entropy.old) }
        ensures steps { OnOk result (steps.new ≡ steps.old
            + sum_by (λ step. length step.circuit.gates) ((code_of (between self.old).scheme).next fed piece.now last)) }

        // Where the entropy fails, nothing was evaluated or what goes ahead of the piece's own step alone.
        ensures stopped { IfErr result (λ e. e ≡ TapeError.Failed → Interrupted N (code_of (between self.old).scheme) fed piece.now last (between self.old).held (between self.new).held
            (E.wanted entropy.new) steps.old steps.new
            (stand tape.old (E.left entropy.old) (W.told watch.old)) (stand tape.new (E.left entropy.new) (W.told watch.new))) }
        ensures no_memory { IfErr result (λ e. e ≡ TapeError.NoMemory → (self.new ≡ self.old) × (tape.new ≡ tape.old)
            × (entropy.new ≡ entropy.old) × (W.told watch.new ≡ W.told watch.old) × (steps.new ≡ steps.old)) }
        ensures counts { E.faults entropy.new ≡ faults_after (failed_to_draw result) (E.faults entropy.old) }
    {
        match self {
            TagRun::LightMac(run) => run.piece(
                alloc, fed, piece, last, tape, entropy, watch, steps,
            ),
            TagRun::Chaskey(run) => run.piece(alloc, fed, piece, last, tape, entropy, watch, steps),
        }
    }
}
