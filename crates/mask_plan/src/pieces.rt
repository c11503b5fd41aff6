//! A piece of a message on a run.

ghost use Rattle.std.specs.Prelude.{◌≡◌, ◌+◌, ◌*◌, ◌^◌, ◌<◌, ◌≤◌, true, false, [], length, IfErr, OnOk, OnErr};
ghost use Rattle.mask_io.specs.Outside.{faults_after};
ghost use Rattle.mask_tape.specs.Tape.{failed_to_draw};
ghost use Rattle.mask_tape.specs.declared.tape.TapeError.TheVariants as TapeError;
ghost use Rattle.mask_tasks.specs.Tasks.{IsTask, longest_message};
ghost use Rattle.mask_trace.specs.Drawing.{stand};
ghost use Rattle.mask_ciphers.specs.Methods.{IsCipher, MayEnd, next_gates};
ghost use Rattle.mask_ciphers.specs.Tasks.{method_of};
ghost use Rattle.mask_plan.specs.declared.runs.TaskRun.TheVariants as TaskRun;
ghost use Rattle.mask_plan.specs.Sessions.{batch_length, bit_place};
ghost use Rattle.mask_plan.specs.Inside.{GoesOn, IsBy, Stopped, Took};

use crate::runs::TaskRun;
use crate::tasks::makes_tag;
use mask_ciphers::tasks_encipher;
use mask_circuit::Steps;
use mask_counter::CounterRun;
use mask_eval::Watch;
use mask_io::Entropy;
use mask_keystream::StreamRun;
use mask_tagging::TagRun;
use mask_tape::{Tape, TapeError};
use mask_tasks::{Task, tasks_are_whole};
use std::alloc::Global;
use std::sync::ledger::Ledger;

/// Takes a piece of a message, the last or not, behind so many bytes. All memory is taken before the tape is asked.
pub(crate) fn take_piece<const N: usize, E: Entropy, W: Watch, L: Ledger>(
    alloc: Global,
    task: &Task,
    run: &mut TaskRun<N>,
    fed: u64,
    piece: &[u8],
    last: bool,
    tape: &mut Tape,
    entropy: &mut E,
    watch: &mut W,
    steps: &mut Steps<L>,
) -> Result<(), TapeError>
    requires some { 2 ≤ N }
    requires many { N ≤ 8 }
    requires goes_on { GoesOn N (method_of task.now) fed run.old }
    requires few { length piece.now ≤ batch_length task.now }
    requires whole { last ≡ false → length piece.now ≡ batch_length task.now }
    requires ends { last ≡ true → MayEnd (method_of task.now) fed piece.now }
    requires within { fed + length piece.now ≤ longest_message task.now }
    ensures took { OnOk result (Took N (method_of task.now) (bit_place task.now) fed piece.now last run.old run.new
        (stand tape.old (E.left entropy.old) (W.told watch.old)) (stand tape.new (E.left entropy.new) (W.told watch.new))) }
    ensures goes_on { OnOk result (last ≡ false → GoesOn N (method_of task.now) (fed + length piece.now) run.new) }
    ensures by { IsBy N (method_of task.now) run.new }
    ensures wants { OnOk result (E.wanted entropy.new ≡ E.wanted entropy.old) }
    ensures steps { OnOk result (steps.new ≡ steps.old + next_gates (method_of task.now) fed piece.now last) }
    ensures nothing { IsCipher (method_of task.now) → piece.now ≡ [] → (tape.new ≡ tape.old) × (entropy.new ≡ entropy.old) × (watch.new ≡ watch.old) }
    ensures stopped { IfErr result (λ e. e ≡ TapeError.Failed → Stopped N (method_of task.now) fed piece.now last run.old (E.wanted entropy.new) steps.old steps.new
        (stand tape.old (E.left entropy.old) (W.told watch.old)) (stand tape.new (E.left entropy.new) (W.told watch.new))) }
    ensures no_memory { IfErr result (λ e. e ≡ TapeError.NoMemory → (run.new ≡ run.old) × (tape.new ≡ tape.old)
        × (entropy.new ≡ entropy.old) × (W.told watch.new ≡ W.told watch.old) × (steps.new ≡ steps.old)) }
    ensures counts { E.faults entropy.new ≡ faults_after (failed_to_draw result) (E.faults entropy.old) }
{
    tasks_encipher();
    tasks_are_whole(task);
    // A tape keeps fewer than eight bits.
    let _kept = tape.kept();
    if piece.is_empty() && !makes_tag(task) {
        return Ok(());
    }
    match run {
        TaskRun::Counter(run) => take_batch(
            alloc, task, run, fed, piece, last, tape, entropy, watch, steps,
        ),
        TaskRun::Stream(run) => take_block(
            alloc, task, run, fed, piece, last, tape, entropy, watch, steps,
        ),
        TaskRun::Tag(run) => take_tagged(
            alloc, task, run, fed, piece, last, tape, entropy, watch, steps,
        ),
    }
}

// Takes some bytes in counter mode.
fn take_batch<const N: usize, E: Entropy, W: Watch, L: Ledger>(
    alloc: Global,
    task: &Task,
    run: &mut CounterRun<N>,
    fed: u64,
    piece: &[u8],
    last: bool,
    tape: &mut Tape,
    entropy: &mut E,
    watch: &mut W,
    steps: &mut Steps<L>,
) -> Result<(), TapeError>
    requires some { 2 ≤ N }
    requires bytes { 1 ≤ length piece.now }
    requires whole_task { IsTask task.now }
    requires goes_on { GoesOn N (method_of task.now) fed (TaskRun.Counter run.old) }
    requires few { length piece.now ≤ batch_length task.now }
    requires whole { last ≡ false → length piece.now ≡ batch_length task.now }
    requires within { fed + length piece.now ≤ longest_message task.now }
    requires kept { length tape.old < 8 }
    ensures took { OnOk result (Took N (method_of task.now) (bit_place task.now) fed piece.now last (TaskRun.Counter run.old) (TaskRun.Counter run.new)
        (stand tape.old (E.left entropy.old) (W.told watch.old)) (stand tape.new (E.left entropy.new) (W.told watch.new))) }
    ensures goes_on { OnOk result (last ≡ false → GoesOn N (method_of task.now) (fed + length piece.now) (TaskRun.Counter run.new)) }
    ensures by { IsBy N (method_of task.now) (TaskRun.Counter run.new) }
    ensures wants { OnOk result (E.wanted entropy.new ≡ E.wanted entropy.old) }
    ensures steps { OnOk result (steps.new ≡ steps.old + next_gates (method_of task.now) fed piece.now last) }
    ensures stopped { IfErr result (λ e. e ≡ TapeError.Failed → Stopped N (method_of task.now) fed piece.now last (TaskRun.Counter run.old) (E.wanted entropy.new) steps.old steps.new
        (stand tape.old (E.left entropy.old) (W.told watch.old)) (stand tape.new (E.left entropy.new) (W.told watch.new))) }
    ensures no_memory { IfErr result (λ e. e ≡ TapeError.NoMemory → (run.new ≡ run.old) × (tape.new ≡ tape.old)
        × (entropy.new ≡ entropy.old) × (W.told watch.new ≡ W.told watch.old) × (steps.new ≡ steps.old)) }
    ensures counts { E.faults entropy.new ≡ faults_after (failed_to_draw result) (E.faults entropy.old) }
{
    tasks_encipher();
    match run.batch(alloc, piece, tape, entropy, watch, steps) {
        Ok(()) => Ok(()),
        Err(error) => Err(error),
    }
}

// Takes some bytes with the keystream of Trivium.
fn take_block<const N: usize, E: Entropy, W: Watch, L: Ledger>(
    alloc: Global,
    task: &Task,
    run: &mut StreamRun<N>,
    fed: u64,
    piece: &[u8],
    last: bool,
    tape: &mut Tape,
    entropy: &mut E,
    watch: &mut W,
    steps: &mut Steps<L>,
) -> Result<(), TapeError>
    requires some { 2 ≤ N }
    requires many { N ≤ 8 }
    requires bytes { 1 ≤ length piece.now }
    requires whole_task { IsTask task.now }
    requires goes_on { GoesOn N (method_of task.now) fed (TaskRun.Stream run.old) }
    requires few { length piece.now ≤ batch_length task.now }
    requires whole { last ≡ false → length piece.now ≡ batch_length task.now }
    requires kept { length tape.old < 8 }
    ensures took { OnOk result (Took N (method_of task.now) (bit_place task.now) fed piece.now last (TaskRun.Stream run.old) (TaskRun.Stream run.new)
        (stand tape.old (E.left entropy.old) (W.told watch.old)) (stand tape.new (E.left entropy.new) (W.told watch.new))) }
    ensures goes_on { OnOk result (last ≡ false → GoesOn N (method_of task.now) (fed + length piece.now) (TaskRun.Stream run.new)) }
    ensures by { IsBy N (method_of task.now) (TaskRun.Stream run.new) }
    ensures wants { OnOk result (E.wanted entropy.new ≡ E.wanted entropy.old) }
    ensures steps { OnOk result (steps.new ≡ steps.old + next_gates (method_of task.now) fed piece.now last) }
    ensures stopped { IfErr result (λ e. e ≡ TapeError.Failed → Stopped N (method_of task.now) fed piece.now last (TaskRun.Stream run.old) (E.wanted entropy.new) steps.old steps.new
        (stand tape.old (E.left entropy.old) (W.told watch.old)) (stand tape.new (E.left entropy.new) (W.told watch.new))) }
    ensures no_memory { IfErr result (λ e. e ≡ TapeError.NoMemory → (run.new ≡ run.old) × (tape.new ≡ tape.old)
        × (entropy.new ≡ entropy.old) × (W.told watch.new ≡ W.told watch.old) × (steps.new ≡ steps.old)) }
    ensures counts { E.faults entropy.new ≡ faults_after (failed_to_draw result) (E.faults entropy.old) }
{
    tasks_encipher();
    match run.piece(alloc, fed, piece, tape, entropy, watch, steps) {
        Ok(()) => {
            // The words that are handed out have the shares of the state.
            let _handed = run.outputs();
            Ok(())
        }
        Err(error) => Err(error),
    }
}

// Takes a piece by a code.
fn take_tagged<const N: usize, E: Entropy, W: Watch, L: Ledger>(
    alloc: Global,
    task: &Task,
    run: &mut TagRun<N>,
    fed: u64,
    piece: &[u8],
    last: bool,
    tape: &mut Tape,
    entropy: &mut E,
    watch: &mut W,
    steps: &mut Steps<L>,
) -> Result<(), TapeError>
    requires some { 2 ≤ N }
    requires many { N ≤ 8 }
    requires whole_task { IsTask task.now }
    requires goes_on { GoesOn N (method_of task.now) fed (TaskRun.Tag run.old) }
    requires few { length piece.now ≤ batch_length task.now }
    requires whole { last ≡ false → length piece.now ≡ batch_length task.now }
    requires ends { last ≡ true → MayEnd (method_of task.now) fed piece.now }
    requires kept { length tape.old < 8 }
    ensures took { OnOk result (Took N (method_of task.now) (bit_place task.now) fed piece.now last (TaskRun.Tag run.old) (TaskRun.Tag run.new)
        (stand tape.old (E.left entropy.old) (W.told watch.old)) (stand tape.new (E.left entropy.new) (W.told watch.new))) }
    ensures goes_on { OnOk result (last ≡ false → GoesOn N (method_of task.now) (fed + length piece.now) (TaskRun.Tag run.new)) }
    ensures by { IsBy N (method_of task.now) (TaskRun.Tag run.new) }
    ensures wants { OnOk result (E.wanted entropy.new ≡ E.wanted entropy.old) }
    ensures steps { OnOk result (steps.new ≡ steps.old + next_gates (method_of task.now) fed piece.now last) }
    ensures stopped { IfErr result (λ e. e ≡ TapeError.Failed → Stopped N (method_of task.now) fed piece.now last (TaskRun.Tag run.old) (E.wanted entropy.new) steps.old steps.new
        (stand tape.old (E.left entropy.old) (W.told watch.old)) (stand tape.new (E.left entropy.new) (W.told watch.new))) }
    ensures no_memory { IfErr result (λ e. e ≡ TapeError.NoMemory → (run.new ≡ run.old) × (tape.new ≡ tape.old)
        × (entropy.new ≡ entropy.old) × (W.told watch.new ≡ W.told watch.old) × (steps.new ≡ steps.old)) }
    ensures counts { E.faults entropy.new ≡ faults_after (failed_to_draw result) (E.faults entropy.old) }
{
    tasks_encipher();
    match run.piece(alloc, fed, piece, last, tape, entropy, watch, steps) {
        Ok(()) => {
            // The words that are handed out have the shares of the state.
            let _handed = run.outputs();
            Ok(())
        }
        Err(error) => Err(error),
    }
}
