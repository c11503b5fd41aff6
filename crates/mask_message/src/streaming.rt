//! A message, batch by batch.

ghost use Rattle.std.specs.Prelude.{◌≡◌, ℕ, ◌+◌, ◌≤◌, true, false, None, List, length, IfErr, OnOk, MatchResult};
ghost use Rattle.std.specs.declared.option.Option.{Option};
ghost use Rattle.mask_io.specs.Outside.{faults_after};
ghost use Rattle.mask_tasks.specs.Tasks.{IsTask, key_bytes};
ghost use Rattle.mask_keys.specs.Lines.{AreKeyLines, line_length};
ghost use Rattle.mask_bits.specs.Reading.{AreBytes};
ghost use Rattle.mask_trace.specs.Drawing.{stand};
ghost use Rattle.mask_plan.specs.declared.session.Stop.{Stop};
ghost use Rattle.mask_plan.specs.declared.session.PlanError.TheVariants as PlanError;
ghost use Rattle.mask_ciphers.specs.Methods.{IsCipher, MayEnd, start_steps};
ghost use Rattle.mask_ciphers.specs.Tasks.{method_of};
ghost use Rattle.mask_plan.specs.Sessions.{Evaluated, Refuses, batch_length, gates_for};
ghost use Rattle.mask_status.specs.Ends.{is_read_fault, is_tape_fault, is_write_fault};
ghost use Rattle.mask_message.specs.Outside.{Outside};
ghost use Rattle.mask_message.specs.Encrypting.{TakesMessage, TellsStrongCalls};
ghost use Rattle.mask_message.specs.Sessions.{HasKeyOf, HasTaken};
ghost use Rattle.mask_message.specs.Stopping.{is_of_tape, status_of};

use crate::bytes::hand_out;
use crate::tagging::tag_all;
use mask_circuit::Steps;
use mask_eval::Watch;
use mask_io::{Entropy, Sink, Source, read_full};
use mask_keys::KeyLines;
use mask_plan::{PlanError, Session, Stop, Task};
use mask_status::Status;
use mask_tape::Tape;
use mask_tasks::tasks_are_whole;
use std::alloc::Global;
use std::sync::ledger::Ledger;

// The most bytes of a batch.
const ROOM: usize = 1_024;

/// Encrypts all that the input has left, and writes it batch by batch, or makes its tag and writes that.
pub(crate) fn stream<const N: usize, S: Source, E: Entropy, O: Sink, W: Watch, L: Ledger>(
    alloc: Global,
    task: &Task,
    lines: &KeyLines,
    input: &mut S,
    entropy: &mut E,
    out: &mut O,
    watch: &mut W,
    steps: &mut Steps<L>,
) -> Status
    requires some { 2 ≤ N }
    requires few { N ≤ 8 }
    requires count { length lines.now ≡ N }
    requires shape { AreKeyLines lines.now }
    requires length { line_length lines.now ≡ key_bytes task.now }
    ensures ends { (keys_before keys_after : Option (List ℕ)) → TakesMessage task.now (length lines.now) lines.now
        (record {
          keys_before = keys_before;
          keys_after = keys_after;
          left_before = S.left input.old;
          left_after = S.left input.new;
          tape_before = E.left entropy.old;
          tape_after = E.left entropy.new;
          wanted = E.wanted entropy.new;
          out_before = O.written out.old;
          out_after = O.written out.new;
          told_before = W.told watch.old;
          told_after = W.told watch.new;
          steps_before = steps.old;
          steps_after = steps.new;
        }) result }
    ensures secure { TellsStrongCalls (length lines.now) (W.told watch.old) (W.told watch.new) }
    ensures input_faults { S.faults input.new ≡ faults_after (is_read_fault result) (S.faults input.old) }
    ensures tape_faults { E.faults entropy.new ≡ faults_after (is_tape_fault result) (E.faults entropy.old) }
    ensures out_faults { O.faults out.new ≡ faults_after (is_write_fault result) (O.faults out.old) }
    ensures wants { result ≡ Status.TapeFault → 1 ≤ E.wanted entropy.new }
{
    tasks_are_whole(task);
    let mut session = match Session::<N>::start(alloc, task, lines, steps) {
        Ok(session) => session,
        Err(_) => return Status::NoMemory,
    };
    take_all(&mut session, input, entropy, out, watch, steps)
}

// Takes all that the input has left under the key of a session that begins: it becomes a ciphertext or a tag.
fn take_all<const N: usize, S: Source, E: Entropy, O: Sink, W: Watch, L: Ledger>(
    session: &mut Session<N>,
    input: &mut S,
    entropy: &mut E,
    out: &mut O,
    watch: &mut W,
    steps: &mut Steps<L>,
) -> Status
    requires some { 2 ≤ N }
    requires few { N ≤ 8 }
    requires whole_task { IsTask session.old.task }
    requires unclosed { session.old.closed ≡ None }
    requires unended { session.old.ended ≡ false }
    requires unfed { session.old.fed ≡ 0 }

    // Wherever the count stood before the session began.
    ensures ends { (lines : List (List ℕ)) → HasKeyOf lines session.old → (keys_before keys_after : Option (List ℕ)) (steps_before : ℕ) →
        steps.old ≤ steps_before + start_steps (method_of session.old.task) → TakesMessage session.old.task N lines
        (record {
          keys_before = keys_before;
          keys_after = keys_after;
          left_before = S.left input.old;
          left_after = S.left input.new;
          tape_before = E.left entropy.old;
          tape_after = E.left entropy.new;
          wanted = E.wanted entropy.new;
          out_before = O.written out.old;
          out_after = O.written out.new;
          told_before = W.told watch.old;
          told_after = W.told watch.new;
          steps_before = steps_before;
          steps_after = steps.new;
        }) result }
    ensures input_faults { S.faults input.new ≡ faults_after (is_read_fault result) (S.faults input.old) }
    ensures tape_faults { E.faults entropy.new ≡ faults_after (is_tape_fault result) (E.faults entropy.old) }
    ensures out_faults { O.faults out.new ≡ faults_after (is_write_fault result) (O.faults out.old) }
{
    if session.makes_tag() {
        tag_all(session, input, entropy, out, watch, steps)
    } else {
        encrypt_all(session, input, entropy, out, watch, steps)
    }
}

// Encrypts all that the input has left under the key of a session that begins.
#[tactic(auto, using(crate::proofs::Handing::batch_fits))]
fn encrypt_all<const N: usize, S: Source, E: Entropy, O: Sink, W: Watch, L: Ledger>(
    session: &mut Session<N>,
    input: &mut S,
    entropy: &mut E,
    out: &mut O,
    watch: &mut W,
    steps: &mut Steps<L>,
) -> Status
    requires some { 2 ≤ N }
    requires few { N ≤ 8 }
    requires whole_task { IsTask session.old.task }
    requires cipher { IsCipher (method_of session.old.task) }
    requires unclosed { session.old.closed ≡ None }
    requires unended { session.old.ended ≡ false }

    // Wherever the count stood before the session began.
    ensures ends { (lines : List (List ℕ)) → HasKeyOf lines session.old → (keys_before keys_after : Option (List ℕ)) (steps_before : ℕ) →
        steps.old ≤ steps_before + start_steps (method_of session.old.task) → TakesMessage session.old.task N lines
        (record {
          keys_before = keys_before;
          keys_after = keys_after;
          left_before = S.left input.old;
          left_after = S.left input.new;
          tape_before = E.left entropy.old;
          tape_after = E.left entropy.new;
          wanted = E.wanted entropy.new;
          out_before = O.written out.old;
          out_after = O.written out.new;
          told_before = W.told watch.old;
          told_after = W.told watch.new;
          steps_before = steps_before;
          steps_after = steps.new;
        }) result }
    ensures input_faults { S.faults input.new ≡ faults_after (is_read_fault result) (S.faults input.old) }
    ensures tape_faults { E.faults entropy.new ≡ faults_after (is_tape_fault result) (E.faults entropy.old) }
    ensures out_faults { O.faults out.new ≡ faults_after (is_write_fault result) (O.faults out.old) }
{
    let batch = session.batch_bytes();
    let mut taken = [0; ROOM];
    let mut given = [0; ROOM];
    encrypt_batches(
        session,
        &mut taken[..batch],
        &mut given[..batch],
        input,
        entropy,
        out,
        watch,
        steps,
    )
}

// Encrypts all that the input has left under the key of a session that begins. Batches are read into `piece`, and unmasked
// into `room`.
fn encrypt_batches<const N: usize, S: Source, E: Entropy, O: Sink, W: Watch, L: Ledger>(
    session: &mut Session<N>,
    piece: &mut [u8],
    room: &mut [u8],
    input: &mut S,
    entropy: &mut E,
    out: &mut O,
    watch: &mut W,
    steps: &mut Steps<L>,
) -> Status
    requires some { 2 ≤ N }
    requires few { N ≤ 8 }
    requires whole_task { IsTask session.old.task }
    requires cipher { IsCipher (method_of session.old.task) }
    requires unclosed { session.old.closed ≡ None }
    requires unended { session.old.ended ≡ false }
    requires piece { length piece.old ≡ batch_length session.old.task }
    requires room { length room.old ≡ batch_length session.old.task }

    // Wherever the count stood before the session began.
    ensures ends { (lines : List (List ℕ)) → HasKeyOf lines session.old → (keys_before keys_after : Option (List ℕ)) (steps_before : ℕ) →
        steps.old ≤ steps_before + start_steps (method_of session.old.task) → TakesMessage session.old.task N lines
        (record {
          keys_before = keys_before;
          keys_after = keys_after;
          left_before = S.left input.old;
          left_after = S.left input.new;
          tape_before = E.left entropy.old;
          tape_after = E.left entropy.new;
          wanted = E.wanted entropy.new;
          out_before = O.written out.old;
          out_after = O.written out.new;
          told_before = W.told watch.old;
          told_after = W.told watch.new;
          steps_before = steps_before;
          steps_after = steps.new;
        }) result }
    ensures input_faults { S.faults input.new ≡ faults_after (is_read_fault result) (S.faults input.old) }
    ensures tape_faults { E.faults entropy.new ≡ faults_after (is_tape_fault result) (E.faults entropy.old) }
    ensures out_faults { O.faults out.new ≡ faults_after (is_write_fault result) (O.faults out.old) }
{
    let mut tape = Tape::new();
    'batches: loop {
        let count = match read_full(input, piece) {
            Ok(count) => count,
            Err(_) => return Status::ReadFault,
        };
        let last = count < piece.len();
        match advance(
            session,
            &piece[..count],
            last,
            &mut tape,
            entropy,
            watch,
            steps,
        ) {
            Ok(()) => {}
            Err(stop) => return status_of(stop),
        }
        match hand_out(session, &mut room[..count], out) {
            Ok(()) => {}
            Err(_) => return Status::WriteFault,
        }
        if last {
            return Status::Done;
        }
    }
}

/// Takes the next bytes of the message: a whole batch, or the last ones.
pub(crate) fn advance<const N: usize, E: Entropy, W: Watch, L: Ledger>(
    session: &mut Session<N>,
    piece: &[u8],
    last: bool,
    tape: &mut Tape,
    entropy: &mut E,
    watch: &mut W,
    steps: &mut Steps<L>,
) -> Result<(), Stop>
    requires unclosed { session.old.closed ≡ None }
    requires unended { session.old.ended ≡ false }
    requires few { length piece.now ≤ batch_length session.old.task }
    requires whole { last ≡ false → length piece.now ≡ batch_length session.old.task }
    requires ends { last ≡ true → MayEnd (method_of session.old.task) session.old.fed piece.now }
    ensures evaluated { OnOk result (Evaluated N session.old session.new piece.now last
        (stand tape.old (E.left entropy.old) (W.told watch.old)) (stand tape.new (E.left entropy.new) (W.told watch.new))) }
    ensures now { OnOk result (HasTaken session.old session.new piece.now last) }
    ensures bytes { AreBytes piece.now }
    ensures counted { OnOk result (steps.new ≡ steps.old + gates_for session.old piece.now last) }
    ensures refused { IfErr result (Refuses N session.old piece.now last (E.wanted entropy.new) steps.old steps.new
        (stand tape.old (E.left entropy.old) (W.told watch.old)) (stand tape.new (E.left entropy.new) (W.told watch.new))) }
    ensures tape_faults { MatchResult result
        (λ _. E.faults entropy.new ≡ E.faults entropy.old)
        (λ stop. E.faults entropy.new ≡ faults_after (is_of_tape stop) (E.faults entropy.old)) }
{
    if last {
        match session.end(piece, tape, entropy, watch, steps) {
            Ok(()) => Ok(()),
            Err(error) => Err(stop_of(error)),
        }
    } else {
        match session.feed(piece, tape, entropy, watch, steps) {
            Ok(()) => Ok(()),
            Err(error) => Err(stop_of(error)),
        }
    }
}

fn stop_of(error: PlanError) -> Stop
    ensures { (stop : Stop) → error ≡ PlanError.Refused stop → result ≡ stop }
{
    match error {
        PlanError::Refused(stop) => stop,
        PlanError::Closed(stop) => stop,
    }
}

/// The status of a refusal.
pub(crate) fn status_of(stop: Stop) -> Status
    ensures { result ≡ status_of stop }
{
    match stop {
        Stop::TooLong { limit } => Status::TooLong { limit },
        Stop::TapeFault => Status::TapeFault,
        Stop::NoMemory => Status::NoMemory,
    }
}
