//! The tag of a message, piece by piece.

ghost use Rattle.std.specs.Prelude.{◌≡◌, ℕ, ◌+◌, ◌<◌, ◌≤◌, false, None, List, length, take, is_err, IfOk, OnErr};
ghost use Rattle.std.specs.declared.option.Option.{Option};
ghost use Rattle.std.specs.Io.KnownBytes.{Consumes, IsAtEnd};
ghost use Rattle.mask_io.specs.Outside.{faults_after};
ghost use Rattle.mask_tasks.specs.Tasks.{IsTask};
ghost use Rattle.mask_ciphers.specs.Methods.{IsCipher, start_steps};
ghost use Rattle.mask_ciphers.specs.Tasks.{method_of};
ghost use Rattle.mask_plan.specs.Sessions.{batch_length, block_length};
ghost use Rattle.mask_status.specs.Ends.{is_read_fault, is_tape_fault, is_write_fault};
ghost use Rattle.mask_message.specs.Encrypting.{TakesMessage};
ghost use Rattle.mask_message.specs.Sessions.{HasKeyOf};

use crate::bytes::hand_out;
use crate::streaming::{advance, status_of};
use mask_circuit::Steps;
use mask_eval::Watch;
use mask_io::{Entropy, Failed, Sink, Source, read_full};
use mask_plan::Session;
use mask_status::Status;
use mask_tape::Tape;
use std::sync::ledger::Ledger;

// The most bytes of a piece, and of a tag.
const ROOM: usize = 16;

/// Makes the tag of all that the input has left, under the key of a session that begins, and writes it by one write.
#[tactic(auto, using(crate::proofs::Handing::piece_fits, crate::proofs::Handing::tag_fits))]
pub(crate) fn tag_all<const N: usize, S: Source, E: Entropy, O: Sink, W: Watch, L: Ledger>(
    session: &mut Session<N>,
    input: &mut S,
    entropy: &mut E,
    out: &mut O,
    watch: &mut W,
    steps: &mut Steps<L>,
) -> Status
    requires some { 2 ≤ N }
    requires few { N ≤ 8 }
    requires whole_task { IsTask session.old.task }
    requires tag { IsCipher (method_of session.old.task) → ⊥ }
    requires unclosed { session.old.closed ≡ None }
    requires unended { session.old.ended ≡ false }
    requires unfed { session.old.fed ≡ 0 }

    // Wherever the count stood before the session began.
    ensures ends { (lines : List (List ℕ)) → HasKeyOf lines session.old → (keys_before keys_after : Option (List ℕ)) (steps_before : ℕ) →
        steps.old ≤ steps_before + start_steps (method_of session.old.task) → TakesMessage session.old.task N lines
        (record {
          keys_before = keys_before;
          keys_after = keys_after;
          left_before = S.left input.old;
          left_after = S.left input.new;
          tape_before = E.left entropy.old;
          tape_after = E.left entropy.new;
          wanted = E.wanted entropy.new;
          out_before = O.written out.old;
          out_after = O.written out.new;
          told_before = W.told watch.old;
          told_after = W.told watch.new;
          steps_before = steps_before;
          steps_after = steps.new;
        }) result }
    ensures input_faults { S.faults input.new ≡ faults_after (is_read_fault result) (S.faults input.old) }
    ensures tape_faults { E.faults entropy.new ≡ faults_after (is_tape_fault result) (E.faults entropy.old) }
    ensures out_faults { O.faults out.new ≡ faults_after (is_write_fault result) (O.faults out.old) }
{
    let batch = session.batch_bytes();
    let block = session.block_bytes();
    let mut piece = [0; ROOM];
    let mut next = [0; ROOM];
    let mut tag = [0; ROOM];
    tag_message(
        session,
        &mut piece[..batch],
        &mut next[..batch],
        &mut tag[..block],
        input,
        entropy,
        out,
        watch,
        steps,
    )
}

// Makes that tag. Pieces are read into `piece`, what comes behind them into `next`, and the tag is unmasked into `room`.
fn tag_message<const N: usize, S: Source, E: Entropy, O: Sink, W: Watch, L: Ledger>(
    session: &mut Session<N>,
    piece: &mut [u8],
    next: &mut [u8],
    room: &mut [u8],
    input: &mut S,
    entropy: &mut E,
    out: &mut O,
    watch: &mut W,
    steps: &mut Steps<L>,
) -> Status
    requires some { 2 ≤ N }
    requires few { N ≤ 8 }
    requires whole_task { IsTask session.old.task }
    requires tag { IsCipher (method_of session.old.task) → ⊥ }
    requires unclosed { session.old.closed ≡ None }
    requires unended { session.old.ended ≡ false }
    requires unfed { session.old.fed ≡ 0 }
    requires piece { length piece.old ≡ batch_length session.old.task }
    requires next { length next.old ≡ batch_length session.old.task }
    requires room { length room.old ≡ block_length session.old.task }

    // Wherever the count stood before the session began.
    ensures ends { (lines : List (List ℕ)) → HasKeyOf lines session.old → (keys_before keys_after : Option (List ℕ)) (steps_before : ℕ) →
        steps.old ≤ steps_before + start_steps (method_of session.old.task) → TakesMessage session.old.task N lines
        (record {
          keys_before = keys_before;
          keys_after = keys_after;
          left_before = S.left input.old;
          left_after = S.left input.new;
          tape_before = E.left entropy.old;
          tape_after = E.left entropy.new;
          wanted = E.wanted entropy.new;
          out_before = O.written out.old;
          out_after = O.written out.new;
          told_before = W.told watch.old;
          told_after = W.told watch.new;
          steps_before = steps_before;
          steps_after = steps.new;
        }) result }
    ensures input_faults { S.faults input.new ≡ faults_after (is_read_fault result) (S.faults input.old) }
    ensures tape_faults { E.faults entropy.new ≡ faults_after (is_tape_fault result) (E.faults entropy.old) }
    ensures out_faults { O.faults out.new ≡ faults_after (is_write_fault result) (O.faults out.old) }
{
    let mut tape = Tape::new();
    let mut count = match read_full(input, piece) {
        Ok(count) => count,
        Err(_) => return Status::ReadFault,
    };
    'pieces: loop {
        let more = match look_ahead(count, next, input) {
            Ok(more) => more,
            Err(_) => return Status::ReadFault,
        };
        let last = more == 0;
        match advance(
            session,
            &piece[..count],
            last,
            &mut tape,
            entropy,
            watch,
            steps,
        ) {
            Ok(()) => {}
            Err(stop) => return status_of(stop),
        }
        if last {
            return match hand_out(session, room, out) {
                Ok(()) => Status::Done,
                Err(_) => Status::WriteFault,
            };
        }
        piece.copy_from_slice(next);
        count = more;
    }
}

// How many bytes come behind a piece that has `count` of them: none where it isn't full, since then the message has ended.
fn look_ahead<S: Source>(count: usize, next: &mut [u8], input: &mut S) -> Result<usize, Failed>
    ensures bound { IfOk result (λ n. n ≤ length next.old) }
    ensures room { length next.new ≡ length next.old }
    ensures taken { IfOk result (λ n. Consumes (S.left input.old) (S.left input.new) (take n next.new)) }
    ensures full { IfOk result (λ n. 1 ≤ n → length next.old ≤ count) }
    ensures end { IfOk result (λ n. n < length next.old → (count < length next.old → IsAtEnd (S.left input.old)) → IsAtEnd (S.left input.new)) }
    ensures part { OnErr result ((bytes : List ℕ) × Consumes (S.left input.old) (S.left input.new) bytes
        × (length bytes < length next.old) × (length next.old ≤ count)) }
    ensures counts { S.faults input.new ≡ faults_after (is_err result) (S.faults input.old) }
{
    if count < next.len() {
        return Ok(0);
    }
    match read_full(input, next) {
        Ok(more) => Ok(more),
        Err(failed) => Err(failed),
    }
}
