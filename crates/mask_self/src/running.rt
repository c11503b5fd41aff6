//! `self`.

ghost use Rattle.std.specs.Prelude.{◌≡◌, ℕ, suc, ◌+◌, ◌^◌, ◌≤◌, List, length, IfOk, MatchResult};
ghost use Rattle.std.specs.declared.option.Option.{Option};
ghost use Rattle.mask_io.specs.Outside.{faults_after};
ghost use Rattle.mask_tasks.specs.Tasks.{IsTask, key_bytes, longest_message};
ghost use Rattle.mask_keys.specs.Lines.{AreKeyLines, joined, line_length};
ghost use Rattle.mask_ciphers.specs.Methods.{IsCipher};
ghost use Rattle.mask_ciphers.specs.Tasks.{method_of, output};
ghost use Rattle.mask_status.specs.Ends.{ComesBeforeWriting, is_tape_fault, is_write_fault};
ghost use Rattle.mask_message.specs.Outside.{Outside};
ghost use Rattle.mask_message.specs.Counting.{most_run_steps};
ghost use Rattle.mask_message.specs.Encrypting.{TellsStrongCalls};
ghost use Rattle.mask_self.specs.Generator.{bytes_from};
ghost use Rattle.mask_self.specs.Reports.{sum_of_blocks};
ghost use Rattle.mask_self.specs.Selves.{RunsWhole, Stops, RunsItself, own_task};

use crate::collecting::Collected;
use crate::generator::{Generator, Message};
use crate::making::{make_iv, make_lines};
use crate::reporting::{bits, calls, line, sum_of_blocks};
use mask_circuit::Steps;
use mask_eval::Watch;
use mask_io::{Entropy, Sink};
use mask_keys::KeyLines;
use mask_message::encrypt_message;
use mask_status::{Status, send};
use mask_tasks::{LeaSize, Task};
use std::alloc::Global;
use std::sync::ledger::Ledger;

/// Makes key lines, an IV and a message of so many bytes from a seed, encrypts the message at this order, and writes one line on
/// the run.
pub fn self_run<E: Entropy, O: Sink, W: Watch, L: Ledger>(
    alloc: Global,
    seed: u64,
    count: u32,
    order: u32,
    tape: &mut E,
    out: &mut O,
    watch: &mut W,
    steps: &mut Steps<L>,
) -> Status
    requires some { 1 ≤ order }
    requires few { order ≤ 7 }
    requires filled { 1 ≤ count }
    requires short { count ≤ 2 ^ 20 }

    // Whatever a key file and an input have left, it is left there.
    ensures ends { (keys left : Option (List ℕ)) → RunsItself seed (suc order) count (record {
      keys_before = keys;
      keys_after = keys;
      left_before = left;
      left_after = left;
      tape_before = E.left tape.old;
      tape_after = E.left tape.new;
      wanted = E.wanted tape.new;
      out_before = O.written out.old;
      out_after = O.written out.new;
      told_before = W.told watch.old;
      told_after = W.told watch.new;
      steps_before = steps.old;
      steps_after = steps.new;
    }) result }

    // With every status the watch was told evaluations of strong circuits at this order alone.
    ensures secure { TellsStrongCalls (suc order) (W.told watch.old) (W.told watch.new) }

    // A fault is counted once, at its own object.
    ensures tape_faults { E.faults tape.new ≡ faults_after (is_tape_fault result) (E.faults tape.old) }
    ensures out_faults { O.faults out.new ≡ faults_after (is_write_fault result) (O.faults out.old) }
    ensures wants { result ≡ Status.TapeFault → 1 ≤ E.wanted tape.new }
    ensures unwritten { ComesBeforeWriting result → out.new ≡ out.old }

    // No more steps are counted than the whole run has.
    ensures steps { steps.new ≤ steps.old + most_run_steps (own_task seed (suc order)) count }
{
    let mut generator = Generator::new(seed);
    let lines = make_lines(&mut generator, order + 1);
    let iv = make_iv(&mut generator);
    let task = Task::Lea {
        size: LeaSize::K128,
        iv,
    };
    let sum = match sum_of_run(
        alloc, &task, order, &lines, generator, count, tape, watch, steps,
    ) {
        Ok(sum) => sum,
        Err(status) => return status,
    };
    let line = line(count, calls(count), bits(count, order), &sum);
    send(line.as_slice(), out)
}

// Encrypts the next bytes of the generator, so many of them, and adds the blocks of the ciphertext.
fn sum_of_run<E: Entropy, W: Watch, L: Ledger>(
    alloc: Global,
    task: &Task,
    order: u32,
    lines: &KeyLines,
    generator: Generator,
    count: u32,
    tape: &mut E,
    watch: &mut W,
    steps: &mut Steps<L>,
) -> Result<[u8; 16], Status>
    requires some { 1 ≤ order }
    requires few { order ≤ 7 }
    requires whole_task { IsTask task.now }
    requires cipher { IsCipher (method_of task.now) }
    requires count { length lines.now ≡ order + 1 }
    requires shape { AreKeyLines lines.now }
    requires length { line_length lines.now ≡ key_bytes task.now }
    requires limit { count ≤ longest_message task.now }
    ensures sum { IfOk result (λ sum. sum ≡ sum_of_blocks (output task.now (joined lines.now) (bytes_from generator 0 count))) }

    // Whatever else the outside shows.
    ensures ends { (keys_before keys_after left_before left_after out_before out_after : Option (List ℕ)) →
        let o : Outside = record {
          keys_before = keys_before;
          keys_after = keys_after;
          left_before = left_before;
          left_after = left_after;
          tape_before = E.left tape.old;
          tape_after = E.left tape.new;
          wanted = E.wanted tape.new;
          out_before = out_before;
          out_after = out_after;
          told_before = W.told watch.old;
          told_after = W.told watch.new;
          steps_before = steps.old;
          steps_after = steps.new;
        } in
        MatchResult result
        (λ _. RunsWhole task.now (length lines.now) lines.now (bytes_from generator 0 count) o)
        (λ status. Stops task.now (length lines.now) lines.now (bytes_from generator 0 count) o status) }
    ensures secure { TellsStrongCalls (length lines.now) (W.told watch.old) (W.told watch.new) }
    ensures tape_faults { MatchResult result
        (λ _. E.faults tape.new ≡ E.faults tape.old)
        (λ status. E.faults tape.new ≡ faults_after (is_tape_fault status) (E.faults tape.old)) }
    ensures steps { steps.new ≤ steps.old + most_run_steps task.now count }
{
    let mut message = Message::new(generator, count as usize);
    let mut ciphertext = match Collected::with_room(alloc, count as usize) {
        Ok(ciphertext) => ciphertext,
        Err(_) => return Err(Status::NoMemory),
    };
    let status = encrypt_message(
        alloc,
        task,
        order,
        lines,
        &mut message,
        tape,
        &mut ciphertext,
        watch,
        steps,
    );
    match status {
        Status::Done => Ok(sum_of_blocks(ciphertext.bytes())),
        Status::TapeFault => Err(Status::TapeFault),
        // The message has no faults, and its length is within the limit: there is no memory for a batch or for what is written.
        _ => Err(Status::NoMemory),
    }
}
