//! `enc`, and what comes behind its key lines.

ghost use Rattle.std.specs.Prelude.{◌≡◌, ℕ, suc, ◌+◌, ◌≤◌, List, length};
ghost use Rattle.std.specs.declared.option.Option.{Option};
ghost use Rattle.mask_io.specs.Outside.{faults_after};
ghost use Rattle.mask_tasks.specs.Tasks.{key_bytes};
ghost use Rattle.mask_keys.specs.Lines.{AreKeyLines, line_length};
ghost use Rattle.mask_status.specs.Ends.{is_key_fault, is_read_fault, is_tape_fault, is_write_fault};
ghost use Rattle.mask_secrets.specs.KeyEnds.{IsOfKeys};
ghost use Rattle.mask_message.specs.Outside.{Outside};
ghost use Rattle.mask_message.specs.Encrypting.{Encs, TakesMessage, TellsStrongCalls};

use crate::streaming::stream;
use mask_circuit::Steps;
use mask_eval::Watch;
use mask_io::{Entropy, Sink, Source};
use mask_keys::{KeyLength, KeyLines};
use mask_plan::{Task, key_length};
use mask_secrets::read_lines;
use mask_status::Status;
use std::alloc::Global;
use std::sync::ledger::Ledger;

/// Encrypts all that the input has left under the key that the key file is shares of, at this order, and writes it batch by
/// batch. The key file has a line more than the order.
pub fn enc<K: Source, S: Source, E: Entropy, O: Sink, W: Watch, L: Ledger>(
    alloc: Global,
    task: &Task,
    order: u32,
    keys: &mut K,
    input: &mut S,
    tape: &mut E,
    out: &mut O,
    watch: &mut W,
    steps: &mut Steps<L>,
) -> Status
    requires some { 1 ≤ order }
    requires few { order ≤ 7 }
    ensures ends { Encs task.now (suc order) (record {
      keys_before = K.left keys.old;
      keys_after = K.left keys.new;
      left_before = S.left input.old;
      left_after = S.left input.new;
      tape_before = E.left tape.old;
      tape_after = E.left tape.new;
      wanted = E.wanted tape.new;
      out_before = O.written out.old;
      out_after = O.written out.new;
      told_before = W.told watch.old;
      told_after = W.told watch.new;
      steps_before = steps.old;
      steps_after = steps.new;
    }) result }

    // Where no key lines were read, nothing else was touched.
    ensures unread { IsOfKeys result → (input.new ≡ input.old) × (tape.new ≡ tape.old) × (out.new ≡ out.old) × (watch.new ≡ watch.old)
        × (steps.new ≡ steps.old) }

    // With every status the watch was told evaluations of strong circuits at this order alone.
    ensures secure { TellsStrongCalls (suc order) (W.told watch.old) (W.told watch.new) }

    // A fault is counted once, at its own object.
    ensures key_faults { K.faults keys.new ≡ faults_after (is_key_fault result) (K.faults keys.old) }
    ensures input_faults { S.faults input.new ≡ faults_after (is_read_fault result) (S.faults input.old) }
    ensures tape_faults { E.faults tape.new ≡ faults_after (is_tape_fault result) (E.faults tape.old) }
    ensures out_faults { O.faults out.new ≡ faults_after (is_write_fault result) (O.faults out.old) }
    ensures wants { result ≡ Status.TapeFault → 1 ≤ E.wanted tape.new }
{
    let length = KeyLength::Exactly(key_length(task));
    let lines = match read_lines(keys, order + 1, length) {
        Ok(lines) => lines,
        Err(status) => return status,
    };
    encrypt_message(alloc, task, order, &lines, input, tape, out, watch, steps)
}

/// Encrypts all that the input has left under the key that these lines are shares of, at this order, and writes it batch by
/// batch. There is a line more than the order.
pub fn encrypt_message<S: Source, E: Entropy, O: Sink, W: Watch, L: Ledger>(
    alloc: Global,
    task: &Task,
    order: u32,
    lines: &KeyLines,
    input: &mut S,
    tape: &mut E,
    out: &mut O,
    watch: &mut W,
    steps: &mut Steps<L>,
) -> Status
    requires some { 1 ≤ order }
    requires few { order ≤ 7 }
    requires count { length lines.now ≡ order + 1 }
    requires shape { AreKeyLines lines.now }
    requires length { line_length lines.now ≡ key_bytes task.now }

    // Whatever a key file has left: the lines are there.
    ensures ends { (keys_before keys_after : Option (List ℕ)) → TakesMessage task.now (length lines.now) lines.now
        (record {
          keys_before = keys_before;
          keys_after = keys_after;
          left_before = S.left input.old;
          left_after = S.left input.new;
          tape_before = E.left tape.old;
          tape_after = E.left tape.new;
          wanted = E.wanted tape.new;
          out_before = O.written out.old;
          out_after = O.written out.new;
          told_before = W.told watch.old;
          told_after = W.told watch.new;
          steps_before = steps.old;
          steps_after = steps.new;
        }) result }
    ensures secure { TellsStrongCalls (length lines.now) (W.told watch.old) (W.told watch.new) }
    ensures input_faults { S.faults input.new ≡ faults_after (is_read_fault result) (S.faults input.old) }
    ensures tape_faults { E.faults tape.new ≡ faults_after (is_tape_fault result) (E.faults tape.old) }
    ensures out_faults { O.faults out.new ≡ faults_after (is_write_fault result) (O.faults out.old) }
    ensures wants { result ≡ Status.TapeFault → 1 ≤ E.wanted tape.new }
{
    match order {
        1 => stream::<2, S, E, O, W, L>(alloc, task, lines, input, tape, out, watch, steps),
        2 => stream::<3, S, E, O, W, L>(alloc, task, lines, input, tape, out, watch, steps),
        3 => stream::<4, S, E, O, W, L>(alloc, task, lines, input, tape, out, watch, steps),
        4 => stream::<5, S, E, O, W, L>(alloc, task, lines, input, tape, out, watch, steps),
        5 => stream::<6, S, E, O, W, L>(alloc, task, lines, input, tape, out, watch, steps),
        6 => stream::<7, S, E, O, W, L>(alloc, task, lines, input, tape, out, watch, steps),
        _ => stream::<8, S, E, O, W, L>(alloc, task, lines, input, tape, out, watch, steps),
    }
}
