//! `split`: a key as lines that are shares of it.

ghost use Rattle.std.specs.Prelude.{◌≡◌, ◌≤◌, false};
ghost use Rattle.mask_io.specs.Outside.{faults_after};
ghost use Rattle.mask_keys.specs.declared.files.KeyLength.TheVariants.{Any};
ghost use Rattle.mask_status.specs.Ends.{ComesBeforeWriting, is_key_fault, is_tape_fault, is_write_fault};
ghost use Rattle.mask_secrets.specs.KeyEnds.{TakesKeys, KeyEnds};
ghost use Rattle.mask_secrets.specs.Splitting.{Splits, SplitsLine, ComesBeforeDrawing};

use crate::reading::read_lines;
use mask_io::{Entropy, Sink, Source};
use mask_keys::{KeyBytes, KeyLength, SplitError, split_key};
use mask_status::Status;
use mask_tape::Tape;
use std::alloc::Global;

/// Reads a key file of one line from all that the key file has left, and writes it as a key file of one line more than the
/// order, whose lines are shares of it.
pub fn split<K: Source, E: Entropy, O: Sink>(
    alloc: Global,
    order: u32,
    keys: &mut K,
    tape: &mut E,
    out: &mut O,
) -> Status
    requires some { 1 ≤ order }
    requires few { order ≤ 7 }
    ensures ends { TakesKeys (K.left keys.old) (K.left keys.new) (λ bytes.
        KeyEnds 1 Any (SplitsLine order
        (record {
          tape_before = E.left tape.old;
          tape_after = E.left tape.new;
          wanted = E.wanted tape.new;
          out_before = O.written out.old;
          out_after = O.written out.new;
        })) bytes (K.left keys.new) result) }
    ensures key_faults { K.faults keys.new ≡ faults_after (is_key_fault result) (K.faults keys.old) }
    ensures tape_faults { E.faults tape.new ≡ faults_after (is_tape_fault result) (E.faults tape.old) }
    ensures out_faults { O.faults out.new ≡ faults_after (is_write_fault result) (O.faults out.old) }
    ensures wants { result ≡ Status.TapeFault → 1 ≤ E.wanted tape.new }
    ensures undrawn { ComesBeforeDrawing result → tape.new ≡ tape.old }
    ensures unwritten { ComesBeforeWriting result → out.new ≡ out.old }
{
    let lines = match read_lines(keys, 1, KeyLength::Any) {
        Ok(lines) => lines,
        Err(status) => return status,
    };
    let key = KeyBytes::new(lines.line(0));
    split_alone(alloc, order, &key, tape, out)
}

// Splits a key with a tape that keeps nothing.
fn split_alone<E: Entropy, O: Sink>(
    alloc: Global,
    order: u32,
    key: &KeyBytes,
    tape: &mut E,
    out: &mut O,
) -> Status
    requires some { 1 ≤ order }
    requires few { order ≤ 7 }
    ensures splits { Splits order key.now
        (record {
          tape_before = E.left tape.old;
          tape_after = E.left tape.new;
          wanted = E.wanted tape.new;
          out_before = O.written out.old;
          out_after = O.written out.new;
        }) result }
    ensures no_key_fault { is_key_fault result ≡ false }
    ensures tape_faults { E.faults tape.new ≡ faults_after (is_tape_fault result) (E.faults tape.old) }
    ensures out_faults { O.faults out.new ≡ faults_after (is_write_fault result) (O.faults out.old) }
    ensures undrawn { ComesBeforeDrawing result → tape.new ≡ tape.old }
    ensures unwritten { ComesBeforeWriting result → out.new ≡ out.old }
{
    let mut fresh = Tape::new();
    match split_key(alloc, key, order, &mut fresh, tape, out) {
        Ok(()) => Status::Done,
        Err(SplitError::TapeFault) => Status::TapeFault,
        Err(SplitError::WriteFault) => Status::WriteFault,
        Err(SplitError::NoMemory) => Status::NoMemory,
    }
}
