//! `upgrade`: a circuit text of either version, written in version 2.

ghost use Rattle.std.specs.Prelude.{◌≡◌, ◌^◌, [], ◌∷◌};
ghost use Rattle.mask_io.specs.Outside.{faults_after};
ghost use Rattle.mask_circuit.specs.Text.{canonical2};
ghost use Rattle.mask_text.specs.Answers.{TakesFront};
ghost use Rattle.mask_inspect.specs.Checks.{Grammar};
ghost use Rattle.mask_inspect.specs.Ends.{Takes, Ends};
ghost use Rattle.mask_status.specs.Ends.{ComesBeforeWriting, Writes, is_read_fault, is_write_fault};
ghost use Rattle.mask_inspect.specs.Upgrading.{PrintsSpelling};

use crate::reading::status_of;
use mask_circuit::Labelled;
use mask_io::{Sink, Source};
use mask_status::Status;
use mask_text::{read_labelled, write_labelled};
use std::alloc::Global;

/// Reads a labelled circuit from all that the input has left, and writes its canonical text of version 2.
pub fn upgrade<S: Source, O: Sink>(alloc: Global, input: &mut S, out: &mut O) -> Status
    ensures ends { Takes (S.left input.old) (S.left input.new) (λ bytes.
        Ends (2 ^ 25) (Grammar ∷ []) (PrintsSpelling bytes (O.written out.old) (O.written out.new)) bytes (S.left input.new) result) }
    ensures front { TakesFront (S.left input.old) (S.left input.new) }
    ensures input_faults { S.faults input.new ≡ faults_after (is_read_fault result) (S.faults input.old) }
    ensures out_faults { O.faults out.new ≡ faults_after (is_write_fault result) (O.faults out.old) }
    ensures unwritten { ComesBeforeWriting result → out.new ≡ out.old }
    ensures no_tape { result ≡ Status.TapeFault → ⊥ }
{
    match read_labelled(alloc, input) {
        Ok(labelled) => send_spelling(&labelled, out),
        Err(error) => status_of(error),
    }
}

fn send_spelling<O: Sink>(labelled: &Labelled, out: &mut O) -> Status
    ensures writes { Writes (canonical2 labelled.now) (O.written out.old) (O.written out.new) result }
    ensures out_faults { O.faults out.new ≡ faults_after (is_write_fault result) (O.faults out.old) }
{
    match write_labelled(labelled, out) {
        Ok(()) => Status::Done,
        Err(_) => Status::WriteFault,
    }
}
