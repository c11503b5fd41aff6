//! `eval`: the output bits of a circuit that is evaluated on shares.

ghost use Rattle.std.specs.Prelude.{◌≡◌, ℕ, ◌+◌, ◌≤◌, List, [], ◌∷◌, length, Option, IfOk, IfErr, OnOk, OnErr, IsTrue, MatchResult};
ghost use Rattle.mask_bits.specs.Reading.{bytes_for};
ghost use Rattle.mask_io.specs.Outside.{faults_after};
ghost use Rattle.mask_circuit.specs.Value.{plain};
ghost use Rattle.mask_check.specs.Costs.{most_steps};
ghost use Rattle.mask_text.specs.Answers.{TakesFront};
ghost use Rattle.mask_tape.specs.Tape.{failed_to_draw};
ghost use Rattle.mask_tape.specs.declared.tape.TapeError.TheVariants.{Failed, NoMemory};
ghost use Rattle.mask_words.specs.WordTests.{is_hex_text};
ghost use Rattle.mask_words.specs.Jobs.{EvalWords};
ghost use Rattle.mask_words.specs.declared.table.Job.TheVariants.{Eval};
ghost use Rattle.mask_inspect.specs.Checks.{Grammar, Inputs, Acceptance};
ghost use Rattle.mask_inspect.specs.Ends.{Takes, Stops, CostsAtMost, IsEarly};
ghost use Rattle.mask_status.specs.Ends.{is_read_fault, is_tape_fault, is_write_fault};
ghost use Rattle.mask_message.specs.Outside.{Outside};
ghost use Rattle.mask_run.specs.Outside.{LeavesTape, LeavesWatch, TellsNothing, WritesNothing};
ghost use Rattle.mask_run.specs.Calls.{eval_bits, Evaluates, TellsSecureCalls};
ghost use Rattle.mask_run.specs.Evaluating.{Prepares};
ghost use Rattle.mask_run.specs.Hexadecimal.{IsReport};
ghost use Rattle.mask_run.specs.Promises.{Runs};

use crate::evaluation::{Prepared, evaluate};
use crate::hexadecimal::input_bits;
use mask_circuit::Steps;
use mask_eval::Watch;
use mask_inspect::{admitted, read};
use mask_io::{Entropy, Sink, Source};
use mask_status::{Status, send};
use mask_tape::TapeError;
use mask_words::Words;
use std::alloc::Global;
use std::sync::ledger::Ledger;

/// Reads a circuit from all that the input has left, evaluates it at this order on the bits that the fifth word names, and
/// writes its output bits.
pub fn eval<S: Source, E: Entropy, O: Sink, W: Watch, L: Ledger>(
    alloc: Global,
    order: u32,
    words: &Words,
    input: &mut S,
    tape: &mut E,
    out: &mut O,
    watch: &mut W,
    steps: &mut Steps<L>,
) -> Status
    requires some { 1 ≤ order }
    requires few { order ≤ 7 }
    requires words { EvalWords words.now order }

    // Whatever a key file has left, it is left there.
    ensures ends { (keys : Option (List ℕ)) → Runs (Eval order) words.now
        (record {
          keys_before = keys;
          keys_after = keys;
          left_before = S.left input.old;
          left_after = S.left input.new;
          tape_before = E.left tape.old;
          tape_after = E.left tape.new;
          wanted = E.wanted tape.new;
          out_before = O.written out.old;
          out_after = O.written out.new;
          told_before = W.told watch.old;
          told_after = W.told watch.new;
          steps_before = steps.old;
          steps_after = steps.new;
        }) (tape.new ≡ tape.old) result }
    ensures front { TakesFront (S.left input.old) (S.left input.new) }
    ensures secure { TellsSecureCalls (W.told watch.old) (W.told watch.new) }
    ensures input_faults { S.faults input.new ≡ faults_after (is_read_fault result) (S.faults input.old) }
    ensures tape_faults { E.faults tape.new ≡ faults_after (is_tape_fault result) (E.faults tape.old) }
    ensures out_faults { O.faults out.new ≡ faults_after (is_write_fault result) (O.faults out.old) }
    ensures wants { result ≡ Status.TapeFault → 1 ≤ E.wanted tape.new }
    ensures undrawn { LeavesTape (Eval order) result → tape.new ≡ tape.old }
    ensures unwatched { LeavesWatch (Eval order) result → watch.new ≡ watch.old }
    ensures untold { TellsNothing (Eval order) result → W.told watch.new ≡ W.told watch.old }
    ensures unwritten { WritesNothing (Eval order) result → out.new ≡ out.old }
    ensures no_keys { result ≡ Status.KeyFault → ⊥ }
{
    let prepared = match prepare(alloc, words.word(4), input, steps) {
        Ok(prepared) => prepared,
        Err(status) => return status,
    };
    match evaluated(alloc, order, &prepared, tape, watch, steps) {
        Ok(line) => send(&line, out),
        Err(TapeError::Failed) => Status::TapeFault,
        Err(TapeError::NoMemory) => Status::NoMemory,
    }
}

// Reads a circuit from all that the input has left, and the bits of `hex` for its inputs, and admits the circuit.
fn prepare<S: Source, L: Ledger>(
    alloc: Global,
    hex: &str,
    input: &mut S,
    steps: &mut Steps<L>,
) -> Result<Prepared, Status>
    requires { IsTrue (is_hex_text hex.now) }
    ensures ok { IfOk result (λ p. Takes (S.left input.old) (S.left input.new) (λ bytes.
        Prepares bytes (S.left input.new) hex.now p.circuit p.inputs × (steps.new ≤ steps.old + most_steps p.circuit))) }
    ensures err { IfErr result (λ status. Takes (S.left input.old) (S.left input.new) (λ bytes.
        Stops (Grammar ∷ Inputs hex.now ∷ Acceptance ∷ []) bytes (S.left input.new) status
        × CostsAtMost most_steps steps.old steps.new bytes (S.left input.new))) }
    ensures early { IfErr result IsEarly }
    ensures no_keys { IfErr result (λ status. status ≡ Status.KeyFault → ⊥) }
    ensures front { TakesFront (S.left input.old) (S.left input.new) }
    ensures input_faults { MatchResult result
        (λ _. S.faults input.new ≡ S.faults input.old)
        (λ status. S.faults input.new ≡ faults_after (is_read_fault status) (S.faults input.old)) }
{
    let circuit = match read(alloc, input) {
        Ok(circuit) => circuit,
        Err(status) => return Err(status),
    };
    let inputs = match input_bits(alloc, hex, circuit.inputs()) {
        Ok(Some(inputs)) => inputs,
        Ok(None) => return Err(Status::BadWords { place: 5 }),
        Err(_) => return Err(Status::NoMemory),
    };
    match admitted(alloc, circuit, steps) {
        Ok(circuit) => Ok(Prepared { circuit, inputs }),
        Err(status) => Err(status),
    }
}

// The report on an evaluation at an order that is known when the program runs alone.
fn evaluated<E: Entropy, W: Watch, L: Ledger>(
    alloc: Global,
    order: u32,
    prepared: &Prepared,
    tape: &mut E,
    watch: &mut W,
    steps: &mut Steps<L>,
) -> Result<Vec<u8>, TapeError>
    requires some { 1 ≤ order }
    requires few { order ≤ 7 }
    ensures report { IfOk result (λ line. IsReport (plain prepared.now.circuit prepared.now.inputs) line.items) }
    ensures evaluates { OnOk result (Evaluates prepared.now.circuit order prepared.now.inputs
        (E.left tape.old) (E.left tape.new) (W.told watch.old) (W.told watch.new)) }
    ensures secure { TellsSecureCalls (W.told watch.old) (W.told watch.new) }
    ensures left { OnErr result (E.left tape.new ≡ E.left tape.old) }
    ensures told { OnErr result (W.told watch.new ≡ W.told watch.old) }
    ensures failed { IfErr result (λ e. e ≡ Failed → (E.wanted tape.new ≡ bytes_for (eval_bits prepared.now.circuit order))
        × (1 ≤ E.wanted tape.new)) }
    ensures counts { E.faults tape.new ≡ faults_after (failed_to_draw result) (E.faults tape.old) }
    ensures no_memory { IfErr result (λ e. e ≡ NoMemory → tape.new ≡ tape.old) }
    ensures idle { eval_bits prepared.now.circuit order ≡ 0 → tape.new ≡ tape.old }
    ensures steps { steps.new ≤ steps.old + length prepared.now.circuit.gates }
{
    match order {
        1 => evaluate::<2, E, W, L>(alloc, order, prepared, tape, watch, steps),
        2 => evaluate::<3, E, W, L>(alloc, order, prepared, tape, watch, steps),
        3 => evaluate::<4, E, W, L>(alloc, order, prepared, tape, watch, steps),
        4 => evaluate::<5, E, W, L>(alloc, order, prepared, tape, watch, steps),
        5 => evaluate::<6, E, W, L>(alloc, order, prepared, tape, watch, steps),
        6 => evaluate::<7, E, W, L>(alloc, order, prepared, tape, watch, steps),
        _ => evaluate::<8, E, W, L>(alloc, order, prepared, tape, watch, steps),
    }
}
