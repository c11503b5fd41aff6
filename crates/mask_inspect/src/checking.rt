//! `check`: whether a circuit is accepted, and whether it is strong.

ghost use Rattle.std.specs.Prelude.{◌≡◌, ◌+◌, ◌^◌, ◌≤◌, [], ◌∷◌, IfOk, IfErr};
ghost use Rattle.mask_io.specs.Outside.{faults_after};
ghost use Rattle.mask_text.specs.Answers.{TakesFront};
ghost use Rattle.mask_check.specs.Costs.{most_steps};
ghost use Rattle.mask_inspect.specs.Checks.{Grammar, Acceptance};
ghost use Rattle.mask_inspect.specs.Ends.{Takes, Ends, CostsAtMost, RefusesCircuit};
ghost use Rattle.mask_status.specs.Ends.{ComesBeforeWriting, is_read_fault, is_write_fault};
ghost use Rattle.mask_inspect.specs.Checking.{PrintsVerdict, IsJudged, TellsStrong, SaysStrong, check_line};

use crate::reading::{admitted, read};
use itoa::Buffer;
use mask_check::{Admitted, StrengthenError, strengthen};
use mask_circuit::{Circuit, Steps};
use mask_io::{Sink, Source};
use mask_status::{Status, send};
use std::alloc::{AllocError, Global};
use std::sync::ledger::Ledger;

/// Reads a circuit from all that the input has left, checks it, and writes its counts and whether it is strong.
pub fn check<S: Source, O: Sink, L: Ledger>(
    alloc: Global,
    input: &mut S,
    out: &mut O,
    steps: &mut Steps<L>,
) -> Status
    ensures ends { Takes (S.left input.old) (S.left input.new) (λ bytes.
        Ends (2 ^ 25) (Grammar ∷ Acceptance ∷ []) (PrintsVerdict bytes (O.written out.old) (O.written out.new)) bytes (S.left input.new) result
        × CostsAtMost most_steps steps.old steps.new bytes (S.left input.new)) }
    ensures front { TakesFront (S.left input.old) (S.left input.new) }
    ensures input_faults { S.faults input.new ≡ faults_after (is_read_fault result) (S.faults input.old) }
    ensures out_faults { O.faults out.new ≡ faults_after (is_write_fault result) (O.faults out.old) }
    ensures unwritten { ComesBeforeWriting result → out.new ≡ out.old }
    ensures no_tape { result ≡ Status.TapeFault → ⊥ }
{
    let circuit = match read(alloc, input) {
        Ok(circuit) => circuit,
        Err(status) => return status,
    };
    match judge(alloc, circuit, steps) {
        Ok(line) => send(&line, out),
        Err(status) => status,
    }
}

// The line that says what the circuit is, where it is accepted.
fn judge<L: Ledger>(
    alloc: Global,
    circuit: Circuit,
    steps: &mut Steps<L>,
) -> Result<Vec<u8>, Status>
    ensures ok { IfOk result (λ line. IsJudged circuit line.items) }
    ensures err { IfErr result (RefusesCircuit circuit) }
    ensures steps { steps.new ≤ steps.old + most_steps circuit }
{
    let values = circuit.values();
    let products = circuit.products();
    let refreshes = circuit.refreshes();
    let admitted = match admitted(alloc, circuit, steps) {
        Ok(admitted) => admitted,
        Err(status) => return Err(status),
    };
    match line_of(alloc, values, products, refreshes, admitted) {
        Ok(line) => Ok(line),
        Err(_) => Err(Status::NoMemory),
    }
}

fn line_of(
    alloc: Global,
    values: u32,
    products: u32,
    refreshes: u32,
    admitted: Admitted,
) -> Result<Vec<u8>, AllocError>
    ensures { IfOk result (λ line. SaysStrong admitted (check_line values products refreshes) line.items) }
{
    let mut line = Vec::from_slice(alloc, b"accepted values=")?;
    line.extend_from_slice(Buffer::new().format(values).as_bytes())?;
    line.extend_from_slice(b" and=")?;
    line.extend_from_slice(Buffer::new().format(products).as_bytes())?;
    line.extend_from_slice(b" ref=")?;
    line.extend_from_slice(Buffer::new().format(refreshes).as_bytes())?;
    if is_strong(alloc, admitted)? {
        line.extend_from_slice(b" strong=yes\n")?;
        return Ok(line);
    }
    line.extend_from_slice(b" strong=no\n")?;
    Ok(line)
}

fn is_strong(alloc: Global, admitted: Admitted) -> Result<bool, AllocError>
    ensures { IfOk result (TellsStrong admitted) }
{
    let error = match strengthen(alloc, admitted) {
        Ok(_) => return Ok(true),
        Err(error) => error,
    };
    match error {
        StrengthenError::NotFenced { .. } => Ok(false),
        StrengthenError::NoMemory => Err(AllocError),
    }
}
