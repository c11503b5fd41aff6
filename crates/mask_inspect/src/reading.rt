//! What the commands read: a circuit, and whether it is accepted.

ghost use Rattle.std.specs.Prelude.{◌≡◌, ◌+◌, ◌≤◌, [], ◌∷◌, IfOk, IfErr, MatchResult};
ghost use Rattle.mask_io.specs.Outside.{faults_after};
ghost use Rattle.mask_circuit.specs.Acceptance.{IsAccepted};
ghost use Rattle.mask_text.specs.Answers.{TakesFront};
ghost use Rattle.mask_check.specs.Costs.{most_steps};
ghost use Rattle.mask_check.specs.Security.{IsNIAtEachOrder};
ghost use Rattle.mask_inspect.specs.Checks.{Grammar};
ghost use Rattle.mask_inspect.specs.Ends.{Takes, IsRead, Stops, IsEarly, RefusesCircuit, status_of};
ghost use Rattle.mask_status.specs.Ends.{is_read_fault};

use mask_check::{AdmitError, Admitted, admit};
use mask_circuit::{Circuit, Steps};
use mask_io::Source;
use mask_status::Status;
use mask_text::{TextError, read_circuit};
use std::alloc::Global;
use std::sync::ledger::Ledger;

/// A circuit from all that the input has left.
pub fn read<S: Source>(alloc: Global, input: &mut S) -> Result<Circuit, Status>
    ensures ok { IfOk result (λ c. Takes (S.left input.old) (S.left input.new) (λ bytes. IsRead bytes (S.left input.new) c)) }
    ensures err { IfErr result (λ status. Takes (S.left input.old) (S.left input.new)
        (λ bytes. Stops (Grammar ∷ []) bytes (S.left input.new) status)) }
    ensures early { IfErr result IsEarly }
    ensures front { TakesFront (S.left input.old) (S.left input.new) }
    ensures input_faults { MatchResult result
        (λ _. S.faults input.new ≡ S.faults input.old)
        (λ status. S.faults input.new ≡ faults_after (is_read_fault status) (S.faults input.old)) }
{
    match read_circuit(alloc, input) {
        Ok(circuit) => Ok(circuit),
        Err(error) => Err(status_of(error)),
    }
}

pub(crate) fn status_of(error: TextError) -> Status
    ensures { result ≡ status_of error }
{
    match error {
        TextError::Bad { line, reason } => Status::BadText { line, reason },
        TextError::TooLong { limit } => Status::TooLong { limit },
        TextError::ReadFault => Status::ReadFault,
        TextError::NoMemory => Status::NoMemory,
    }
}

/// The circuit, where it is accepted.
pub fn admitted<L: Ledger>(
    alloc: Global,
    circuit: Circuit,
    steps: &mut Steps<L>,
) -> Result<Admitted, Status>
    ensures same { IfOk result (λ a. a ≡ circuit) }
    ensures accepted { IfOk result IsAccepted }
    ensures secure { IfOk result IsNIAtEachOrder }
    ensures err { IfErr result (RefusesCircuit circuit) }
    ensures steps { steps.new ≤ steps.old + most_steps circuit }
{
    match admit(alloc, circuit, steps) {
        Ok(admitted) => Ok(admitted),
        Err(AdmitError::Refused { product, source }) => Err(Status::Refused { product, source }),
        Err(AdmitError::NoMemory) => Err(Status::NoMemory),
    }
}
