//! Circuits that are known to be strong, through the checker.

ghost use Rattle.std.specs.Prelude.{◌≡◌, ◌+◌, ◌≤◌, IfOk};
ghost use Rattle.mask_circuit.specs.Acceptance.{IsStrong};
ghost use Rattle.mask_check.specs.Costs.{most_steps};

use mask_check::{AdmitError, StrengthenError, Strong, admit, strengthen};
use mask_circuit::{Circuit, Steps};
use std::alloc::{AllocError, Global};
use std::sync::ledger::Ledger;

/// A circuit that is known to be strong, as the checker hands it out. Only want of memory refuses it. The steps are those
/// of `check`.
pub fn strong_circuit<L: Ledger>(
    alloc: Global,
    circuit: Circuit,
    steps: &mut Steps<L>,
) -> Result<Strong, AllocError>
    requires { IsStrong circuit }
    ensures same { IfOk result (λ s. s ≡ circuit) }
    ensures steps { steps.new ≤ steps.old + most_steps circuit }
{
    let admitted = match admit(alloc, circuit, steps) {
        Ok(admitted) => admitted,
        Err(AdmitError::NoMemory) => return Err(AllocError),
        Err(AdmitError::Refused { .. }) => unreachable!(),
    };
    match strengthen(alloc, admitted) {
        Ok(strong) => Ok(strong),
        Err(StrengthenError::NoMemory) => Err(AllocError),
        Err(StrengthenError::NotFenced { .. }) => unreachable!(),
    }
}
