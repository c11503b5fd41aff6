//! Circuits that are accepted.

ghost use Rattle.std.specs.Prelude.{◌≡◌, ◌+◌, ◌≤◌, IfOk, IfErr};
ghost use Rattle.mask_circuit.specs.Netlist.{Netlist, IsCircuit};
ghost use Rattle.mask_circuit.specs.Acceptance.{IsAccepted};
ghost use Rattle.mask_check.specs.Admission.{IsAdmitted, IsRefusal};
ghost use Rattle.mask_check.specs.Costs.{most_steps};
ghost use Rattle.mask_check.specs.Security.{IsNIAtEachOrder};

use crate::verdicts::{Verdict, check};
use mask_circuit::{Circuit, Steps};
use std::alloc::{AllocError, Global};
use std::marker::Model;
use std::sync::ledger::Ledger;

/// Why a circuit isn't admitted.
#[derive(Clone, Copy, Debug, PartialEq, Eq)]
pub enum AdmitError {
    /// The lowest product whose operands share a source, and the lowest source that they share.
    Refused { product: u32, source: u32 },
    /// There is no memory.
    NoMemory,
}

/// A circuit that is accepted, and so non-interfering with any number of shares.
#[derive(Drop)]
pub struct Admitted {
    circuit: Circuit,
}

impl Model for Admitted {
    ghost Value = { Netlist };

    ghost view = { λ a. a.circuit };

    ghost invariant = { λ a. IsAdmitted a.circuit };
}

impl Admitted {
    /// The circuit.
    pub fn circuit(&self) -> &Circuit
        ensures same { result.now ≡ self.now }
        ensures circuit { IsCircuit self.now }
        ensures accepted { IsAccepted self.now }
        ensures secure { IsNIAtEachOrder self.now }
    {
        &self.circuit
    }
}

/// Admits a circuit where it is accepted; a refused circuit is dropped. The steps are those of `check`: where memory runs
/// out, no value was visited.
pub fn admit<L: Ledger>(
    alloc: Global,
    circuit: Circuit,
    steps: &mut Steps<L>,
) -> Result<Admitted, AdmitError>
    ensures admitted { IfOk result (λ a. a ≡ circuit) }
    ensures accepted { IfOk result (λ a. IsAccepted a) }
    ensures secure { IfOk result (λ a. IsNIAtEachOrder a) }
    ensures refused { IfErr result (λ e. IsRefusal circuit e) }
    ensures steps { steps.new ≤ steps.old + most_steps circuit }
    ensures unvisited { result ≡ Err AdmitError.NoMemory → steps.new ≡ steps.old }
{
    let _values = circuit.values();
    match check(alloc, &circuit, steps) {
        Ok(Verdict::Accepted) => Ok(Admitted { circuit }),
        Ok(Verdict::Refused { product, source }) => Err(AdmitError::Refused { product, source }),
        Err(AllocError) => Err(AdmitError::NoMemory),
    }
}
