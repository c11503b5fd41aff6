//! `emit`: the text of a circuit that is built in.

ghost use Rattle.std.specs.Prelude.{◌≡◌, ◌+◌, ◌≤◌, IfOk};
ghost use Rattle.mask_io.specs.Outside.{faults_after};
ghost use Rattle.mask_check.specs.Costs.{most_steps};
ghost use Rattle.mask_parts.specs.CipherCircuits.{IsCipherCircuit};
ghost use Rattle.mask_status.specs.Ends.{ComesBeforeWriting, is_write_fault};
ghost use Rattle.mask_emit.specs.Emitting.{named, sizes, computed, Emits};

use mask_chaskey::{chaskey_end_short, chaskey_end_whole, chaskey_step};
use mask_check::Strong;
use mask_circuit::Steps;
use mask_io::Sink;
use mask_lea::{LeaSize, lea_circuit};
use mask_lightmac::{lightmac_end, lightmac_step};
use mask_present::{KeySize, present_circuit};
use mask_refresh::refresh_circuit;
use mask_status::Status;
use mask_tasks::Named;
use mask_text::write_circuit;
use mask_trivium::{trivium_start, trivium_step};
use std::alloc::{AllocError, Global};
use std::sync::ledger::Ledger;

/// Builds the circuit of this name, and writes its text in the one spelling of version 1.
///
/// The circuit is strong. A step is a value that the checker visits.
pub fn emit<O: Sink, L: Ledger>(
    alloc: Global,
    circuit: Named,
    out: &mut O,
    steps: &mut Steps<L>,
) -> Status
    ensures ends { Emits (named circuit) (O.written out.old) (O.written out.new) result }
    ensures unwritten { ComesBeforeWriting result → out.new ≡ out.old }
    ensures out_faults { O.faults out.new ≡ faults_after (is_write_fault result) (O.faults out.old) }
    ensures steps { steps.new ≤ steps.old + most_steps (named circuit) }
{
    let strong = match built(alloc, circuit, steps) {
        Ok(strong) => strong,
        Err(_) => return Status::NoMemory,
    };
    match write_circuit(strong.admitted().circuit(), out) {
        Ok(()) => Status::Done,
        Err(_) => Status::WriteFault,
    }
}

// The circuit of this name. Only want of memory refuses it.
fn built<L: Ledger>(
    alloc: Global,
    circuit: Named,
    steps: &mut Steps<L>,
) -> Result<Strong, AllocError>
    ensures circuit { IfOk result (IsCipherCircuit (named circuit) (sizes circuit) (computed circuit)) }
    ensures steps { steps.new ≤ steps.old + most_steps (named circuit) }
{
    match circuit {
        Named::Present80 => present_circuit(alloc, KeySize::K80, steps),
        Named::Present128 => present_circuit(alloc, KeySize::K128, steps),
        Named::Lea128 => lea_circuit(alloc, LeaSize::K128, steps),
        Named::Lea192 => lea_circuit(alloc, LeaSize::K192, steps),
        Named::Lea256 => lea_circuit(alloc, LeaSize::K256, steps),
        Named::Refresh80 => refresh_circuit(alloc, 80, steps),
        Named::Refresh128 => refresh_circuit(alloc, 128, steps),
        Named::Refresh192 => refresh_circuit(alloc, 192, steps),
        Named::Refresh256 => refresh_circuit(alloc, 256, steps),
        Named::TriviumStart => trivium_start(alloc, steps),
        Named::TriviumStep => trivium_step(alloc, steps),
        Named::LightmacStep80 => lightmac_step(alloc, KeySize::K80, steps),
        Named::LightmacEnd80 => lightmac_end(alloc, KeySize::K80, steps),
        Named::LightmacStep128 => lightmac_step(alloc, KeySize::K128, steps),
        Named::LightmacEnd128 => lightmac_end(alloc, KeySize::K128, steps),
        Named::ChaskeyStart => refresh_circuit(alloc, 128, steps),
        Named::ChaskeyStep => chaskey_step(alloc, steps),
        Named::ChaskeyEndWhole => chaskey_end_whole(alloc, steps),
        Named::ChaskeyEndShort => chaskey_end_short(alloc, steps),
    }
}
