//! Outputs that stand by themselves.

ghost use Rattle.std.specs.Prelude.{◌≡◌, ◌↔◌, length, IfOk, IsTrue};
ghost use Rattle.mask_circuit.specs.Netlist.{value_count};
ghost use Rattle.mask_check.specs.Fencing.{FlagsOperands, IsGapOrNone, IsRefresh, with_operands};
ghost use Rattle.mask_check.specs.Marks.{HasOperandsBelow};

use mask_circuit::{Circuit, Gate};
use std::alloc::{AllocError, Global};

/// Flags the operands of a gate.
fn flag_operands(gate: Option<Gate>, flags: &mut [bool])
    requires { HasOperandsBelow (length flags.old) gate }
    ensures { flags.new ≡ with_operands gate flags.old }
{
    match gate {
        Some(Gate::Xor(u, v)) | Some(Gate::And(u, v)) => {
            flags[u as usize] = true;
            flags[v as usize] = true;
        }
        Some(Gate::Not(u)) | Some(Gate::Ref(u)) => flags[u as usize] = true,
        _ => {}
    }
}

/// Flags the operands of all gates.
fn flag_all_operands(circuit: &Circuit, flags: &mut [bool])
    requires { FlagsOperands circuit.now 0 flags.old }
    ensures { FlagsOperands circuit.now (value_count circuit.now) flags.new }
{
    for value in 0..circuit.values() {
        flag_operands(circuit.gate_at(value), flags);
    }
}

/// Whether the gate is a refresh.
fn is_refresh(gate: Option<Gate>) -> bool
    ensures { IsTrue result ↔ IsRefresh gate }
{
    matches!(gate, Some(Gate::Ref(_)))
}

/// The lowest gap, found with a flag for each value, none of which is set yet. Flags stand for the operands of gates and for
/// the outputs at earlier places, so that an output is a fence where it is a refresh without a flag.
fn find_gap(circuit: &Circuit, flags: &mut [bool]) -> Option<u32>
    requires { FlagsOperands circuit.now 0 flags.old }
    ensures { IsGapOrNone circuit.now result }
{
    flag_all_operands(circuit, flags);
    for (place, output) in circuit.outputs().iter().enumerate() {
        let value = *output;
        if !is_refresh(circuit.gate_at(value)) || flags[value as usize] {
            return Some(place as u32);
        }
        flags[value as usize] = true;
    }
    None
}

/// The lowest place of an output that isn't a refresh, is used by a gate, or stands at an earlier place.
pub(crate) fn lowest_gap(alloc: Global, circuit: &Circuit) -> Result<Option<u32>, AllocError>
    ensures { IfOk result (λ gap. IsGapOrNone circuit.now gap) }
{
    let mut flags = vec![in alloc; false; circuit.values() as usize]?;
    Ok(find_gap(circuit, &mut flags))
}
