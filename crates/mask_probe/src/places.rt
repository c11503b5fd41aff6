//! Where probes stand: the value of each, and its number among the wires of that value.

ghost use Rattle.std.specs.Prelude.{◌≡◌, ◌<◌, ◌≤◌, IfOk, IfErr, OnOk};
ghost use Rattle.mask_circuit.specs.Need.{probes_at};
ghost use Rattle.mask_probe.specs.Asking.{AreProbes, IsProbeRefusal};
ghost use Rattle.mask_probe.specs.Placing.{ArePlaced, wires_of};
ghost use Rattle.mask_probe.specs.declared.errors.ProbeError.TheVariants.{NoMemory};

use crate::errors::ProbeError;
use arrayvec::ArrayVec;
use mask_circuit::Circuit;

/// A probe: the value on whose wires it is, and the number of its wire there. A product of 8 shares has 204 wires, so the
/// number fits a byte.
#[derive(Clone, Copy, Default)]
pub(crate) struct Placed {
    pub(crate) value: u32,
    pub(crate) part: u8,
}

/// The places of probes, which are fewer than the shares.
pub(crate) fn locate<const N: usize>(
    circuit: &Circuit,
    probes: &[u32],
) -> Result<ArrayVec<Placed, 7>, ProbeError>
    requires some { 2 ≤ N }
    requires few { N ≤ 8 }
    ensures asked { OnOk result (AreProbes circuit.now N probes.now) }
    ensures places { IfOk result (λ placed. wires_of circuit.now N placed.items ≡ probes_at circuit.now N probes.now) }
    ensures known { IfOk result (λ placed. ArePlaced circuit.now N placed.items) }
    ensures refused { IfErr result (λ e. (e ≡ NoMemory → ⊥) × IsProbeRefusal circuit.now N probes.now e) }
{
    if probes.len() >= N {
        return Err(ProbeError::TooManyProbes);
    }
    let d = N as u32 - 1;
    let wires = circuit.wire_count(d);
    let mut placed = ArrayVec::new();
    for (place, &probe) in probes.iter().enumerate() {
        if probe >= wires {
            return Err(ProbeError::NoSuchWire {
                place: place as u32,
            });
        }
        let found = circuit.wire_place(d, probe);
        placed.push(Placed {
            value: found.value,
            part: found.part as u8,
        });
    }
    Ok(placed)
}
