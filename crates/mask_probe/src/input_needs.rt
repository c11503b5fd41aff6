//! Which input shares suffice for probes.

ghost use Rattle.std.specs.Prelude.{◌≡◌, ℕ, ◌<◌, ◌≤◌, length, All, IfOk, IfErr, OnOk};
ghost use Rattle.mask_circuit.specs.Probing.{HasAtMost, IsSimulated};
ghost use Rattle.mask_circuit.specs.Need.{need};
ghost use Rattle.mask_probe.specs.Asking.{AreProbes, IsProbeRefusal, IsWithin, has_share};

use crate::demands::demanded;
use crate::errors::ProbeError;
use crate::places::locate;
use crate::sets::Needs;
use mask_check::Admitted;
use std::alloc::Global;

/// For each input the shares that suffice for these probes: what they show has, over all random bits, the same
/// distribution for all inputs that agree on these shares. There are at most as many of each input as there are probes.
///
/// They come by a backward rule (Barthe and others 2016): a probe on an output share demands that share, a gate that acts
/// share by share demands of its operands what is demanded of it, and a product and a refresh demand of theirs what their
/// inner probes need.
pub fn needs<const N: usize>(
    alloc: Global,
    circuit: &Admitted,
    probes: &[u32],
) -> Result<Needs, ProbeError>
    requires some { 2 ≤ N }
    requires few { N ≤ 8 }
    ensures asked { OnOk result (AreProbes circuit.now N probes.now) }
    ensures count { IfOk result (λ n. length n ≡ circuit.now.inputs) }
    ensures need { IfOk result (λ n. (v i : ℕ) → v < circuit.now.inputs → i < N → has_share n v i ≡ need circuit.now N probes.now v i) }
    ensures within { IfOk result (λ n. All (IsWithin N) n) }
    ensures few_shares { OnOk result (HasAtMost circuit.now N (need circuit.now N probes.now) (length probes.now)) }
    ensures simulated { OnOk result (IsSimulated circuit.now N probes.now (need circuit.now N probes.now)) }
    ensures refused { IfErr result (λ e. IsProbeRefusal circuit.now N probes.now e) }
{
    let placed = locate::<N>(circuit.circuit(), probes)?;
    let sets = demanded::<N>(alloc, circuit, &placed)?;
    Ok(Needs::first(sets, circuit.circuit().inputs()))
}
