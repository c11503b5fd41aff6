//! The fence at a circuit's outputs.

ghost use Rattle.std.specs.Prelude.{◌≡◌, ℕ, ◌+◌, ◌-◌, ◌<◌, ◌≤◌, Bool, List, [], ◌++◌, length, map, All, IfOk, OnOk};
ghost use Rattle.std.specs.List.{range_with_len};
ghost use Rattle.mask_circuit.specs.declared.gates.Gate.TheVariants.{Ref};
ghost use Rattle.mask_circuit.specs.Netlist.{value_count};
ghost use Rattle.mask_circuit.specs.Value.{plain};
ghost use Rattle.mask_circuit.specs.Acceptance.{IsAccepted, IsStrong, IsTidy};
ghost use Rattle.mask_parts.specs.Drafts.{with_gates, with_outputs, bits_of, Lays};
ghost use Rattle.mask_parts.specs.Fences.{with_fence};
ghost use Rattle.mask_parts.specs.Tidiness.{IsFree, KeepsTidy};

use mask_circuit::{Builder, CircuitError};

/// Refreshes each value in order, and then hands out each refresh in order.
pub fn fence_outputs(b: &mut Builder, values: &[u32]) -> Result<(), CircuitError>
    requires { All (λ u. u < value_count b.old) values.now }
    ensures laid { Lays b.old (with_fence b.old values.now) tt b.new result }
    ensures plain { OnOk result ((x : List Bool) → length x ≡ b.old.inputs → plain b.new x ≡ plain b.old x ++ bits_of b.old x values.now) }
    ensures strong { OnOk result (b.old.outputs ≡ [] → IsAccepted b.old → IsStrong b.new) }
    ensures tidy { OnOk result (IsTidy b.old → All (λ u. IsFree b.old u) values.now → KeepsTidy b.old b.new []) }
{
    let first = b.values();
    refresh_all(b, values)?;
    let end = b.values();
    out_all(b, first, end)
}

fn refresh_all(b: &mut Builder, values: &[u32]) -> Result<(), CircuitError>
    requires { All (λ u. u < value_count b.old) values.now }
    ensures { Lays b.old (with_gates b.old (map Ref values.now)) tt b.new result }
{
    let _values = b.values();
    for value in values {
        b.refresh(*value)?;
    }
    Ok(())
}

// Hands out the values from first up to end.
fn out_all(b: &mut Builder, first: u32, end: u32) -> Result<(), CircuitError>
    requires order { first ≤ end }
    requires known { end ≤ value_count b.old }
    ensures { Lays b.old (with_outputs b.old (range_with_len first (end - first))) tt b.new result }
{
    let _values = b.values();
    for value in first..end {
        b.out(value)?;
    }
    Ok(())
}
