//! Values in a row, and the XOR of each two of two rows.

ghost use Rattle.std.specs.Prelude.{◌≡◌, ℕ, ◌+◌, ◌<◌, ◌≤◌, ◌^◌, length, All};
ghost use Rattle.std.specs.List.{range_with_len};
ghost use Rattle.mask_circuit.specs.Netlist.{value_count};
ghost use Rattle.mask_parts.specs.Drafts.{with_gates, Lays};
ghost use Rattle.mask_parts.specs.Rows.{xor_gates};

use mask_circuit::{Builder, CircuitError};

/// Numbers the places, from `first` on.
pub fn number_from(places: &mut [u32], first: u32)
    requires { first + length places.old ≤ 2 ^ 32 }
    ensures { places.new ≡ range_with_len first (length places.old) }
{
    for (k, place) in places.iter_mut().enumerate() {
        *place = first + k as u32;
    }
}

/// Lays the XOR of each of these values with the one of the same number among the others. The values made follow each
/// other.
pub fn xor_all(b: &mut Builder, us: &[u32], vs: &[u32]) -> Result<(), CircuitError>
    requires same { length us.now ≡ length vs.now }
    requires us_known { All (λ u. u < value_count b.old) us.now }
    requires vs_known { All (λ u. u < value_count b.old) vs.now }
    ensures { Lays b.old (with_gates b.old (xor_gates us.now vs.now)) tt b.new result }
{
    let _values = b.values();
    for k in 0..us.len() {
        b.xor(us[k], vs[k])?;
    }
    Ok(())
}
