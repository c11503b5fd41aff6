//! The product of two shared bits.

ghost use Rattle.std.specs.Prelude.{◌≡◌, ℕ, ◌+◌, ◌<◌, ◌&&◌, Bool, List, [], ◌∷◌, length, All, IfOk};
ghost use Rattle.mask_circuit.specs.Netlist.{value_count};
ghost use Rattle.mask_circuit.specs.Value.{value_at, plain_values};
ghost use Rattle.mask_circuit.specs.Acceptance.{IsTidy};
ghost use Rattle.mask_parts.specs.Drafts.{with_gates, Lays};
ghost use Rattle.mask_parts.specs.Tables.{product_gates};
ghost use Rattle.mask_parts.specs.Tidiness.{IsFree, KeepsTidy};

use mask_circuit::{Builder, CircuitError};

/// Lays a refresh of v, and then the product of u and that refresh. Ok is the number of the product.
pub fn product(b: &mut Builder, u: u32, v: u32) -> Result<u32, CircuitError>
    requires u_known { u < value_count b.old }
    requires v_known { v < value_count b.old }
    ensures laid { Lays b.old (with_gates b.old (product_gates (value_count b.old) u v)) (value_count b.old + 1) b.new result }
    ensures plain { IfOk result (λ w. (x : List Bool) → length x ≡ b.old.inputs →
        value_at (plain_values b.new x) w ≡ (value_at (plain_values b.old x) u && value_at (plain_values b.old x) v)) }
    ensures tidy { IfOk result (λ w. IsTidy b.old → IsFree b.old u → IsFree b.old v → KeepsTidy b.old b.new (w ∷ [])) }
{
    let _values = b.values();
    let fresh = b.refresh(v)?;
    b.and(u, fresh)
}
