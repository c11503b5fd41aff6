//! Which output share a wire of a product or a refresh is.

ghost use Rattle.std.specs.Prelude.{◌≡◌, ◌<◌, ◌≤◌, length, slice_index_or};
ghost use Rattle.mask_circuit.specs.declared.gates.Wire.TheVariants.{Share};
ghost use Rattle.mask_circuit.specs.Wires.{product_names, refresh_names};
ghost use Rattle.mask_sni.specs.Asked.{share_number};

use crate::wires::{product_wire, refresh_wire};
use mask_circuit::Wire;

/// The number of the output share that a wire of a product is, where it is one.
pub fn and_share<const N: usize>(wire: u8) -> Option<u8>
    requires some { 2 ≤ N }
    requires most { N ≤ 8 }
    requires known { wire < length (product_names N) }
    ensures { result ≡ share_number (slice_index_or (product_names N) wire (Share 0)) }
{
    output_share(product_wire(N as u8, wire))
}

/// The number of the output share that a wire of a refresh is, where it is one.
pub fn ref_share<const N: usize>(wire: u8) -> Option<u8>
    requires some { 2 ≤ N }
    requires most { N ≤ 8 }
    requires known { wire < length (refresh_names N) }
    ensures { result ≡ share_number (slice_index_or (refresh_names N) wire (Share 0)) }
{
    output_share(refresh_wire(N as u8, wire))
}

// The number of the output share that a wire is, where it is one.
fn output_share(wire: Wire) -> Option<u8>
    ensures { result ≡ share_number wire }
{
    match wire {
        Wire::Share(i) => Some(i),
        _ => None,
    }
}
