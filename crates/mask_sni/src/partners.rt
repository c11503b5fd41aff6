//! Which share can take up a change of another one, by the fresh bit of both.

ghost use Rattle.std.specs.Prelude.{◌≡◌, ◌==◌, ◌&&◌, not};
ghost use Rattle.mask_circuit.specs.Shift.{wire_between, partner, is_probed, is_some_of};
ghost use Rattle.mask_sni.specs.Asked.{in_places};
ghost use Rattle.mask_sni.specs.Kinds.{pair_wire, touched};

use crate::Places;
use crate::wires::{Kind, is_between, touches};
use mask_circuit::Wire;

/// Whether the fresh bit of shares i and k is flipped for share i: it is named, changes, and isn't touched, and k is its
/// partner.
pub(crate) fn is_flipped_with(
    kind: Kind,
    n: u8,
    wires: &[Wire],
    outputs: &Places,
    changes: bool,
    i: u8,
    k: u8,
) -> bool
    ensures { result
        ≡ ((in_places outputs.now.items i && not (touched kind wires.now i) && changes)
        && is_some_of (partner n (pair_wire kind) wires.now (touched kind wires.now) (in_places outputs.now.items) i) k) }
{
    is_place(outputs, i)
        && !touches(kind, wires, i)
        && changes
        && partner(kind, n, wires, outputs, i) == Some(k)
}

// The partner of share i: the lowest other share that no probe touches, that isn't named, and whose wire with share i
// isn't probed.
fn partner(kind: Kind, n: u8, wires: &[Wire], outputs: &Places, i: u8) -> Option<u8>
    ensures { result
        ≡ partner n (pair_wire kind) wires.now (touched kind wires.now) (in_places outputs.now.items) i }
{
    (0..n).find(|&k| is_free(kind, wires, outputs, i, k))
}

// Whether share k can be the partner of share i.
fn is_free(kind: Kind, wires: &[Wire], outputs: &Places, i: u8, k: u8) -> bool
    ensures { result
        ≡ (not (k == i) && not (touched kind wires.now k) && not (in_places outputs.now.items k)
        && not (is_probed wires.now (wire_between (pair_wire kind) i k))) }
{
    k != i
        && !touches(kind, wires, k)
        && !is_place(outputs, k)
        && !is_probed_between(kind, wires, i, k)
}

/// Whether the wire between shares i and k is probed.
pub(crate) fn is_probed_between(kind: Kind, wires: &[Wire], i: u8, k: u8) -> bool
    ensures { result ≡ is_probed wires.now (wire_between (pair_wire kind) i k) }
{
    wires.iter().any(|wire| is_between(kind, *wire, i, k))
}

// Whether a list of places names share i.
fn is_place(places: &Places, i: u8) -> bool
    ensures { result ≡ in_places places.now.items i }
{
    places.as_slice().contains(&i)
}
