//! The mask of a product: which fresh bits differ between two sides of its operands.

ghost use Rattle.std.specs.Prelude.{◌≡◌, ◌<◌, ◌≤◌, ◌==◌, ◌&&◌, not};
ghost use Rattle.mask_circuit.specs.Shift.{product_change, product_base, cross_change, share_change, product_mask};
ghost use Rattle.mask_sni.specs.Asked.{bit_shares, in_places, operand_sides};

use crate::Places;
use crate::partners::{is_flipped_with, is_probed_between};
use crate::wires::{Kind, touches};
use mask_bits::bit_of;
use mask_circuit::Wire;

/// An operand on two sides: bit i is share i.
#[derive(Clone, Copy)]
pub(crate) struct Sides {
    pub(crate) one: u8,
    pub(crate) two: u8,
}

/// Whether the fresh bit of the pair (i, j) is flipped, where a and b are the operands.
pub(crate) fn is_flipped(
    n: u8,
    wires: &[Wire],
    outputs: &Places,
    a: Sides,
    b: Sides,
    i: u8,
    j: u8,
) -> bool
    requires some { 2 ≤ n }
    requires most { n ≤ 8 }
    requires row { i < j }
    requires column { j < n }
    ensures { result
        ≡ product_mask n wires.now (in_places outputs.now.items) (operand_sides a) (operand_sides b) i j }
{
    let i_changes = share_changes(n, wires, a, b, i);
    let j_changes = share_changes(n, wires, a, b, j);
    let by_row = is_flipped_with(Kind::Product, n, wires, outputs, i_changes, i, j);
    let by_column = is_flipped_with(Kind::Product, n, wires, outputs, j_changes, j, i);
    base(wires, a, b, i, j) ^ (by_row ^ by_column)
}

// Whether output share i changes with the sides under the mask before any flip.
fn share_changes(n: u8, wires: &[Wire], a: Sides, b: Sides, i: u8) -> bool
    requires some { 2 ≤ n }
    requires most { n ≤ 8 }
    requires row { i < n }
    ensures { result
        ≡ share_change n (operand_sides a) (operand_sides b) (product_base wires.now (operand_sides a) (operand_sides b)) i }
{
    let mut changes = term_changes(a, b, i, i);
    for k in 0..n {
        changes ^= column_changes(wires, a, b, i, k);
    }
    changes
}

// Whether what column k adds to row i changes with the sides under the mask before any flip: r_ik, and nothing in
// column i.
fn column_changes(wires: &[Wire], a: Sides, b: Sides, i: u8, k: u8) -> bool
    requires row { i < 8 }
    requires column { k < 8 }
    ensures { result
        ≡ (not (i == k) && cross_change (operand_sides a) (operand_sides b)
        (product_base wires.now (operand_sides a) (operand_sides b)) i k) }
{
    if i == k {
        false
    } else if i < k {
        base(wires, a, b, i, k)
    } else {
        base(wires, a, b, k, i) ^ term_changes(a, b, k, i) ^ term_changes(a, b, i, k)
    }
}

// The bit of the pair (i, j) in the mask before any flip.
fn base(wires: &[Wire], a: Sides, b: Sides, i: u8, j: u8) -> bool
    requires row { i < j }
    requires column { j < 8 }
    ensures { result ≡ product_base wires.now (operand_sides a) (operand_sides b) i j }
{
    if touches(Kind::Product, wires, i) {
        false
    } else if touches(Kind::Product, wires, j) {
        term_changes(a, b, i, j) ^ term_changes(a, b, j, i)
    } else {
        is_probed_between(Kind::Product, wires, i, j) && term_changes(a, b, i, j)
    }
}

// Whether a_i · b_j changes with the sides.
fn term_changes(a: Sides, b: Sides, i: u8, j: u8) -> bool
    requires row { i < 8 }
    requires column { j < 8 }
    ensures { result ≡ product_change (operand_sides a) (operand_sides b) i j }
{
    let one = share_of(a.one, i) && share_of(b.one, j);
    let two = share_of(a.two, i) && share_of(b.two, j);
    one ^ two
}

/// Share i of an operand.
pub(crate) fn share_of(shares: u8, i: u8) -> bool
    requires { i < 8 }
    ensures { result ≡ bit_shares shares i }
{
    bit_of(shares as u64, i as u32)
}
