//! Which shares of the operands the probes on a product or a refresh need.

ghost use Rattle.std.specs.Prelude.{◌≡◌, ◌≤◌, length};
ghost use Rattle.arrayvec.specs.ArrayVec.{array_vec_len};
ghost use Rattle.mask_circuit.specs.Wires.{product_names, refresh_names};
ghost use Rattle.mask_circuit.specs.Need.{demands_right, product_rows, left_need, right_need, refresh_need};
ghost use Rattle.mask_sni.specs.Asked.{AreAsked, members, wires_at};
ghost use Rattle.mask_sni.specs.Kinds.{needed};

use crate::wires::{Kind, demands_left, probed_wires, touches};
use crate::{Places, Probes};
use mask_circuit::Wire;

/// The shares of the first and of the second operand of a product that the probes need: at most as many of each as
/// there are probes. Output shares need nothing.
pub fn and_needs<const N: usize>(probes: &Probes, outputs: &Places) -> (Places, Places)
    requires some { 2 ≤ N }
    requires most { N ≤ 8 }
    requires asked { AreAsked N (product_names N) probes.now.items outputs.now.items }
    ensures left { result.0.items ≡ members N (left_need (wires_at (product_names N) probes.now.items)) }
    ensures right { result.1.items ≡ members N (right_need (wires_at (product_names N) probes.now.items)) }
    ensures left_count { array_vec_len result.0 ≤ array_vec_len probes.now }
    ensures right_count { array_vec_len result.1 ≤ array_vec_len probes.now }
{
    let _ = outputs;
    let n = N as u8;
    let wires = probed_wires(Kind::Product, n, probes);
    let left = needed(n, &wires, Operand::First);
    let right = needed(n, &wires, Operand::Second);
    (left, right)
}

/// The shares of the operand of a refresh that the probes need: at most as many as there are probes.
pub fn ref_needs<const N: usize>(probes: &Probes, outputs: &Places) -> Places
    requires some { 2 ≤ N }
    requires most { N ≤ 8 }
    requires asked { AreAsked N (refresh_names N) probes.now.items outputs.now.items }
    ensures shares { result.items ≡ members N (refresh_need (wires_at (refresh_names N) probes.now.items)) }
    ensures count { array_vec_len result ≤ array_vec_len probes.now }
{
    let _ = outputs;
    let n = N as u8;
    needed(n, &probed_wires(Kind::Refresh, n, probes), Operand::Only)
}

/// An operand of a product or a refresh.
#[derive(Clone, Copy)]
pub(crate) enum Operand {
    /// The first one of a product.
    First,
    /// The second one of a product.
    Second,
    /// That of a refresh.
    Only,
}

// The shares of an operand that probes on these wires need.
fn needed(n: u8, wires: &[Wire], operand: Operand) -> Places
    requires { n ≤ 8 }
    ensures shares { result.items ≡ members n (needed operand wires.now) }
    ensures count { array_vec_len result ≤ length wires.now }
{
    let mut shares = Places::new();
    for i in 0..n {
        if is_needed(wires, operand, i) {
            shares.push(i);
        }
    }
    shares
}

// Whether they need share i of an operand.
fn is_needed(wires: &[Wire], operand: Operand, i: u8) -> bool
    ensures { result ≡ needed operand wires.now i }
{
    match operand {
        Operand::First => {
            touches(Kind::Product, wires, i) || wires.iter().any(|wire| demands_left(*wire, i))
        }
        Operand::Second => {
            touches(Kind::Product, wires, i)
                || wires.iter().any(|wire| demands_right(wires, *wire, i))
        }
        Operand::Only => touches(Kind::Refresh, wires, i),
    }
}

// Whether a probe on this wire demands share i of the second operand: a_j · b_i does, and a wire v between a touched row
// and row i that isn't touched.
fn demands_right(wires: &[Wire], wire: Wire, i: u8) -> bool
    ensures { result ≡ demands_right (product_rows wires.now) i wire }
{
    match wire {
        Wire::Product(_, l) => l == i,
        Wire::Left(k, l) => {
            let lower = touches(Kind::Product, wires, k);
            let higher = touches(Kind::Product, wires, l);
            (lower && !higher && l == i) || (higher && !lower && k == i)
        }
        _ => false,
    }
}
