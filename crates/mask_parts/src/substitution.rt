//! The S-box of PRESENT.

ghost use Rattle.std.specs.Prelude.{◌≡◌, ℕ, ◌<◌, ◌≤◌, Bool, List, length, All, IfOk};
ghost use Rattle.mask_bits.specs.Reading.{number};
ghost use Rattle.mask_circuit.specs.Netlist.{value_count};
ghost use Rattle.mask_circuit.specs.Acceptance.{IsTidy};
ghost use Rattle.mask_parts.specs.Drafts.{Lays, bits_of};
ghost use Rattle.mask_parts.specs.PresentSbox.{sbox, sbox_steps, sbox_results, with_sbox};
ghost use Rattle.mask_parts.specs.Tidiness.{IsFree, KeepsTidy};

use crate::tables::Place::{Given, Made};
use crate::tables::Step::{self, Not, Product, Xor};
use crate::tables::lay;
use mask_circuit::{Builder, CircuitError};

/// The S-box of PRESENT by five products, on four bits of which the first is the lowest. Ok has the four result bits.
pub fn sbox4_present(b: &mut Builder, x: [u32; 4]) -> Result<[u32; 4], CircuitError>
    requires { All (λ u. u < value_count b.old) x }
    ensures laid { Lays b.old (with_sbox b.old x) (sbox_results (value_count b.old)) b.new result }
    ensures plain { IfOk result (λ y. (input : List Bool) → length input ≡ b.old.inputs →
        number (bits_of b.new input y) ≡ sbox (number (bits_of b.old input x))) }
    ensures tidy { IfOk result (λ y. IsTidy b.old → All (λ u. IsFree b.old u) x → KeepsTidy b.old b.new y) }
{
    let first = lay(b, &x, &steps())?;
    Ok(results(first))
}

// The values of the result's bits, where the first step makes value `first`.
fn results(first: u32) -> [u32; 4]
    requires { first ≤ 1_000_000 }
    ensures { result ≡ sbox_results first }
{
    [first + 16, first + 17, first + 21, first + 25]
}

// Behind each step stands the number of the value that it makes.
fn steps() -> [Step; 21]
    ensures { result ≡ sbox_steps }
{
    [
        Product(Given(1), Given(2)), // 1
        Xor(Given(1), Given(2)), // 2
        Product(Given(3), Made(2)), // 4
        Product(Given(1), Given(3)), // 6
        Xor(Made(1), Made(4)), // 7
        Product(Given(0), Made(7)), // 9
        Xor(Given(1), Given(3)), // 10
        Xor(Made(10), Made(4)), // 11
        Product(Given(0), Made(11)), // 13
        Xor(Given(0), Given(2)), // 14
        Xor(Made(14), Given(3)), // 15
        Xor(Made(15), Made(1)), // 16
        Xor(Made(11), Made(9)), // 17
        Xor(Given(2), Given(3)), // 18
        Xor(Made(18), Made(6)), // 19
        Xor(Made(19), Made(13)), // 20
        Not(Made(20)), // 21
        Xor(Given(0), Made(10)), // 22
        Xor(Made(22), Made(1)), // 23
        Xor(Made(23), Made(9)), // 24
        Not(Made(24)), // 25
    ]
}
