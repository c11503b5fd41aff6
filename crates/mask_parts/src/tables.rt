//! Parts of fixed shape as tables of steps.

ghost use Rattle.std.specs.Prelude.{◌≡◌, ℕ, ◌+◌, ◌-◌, ◌<◌, ◌≤◌, ◌^◌, Bool, true, List, [], ◌∷◌, length, All, IfOk, IsTrue};
ghost use Rattle.std.specs.List.{range_with_len};
ghost use Rattle.mask_circuit.specs.Netlist.{value_count};
ghost use Rattle.mask_circuit.specs.Value.{value_at};
ghost use Rattle.mask_circuit.specs.Acceptance.{IsTidy};
ghost use Rattle.mask_parts.specs.Drafts.{with_gates, Lays, bits_of};
ghost use Rattle.mask_parts.specs.Tables.{place_value, IsPlace, ArePlaces, is_part, step_gates, step_result, with_part, part_bits, part_usable};
ghost use Rattle.mask_parts.specs.Tidiness.{IsFree, KeepsTidy};

use crate::products::product;
use mask_circuit::{Builder, CircuitError};

/// Where a step finds an operand.
#[derive(Clone, Copy, Debug, PartialEq, Eq)]
pub enum Place {
    /// The value of that number among those handed to the part.
    Given(u32),
    /// The value of that number among those made by the part.
    Made(u32),
}

/// A step of a part. It makes one value, or two where it is a product.
#[derive(Clone, Copy, Debug, PartialEq, Eq)]
pub enum Step {
    /// The XOR of two values.
    Xor(Place, Place),
    /// The NOT of a value.
    Not(Place),
    /// A refresh of the second value, and then the product of the first value and the refresh.
    Product(Place, Place),
}

fn value_of(first: u32, operands: &[u32], place: Place) -> u32
    requires { IsPlace (length operands.now) (2 ^ 32 - first) place }
    ensures { result ≡ place_value first operands.now place }
{
    match place {
        Place::Given(k) => operands[k as usize],
        Place::Made(k) => first + k,
    }
}

// Lays one step of the part that began at value `first`. Ok is the last value that it makes.
fn lay_step(b: &mut Builder, first: u32, operands: &[u32], step: Step) -> Result<u32, CircuitError>
    requires begun { first ≤ value_count b.old }
    requires known { All (λ u. u < value_count b.old) operands.now }
    requires places { ArePlaces (length operands.now) (value_count b.old - first) step }
    ensures { Lays b.old (with_gates b.old (step_gates first operands.now (value_count b.old - first) step))
        (step_result (value_count b.old) step) b.new result }
{
    let _values = b.values();
    match step {
        Step::Xor(p, q) => b.xor(value_of(first, operands, p), value_of(first, operands, q)),
        Step::Not(p) => b.not(value_of(first, operands, p)),
        Step::Product(p, q) => product(
            b,
            value_of(first, operands, p),
            value_of(first, operands, q),
        ),
    }
}

/// Lays a part. Ok is the number of the first value that it makes, and the others follow it.
pub fn lay(b: &mut Builder, operands: &[u32], steps: &[Step]) -> Result<u32, CircuitError>
    requires known { All (λ u. u < value_count b.old) operands.now }
    requires sound { IsTrue (is_part (length operands.now) steps.now) }
    ensures laid { Lays b.old (with_part b.old operands.now steps.now) (value_count b.old) b.new result }
    ensures plain { IfOk result (λ n. (x : List Bool) → length x ≡ b.old.inputs →
        bits_of b.new x (range_with_len n (length (part_usable steps.now))) ≡ part_bits (bits_of b.old x operands.now) steps.now) }
    ensures tidy { IfOk result (λ n. IsTidy b.old → All (λ u. IsFree b.old u) operands.now →
        KeepsTidy b.old b.new [] × ((k : ℕ) → value_at (part_usable steps.now) k ≡ true → IsFree b.new (n + k))) }
{
    let first = b.values();
    for step in steps {
        lay_step(b, first, operands, *step)?;
    }
    Ok(first)
}
