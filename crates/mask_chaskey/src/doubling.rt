//! The mask of a message's last block: the key doubled, once or twice.

ghost use Rattle.std.specs.Prelude.{◌≡◌, ℕ, ◌<◌, List, length, All};
ghost use Rattle.mask_circuit.specs.Netlist.{value_count};
ghost use Rattle.mask_parts.specs.Drafts.{Lays};
ghost use Rattle.mask_parts.specs.Words32.{AreWordsOf};
ghost use Rattle.mask_chaskey.specs.NamedChaskey.{with_doubled, with_last_mask};
ghost use Rattle.mask_chaskey.specs.Rounds.{stage};

use crate::blocks::{Word, all_values, four_words};
use mask_circuit::{Builder, CircuitError};
use mask_parts::Place::Given;
use mask_parts::Step::Xor;
use mask_parts::lay;

/// How a message ends.
#[derive(Clone, Copy, Debug, PartialEq, Eq)]
pub enum End {
    /// With a block of 16 bytes.
    Whole,
    /// With fewer bytes, or it's empty.
    Short,
}

// Twice a number of 128 bits modulo x^128 + x^7 + x^2 + x + 1.
fn double(b: &mut Builder, key: &[Word; 4]) -> Result<[Word; 4], CircuitError>
    requires { AreWordsOf b.old key.now }
    ensures { let s = with_doubled (stage b.old key.now) in Lays b.old s.draft s.block b.new result }
{
    let mut values = all_values(key);
    let first = lay(
        b,
        &values,
        &[
            Xor(Given(0), Given(127)),
            Xor(Given(1), Given(127)),
            Xor(Given(6), Given(127)),
        ],
    )?;
    values.rotate_right(1);
    values[1] = first;
    values[2] = first + 1;
    values[7] = first + 2;
    Ok(four_words(&values))
}

/// What the last block is masked with.
pub(crate) fn last_mask(
    b: &mut Builder,
    end: End,
    key: &[Word; 4],
) -> Result<[Word; 4], CircuitError>
    requires { AreWordsOf b.old key.now }
    ensures { let s = with_last_mask end (stage b.old key.now) in Lays b.old s.draft s.block b.new result }
{
    let _values = b.values();
    let twice = double(b, key)?;
    match end {
        End::Whole => Ok(twice),
        End::Short => double(b, &twice),
    }
}
