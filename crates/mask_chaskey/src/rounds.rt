//! The twelve rounds.

ghost use Rattle.std.specs.Prelude.{◌≡◌, ℕ, ◌<◌, List, length, All};
ghost use Rattle.mask_circuit.specs.Netlist.{value_count};
ghost use Rattle.mask_parts.specs.Drafts.{Lays};
ghost use Rattle.mask_parts.specs.Words32.{AreWordsOf};
ghost use Rattle.mask_chaskey.specs.Rounds.{stage, with_permutation};

use crate::blocks::Word;
use crate::round::round;
use mask_circuit::{Builder, CircuitError};

// How many rounds there are.
const ROUNDS: usize = 12;

/// The block after all rounds.
pub(crate) fn permute(b: &mut Builder, block: &[Word; 4]) -> Result<[Word; 4], CircuitError>
    requires { AreWordsOf b.old block.now }
    ensures { let s = with_permutation (stage b.old block.now) in Lays b.old s.draft s.block b.new result }
{
    let _values = b.values();
    let mut state = *block;
    for _i in 0..ROUNDS {
        state = match round(b, &state) {
            Ok(state) => state,
            Err(e) => return Err(e),
        };
    }
    Ok(state)
}
