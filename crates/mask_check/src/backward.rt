//! A pass over the values from the last to the first.

ghost use Rattle.std.specs.Prelude.{◌≡◌, ℕ, ◌+◌, ◌<◌, ◌≤◌, length};
ghost use Rattle.mask_circuit.specs.Netlist.{IsCircuit, value_count};
ghost use Rattle.mask_check.specs.Marks.{IsClearFrom, IsLowestMeeting};

use crate::marks::{lowest_common, take_marks};
use mask_circuit::{Circuit, Steps};
use std::sync::ledger::Ledger;

/// A mark, and a source that both a value with this mark on the left and one with it on the right reach. Mark 64 stands
/// for none.
#[derive(Clone, Copy)]
pub(crate) struct Meeting {
    pub(crate) bit: u32,
    pub(crate) source: u32,
}

/// Moves all marks down to the sources that their values reach, and takes them off there.
///
/// Returns the lowest mark that meets on both sides at a source, with the lowest such source: sources come in falling
/// order, so one that is as good as those before it is the better one. Afterwards no value has a mark.
pub(crate) fn pass<L: Ledger>(
    circuit: &Circuit,
    until: u32,
    left: &mut [u64],
    right: &mut [u64],
    steps: &mut Steps<L>,
) -> Meeting
    requires circuit { IsCircuit circuit.now }
    requires until { until ≤ value_count circuit.now }
    requires left_size { length left.old ≡ value_count circuit.now }
    requires right_size { length right.old ≡ value_count circuit.now }
    requires left_low { IsClearFrom until left.old }
    requires right_low { IsClearFrom until right.old }
    ensures meeting { IsLowestMeeting circuit.now left.old right.old 0 result }
    ensures left_clear { IsClearFrom 0 left.new }
    ensures right_clear { IsClearFrom 0 right.new }
    ensures steps { steps.new ≡ steps.old + until }
{
    let mut lowest = Meeting { bit: 64, source: 0 };
    let mut value = until;
    while value > 0 {
        value -= 1;
        steps.tick();
        // Most values have no mark.
        if left[value as usize] == 0 && right[value as usize] == 0 {
            continue;
        }
        let gate = circuit.gate_at(value);
        let on_left = take_marks(left, value, gate);
        let on_right = take_marks(right, value, gate);
        let bit = lowest_common(gate, on_left, on_right);
        if bit <= lowest.bit {
            lowest = Meeting { bit, source: value };
        }
    }
    lowest
}
