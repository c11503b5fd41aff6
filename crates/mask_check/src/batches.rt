//! The products of a circuit, 64 at a time.

ghost use Rattle.std.specs.Prelude.{◌≡◌, ℕ, ◌+◌, ◌<◌, ◌≤◌, length};
ghost use Rattle.mask_circuit.specs.Netlist.{IsCircuit, value_count};
ghost use Rattle.mask_check.specs.Marks.{HasOperandsBelow, IsClearFrom};

use crate::marks::{add_marks, mark};
use mask_circuit::{Circuit, Gate, Steps};
use std::sync::ledger::Ledger;

/// How many products a batch has room for: one for each bit of a word.
const BATCH_SIZE: usize = 64;

/// The products among the values from `from` to before `until`, in rising order. The operands of product j have mark j.
#[derive(Drop)]
pub(crate) struct Batch {
    pub(crate) from: u32,
    pub(crate) until: u32,
    pub(crate) products: [u32; 64],
    pub(crate) count: usize,
}

impl Batch {
    ghost use Rattle.mask_check.specs.Batches.{batch_after, left_after, right_after};

    /// Takes in the next value: a product gets the next mark, and gives it to its operands.
    fn take_in(&mut self, gate: Option<Gate>, left: &mut [u64], right: &mut [u64])
        requires room { self.old.count < 64 }
        requires next { self.old.until < 1_000_000 }
        requires on_left { HasOperandsBelow (length left.old) gate }
        requires on_right { HasOperandsBelow (length right.old) gate }
        ensures batch { self.new ≡ batch_after gate self.old }
        ensures left { left.new ≡ left_after gate self.old.count left.old }
        ensures right { right.new ≡ right_after gate self.old.count right.old }
    {
        if let Some(Gate::And(u, v)) = gate {
            let word = mark(self.count);
            add_marks(left, u, word);
            add_marks(right, v, word);
            self.products[self.count] = self.until;
            self.count += 1;
        }
        self.until += 1;
    }
}

ghost use Rattle.mask_check.specs.Batches.{IsBatch};

/// The next batch: all products from value `from` on, up to 64, with their operands marked. No value has a mark before.
pub(crate) fn next_batch<L: Ledger>(
    circuit: &Circuit,
    from: u32,
    left: &mut [u64],
    right: &mut [u64],
    steps: &mut Steps<L>,
) -> Batch
    requires from { from ≤ value_count circuit.now }
    requires left_size { length left.old ≡ value_count circuit.now }
    requires right_size { length right.old ≡ value_count circuit.now }
    requires left_clear { IsClearFrom 0 left.old }
    requires right_clear { IsClearFrom 0 right.old }
    ensures batch { IsBatch circuit.now result left.new right.new }
    ensures from { result.from ≡ from }
    ensures full { result.until < value_count circuit.now → result.count ≡ 64 }
    ensures steps { steps.new + from ≡ steps.old + result.until }
{
    let values = circuit.values();
    let mut batch = Batch {
        from,
        until: from,
        products: [0; BATCH_SIZE],
        count: 0,
    };
    while batch.until < values && batch.count < BATCH_SIZE {
        steps.tick();
        let gate = circuit.gate_at(batch.until);
        batch.take_in(gate, left, right);
    }
    batch
}
