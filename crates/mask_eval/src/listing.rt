//! A watch that keeps all that it is told.

ghost use Rattle.std.specs.Prelude.{◌≡◌, ℕ, ◌+◌, ◌*◌, ◌<◌, ◌≤◌, List, [], ◌∷◌, ◌++◌, length, map, take, drop, All, Some, slice_get, IfOk, OnOk, OnErr};
ghost use Rattle.mask_bits.specs.Lanes.{lane};
ghost use Rattle.mask_circuit.specs.Netlist.{Netlist};
ghost use Rattle.mask_circuit.specs.Expansion.{draws};
ghost use Rattle.mask_eval.specs.Listing.{Listed, as_told, IsBlank, AreBlanksFor, Added, filled};
ghost use Rattle.mask_eval.specs.declared.listing.Seen.{Seen};

use crate::watching::Watch;
use mask_bits::Bits;
use mask_circuit::Circuit;
use std::alloc::{AllocError, Global};
use std::marker::Model;

/// One evaluation in one lane: the shares of inputs and outputs value by value, and the bits that products and
/// refreshes drew. The order is the number of shares less one.
#[derive(Drop)]
pub struct Seen {
    pub circuit: Circuit,
    pub order: u32,
    pub inputs: Bits,
    pub tape: Bits,
    pub outputs: Bits,
}

/// Keeps all that it is told, lane by lane.
#[derive(Drop)]
pub struct ListWatch {
    alloc: Global,
    // What was told, and then blanks for the next reports.
    list: Vec<Seen>,
    told: usize,
}

impl Model for ListWatch {
    ghost use Rattle.std.specs.Prelude.{◌≤◌, length, map, take, drop};
    ghost use Rattle.mask_eval.specs.Listing.{Listed, as_told};

    ghost Value = { Listed };

    ghost view = { λ w. record { told = map as_told (take w.told w.list.items); blank = map as_told (drop w.told w.list.items) } };

    ghost invariant = { λ w. w.told ≤ length w.list.items };
}

impl ListWatch {
    /// A watch that was told nothing.
    pub fn new(alloc: Global) -> ListWatch
        ensures told { result.told ≡ [] }
        ensures blank { result.blank ≡ [] }
    {
        ListWatch {
            alloc,
            list: Vec::new(alloc),
            told: 0,
        }
    }

    /// How many records there are.
    pub fn len(&self) -> usize
        ensures { result ≡ length self.now.told }
    {
        self.told
    }

    /// Record `k`.
    pub fn get(&self, k: usize) -> &Seen
        requires { k < length self.now.told }
        ensures { slice_get self.now.told k ≡ Some (as_told result.now) }
    {
        &self.list[k]
    }
}

impl Watch for ListWatch {
    ghost told = { λ w. Some w.told };

    ghost ready = { λ w es. AreBlanksFor es w.blank };

    fn cancel(&mut self) {
        self.list.truncate(self.told);
    }

    fn room(&mut self, circuit: &Circuit, order: u32, lanes: u32) -> Result<(), AllocError> {
        add_blanks(self.alloc, circuit, order, lanes as usize, &mut self.list)?;
        Ok(())
    }

    fn report(
        &mut self,
        _circuit: &Circuit,
        _order: u32,
        inputs: &[u64],
        coins: &[u64],
        outputs: &[u64],
        lanes: u32,
    ) {
        let end = self.told + lanes as usize;
        fill_blanks(inputs, coins, outputs, &mut self.list[self.told..end]);
        self.told = end;
    }
}

// A record of zeros.
fn blank(alloc: Global, circuit: &Circuit, order: u32) -> Result<Seen, AllocError>
    requires some { 1 ≤ order }
    requires few { order ≤ 7 }
    ensures { IfOk result (λ seen. IsBlank circuit.now order (as_told seen)) }
{
    let shares = order as usize + 1;
    let inputs = Bits::zeros(alloc, shares * circuit.inputs() as usize)?;
    let tape = Bits::zeros(alloc, circuit.draws(order) as usize)?;
    let outputs = Bits::zeros(alloc, shares * circuit.outputs().len())?;
    Ok(Seen {
        circuit: circuit.copy(alloc)?,
        order,
        inputs,
        tape,
        outputs,
    })
}

// Appends records of zeros, or none.
fn add_blanks(
    alloc: Global,
    circuit: &Circuit,
    order: u32,
    count: usize,
    list: &mut Vec<Seen>,
) -> Result<(), AllocError>
    requires some { 1 ≤ order }
    requires few { order ≤ 7 }
    ensures added { OnOk result (Added circuit.now order count list.old.items list.new.items) }
    ensures same { OnErr result (list.new.items ≡ list.old.items) }
{
    let before = list.len();
    match push_blanks(alloc, circuit, order, count, list) {
        Ok(()) => Ok(()),
        Err(error) => {
            list.truncate(before);
            Err(error)
        }
    }
}

// Appends records of zeros; a refusal leaves some of them.
fn push_blanks(
    alloc: Global,
    circuit: &Circuit,
    order: u32,
    count: usize,
    list: &mut Vec<Seen>,
) -> Result<(), AllocError>
    requires some { 1 ≤ order }
    requires few { order ≤ 7 }
    ensures front { take (length list.old.items) list.new.items ≡ list.old.items }
    ensures added { OnOk result (Added circuit.now order count list.old.items list.new.items) }
{
    for _ in 0..count {
        let seen = blank(alloc, circuit, order)?;
        list.push(seen)?;
    }
    Ok(())
}

// Fills the records, each with the bits of its lane.
fn fill_blanks(inputs: &[u64], coins: &[u64], outputs: &[u64], blanks: &mut [Seen])
    requires few { length blanks.old ≤ 64 }
    requires inputs { All (λ seen. length seen.inputs ≡ length inputs.now) blanks.old }
    requires tape { All (λ seen. length seen.tape ≡ length coins.now) blanks.old }
    requires outputs { All (λ seen. length seen.outputs ≡ length outputs.now) blanks.old }
    ensures { blanks.new ≡ filled inputs.now coins.now outputs.now 0 blanks.old }
{
    for l in 0..blanks.len() {
        fill(inputs, coins, outputs, l, &mut blanks[l]);
    }
}

// Fills a record with the bits of a lane.
fn fill(inputs: &[u64], coins: &[u64], outputs: &[u64], l: usize, seen: &mut Seen)
    requires lane { l < 64 }
    requires inputs { length seen.old.inputs ≡ length inputs.now }
    requires tape { length seen.old.tape ≡ length coins.now }
    requires outputs { length seen.old.outputs ≡ length outputs.now }
    ensures { seen.new ≡ record seen.old { inputs = lane l inputs.now; tape = lane l coins.now; outputs = lane l outputs.now } }
{
    copy_lane(inputs, l, &mut seen.inputs);
    copy_lane(coins, l, &mut seen.tape);
    copy_lane(outputs, l, &mut seen.outputs);
}

// Copies one lane of the words.
fn copy_lane(words: &[u64], l: usize, bits: &mut Bits)
    requires lane { l < 64 }
    requires room { length bits.old ≡ length words.now }
    ensures { bits.new ≡ lane l words.now }
{
    for (k, word) in words.iter().enumerate() {
        bits.set(k, (*word >> l) & 1 == 1);
    }
}
