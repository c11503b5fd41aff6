//! The check of a circuit.

ghost use Rattle.std.specs.Prelude.{◌≡◌, ℕ, ◌+◌, ◌<◌, ◌≤◌, length, IfOk, OnErr};
ghost use Rattle.mask_circuit.specs.Netlist.{IsCircuit, value_count};
ghost use Rattle.mask_check.specs.Batches.{IsBatch};
ghost use Rattle.mask_check.specs.Costs.{most_steps};
ghost use Rattle.mask_check.specs.Marks.{IsClearFrom};
ghost use Rattle.mask_check.specs.Security.{IsNIAtEachOrder};
ghost use Rattle.mask_check.specs.Verdicts.{IsVerdict, IsVerdictBelow, IsAcceptedBelow};

use crate::backward::pass;
use crate::batches::{Batch, next_batch};
use mask_circuit::{Circuit, Steps};
use std::alloc::{AllocError, Global};
use std::sync::ledger::Ledger;

/// The answer of a check.
#[derive(Clone, Copy, Debug, PartialEq, Eq)]
pub enum Verdict {
    /// No product has operands that reach one source.
    Accepted,
    /// The lowest product whose operands share a source, and the lowest source that they share.
    Refused { product: u32, source: u32 },
}

/// The verdict on a batch, where no earlier product shares a source. Takes all marks off.
fn judge_batch<L: Ledger>(
    circuit: &Circuit,
    batch: &Batch,
    left: &mut [u64],
    right: &mut [u64],
    steps: &mut Steps<L>,
) -> Verdict
    requires circuit { IsCircuit circuit.now }
    requires batch { IsBatch circuit.now batch.now left.old right.old }
    requires earlier { IsAcceptedBelow circuit.now batch.now.from }
    ensures verdict { IsVerdictBelow circuit.now batch.now.until result }
    ensures left_clear { IsClearFrom 0 left.new }
    ensures right_clear { IsClearFrom 0 right.new }
    ensures steps { steps.new ≡ steps.old + batch.now.until }
{
    let meeting = pass(circuit, batch.until, left, right, steps);
    if meeting.bit >= 64 {
        return Verdict::Accepted;
    }
    Verdict::Refused {
        product: batch.products[meeting.bit as usize],
        source: meeting.source,
    }
}

/// The verdict on a circuit, batch by batch, on words without marks.
fn judge<L: Ledger>(
    circuit: &Circuit,
    left: &mut [u64],
    right: &mut [u64],
    steps: &mut Steps<L>,
) -> Verdict
    requires left_size { length left.old ≡ value_count circuit.now }
    requires right_size { length right.old ≡ value_count circuit.now }
    requires left_clear { IsClearFrom 0 left.old }
    requires right_clear { IsClearFrom 0 right.old }
    ensures verdict { IsVerdict circuit.now result }
    ensures steps { steps.new ≤ steps.old + most_steps circuit.now }
{
    let values = circuit.values();
    let mut from = 0;
    while from < values {
        let batch = next_batch(circuit, from, left, right, steps);
        if batch.count == 0 {
            return Verdict::Accepted;
        }
        let verdict = judge_batch(circuit, &batch, left, right, steps);
        if let Verdict::Refused { .. } = verdict {
            return verdict;
        }
        from = batch.until;
    }
    Verdict::Accepted
}

/// Whether a circuit is accepted, and else its clash. An accepted circuit is non-interfering with any number of shares.
///
/// A step is a value visited: each value once in search of products, and once more for each 64 products or fewer. Memory can
/// run out before the first visit alone.
pub fn check<L: Ledger>(
    alloc: Global,
    circuit: &Circuit,
    steps: &mut Steps<L>,
) -> Result<Verdict, AllocError>
    ensures verdict { IfOk result (λ v. IsVerdict circuit.now v) }
    ensures secure { IfOk result (λ v. v ≡ Verdict.Accepted → IsNIAtEachOrder circuit.now) }
    ensures steps { steps.new ≤ steps.old + most_steps circuit.now }
    ensures unvisited { OnErr result (steps.new ≡ steps.old) }
{
    let values = circuit.values() as usize;
    let mut left = vec![in alloc; 0u64; values]?;
    let mut right = vec![in alloc; 0u64; values]?;
    Ok(judge(circuit, &mut left, &mut right, steps))
}
