//! What watches evaluations: it is told the inputs, the coins and the outputs of each lane.

ghost use Rattle.std.specs.Prelude.{◌≡◌, ℕ, ◌+◌, ◌*◌, ◌≤◌, List, [], length, None, Option, OnOk, OnErr, IsOk};
ghost use Rattle.mask_circuit.specs.Netlist.{Netlist};
ghost use Rattle.mask_circuit.specs.Expansion.{draws};
ghost use Rattle.mask_eval.specs.Watching.{Told, Awaited, IsReadyFor, BecomesReadyFor, StaysReady, StaysReadyBehind, reports, told_more};

use mask_circuit::Circuit;
use std::alloc::AllocError;

/// Is told of each evaluation, lane by lane. A watch never changes what is evaluated.
///
/// It is made ready for one evaluation after another, and then told of them in the same order. The order of an evaluation
/// is the number of shares less one.
pub trait Watch {
    /// What it was told so far, where it tells that.
    ghost told: { Self → Option (List Told) };

    /// Whether it can take in the reports on these evaluations, one after another, without memory.
    ghost ready: { Self → List Awaited → Type 0 };

    /// Gives up all evaluations that the watch was made ready for.
    fn cancel(&mut self)
        ensures ready { ready self.new [] }
        ensures told { told self.new ≡ told self.old };

    /// Makes the watch ready for one evaluation more, behind all that it is ready for.
    fn room(&mut self, circuit: &Circuit, order: u32, lanes: u32) -> Result<(), AllocError>
        requires some { 1 ≤ order }
        requires few { order ≤ 7 }
        requires some_lanes { 1 ≤ lanes }
        requires few_lanes { lanes ≤ 64 }
        ensures ready { OnOk result (BecomesReadyFor (ready self.old) (ready self.new) circuit.now order lanes) }
        ensures refused { OnErr result (StaysReady (ready self.old) (ready self.new)) }
        ensures told { told self.new ≡ told self.old };

    /// Tells the watch of one evaluation of so many lanes. `inputs` has the shares of all inputs one value after another,
    /// `outputs` those of all outputs, and `coins` the words that were drawn.
    fn report(
        &mut self,
        circuit: &Circuit,
        order: u32,
        inputs: &[u64],
        coins: &[u64],
        outputs: &[u64],
        lanes: u32,
    )
        requires ready { IsReadyFor (ready self.old) circuit.now order lanes }
        requires some { 1 ≤ order }
        requires few { order ≤ 7 }
        requires some_lanes { 1 ≤ lanes }
        requires few_lanes { lanes ≤ 64 }
        requires inputs { length inputs.now ≡ (order + 1) * circuit.now.inputs }
        requires coins { length coins.now ≡ draws circuit.now (order + 1) }
        requires outputs { length outputs.now ≡ (order + 1) * length circuit.now.outputs }
        ensures told { told self.new ≡ told_more (told self.old) (reports circuit.now order inputs.now coins.now outputs.now lanes) }
        ensures ready { StaysReadyBehind (ready self.old) (ready self.new) circuit.now order lanes };
}

/// Keeps nothing, and is always ready.
#[derive(Clone, Copy, Debug)]
pub struct NoWatch;

impl Watch for NoWatch {
    ghost told = { λ _. None };

    ghost ready = { λ _ _. Unit {0} };

    fn cancel(&mut self) {}

    fn room(&mut self, _circuit: &Circuit, _order: u32, _lanes: u32) -> Result<(), AllocError>
        ensures always { IsOk result }
    {
        Ok(())
    }

    fn report(
        &mut self,
        _circuit: &Circuit,
        _order: u32,
        _inputs: &[u64],
        _coins: &[u64],
        _outputs: &[u64],
        _lanes: u32,
    ) {}
}
