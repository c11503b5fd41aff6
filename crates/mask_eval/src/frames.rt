//! The shares of all values of a circuit.

ghost use Rattle.std.specs.Prelude.{◌≡◌, ◌+◌, ◌*◌, ◌<◌, ◌≤◌, length, replicate, slice_set, IfOk};
ghost use Rattle.mask_circuit.specs.Netlist.{Netlist, value_count};
ghost use Rattle.mask_eval.specs.Frames.{Held, IsFrameOf};

use mask_check::Admitted;
use mask_shares::Shares;
use std::alloc::{AllocError, Global};
use std::marker::Model;

/// Room for one circuit: N shares for each value, its outputs, and the words that a watch is handed.
///
/// It is set up once and serves any number of evaluations.
#[derive(Drop)]
pub struct Frame<const N: usize> {
    pub(crate) inputs: usize,
    pub(crate) values: Vec<[u64; N]>,
    pub(crate) outputs: Vec<Shares<N>>,
    pub(crate) input_words: Vec<u64>,
    pub(crate) output_words: Vec<u64>,
}

impl<const N: usize> Model for Frame<N> {
    ghost use Rattle.std.specs.Prelude.{◌≡◌, ◌*◌, ◌≤◌, length};
    ghost use Rattle.mask_eval.specs.Frames.{Held};

    ghost Value = { Held };

    ghost view = { λ f. record { inputs = f.inputs; values = f.values.items; outputs = f.outputs.items } };

    ghost invariant = { λ f. (f.inputs ≤ length f.values.items)
        × (length f.input_words.items ≡ N * f.inputs)
        × (length f.output_words.items ≡ N * length f.outputs.items) };
}

impl<const N: usize> Frame<N> {
    /// Room for this circuit, with all shares zero.
    pub fn new(alloc: Global, circuit: &Admitted) -> Result<Frame<N>, AllocError>
        requires some { 2 ≤ N }
        requires few { N ≤ 8 }
        ensures fits { IfOk result (λ f. IsFrameOf f circuit.now) }
        ensures values { IfOk result (λ f. f.values ≡ replicate (value_count circuit.now) (replicate N 0)) }
        ensures outputs { IfOk result (λ f. f.outputs ≡ replicate (length circuit.now.outputs) (replicate N 0)) }
    {
        let circuit = circuit.circuit();
        let inputs = circuit.inputs() as usize;
        let count = circuit.outputs().len();
        let values = vec![in alloc; [0; N]; circuit.values() as usize]?;
        let outputs = vec![in alloc; Shares::from_parts([0; N]); count]?;
        let input_words = vec![in alloc; 0; N * inputs]?;
        let output_words = vec![in alloc; 0; N * count]?;
        Ok(Frame {
            inputs,
            values,
            outputs,
            input_words,
            output_words,
        })
    }

    /// Gives an input these shares.
    pub fn set(&mut self, input: u32, value: Shares<N>)
        requires few { N ≤ 8 }
        requires input { input < self.old.inputs }
        ensures value { self.new ≡ record self.old { values = slice_set self.old.values input value.entry } }
        ensures fits { (c : Netlist) → IsFrameOf self.old c → IsFrameOf self.new c }
    {
        self.values[input as usize] = value.parts();
    }

    /// The shares of the outputs in order, as the latest evaluation left them.
    pub fn outputs(&self) -> &[Shares<N>]
        ensures { result.now ≡ self.now.outputs }
    {
        &self.outputs
    }
}
