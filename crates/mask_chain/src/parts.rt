//! A circuit, with all that its evaluations need.

ghost use Rattle.std.specs.Prelude.{◌≡◌, ◌-◌, ◌≤◌, length, IfOk, OnOk};
ghost use Rattle.mask_eval.specs.Watching.{BecomesReadyFor};
ghost use Rattle.mask_trace.specs.Steps.{stretch};
ghost use Rattle.mask_chain.specs.Evaluations.{step};

use crate::evaluations::Evaluation;
use mask_check::Strong;
use mask_eval::{Frame, Watch, coin_room};
use mask_shares::Shares;
use mask_tape::CoinRoom;
use std::alloc::{AllocError, Global};
use std::marker::Model;

/// A circuit for any number of evaluations on N shares, one after another.
#[derive(Drop)]
pub struct Part<const N: usize> {
    pub(crate) circuit: Strong,
    pub(crate) inputs: Vec<Shares<N>>,
    pub(crate) frame: Frame<N>,
}

impl<const N: usize> Model for Part<N> {
    ghost use Rattle.std.specs.Prelude.{◌≡◌, length};
    ghost use Rattle.mask_circuit.specs.Netlist.{Netlist};
    ghost use Rattle.mask_eval.specs.Frames.{IsFrameOf};

    ghost Value = { Netlist };

    ghost view = { λ p. p.circuit };

    ghost invariant = { λ p. IsFrameOf p.frame p.circuit × (length p.inputs.items ≡ p.circuit.inputs) };
}

// All memory of one evaluation: for its coins, and for its outputs where they become the state.
#[derive(Drop)]
pub(crate) struct Room<const N: usize> {
    pub(crate) coins: CoinRoom,
    pub(crate) outputs: Vec<Shares<N>>,
}

impl<const N: usize> Part<N> {
    /// All memory of a circuit, but what an evaluation of it takes anew.
    pub fn new(alloc: Global, circuit: Strong) -> Result<Part<N>, AllocError>
        requires some { 2 ≤ N }
        requires few { N ≤ 8 }
        ensures { IfOk result (λ part. part ≡ circuit) }
    {
        let admitted = circuit.admitted();
        let count = admitted.circuit().inputs() as usize;
        let inputs = vec![in alloc; Shares::public(0); count]?;
        let frame = Frame::new(alloc, admitted)?;
        Ok(Part {
            circuit,
            inputs,
            frame,
        })
    }

    // All memory of this evaluation. The watch is made ready for it.
    pub(crate) fn room<W: Watch>(
        &self,
        alloc: Global,
        own: &Evaluation,
        watch: &mut W,
    ) -> Result<Room<N>, AllocError>
        requires some { 2 ≤ N }
        requires few { N ≤ 8 }
        requires count { length (step self.now own.now).inputs ≡ self.now.inputs }
        ensures coins { IfOk result (λ room. room.coins ≡ record { lanes = 1; bits = stretch N (step self.now own.now) }) }
        ensures outputs { IfOk result (λ room. length room.outputs.items ≡ length self.now.outputs) }
        ensures ready { OnOk result (BecomesReadyFor (W.ready watch.old) (W.ready watch.new) self.now (N - 1) 1) }
        ensures told { W.told watch.new ≡ W.told watch.old }
    {
        let admitted = self.circuit.admitted();
        let circuit = admitted.circuit();
        let order = N as u32 - 1;
        let coins = coin_room(alloc, admitted, order, 1, own.message.len())?;
        let outputs = vec![in alloc; Shares::public(0); circuit.outputs().len()]?;
        watch.room(circuit, order, 1)?;
        Ok(Room { coins, outputs })
    }
}
