//! A run in counter mode, between its batches.

ghost use Rattle.std.specs.Prelude.{◌≡◌, ℕ, ◌+◌, ◌-◌, ◌*◌, ◌%◌, ◌^◌, ◌<◌, ◌≤◌, true, false, cond, [], ◌∷◌, length, map, is_err, IfOk, IfErr, OnOk, OnErr};
ghost use Rattle.mask_bits.specs.Lanes.{lane};
ghost use Rattle.mask_io.specs.Outside.{faults_after};
ghost use Rattle.mask_tape.specs.Tape.{failed_to_draw, new_bytes};
ghost use Rattle.mask_tape.specs.declared.tape.TapeError.TheVariants as TapeError;
ghost use Rattle.mask_eval.specs.Watching.{IsReadyFor, StaysReadyBehind, awaited};
ghost use Rattle.mask_eval.specs.Evaluated.{coin_count};
ghost use Rattle.mask_trace.specs.Drawing.{Ran, stand};
ghost use Rattle.mask_modes.specs.CounterMode.{block_count};
ghost use Rattle.mask_modes.specs.Steps.{is_due, refresh_step};
ghost use Rattle.mask_counter.specs.Blocks.{IsBlockLength};
ghost use Rattle.mask_counter.specs.Batches.{BatchRan, BatchStopped, Encrypted, have, mode};

use crate::shares::{put_in_all_lanes, put_public};
use crate::words::{BitOrder, block_words, counter_bytes};
use mask_check::Strong;
use mask_circuit::Steps;
use mask_eval::{Frame, Watch, coin_room, evaluate};
use mask_io::{Entropy, Failed};
use mask_shares::Shares;
use mask_tape::{CoinRoom, Tape, TapeError};
use std::alloc::{AllocError, Global};
use std::marker::Model;
use std::sync::ledger::Ledger;

/// A run in counter mode with a key in N shares.
#[derive(Drop)]
pub struct CounterRun<const N: usize> {
    circuit: Strong,
    refresh: Strong,
    // Bits of a key, and bytes of a block.
    key: usize,
    block: usize,
    order: BitOrder,
    iv: u128,
    // The key, in all lanes, and behind it the counters.
    inputs: Vec<Shares<N>>,
    counters: Vec<u64>,
    blocks: Vec<u64>,
    frame: Frame<N>,
    refresh_frame: Frame<N>,
    done: u64,
}

impl<const N: usize> Model for CounterRun<N> {
    ghost use Rattle.std.specs.Prelude.{map, take};
    ghost use Rattle.mask_bits.specs.Lanes.{lane};
    ghost use Rattle.mask_counter.specs.Batches.{Between, IsInForm};

    ghost Value = { Between };

    ghost view = { λ r. record {
      circuit = r.circuit;
      refresh = r.refresh;
      key = r.key;
      block = r.block;
      order = r.order;
      iv = r.iv;
      shares = map (lane 0) (take r.key r.inputs.items);
      done = r.done;
      outputs = r.frame.outputs;
    } };

    ghost invariant = { λ r. IsInForm N r.circuit r.refresh r.key r.block r.iv r.inputs.items r.counters.items r.blocks.items r.frame r.refresh_frame };
}

impl<const N: usize> CounterRun<N> {
    /// A run of a cipher whose circuit takes a key, a counter and a block, each read in this order, with a circuit that
    /// gives the key fresh shares. The key is that of lane 0.
    pub fn new(
        alloc: Global,
        circuit: Strong,
        refresh: Strong,
        block: usize,
        order: BitOrder,
        iv: u128,
        key: &[Shares<N>],
    ) -> Result<CounterRun<N>, AllocError>
        requires some { 2 ≤ N }
        requires few { N ≤ 8 }
        requires block { IsBlockLength block }
        requires iv { iv < 2 ^ (8 * block) }
        requires takes { circuit.inputs ≡ length key.now + (8 * block + 8 * block) }
        requires gives { length circuit.outputs ≡ 8 * block }
        requires refresh_takes { refresh.inputs ≡ length key.now }
        requires refresh_gives { length refresh.outputs ≡ length key.now }
        ensures { IfOk result (λ run. run ≡ record {
          circuit = circuit;
          refresh = refresh;
          key = length key.now;
          block = block;
          order = order;
          iv = iv;
          shares = map (lane 0) key.now;
          done = 0;
          outputs = run.outputs;
        }) }
    {
        let bits = key.len();
        let mut inputs = vec![in alloc; Shares::from_parts([0; N]); bits + 8 * block]?;
        put_in_all_lanes(key, &mut inputs);
        let counters = vec![in alloc; 0; 8 * block]?;
        let blocks = vec![in alloc; 0; 8 * block]?;
        let frame = Frame::new(alloc, circuit.admitted())?;
        let refresh_frame = Frame::new(alloc, refresh.admitted())?;
        Ok(CounterRun {
            circuit,
            refresh,
            key: bits,
            block,
            order,
            iv,
            inputs,
            counters,
            blocks,
            frame,
            refresh_frame,
            done: 0,
        })
    }

    /// The shares of the bits of the latest blocks, in the order in which blocks are read, a block in each lane.
    pub fn outputs(&self) -> &[Shares<N>]
        ensures value { result.now ≡ self.now.outputs }
        ensures count { length self.now.outputs ≡ 8 * self.now.block }
    {
        self.frame.outputs()
    }

    /// Gives the key fresh shares. It takes no memory.
    pub fn renew<E: Entropy, W: Watch, L: Ledger>(
        &mut self,
        room: CoinRoom,
        tape: &mut Tape,
        entropy: &mut E,
        watch: &mut W,
        steps: &mut Steps<L>,
    ) -> Result<(), Failed>
        requires room { room ≡ record { lanes = 1; bits = coin_count self.old.refresh N 0 } }
        requires ready { IsReadyFor (W.ready watch.old) self.old.refresh (N - 1) 1 }
        requires kept { length tape.old < 8 }
        ensures ran { OnOk result (Ran N (have self.old) (refresh_step (mode self.old) ∷ []) (have self.new)
            (stand tape.old (E.left entropy.old) (W.told watch.old)) (stand tape.new (E.left entropy.new) (W.told watch.new))) }
        ensures rest { self.new ≡ record self.old { shares = self.new.shares } }
        ensures wants { OnOk result (E.wanted entropy.new ≡ E.wanted entropy.old) }
        ensures ready { OnOk result (StaysReadyBehind (W.ready watch.old) (W.ready watch.new) self.old.refresh (N - 1) 1) }
        ensures steps { OnOk result (steps.new ≡ steps.old + length self.old.refresh.gates) }

        // Where the entropy fails, all else is as before.
        ensures same { OnErr result (self.new ≡ self.old) }
        ensures tape { OnErr result (tape.new ≡ tape.old) }
        ensures left { OnErr result (E.left entropy.new ≡ E.left entropy.old) }
        ensures watch { OnErr result (watch.new ≡ watch.old) }
        ensures uncounted { OnErr result (steps.new ≡ steps.old) }
        ensures failed { OnErr result ((E.wanted entropy.new ≡ new_bytes tape.old (coin_count self.old.refresh N 0)) × (1 ≤ E.wanted entropy.new)) }
        ensures counts { E.faults entropy.new ≡ faults_after (is_err result) (E.faults entropy.old) }
    {
        match evaluate(
            self.refresh.admitted(),
            1,
            &self.inputs[..self.key],
            &[],
            &[],
            &mut self.refresh_frame,
            room,
            tape,
            entropy,
            watch,
            steps,
        ) {
            Ok(()) => {}
            Err(failed) => return Err(failed),
        }
        put_in_all_lanes(self.refresh_frame.outputs(), &mut self.inputs);
        Ok(())
    }

    /// Encrypts up to 64 blocks, the last of which may be short, side by side. It takes no memory.
    pub fn encrypt<E: Entropy, W: Watch, L: Ledger>(
        &mut self,
        piece: &[u8],
        room: CoinRoom,
        tape: &mut Tape,
        entropy: &mut E,
        watch: &mut W,
        steps: &mut Steps<L>,
    ) -> Result<(), Failed>
        requires some { 1 ≤ length piece.now }
        requires few { length piece.now ≤ 64 * self.old.block }
        requires done { self.old.done ≤ 2 ^ 28 }
        requires room { room ≡ record { lanes = block_count self.old.block (length piece.now); bits = coin_count self.old.circuit N (8 * self.old.block) } }
        requires ready { IsReadyFor (W.ready watch.old) self.old.circuit (N - 1) (block_count self.old.block (length piece.now)) }
        requires kept { length tape.old < 8 }
        ensures encrypted { OnOk result (Encrypted N (mode self.old) (have self.old) self.old.done piece.now self.new.outputs
            (stand tape.old (E.left entropy.old) (W.told watch.old)) (stand tape.new (E.left entropy.new) (W.told watch.new))) }
        ensures done { OnOk result (self.new ≡ record self.old { done = self.old.done + block_count self.old.block (length piece.now); outputs = self.new.outputs }) }
        ensures wants { OnOk result (E.wanted entropy.new ≡ E.wanted entropy.old) }
        ensures ready { OnOk result (StaysReadyBehind (W.ready watch.old) (W.ready watch.new) self.old.circuit (N - 1) (block_count self.old.block (length piece.now))) }
        ensures steps { OnOk result (steps.new ≡ steps.old + length self.old.circuit.gates) }

        // Where the entropy fails, all else is as before.
        ensures same { OnErr result (self.new ≡ self.old) }
        ensures tape { OnErr result (tape.new ≡ tape.old) }
        ensures left { OnErr result (E.left entropy.new ≡ E.left entropy.old) }
        ensures watch { OnErr result (watch.new ≡ watch.old) }
        ensures uncounted { OnErr result (steps.new ≡ steps.old) }
        ensures failed { OnErr result ((E.wanted entropy.new ≡ new_bytes tape.old (block_count self.old.block (length piece.now) * coin_count self.old.circuit N (8 * self.old.block)))
            × (1 ≤ E.wanted entropy.new)) }
        ensures counts { E.faults entropy.new ≡ faults_after (is_err result) (E.faults entropy.old) }
    {
        let lanes = (piece.len() + (self.block - 1)) / self.block;
        block_words(
            &counter_bytes(self.block, self.iv, self.done),
            self.block,
            self.order,
            &mut self.counters,
        );
        block_words(piece, self.block, self.order, &mut self.blocks);
        put_public(&self.counters, self.key, &mut self.inputs);
        match evaluate(
            self.circuit.admitted(),
            lanes as u32,
            &self.inputs,
            &self.blocks,
            &[],
            &mut self.frame,
            room,
            tape,
            entropy,
            watch,
            steps,
        ) {
            Ok(()) => {}
            Err(failed) => return Err(failed),
        }
        self.done += lanes as u64;
        Ok(())
    }

    /// Encrypts a batch: up to 64 blocks, the last of which may be short, behind none or 64, 128, .. others. Ahead of all but
    /// the first batch the key gets fresh shares. All memory is taken before the tape is asked.
    pub fn batch<E: Entropy, W: Watch, L: Ledger>(
        &mut self,
        alloc: Global,
        piece: &[u8],
        tape: &mut Tape,
        entropy: &mut E,
        watch: &mut W,
        steps: &mut Steps<L>,
    ) -> Result<(), TapeError>
        requires some { 1 ≤ length piece.now }
        requires few { length piece.now ≤ 64 * self.old.block }
        requires done { self.old.done ≤ 2 ^ 28 }
        requires whole { self.old.done % 64 ≡ 0 }
        requires kept { length tape.old < 8 }
        ensures ran { OnOk result (BatchRan N self.old self.new piece.now
            (stand tape.old (E.left entropy.old) (W.told watch.old)) (stand tape.new (E.left entropy.new) (W.told watch.new))) }
        ensures done { OnOk result (self.new ≡ record self.old {
          shares = self.new.shares;
          done = self.old.done + block_count self.old.block (length piece.now);
          outputs = self.new.outputs;
        }) }
        ensures wants { OnOk result (E.wanted entropy.new ≡ E.wanted entropy.old) }
        ensures steps { OnOk result (steps.new ≡ steps.old
            + (cond (is_due self.old.done) (length self.old.refresh.gates) 0 + length self.old.circuit.gates)) }

        // Where the entropy fails, all that is left of the batch is a refresh, if one was due.
        ensures stopped { IfErr result (λ e. e ≡ TapeError.Failed → BatchStopped N self.old piece.now (E.wanted entropy.new) steps.old steps.new
            (stand tape.old (E.left entropy.old) (W.told watch.old)) (stand tape.new (E.left entropy.new) (W.told watch.new))) }
        ensures rest { OnErr result (self.new ≡ record self.old { shares = self.new.shares }) }
        ensures no_memory { IfErr result (λ e. e ≡ TapeError.NoMemory → (self.new ≡ self.old) × (tape.new ≡ tape.old)
            × (entropy.new ≡ entropy.old) × (W.told watch.new ≡ W.told watch.old) × (steps.new ≡ steps.old)) }
        ensures counts { E.faults entropy.new ≡ faults_after (failed_to_draw result) (E.faults entropy.old) }
    {
        if refresh_is_due(self.done) {
            self.renewed_batch(alloc, piece, tape, entropy, watch, steps)
        } else {
            self.plain_batch(alloc, piece, tape, entropy, watch, steps)
        }
    }

    // A batch with nothing ahead of it.
    fn plain_batch<E: Entropy, W: Watch, L: Ledger>(
        &mut self,
        alloc: Global,
        piece: &[u8],
        tape: &mut Tape,
        entropy: &mut E,
        watch: &mut W,
        steps: &mut Steps<L>,
    ) -> Result<(), TapeError>
        requires some { 1 ≤ length piece.now }
        requires few { length piece.now ≤ 64 * self.old.block }
        requires done { self.old.done ≤ 2 ^ 28 }
        requires whole { self.old.done % 64 ≡ 0 }
        requires due { is_due self.old.done ≡ false }
        requires kept { length tape.old < 8 }
        ensures ran { OnOk result (BatchRan N self.old self.new piece.now
            (stand tape.old (E.left entropy.old) (W.told watch.old)) (stand tape.new (E.left entropy.new) (W.told watch.new))) }
        ensures done { OnOk result (self.new ≡ record self.old {
          done = self.old.done + block_count self.old.block (length piece.now);
          outputs = self.new.outputs;
        }) }
        ensures wants { OnOk result (E.wanted entropy.new ≡ E.wanted entropy.old) }
        ensures steps { OnOk result (steps.new ≡ steps.old + length self.old.circuit.gates) }
        ensures stopped { IfErr result (λ e. e ≡ TapeError.Failed → BatchStopped N self.old piece.now (E.wanted entropy.new) steps.old steps.new
            (stand tape.old (E.left entropy.old) (W.told watch.old)) (stand tape.new (E.left entropy.new) (W.told watch.new))) }
        ensures same { OnErr result (self.new ≡ self.old) }
        ensures no_memory { IfErr result (λ e. e ≡ TapeError.NoMemory → (self.new ≡ self.old) × (tape.new ≡ tape.old)
            × (entropy.new ≡ entropy.old) × (W.told watch.new ≡ W.told watch.old) × (steps.new ≡ steps.old)) }
        ensures counts { E.faults entropy.new ≡ faults_after (failed_to_draw result) (E.faults entropy.old) }
    {
        let lanes = ((piece.len() + (self.block - 1)) / self.block) as u32;
        let order = N as u32 - 1;
        let circuit = self.circuit.admitted();
        let room = coin_room(alloc, circuit, order, lanes, 8 * self.block)?;
        watch.cancel();
        watch.room(circuit.circuit(), order, lanes)?;
        match self.encrypt(piece, room, tape, entropy, watch, steps) {
            Ok(()) => Ok(()),
            Err(_failed) => Err(TapeError::Failed),
        }
    }

    // A batch with a refresh ahead of it.
    fn renewed_batch<E: Entropy, W: Watch, L: Ledger>(
        &mut self,
        alloc: Global,
        piece: &[u8],
        tape: &mut Tape,
        entropy: &mut E,
        watch: &mut W,
        steps: &mut Steps<L>,
    ) -> Result<(), TapeError>
        requires some { 1 ≤ length piece.now }
        requires few { length piece.now ≤ 64 * self.old.block }
        requires done { self.old.done ≤ 2 ^ 28 }
        requires whole { self.old.done % 64 ≡ 0 }
        requires due { is_due self.old.done ≡ true }
        requires kept { length tape.old < 8 }
        ensures ran { OnOk result (BatchRan N self.old self.new piece.now
            (stand tape.old (E.left entropy.old) (W.told watch.old)) (stand tape.new (E.left entropy.new) (W.told watch.new))) }
        ensures done { OnOk result (self.new ≡ record self.old {
          shares = self.new.shares;
          done = self.old.done + block_count self.old.block (length piece.now);
          outputs = self.new.outputs;
        }) }
        ensures wants { OnOk result (E.wanted entropy.new ≡ E.wanted entropy.old) }
        ensures steps { OnOk result (steps.new ≡ steps.old + (length self.old.refresh.gates + length self.old.circuit.gates)) }
        ensures stopped { IfErr result (λ e. e ≡ TapeError.Failed → BatchStopped N self.old piece.now (E.wanted entropy.new) steps.old steps.new
            (stand tape.old (E.left entropy.old) (W.told watch.old)) (stand tape.new (E.left entropy.new) (W.told watch.new))) }
        ensures rest { OnErr result (self.new ≡ record self.old { shares = self.new.shares }) }
        ensures no_memory { IfErr result (λ e. e ≡ TapeError.NoMemory → (self.new ≡ self.old) × (tape.new ≡ tape.old)
            × (entropy.new ≡ entropy.old) × (W.told watch.new ≡ W.told watch.old) × (steps.new ≡ steps.old)) }
        ensures counts { E.faults entropy.new ≡ faults_after (failed_to_draw result) (E.faults entropy.old) }
    {
        let lanes = ((piece.len() + (self.block - 1)) / self.block) as u32;
        let Rooms { refresh, blocks } = self.rooms(alloc, lanes, watch)?;
        match self.renew(refresh, tape, entropy, watch, steps) {
            Ok(()) => {}
            Err(_failed) => return Err(TapeError::Failed),
        }
        match self.encrypt(piece, blocks, tape, entropy, watch, steps) {
            Ok(()) => Ok(()),
            Err(_failed) => Err(TapeError::Failed),
        }
    }

    // All memory of a refresh and of so many blocks behind it. The watch is made ready for both.
    fn rooms<W: Watch>(&self, alloc: Global, lanes: u32, watch: &mut W) -> Result<Rooms, AllocError>
        requires some { 1 ≤ lanes }
        requires few { lanes ≤ 64 }
        ensures refresh { IfOk result (λ rooms. rooms.refresh ≡ record { lanes = 1; bits = coin_count self.now.refresh N 0 }) }
        ensures blocks { IfOk result (λ rooms. rooms.blocks ≡ record { lanes = lanes; bits = coin_count self.now.circuit N (8 * self.now.block) }) }
        ensures ready { OnOk result (W.ready watch.new (awaited self.now.refresh (N - 1) 1 ∷ awaited self.now.circuit (N - 1) lanes ∷ [])) }
        ensures told { W.told watch.new ≡ W.told watch.old }
    {
        let renewing = self.refresh.admitted();
        let circuit = self.circuit.admitted();
        let order = N as u32 - 1;
        let refresh = coin_room(alloc, renewing, order, 1, 0)?;
        let blocks = coin_room(alloc, circuit, order, lanes, 8 * self.block)?;
        watch.cancel();
        watch.room(renewing.circuit(), order, 1)?;
        watch.room(circuit.circuit(), order, lanes)?;
        Ok(Rooms { refresh, blocks })
    }
}

// Room for the coins of a refresh, and of the blocks behind it.
#[derive(Drop)]
struct Rooms {
    refresh: CoinRoom,
    blocks: CoinRoom,
}

// Whether the key gets fresh shares ahead of this block.
fn refresh_is_due(block: u64) -> bool
    ensures { result ≡ is_due block }
{
    block % 64 == 0 && block != 0
}
