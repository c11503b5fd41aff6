//! The evaluation of a circuit on shares of plain bits, in one lane.

ghost use Rattle.std.specs.Prelude.{◌≡◌, ◌+◌, ◌≤◌, length, map, IfOk, IfErr, OnOk, OnErr};
ghost use Rattle.mask_io.specs.Outside.{faults_after};
ghost use Rattle.mask_bits.specs.Reading.{bytes_for};
ghost use Rattle.mask_circuit.specs.Value.{plain};
ghost use Rattle.mask_tape.specs.Tape.{failed_to_draw};
ghost use Rattle.mask_tape.specs.declared.tape.TapeError.TheVariants.{Failed, NoMemory};
ghost use Rattle.mask_run.specs.Calls.{eval_bits, Evaluates, TellsSecureCalls};
ghost use Rattle.mask_run.specs.Hexadecimal.{IsReport};
ghost use Rattle.mask_run.specs.Lanes.{words_of, first_bit};

use crate::hexadecimal::Report;
use mask_bits::Bits;
use mask_check::Admitted;
use mask_circuit::Steps;
use mask_eval::{Frame, Watch, coin_room};
use mask_io::Entropy;
use mask_shares::Shares;
use mask_tape::{Tape, TapeError};
use std::alloc::{AllocError, Global};
use std::sync::ledger::Ledger;

/// A circuit that is accepted, and a bit for each of its inputs.
#[derive(Drop)]
pub struct Prepared {
    pub circuit: Admitted,
    pub inputs: Bits,
    ghost just_enough: { length inputs ≡ circuit.inputs },
}

/// The report on the output bits of the circuit, evaluated at this order on N shares of each value.
///
/// The inputs are shared with the first bits of the tape. All memory is taken before the tape is asked, that of the report
/// too, so that coins are never drawn in vain. Only the shares of the outputs are unmasked.
pub(crate) fn evaluate<const N: usize, E: Entropy, W: Watch, L: Ledger>(
    alloc: Global,
    order: u32,
    prepared: &Prepared,
    tape: &mut E,
    watch: &mut W,
    steps: &mut Steps<L>,
) -> Result<Vec<u8>, TapeError>
    requires some { 2 ≤ N }
    requires few { N ≤ 8 }
    requires order { order + 1 ≡ N }
    ensures report { IfOk result (λ line. IsReport (plain prepared.now.circuit prepared.now.inputs) line.items) }
    ensures evaluates { OnOk result (Evaluates prepared.now.circuit order prepared.now.inputs
        (E.left tape.old) (E.left tape.new) (W.told watch.old) (W.told watch.new)) }
    ensures secure { TellsSecureCalls (W.told watch.old) (W.told watch.new) }

    // Nothing was drawn or told, where there is no answer.
    ensures left { OnErr result (E.left tape.new ≡ E.left tape.old) }
    ensures told { OnErr result (W.told watch.new ≡ W.told watch.old) }
    ensures failed { IfErr result (λ e. e ≡ Failed → (E.wanted tape.new ≡ bytes_for (eval_bits prepared.now.circuit order))
        × (1 ≤ E.wanted tape.new)) }
    ensures counts { E.faults tape.new ≡ faults_after (failed_to_draw result) (E.faults tape.old) }
    ensures no_memory { IfErr result (λ e. e ≡ NoMemory → tape.new ≡ tape.old) }
    ensures idle { eval_bits prepared.now.circuit order ≡ 0 → tape.new ≡ tape.old }
    ensures steps { steps.new ≤ steps.old + length prepared.now.circuit.gates }
{
    let circuit = prepared.circuit.circuit();
    let output_count = circuit.outputs().len();
    let mut frame = Frame::<N>::new(alloc, &prepared.circuit)?;
    let mut outputs = Bits::zeros(alloc, output_count)?;
    let report = Report::new(alloc, output_count)?;
    let words = lane_words(alloc, &prepared.inputs)?;
    let room = coin_room(alloc, &prepared.circuit, order, 1, words.len())?;
    watch.cancel();
    watch.room(circuit, order, 1)?;
    let mut bits = Tape::new();
    match mask_eval::evaluate(
        &prepared.circuit,
        1,
        &[],
        &words,
        &[],
        &mut frame,
        room,
        &mut bits,
        tape,
        watch,
        steps,
    ) {
        Ok(()) => {}
        Err(_failed) => return Err(TapeError::Failed),
    }
    unmask_outputs(frame.outputs(), &mut outputs);
    Ok(report.print(&outputs))
}

// Words that have these bits in lane 0.
fn lane_words(alloc: Global, bits: &Bits) -> Result<Vec<u64>, AllocError>
    ensures { IfOk result (λ words. words.items ≡ words_of bits.now) }
{
    let mut words = vec![in alloc; 0; bits.len()]?;
    for k in 0..bits.len() {
        words[k] = u64::from(bits.get(k));
    }
    Ok(words)
}

// The bits that these shares stand for in lane 0.
fn unmask_outputs<const N: usize>(shares: &[Shares<N>], outputs: &mut Bits)
    requires few { N ≤ 8 }
    requires room { length outputs.old ≡ length shares.now }
    ensures { outputs.new ≡ map first_bit shares.now }
{
    for (k, shared) in shares.iter().enumerate() {
        outputs.set(k, shared.unmask() & 1 == 1);
    }
}
