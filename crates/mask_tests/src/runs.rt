//! Runs of the top call over objects in memory.

ghost use Rattle.std.specs.Prelude.{◌≡◌, ◌<◌};

use mask_circuit::Steps;
use mask_eval::ListWatch;
use mask_io::{ClosedSource, Entropy, MemSink, Source};
use mask_run::{Status, mask_main};
use mask_words::Words;
use std::alloc::{AllocError, Global};
use std::marker::Brand;
use std::sync::ledger::{Blank, Ledger};

/// The example circuit: the sum of two inputs, refreshed, times the first of them.
pub const EXAMPLE: &str = "masked-circuit 1\ninputs 2\nxor 0 1\nref 2\nand 0 3\nout 4\nend\n";

/// The name of a tape; the tape itself is handed in.
pub const SEED: &str = "seed:0000000000000000000000000000000000000000000000000000000000000000";

/// How a run ended, what it wrote, and what the watch was told.
#[derive(Drop)]
pub struct Outcome {
    pub status: Status,
    pub written: Vec<u8>,
    pub watch: ListWatch,
}

/// Runs the command with these words on an input and a tape, and room for so many bytes of output. No key file can be read.
pub fn run<S: Source, E: Entropy>(
    alloc: Global,
    words: &[&str],
    input: &mut S,
    tape: &mut E,
    room: usize,
) -> Result<Outcome, AllocError> {
    let mut out = MemSink::new(alloc, room, 16, Vec::new(alloc))?;
    run_on(
        alloc,
        words,
        &mut ClosedSource::new(),
        input,
        tape,
        &mut out,
    )
}

/// Runs the command with these words on a key file, an input, a tape and an output.
pub fn run_on<K: Source, S: Source, E: Entropy>(
    alloc: Global,
    words: &[&str],
    keys: &mut K,
    input: &mut S,
    tape: &mut E,
    out: &mut MemSink,
) -> Result<Outcome, AllocError> {
    let words = words_of(alloc, words)?;
    run_words::<K, S, E, Brand>(alloc, &words, keys, input, tape, out, Blank::new(1))
}

fn run_words<K: Source, S: Source, E: Entropy, L: Ledger>(
    alloc: Global,
    words: &Words,
    keys: &mut K,
    input: &mut S,
    tape: &mut E,
    out: &mut MemSink,
    blank: Blank,
) -> Result<Outcome, AllocError>
    requires name { blank.name ≡ L.name }
    requires parts { blank.parts ≡ L.parts }
    requires some { 0 < L.parts }
{
    let mut watch = ListWatch::new(alloc);
    let mut steps = Steps::<L>::new(blank);
    let status = mask_main(alloc, words, keys, input, tape, out, &mut watch, &mut steps);
    Ok(Outcome {
        status,
        written: Vec::from_slice(alloc, out.bytes())?,
        watch,
    })
}

fn words_of(alloc: Global, list: &[&str]) -> Result<Words, AllocError> {
    let mut words = Words::new(alloc);
    for word in list {
        if words.len() < 1_000_000 {
            words.push(word)?;
        }
    }
    Ok(words)
}
