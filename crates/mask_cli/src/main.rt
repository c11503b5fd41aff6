//! The program `mask`: it hands the words of its command line, its input and its output to `mask_main`, with the key file
//! and the tape that the words name.
#![tactic(auto)]

ghost use Rattle.std.specs.Prelude.{◌≡◌, ◌<◌};

mod arguments;
mod files;

use arguments::read_words_of;
use files::{open_keys, open_tape};
use mask_circuit::Steps;
use mask_eval::NoWatch;
use mask_io::{StdSink, StdSource};
use mask_run::{Status, mask_main, status_number, status_text};
use mask_words::{BadWords, Words, read_words};
use std::io;
use std::marker::Brand;
use std::process::ExitCode;
use std::rt::Files;
use std::sync::ledger::{Blank, Ledger};

fn main(rt: HostRuntime) -> ExitCode {
    let status = match read_words_of(&rt, rt.alloc()) {
        Ok((words, false)) => run(&rt, &words),
        Ok((words, true)) => too_many(&words),
        Err(_) => Status::NoMemory,
    };
    if status != Status::Done {
        // Where the text can't be printed, the number still tells the status.
        let _ = eprintln!(rt; "{}", status_text(&status).as_str());
    }
    ExitCode::from(status_number(&status))
}

// More words than a command line may have: the first of them is one too many, unless an earlier one is refused.
fn too_many(words: &Words) -> Status {
    match read_words(words) {
        Ok(_) => Status::BadWords { place: 1_000_001 },
        Err(BadWords { place }) => Status::BadWords { place },
    }
}

fn run<R: Input + Print + AllocGlobal + Files>(rt: &R, words: &Words) -> Status {
    // The steps are counted in a ledger that nobody reads.
    counted::<R, Brand>(rt, words, Blank::new(1))
}

fn counted<R: Input + Print + AllocGlobal + Files, L: Ledger>(
    rt: &R,
    words: &Words,
    blank: Blank,
) -> Status
    requires name { blank.name ≡ L.name }
    requires parts { blank.parts ≡ L.parts }
    requires some { 0 < L.parts }
{
    let mut steps = Steps::<L>::new(blank);
    mask_main(
        rt.alloc(),
        words,
        &mut open_keys(rt, words),
        &mut StdSource::new(rt.reader()),
        &mut open_tape(rt, words),
        &mut StdSink::new(io::writer(rt)),
        &mut NoWatch,
        &mut steps,
    )
}
