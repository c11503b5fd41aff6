//! `self`: a run that makes its own key lines, IV and message.

use crate::runs::{Outcome, SEED, run_on};
use mask_io::{ClosedSource, MemEntropy, MemSink};
use mask_run::{Status, status_number};
use std::alloc::{AllocError, Global};
use std::test::Fail;

// 256 blocks and three refreshes of the key, at order 1.
const LINE: &str = "self bytes 4096 calls 259 bits 2732416 xor 4df0e77ce6a795a6f86ab603e16b685f\n";

// `self 1 4096 1` over a tape of so many bytes, each the same, and room for so many bytes of output. Neither key file nor input
// can be read.
fn run_self(alloc: Global, byte: u8, tape: usize, room: usize) -> Result<Outcome, AllocError> {
    let mut tape = MemEntropy::new(vec![in alloc; byte; tape]?, Vec::new(alloc));
    let mut out = MemSink::new(alloc, room, 16, Vec::new(alloc))?;
    run_on(
        alloc,
        &["-", SEED, "self", "1", "4096", "1"],
        &mut ClosedSource::new(),
        &mut ClosedSource::new(),
        &mut tape,
        &mut out,
    )
}

#[test]
fn reports_the_same_for_every_tape(rt: HostRuntime) -> Result<(), Fail> {
    for byte in [0x00, 0x5a] {
        let outcome = run_self(rt.alloc(), byte, 341_552, 100)?;
        assert_eq!(rt; outcome.status, Status::Done);
        assert_eq!(rt; outcome.written.as_slice(), LINE.as_bytes());
        assert_eq!(rt; outcome.watch.len(), 259);
    }
    Ok(())
}

// A tape that is a byte short, and an output that has no room.
#[test]
fn tells_faults_of_tape_and_output(rt: HostRuntime) -> Result<(), Fail> {
    for (tape, room, number, written, calls) in [
        (341_551, 100, 8, "", 195),
        (341_552, 10, 9, "self bytes", 259),
    ] {
        let outcome = run_self(rt.alloc(), 0x5a, tape, room)?;
        assert_eq!(rt; status_number(&outcome.status), number);
        assert_eq!(rt; outcome.written.as_slice(), written.as_bytes());
        assert_eq!(rt; outcome.watch.len(), calls);
    }
    Ok(())
}
