//! `split` and `join`, and faults of key files.

use crate::runs::{Outcome, SEED, run_on};
use mask_io::{ClosedEntropy, ClosedSource, MemEntropy, MemSink, MemSource};
use mask_run::{KeyReason, Status, status_number};
use std::alloc::{AllocError, Global};
use std::test::Fail;

// A run of these words on a key file; the input can't be read, and the tape has two bytes.
fn on_keys(alloc: Global, words: &[&str], keys: &str) -> Result<Outcome, AllocError> {
    let mut keys = MemSource::new(Vec::from_slice(alloc, keys.as_bytes())?, 7, Vec::new(alloc));
    let mut tape = MemEntropy::new(vec![in alloc; 0xa5, 0x3c]?, Vec::new(alloc));
    let mut out = MemSink::new(alloc, 200, 16, Vec::new(alloc))?;
    run_on(
        alloc,
        words,
        &mut keys,
        &mut ClosedSource::new(),
        &mut tape,
        &mut out,
    )
}

#[test]
fn splits_and_joins(rt: HostRuntime) -> Result<(), Fail> {
    for (command, keys, written) in [
        ("split", "00ff\n", "a5c3\na53c\n"),
        ("join", "a5c3\na53c\n", "00ff\n"),
        ("join", "00FF\n0000", "00ff\n"),
    ] {
        let outcome = on_keys(rt.alloc(), &["-", SEED, command, "1"], keys)?;
        assert_eq!(rt; outcome.status, Status::Done, "{command}");
        assert_eq!(rt; outcome.written.as_slice(), written.as_bytes(), "{command}");
    }
    Ok(())
}

// What is wrong with a key file decides, and nothing is written.
#[test]
fn says_what_is_wrong_with_keys(rt: HostRuntime) -> Result<(), Fail> {
    for (command, keys, reason) in [
        ("split", "0g\n", KeyReason::Line { line: 1 }),
        ("split", "00\nff\n", KeyReason::Count { found: 2 }),
        ("join", "00ff\n00\n", KeyReason::Line { line: 2 }),
        ("join", "00ff\n", KeyReason::Count { found: 1 }),
    ] {
        let outcome = on_keys(rt.alloc(), &["-", SEED, command, "1"], keys)?;
        assert_eq!(rt; outcome.status, Status::BadKeys(reason), "{command}");
        assert!(rt; outcome.written.is_empty());
    }
    Ok(())
}

// A key file that can't be read, and a tape that gives nothing.
#[test]
fn tells_faults_of_keys_and_tape(rt: HostRuntime) -> Result<(), Fail> {
    for (words, number) in [
        (["-", SEED, "split", "1"], 8),
        (["-", SEED, "join", "1"], 3),
    ] {
        let text = Vec::from_slice(rt.alloc(), b"00ff\n")?;
        let mut keys = MemSource::new(text, 7, Vec::new(rt.alloc()));
        let mut input = ClosedSource::new();
        let mut tape = ClosedEntropy::new();
        let mut out = MemSink::new(rt.alloc(), 200, 16, Vec::new(rt.alloc()))?;
        let undrawn = run_on(
            rt.alloc(),
            &words,
            &mut keys,
            &mut input,
            &mut tape,
            &mut out,
        )?;
        assert_eq!(rt; status_number(&undrawn.status), number);
        assert!(rt; undrawn.written.is_empty());
        let mut closed = ClosedSource::new();
        let unread = run_on(
            rt.alloc(),
            &words,
            &mut closed,
            &mut input,
            &mut tape,
            &mut out,
        )?;
        assert_eq!(rt; unread.status, Status::KeyFault);
        assert!(rt; unread.written.is_empty());
    }
    Ok(())
}
