//! The commands on a circuit of 100,000 gates, with 1,000 inputs and 2,000 outputs, where there is memory enough: none may
//! give up because a text, a report, a tape or a list of words is long.

ghost use Rattle.std.specs.Prelude.{◌≡◌, ◌≤◌, length};

use crate::runs::{Outcome, SEED, run};
use itoa::Buffer;
use mask_io::{MemEntropy, MemSource};
use mask_run::Status;
use std::alloc::{AllocError, Global};
use std::test::Fail;

const HEAD: &[u8] =
    b"masked-circuit 1\n# A comment of more than eighty bytes, as a text of this size may well have in it ..\ninputs 1000\n";

// 96,000 complements, each of the value before it; then 2,000 times a refresh of input 1 and its product with input 0. The
// products are the outputs.
fn large(alloc: Global) -> Result<Vec<u8>, AllocError> {
    let mut text = Vec::from_slice(alloc, HEAD)?;
    for value in 999..96_999u32 {
        add_line(b"not ", value, &mut text)?;
    }
    for k in 0..2_000u32 {
        text.extend_from_slice(b"ref 1\n")?;
        add_line(b"and 0 ", 97_000 + 2 * k, &mut text)?;
    }
    for k in 0..2_000u32 {
        add_line(b"out ", 97_001 + 2 * k, &mut text)?;
    }
    text.extend_from_slice(b"end\n")?;
    Ok(text)
}

// Appends a line of words and a number.
fn add_line(words: &[u8], number: u32, text: &mut Vec<u8>) -> Result<(), AllocError> {
    text.extend_from_slice(words)?;
    text.extend_from_slice(Buffer::new().format(number).as_bytes())?;
    text.push(b'\n')?;
    Ok(())
}

// One run of these words on the large circuit, with a tape that is long enough.
fn command(alloc: Global, words: &[&str]) -> Result<Outcome, AllocError> {
    let mut input = MemSource::new(large(alloc)?, 4_096, Vec::new(alloc));
    let mut tape = MemEntropy::new(vec![in alloc; 0x5au8; 625]?, Vec::new(alloc));
    run(alloc, words, &mut input, &mut tape, 4_000_000)
}

#[test]
fn evaluates_a_large_circuit(rt: HostRuntime) -> Result<(), Fail> {
    let mut hex = String::from_str(rt.alloc(), "03")?;
    for _ in 0..124 {
        hex.push_str("00")?;
    }
    let outcome = command(rt.alloc(), &["-", SEED, "eval", "1", hex.as_str()])?;
    let mut ones = vec![in rt.alloc(); b'f'; 500]?;
    ones.push(b'\n')?;
    assert_eq!(rt; outcome.status, Status::Done);
    assert_eq!(rt; outcome.written.as_slice(), ones.as_slice());
    Ok(())
}

#[test]
fn checks_a_large_circuit(rt: HostRuntime) -> Result<(), Fail> {
    let outcome = command(rt.alloc(), &["-", SEED, "check"])?;
    assert_eq!(rt; outcome.status, Status::Done);
    assert_eq!(rt;
        outcome.written.as_slice(),
        b"accepted values=101000 and=2000 ref=2000 strong=no\n".as_slice()
    );
    Ok(())
}

#[test]
fn upgrades_a_large_circuit(rt: HostRuntime) -> Result<(), Fail> {
    let outcome = command(rt.alloc(), &["-", SEED, "upgrade"])?;
    assert_eq!(rt; outcome.status, Status::Done);
    assert!(rt;
        outcome
            .written
            .starts_with(b"masked-circuit 2\ninput x 1000\nnot 999\n")
    );
    assert!(rt; outcome.written.ends_with(b"out 100999\nend\n"));
    assert_eq!(rt; outcome.written.len(), 1_008_046);
    Ok(())
}

// At order 7 the shares of the inputs are the first 8,000 wires.
#[test]
fn probes_a_large_circuit(rt: HostRuntime) -> Result<(), Fail> {
    let words = [
        "-", SEED, "probe", "7", "0", "1", "2", "3", "4", "5", "7999",
    ];
    let outcome = command(rt.alloc(), &words)?;
    assert_eq!(rt; outcome.status, Status::Done);
    assert!(rt;
        outcome
            .written
            .starts_with(b"input 0: 0 1 2 3 4 5\ninput 1: none\n")
    );
    assert!(rt;
        outcome
            .written
            .ends_with(b"input 998: none\ninput 999: 7\n")
    );
    Ok(())
}
